// An input, line by line.
ghost use Rattle.std.specs.Prelude.{ℕ, List, Option, MatchOption, MatchResult};
ghost use Rattle.seen_text.specs.Format.{Lines, TwoLines};
ghost use Rattle.std.specs.Option.{option_map};
ghost use Rattle.seen_text.specs.Inputs.{ReadsInput};

use crate::class_line::{ClassLine, read_class_line};
use crate::format_fault::{FormatFault, InputFault};
use crate::levels_line::read_levels;
use std::alloc::Global;

// The lines of an input, the third of which may be left out.
#[derive(Clone, Copy)]
pub(crate) struct InputLines<'a> {
    pub text: &'a [u8],
    pub levels: &'a [u8],
    pub classes: Option<&'a [u8]>,
}

// The lines of an input: two, or three. The line feed behind the last may be left out, unless this line is empty.
fn split_lines(bytes: &[u8]) -> Result<InputLines<'_>, FormatFault>
    ensures { MatchResult result (λ lines. Lines bytes.now lines.text.now lines.levels.now (option_map (λ x. x.now) lines.classes)) (λ _. (first second : List ℕ) (third : Option (List ℕ)) → Lines bytes.now first second third → ⊥) }
{
    let body = bytes.strip_suffix(b"\n").unwrap_or(bytes);
    let mut lines = body.split(|b| *b == b'\n');
    let text = lines.next().unwrap_or(body);
    let Some(levels) = lines.next() else {
        let line = if bytes.is_empty() { 1 } else { 2 };
        return Err(FormatFault::MissingLine { line });
    };
    let classes = lines.next();
    if lines.next().is_some() {
        return Err(FormatFault::ExtraLine { line: 4 });
    }
    Ok(InputLines {
        text,
        levels,
        classes,
    })
}

/// What an input says: a text, levels for its characters, and what the level resets go by if they are asked for.
#[derive(Drop)]
pub struct Input<'a> {
    pub text: &'a str,
    pub levels: Vec<u8>,
    pub classes: Option<ClassLine>,
}

/// Reads an input. Whether there are a level and a class for each character is not asked here.
pub fn read_input(heap: Global, bytes: &[u8]) -> Result<Input<'_>, InputFault>
    ensures { ReadsInput bytes.now result }
{
    let lines = split_lines(bytes).map_err(InputFault::Format)?;
    let text = std::str::from_utf8(lines.text).map_err(|error| {
        let byte = error.valid_up_to() + 1;
        InputFault::Format(FormatFault::NotUtf8 { byte })
    })?;
    let levels = read_levels(heap, lines.levels)?;
    // A match: mapped and transposed it reads no plainer.
    let classes = match lines.classes {
        Some(line) => Some(read_class_line(heap, line)?),
        None => None,
    };
    Ok(Input {
        text,
        levels,
        classes,
    })
}
