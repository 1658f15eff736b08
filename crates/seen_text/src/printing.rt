// What is printed for an input.
ghost use Rattle.seen_text.specs.Answer.{Answers, Prints};
ghost use Rattle.seen_text.specs.Classes.{resets_of};
ghost use Rattle.seen_text.specs.Numbers.{spelled};
ghost use Rattle.std.specs.Prelude.{◌≡◌, [], ◌∷◌, ◌++◌, IfOk, Some, None, string_bytes};

use crate::characters::count_of;
use crate::class_line::ClassLine;
use crate::format_fault::{FormatFault, InputFault};
use crate::input::read_input;
use crate::numbers::spell;
use crate::resets::reset_levels;
use crate::see_fault::SeeFault;
use crate::seen_line::{Seen, see};
use std::alloc::{AllocError, Global};

// The order and the text, each in a line.
fn seen_lines(heap: Global, seen: &Seen) -> Result<String, AllocError>
    ensures { IfOk result (λ s. string_bytes s ≡ spelled seen.now.order.items ++ (10 ∷ (string_bytes seen.now.text ++ (10 ∷ [])))) }
{
    let order = spell(heap, &seen.order)?;
    let line = order.as_str();
    let text = seen.text.as_str();
    format!(in heap; "{line}\n{text}\n")
}

// What is printed for a text with levels.
fn print_seen(heap: Global, text: &str, levels: &[u8]) -> Result<String, InputFault>
    ensures { Prints text.now levels.now None result }
{
    match see(heap, text, levels) {
        Ok(seen) => Ok(seen_lines(heap, &seen)?),
        Err(SeeFault::Refused(fault)) => Ok(format!(in heap; "{fault}\n")?),
        Err(SeeFault::CountsDiffer { characters, levels }) => {
            let fault = FormatFault::CountsDiffer { characters, levels };
            Err(InputFault::Format(fault))
        }
        Err(SeeFault::Memory) => Err(InputFault::Memory),
    }
}

// What is printed for a text with levels that are reset first.
fn print_reset(
    heap: Global,
    text: &str,
    levels: &[u8],
    line: &ClassLine,
) -> Result<String, InputFault>
    ensures { Prints text.now levels.now (Some (resets_of line.now)) result }
{
    let characters = count_of(text);
    if characters != levels.len() {
        let levels = levels.len();
        let fault = FormatFault::CountsDiffer { characters, levels };
        return Err(InputFault::Format(fault));
    }
    if characters != line.classes.len() {
        let classes = line.classes.len();
        let fault = FormatFault::ClassCountsDiffer {
            characters,
            classes,
        };
        return Err(InputFault::Format(fault));
    }
    match reset_levels(heap, text, levels, line)? {
        Ok(levels) => print_seen(heap, text, &levels),
        Err(fault) => Ok(format!(in heap; "{fault}\n")?),
    }
}

/// What is printed for an input: the order and the text as seen, or the refusal of a rule.
pub fn answer(heap: Global, bytes: &[u8]) -> Result<String, InputFault>
    ensures { Answers bytes.now result }
{
    let input = read_input(heap, bytes)?;
    match &input.classes {
        None => print_seen(heap, input.text, &input.levels),
        Some(line) => print_reset(heap, input.text, &input.levels, line),
    }
}
