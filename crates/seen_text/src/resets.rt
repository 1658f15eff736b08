// The levels of a text's characters after rule L1 of the bidirectional algorithm. The rule works on a level for each byte,
// so that each character's level is written once for each of its bytes, and read back from the first.
ghost use Rattle.std.specs.Prelude.{◌≡◌, ℕ, ◌<◌, ◌≤◌, ◌++◌, map, length, replicate, IfOk, OnOk};
ghost use Rattle.levels.specs.Classes.{code_of};
ghost use Rattle.seen_text.specs.Classes.{resets_of};
ghost use Rattle.seen_text.specs.Resets.{byte_lengths, byte_levels, first_levels, ResetsLevels};
ghost use Rattle.seen_text.specs.Seen.{characters_of};
ghost use Rattle.std.specs.List.{All};
ghost use Rattle.std.specs.Str.{chars};

use crate::characters::characters;
use crate::class_line::ClassLine;
use levels::{BidiClass, ClassFault, adjust_levels};
use std::alloc::{AllocError, Global};
use std::iter::repeat_n;
use visual_order::Character;

// The raw codes of the classes.
fn class_codes(heap: Global, classes: &[BidiClass]) -> Result<Vec<u8>, AllocError>
    ensures { IfOk result (λ v. v.items ≡ map code_of classes.now) }
{
    classes.iter().map(|class| class.code()).collect(heap)
}

// How many bytes each character has.
fn lengths_of(heap: Global, characters: &[Character]) -> Result<Vec<u8>, AllocError>
    requires { All (λ c. c.len ≤ 4) characters.now }
    ensures { IfOk result (λ v. v.items ≡ byte_lengths characters.now) }
{
    characters.iter().map(|c| c.len as u8).collect(heap)
}

// The level of each byte, which is that of its character.
fn levels_of_bytes(heap: Global, characters: &[Character]) -> Result<Vec<u8>, AllocError>
    ensures { IfOk result (λ v. v.items ≡ byte_levels characters.now) }
{
    characters
        .iter()
        .flat_map(|c| repeat_n(c.level, c.len))
        .collect(heap)
}

// The level of each character, which is that of its first byte.
fn levels_from_bytes(
    heap: Global,
    characters: &[Character],
    bytes: &[u8],
) -> Result<Vec<u8>, AllocError>
    requires { All (λ c. c.start < length bytes.now) characters.now }
    ensures { IfOk result (λ v. v.items ≡ first_levels bytes.now characters.now) }
{
    characters.iter().map(|c| bytes[c.start]).collect(heap)
}

// The levels of the text's characters after the rule, or its refusal.
pub(crate) fn reset_levels(
    heap: Global,
    text: &str,
    levels: &[u8],
    line: &ClassLine,
) -> Result<Result<Vec<u8>, ClassFault>, AllocError>
    ensures { IfOk result (ResetsLevels (resets_of line.now) (characters_of 0 (chars text.now) levels.now)) }
{
    let characters = characters(heap, text, levels)?;
    let codes = class_codes(heap, &line.classes)?;
    let lengths = lengths_of(heap, &characters)?;
    let mut bytes = levels_of_bytes(heap, &characters)?;
    if let Err(fault) = adjust_levels(line.paragraph, &codes, &lengths, &mut bytes) {
        return Ok(Err(fault));
    }
    Ok(Ok(levels_from_bytes(heap, &characters, &bytes)?))
}
