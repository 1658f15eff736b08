// A line of classes: the paragraph's level, then the bidi class of each character.
ghost use Rattle.std.specs.Prelude.{◌≡◌, ℕ, ◌≤◌, decimal, MatchOption};
ghost use Rattle.seen_text.specs.Classes.{Named, ReadsClasses};

use crate::format_fault::{FormatFault, InputFault};
use crate::numbers::read_level;
use levels::BidiClass;
use std::alloc::Global;

// The highest level of a paragraph.
const HIGHEST_PARAGRAPH: u8 = 1;

/// What the level resets of a line go by: the paragraph's level, and the bidi class of each character.
#[derive(Drop)]
pub struct ClassLine {
    pub paragraph: u8,
    pub classes: Vec<BidiClass>,
}

// The level of a paragraph that the word writes: 0 or 1.
#[tactic(auto, using(crate::proofs::LevelWords::apart))]
fn read_paragraph(word: &[u8]) -> Option<u8>
    ensures { MatchOption result ((level : ℕ) → level ≤ 1 → word.now ≡ decimal level → ⊥) (λ level. (level ≤ 1) × (word.now ≡ decimal level)) }
{
    read_level(word).filter(|level| *level <= HIGHEST_PARAGRAPH)
}

// The class that the word names.
fn class_named(word: &[u8]) -> Option<BidiClass>
    ensures { Named word.now result }
{
    BidiClass::from_name(std::str::from_utf8(word).ok()?)
}

// The paragraph's level and the classes of a line: words with single spaces between them.
pub(crate) fn read_class_line(heap: Global, line: &[u8]) -> Result<ClassLine, InputFault>
    ensures { ReadsClasses line.now result }
{
    let mut words = line.split(|b| *b == b' ');
    let first = words.next().unwrap_or(line);
    let Some(paragraph) = read_paragraph(first) else {
        return Err(InputFault::Format(FormatFault::NoParagraphLevel));
    };
    let mut classes = Vec::new(heap);
    for word in words {
        let Some(class) = class_named(word) else {
            let place = classes.len() + 1;
            return Err(InputFault::Format(FormatFault::NoClass { place }));
        };
        classes.push(class)?;
    }
    Ok(ClassLine { paragraph, classes })
}
