// The part of a word that stands in a stretch of its span.
ghost use Rattle.paragraph.specs.Parts.{part};
ghost use Rattle.std.specs.Prelude.{◌≡◌};

use crate::place::Stretch;

/// A part of a word: its glyphs from `low` on and before `high`, counted in the word.
#[derive(Clone, Copy)]
pub struct Part {
    pub low: usize,
    pub high: usize,
}

impl Stretch {
    /// The part of a word, of `len` glyphs, that is in this stretch, which reaches the word.
    pub fn part(self, word: usize, len: usize) -> Part
        ensures { result ≡ part self word len }
    {
        Part {
            low: if word == self.start.word {
                self.start.glyph
            } else {
                0
            },
            high: if word == self.end.word {
                self.end.glyph
            } else {
                len
            },
        }
    }
}
