// A paragraph's tables: lent, lent and known to be sound, and owned.
ghost use Rattle.paragraph.specs.Lent.{lent, text_in};
ghost use Rattle.paragraph.specs.Text.{Sound, text};
ghost use Rattle.paragraph.specs.declared.direction.Direction.TheVariants.{LeftToRight};
ghost use Rattle.std.specs.Prelude.{◌≡◌, []};

use crate::direction::Direction;
use crate::span::Span;
use crate::word::Word;
use glyph::glyph::Glyph;
use std::alloc::Global;

/// A paragraph's tables, lent, with any numbers in them.
#[derive(Clone, Copy)]
pub struct Tables<'a> {
    pub glyphs: &'a [Glyph],
    pub words: &'a [Word],
    pub spans: &'a [Span],
    pub direction: Direction,
}

/// Tables of which it is known that each runs without gap or overlap from the start to the end of the table below it, and that none is too long.
#[derive(Clone, Copy)]
pub struct SoundTables<'a> {
    pub rows: Tables<'a>,
    ghost sound: { Sound (lent rows) },
}

/// A paragraph's tables, its ellipsis and its direction, with any numbers in them.
#[derive(Drop)]
pub struct OwnedTables {
    pub glyphs: Vec<Glyph>,
    pub words: Vec<Word>,
    pub spans: Vec<Span>,
    pub ellipsis: Vec<Glyph>,
    pub direction: Direction,
}

impl OwnedTables {
    /// No row at all, from left to right.
    pub fn new(heap: Global) -> OwnedTables
        ensures holds { text_in result ≡ text [] [] [] LeftToRight }
        ensures ellipsis { result.ellipsis.items ≡ [] }
    {
        OwnedTables {
            glyphs: Vec::new(heap),
            words: Vec::new(heap),
            spans: Vec::new(heap),
            ellipsis: Vec::new(heap),
            direction: Direction::LeftToRight,
        }
    }

    /// The tables, lent.
    pub fn lent(&self) -> Tables<'_>
        ensures { lent result ≡ text_in self.now }
    {
        Tables {
            glyphs: &self.glyphs,
            words: &self.words,
            spans: &self.spans,
            direction: self.direction,
        }
    }
}
