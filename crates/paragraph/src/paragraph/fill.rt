// How a paragraph comes by its tables, and how they are read.
ghost use Rattle.paragraph.specs.Holds.{text_of, ellipsis_of};
ghost use Rattle.paragraph.specs.Lent.{lent, text_in};
ghost use Rattle.paragraph.specs.Lawful.{InRange, GrantedExactly, RefusedExactly};
ghost use Rattle.paragraph.specs.Text.{text};
ghost use Rattle.paragraph.specs.Verdict.{verdict};
ghost use Rattle.paragraph.specs.declared.direction.Direction.TheVariants.{LeftToRight};
ghost use Rattle.std.specs.Prelude.{◌≡◌, ◌≤◌, [], length, MatchResult};

use super::Paragraph;
use crate::check::check;
use crate::fault::TableFault;
use crate::tables::{OwnedTables, SoundTables};
use glyph::glyph::Glyph;
use std::alloc::Global;

impl Paragraph {
    /// A paragraph without a row, and without an ellipsis.
    pub fn empty(heap: Global) -> Paragraph
        ensures holds { text_of result ≡ text [] [] [] LeftToRight }
        ensures ellipsis { ellipsis_of result ≡ [] }
    {
        Paragraph {
            tables: OwnedTables::new(heap),
        }
    }

    /// Gives the paragraph these tables, in place of those that it held, if they are lawful; else it stays as it was.
    pub fn fill(&mut self, tables: OwnedTables) -> Result<(), TableFault>
        ensures exact { result ≡ verdict (text_in tables) tables.ellipsis.items }
        ensures granted { GrantedExactly (text_in tables) tables.ellipsis.items result }
        ensures refused { RefusedExactly (text_in tables) tables.ellipsis.items result }
        ensures holds { MatchResult result (λ _. self.new.tables ≡ tables) (λ _. self.new ≡ self.old) }
    {
        check(tables.lent(), &tables.ellipsis)?;
        self.tables = tables;
        Ok(())
    }

    /// The paragraph's tables.
    pub fn tables(&self) -> SoundTables<'_>
        ensures holds { lent result.rows ≡ text_of self.now }
        ensures in_range { InRange (lent result.rows).glyphs }
    {
        SoundTables {
            rows: self.tables.lent(),
        }
    }

    /// The glyphs of the ellipsis.
    pub fn ellipsis(&self) -> &[Glyph]
        ensures holds { result.now ≡ ellipsis_of self.now }
        ensures short { length result.now ≤ 16 }
        ensures in_range { InRange result.now }
    {
        &self.tables.ellipsis
    }
}
