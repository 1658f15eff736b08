// Widths in cells of a terminal.
ghost use Rattle.std.proofs.Common.{rules};

use crate::counting::Counting;
use glyph::glyph::Glyph;

/// The measure in cells of a terminal: a glyph's width is the cells that it takes.
#[derive(Clone, Copy)]
pub struct Cells;

impl Counting for Cells {
    ghost count_of = { λ _ g. g.cells };

    ghost counts_small = { Prim.search rules };

    fn count(&self, g: &Glyph) -> u32 {
        u32::from(g.cells)
    }
}
