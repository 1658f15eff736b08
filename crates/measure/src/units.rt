// Widths in 64ths of a pixel.
ghost use Rattle.std.proofs.Common.{rules};

use crate::counting::Counting;
use glyph::glyph::Glyph;

/// The measure in 64ths of a pixel: a glyph's width is its advance in them.
#[derive(Clone, Copy)]
pub struct Units;

impl Counting for Units {
    ghost count_of = { λ _ g. g.units };

    ghost counts_small = { Prim.search rules };

    fn count(&self, g: &Glyph) -> u32 {
        u32::from(g.units)
    }
}
