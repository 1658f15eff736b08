// Measures that count: a glyph's width is a whole number that the glyph tells.
ghost use Rattle.glyph.specs.declared.glyph.Glyph.{Glyph};
ghost use Rattle.measure.specs.Whole.{whole_sum, whole_half, whole_lawful};
ghost use Rattle.std.specs.Prelude.{◌≡◌, ℕ, ◌-◌, ◌≤◌, nat_lt};

use crate::exact::{ExactMeasure, MOST};
use crate::measure::Measure;
use glyph::glyph::Glyph;

/// The largest lawful width.
const WIDEST: u32 = 2_147_483_647;

/// What a glyph is counted in: each counts as a whole number of 0 to 131,071. That makes it an exact measure, whose widths are whole numbers of 32 bits.
pub trait Counting {
    ghost count_of: { Self → Glyph → ℕ };

    /// What a glyph counts as.
    fn count(&self, g: &Glyph) -> u32
        ensures { result ≡ count_of self.now g.now };

    ghost counts_small: { (c : Self) (g : Glyph) → count_of c g ≤ 131071 };
}

impl<C: Counting> Measure for C {
    type Width = u32;

    const NIL: u32 = 0;

    ghost NIL = { 0 };

    ghost nil_of = { λ _. 0 };

    ghost width_of = { C.Counting.count_of };

    ghost sum_of = { λ _ a b. whole_sum a b };

    ghost over_of = { λ _ a b. nat_lt b a };

    ghost difference_of = { λ _ a b. a - b };

    ghost half_of = { λ _ a. whole_half a };

    ghost lawful_of = { λ _ a. whole_lawful a };

    fn zero(&self) -> u32 {
        Self::NIL
    }

    fn width(&self, g: &Glyph) -> u32 {
        self.count(g)
    }

    fn sum(&self, a: u32, b: u32) -> u32 {
        a.wrapping_add(b)
    }

    fn over(&self, a: u32, b: u32) -> bool {
        a > b
    }

    fn difference(&self, a: u32, b: u32) -> u32 {
        a.saturating_sub(b)
    }

    fn half(&self, a: u32) -> u32 {
        a / 2
    }

    fn lawful(&self, a: u32) -> bool {
        a <= WIDEST
    }
}

impl<C: Counting> ExactMeasure for C {
    ghost number = { λ a. a };

    ghost number_of_glyph = { C.Counting.count_of };

    ghost width_of_number = { λ n. n };

    fn exact(&self) {}

    fn number_of(&self, a: u32) -> u32 {
        a
    }

    fn from_number(&self, n: u32) -> u32 {
        n.min(MOST)
    }

    fn glyph_number(&self, g: &Glyph) -> u32 {
        self.count(g)
    }
}
