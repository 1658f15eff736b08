// A measure that keeps no law.
ghost use Rattle.std.specs.Prelude.{◌+◌, ◌-◌, ◌*◌, ◌%◌, ◌==◌, not};

use glyph::glyph::Glyph;
use measure::measure::Measure;

/// A measure that keeps no law at all: what is over what follows no order, a sum can be less than its parts, and nothing has the nil width. It is there to
/// show that lines are well formed on any measure.
#[derive(Clone, Copy)]
pub struct Lawless;

impl Measure for Lawless {
    type Width = u32;

    const NIL: u32 = 7;

    ghost NIL = { 7 };

    ghost nil_of = { λ _. 7 };

    ghost width_of = { λ _ g. (31 * g.units + 17 * g.cells + 5) % 64 };

    ghost sum_of = { λ _ a b. (3 * a + b + 1) % 256 };

    ghost over_of = { λ _ a b. ((a + 2 * b) % 3) == 0 };

    ghost difference_of = { λ _ a b. (a + 5 * b) % 200 };

    ghost half_of = { λ _ a. 255 - a % 256 };

    ghost lawful_of = { λ _ a. not ((a % 4) == 1) };

    fn zero(&self) -> u32 {
        Self::NIL
    }

    fn width(&self, g: &Glyph) -> u32 {
        (31 * u32::from(g.units) + 17 * u32::from(g.cells) + 5) % 64
    }

    fn sum(&self, a: u32, b: u32) -> u32 {
        ((3 * u64::from(a) + u64::from(b) + 1) % 256) as u32
    }

    fn over(&self, a: u32, b: u32) -> bool {
        (u64::from(a) + 2 * u64::from(b)) % 3 == 0
    }

    fn difference(&self, a: u32, b: u32) -> u32 {
        ((u64::from(a) + 5 * u64::from(b)) % 200) as u32
    }

    fn half(&self, a: u32) -> u32 {
        255 - a % 256
    }

    fn lawful(&self, a: u32) -> bool {
        a % 4 != 1
    }
}
