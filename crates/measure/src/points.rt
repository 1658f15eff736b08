// Widths in points: single f32 operations, bit for bit those of Rust.
ghost use Rattle.glyph.specs.Ranges.{float_0, size_in};
ghost use Rattle.measure.specs.Points.{point_width, point_difference, point_half, point_lawful};
ghost use Rattle.measure.specs.Settings.{SetUp};
ghost use Rattle.measure.specs.declared.settings.SettingName.TheVariants.{Size};
ghost use Rattle.std.specs.Float.{binary32};
ghost use Rattle.std.specs.Float.Ieee.{add, lt};
ghost use Rattle.std.specs.Prelude.{◌≡◌, true};

use crate::measure::Measure;
use crate::settings::{SettingFault, SettingName};
use glyph::glyph::Glyph;
use glyph::ranges::size_in_range;

/// Points at a size. A glyph with a size of its own is measured at that.
#[derive(Clone, Copy)]
pub struct Points {
    size: f32,
    ghost ok: { size_in size ≡ true },
}

impl Points {
    /// Points at a size of 0 to 4,096. A NaN is refused too.
    pub fn new(size: f32) -> Result<Points, SettingFault>
        ensures { SetUp (size_in size) Size (λ p. p.size ≡ size) result }
    {
        if size_in_range(size) {
            Ok(Points { size })
        } else {
            Err(SettingName::Size.out_of_range())
        }
    }
}

impl Measure for Points {
    type Width = f32;

    const NIL: f32 = 0.0;

    ghost NIL = { float_0 };

    ghost nil_of = { λ _. float_0 };

    ghost width_of = { λ m g. point_width m.size g };

    ghost sum_of = { λ _ a b. add binary32 a b };

    ghost over_of = { λ _ a b. lt b a };

    ghost difference_of = { λ _ a b. point_difference a b };

    ghost half_of = { λ _ a. point_half a };

    ghost lawful_of = { λ _ a. point_lawful a };

    fn zero(&self) -> f32 {
        Self::NIL
    }

    fn width(&self, g: &Glyph) -> f32 {
        g.size.unwrap_or(self.size) * g.advance
    }

    fn sum(&self, a: f32, b: f32) -> f32 {
        a + b
    }

    fn over(&self, a: f32, b: f32) -> bool {
        a > b
    }

    // Of -0.0 and 0.0 Rust's `max` may answer either, so the stop is a test.
    fn difference(&self, a: f32, b: f32) -> f32 {
        let rest = a - b;
        if rest > 0.0 { rest } else { 0.0 }
    }

    #[tactic(auto, using(crate::proofs::PointTests::bits_2))]
    fn half(&self, a: f32) -> f32 {
        a / 2.0
    }

    fn lawful(&self, a: f32) -> bool {
        a.is_finite() && a >= 0.0
    }
}
