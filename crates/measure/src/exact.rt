ghost use Rattle.std.specs.Prelude.{◌≡◌, ℕ, ◌≤◌, min};
ghost use Rattle.glyph.specs.declared.glyph.Glyph.{Glyph};
ghost use Rattle.measure.specs.Exact.{Exact};

use crate::measure::Measure;
use glyph::glyph::Glyph;

/// The largest number that a glyph means.
pub(crate) const MOST: u32 = 131_071;

/// A measure that counts in whole numbers.
///
/// Each width means a whole number, each glyph one of 0 to 131,071, and the measure's answers are those of whole numbers while sums stay below
/// 2^32. `Exact` says so law by law.
pub trait ExactMeasure: Measure {
    ghost number: { Self.Width → ℕ };

    ghost number_of_glyph: { Self → Glyph → ℕ };

    ghost width_of_number: { ℕ → Self.Width };

    /// The laws of an exact measure, for code that leans on them.
    fn exact(&self)
        ensures { Exact Self.Measure self.now number (number_of_glyph self.now) width_of_number };

    /// The number that a width means.
    fn number_of(&self, a: Self::Width) -> u32
        ensures { result ≡ number a };

    /// The width of a number up to 131,071; of a larger one, that of 131,071.
    fn from_number(&self, n: u32) -> Self::Width
        ensures value { result ≡ width_of_number (min n 131071) }
        ensures means { number result ≡ min n 131071 };

    /// The number that a glyph means.
    fn glyph_number(&self, g: &Glyph) -> u32
        ensures value { result ≡ number_of_glyph self.now g.now }
        ensures means { number (Self.Measure.width_of self.now g.now) ≡ result }
        ensures small { result ≤ 131071 };
}
