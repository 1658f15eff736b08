ghost use Rattle.glyph.specs.declared.glyph.Glyph.{Glyph};
ghost use Rattle.std.specs.Prelude.{◌≡◌, Bool};

use glyph::glyph::Glyph;

/// What widths are asked of.
///
/// Each answer follows from the measure and the question alone: a ghost member tells it, and the method answers just that. None is refused, and none
/// changes anything. A measure owes no further law; one that counts in whole numbers is an `ExactMeasure` besides.
pub trait Measure {
    /// What a width is.
    type Width: Copy;

    /// The width of nothing, as the type alone tells it. Nothing ties it to what `zero` answers.
    const NIL: Self::Width;

    ghost NIL: { Self.Width };

    ghost nil_of: { Self → Self.Width };

    ghost width_of: { Self → Glyph → Self.Width };

    ghost sum_of: { Self → Self.Width → Self.Width → Self.Width };

    ghost over_of: { Self → Self.Width → Self.Width → Bool };

    ghost difference_of: { Self → Self.Width → Self.Width → Self.Width };

    ghost half_of: { Self → Self.Width → Self.Width };

    ghost lawful_of: { Self → Self.Width → Bool };

    /// The nil of this measure. It may hang on the measure's settings, so code that is written over any measure asks this, and not `NIL`.
    fn zero(&self) -> Self::Width
        ensures { result ≡ nil_of self.now };

    /// A glyph's width.
    fn width(&self, g: &Glyph) -> Self::Width
        ensures { result ≡ width_of self.now g.now };

    fn sum(&self, a: Self::Width, b: Self::Width) -> Self::Width
        ensures { result ≡ sum_of self.now a b };

    /// Whether `a` is over `b`.
    fn over(&self, a: Self::Width, b: Self::Width) -> bool
        ensures { result ≡ over_of self.now a b };

    /// `a` without `b`, which stops at nil.
    fn difference(&self, a: Self::Width, b: Self::Width) -> Self::Width
        ensures { result ≡ difference_of self.now a b };

    fn half(&self, a: Self::Width) -> Self::Width
        ensures { result ≡ half_of self.now a };

    /// Whether `a` may be given as the width of a line.
    fn lawful(&self, a: Self::Width) -> bool
        ensures { result ≡ lawful_of self.now a };
}
