// A layer over an exact measure, which is an exact measure again.
ghost use Rattle.std.specs.Prelude.{◌≡◌};

use crate::exact::ExactMeasure;
use crate::layer::Layer;
use crate::measure::Measure;
use glyph::glyph::Glyph;

/// An exact measure with a layer over it: each glyph means its changed number, and all else is asked of the measure below.
#[derive(Clone, Copy, Drop)]
pub struct Layered<L, M> {
    layer: L,
    inner: M,
}

impl<L: Layer, M: ExactMeasure> Layered<L, M> {
    pub fn of(layer: L, inner: M) -> Layered<L, M>
        ensures { (result.layer ≡ layer) × (result.inner ≡ inner) }
    {
        Layered { layer, inner }
    }
}

impl<L: Layer, M: ExactMeasure> Measure for Layered<L, M> {
    type Width = M::Width;

    const NIL: M::Width = M::NIL;

    ghost NIL = { M.Measure.NIL };

    ghost nil_of = { λ t. M.Measure.nil_of t.inner };

    ghost width_of = { λ t g. M.ExactMeasure.width_of_number (L.Layer.changed t.layer (M.ExactMeasure.number_of_glyph t.inner g)) };

    ghost sum_of = { λ t. M.Measure.sum_of t.inner };

    ghost over_of = { λ t. M.Measure.over_of t.inner };

    ghost difference_of = { λ t. M.Measure.difference_of t.inner };

    ghost half_of = { λ t. M.Measure.half_of t.inner };

    ghost lawful_of = { λ t. M.Measure.lawful_of t.inner };

    fn zero(&self) -> M::Width {
        self.inner.zero()
    }

    fn width(&self, g: &Glyph) -> M::Width {
        self.inner.from_number(self.glyph_number(g))
    }

    fn sum(&self, a: M::Width, b: M::Width) -> M::Width {
        self.inner.sum(a, b)
    }

    fn over(&self, a: M::Width, b: M::Width) -> bool {
        self.inner.over(a, b)
    }

    fn difference(&self, a: M::Width, b: M::Width) -> M::Width {
        self.inner.difference(a, b)
    }

    fn half(&self, a: M::Width) -> M::Width {
        self.inner.half(a)
    }

    fn lawful(&self, a: M::Width) -> bool {
        self.inner.lawful(a)
    }
}

impl<L: Layer, M: ExactMeasure> ExactMeasure for Layered<L, M> {
    ghost number = { M.ExactMeasure.number };

    ghost number_of_glyph = { λ t g. L.Layer.changed t.layer (M.ExactMeasure.number_of_glyph t.inner g) };

    ghost width_of_number = { M.ExactMeasure.width_of_number };

    fn exact(&self) {
        self.inner.exact();
    }

    fn number_of(&self, a: M::Width) -> u32 {
        self.inner.number_of(a)
    }

    fn from_number(&self, n: u32) -> M::Width {
        self.inner.from_number(n)
    }

    fn glyph_number(&self, g: &Glyph) -> u32 {
        self.exact();
        self.layer.change(self.inner.glyph_number(g))
    }
}
