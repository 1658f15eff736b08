// Measures of somebody else: they owe no law beyond their own answers, and the same generic code takes them.
ghost use Rattle.std.specs.Prelude.{◌+◌, ◌-◌, ◌/◌, min, true, false, not, ◌==◌, bit_xor, from_bits, nat_lt};
ghost use Rattle.std.specs.Float.{binary32};
ghost use Rattle.std.specs.Float.Ieee.{add, sub, lt, neg};

use glyph::glyph::Glyph;
use measure::measure::Measure;

/// Units in 16 bits: sums stop at 65,535, so it is not exact.
#[derive(Clone, Copy)]
pub struct Short;

impl Measure for Short {
    type Width = u16;

    const NIL: u16 = 0;

    ghost NIL = { 0 };

    ghost nil_of = { λ _. 0 };

    ghost width_of = { λ _ g. g.units };

    ghost sum_of = { λ _ a b. min (a + b) 65535 };

    ghost over_of = { λ _ a b. nat_lt b a };

    ghost difference_of = { λ _ a b. a - b };

    ghost half_of = { λ _ a. a / 2 };

    ghost lawful_of = { λ _ _. true };

    fn zero(&self) -> u16 {
        Self::NIL
    }

    fn width(&self, g: &Glyph) -> u16 {
        g.units
    }

    fn sum(&self, a: u16, b: u16) -> u16 {
        a.saturating_add(b)
    }

    fn over(&self, a: u16, b: u16) -> bool {
        a > b
    }

    fn difference(&self, a: u16, b: u16) -> u16 {
        a.saturating_sub(b)
    }

    fn half(&self, a: u16) -> u16 {
        a / 2
    }

    fn lawful(&self, _: u16) -> bool {
        true
    }
}

/// Advances in ems, as they stand in the glyphs; its nil is an em below nothing, and its difference does not stop there.
#[derive(Clone, Copy)]
pub struct Ems;

impl Measure for Ems {
    type Width = f32;

    const NIL: f32 = -1.0;

    ghost NIL = { neg (from_bits binary32 1065353216) };

    ghost nil_of = { λ _. from_bits binary32 3212836864 };

    ghost width_of = { λ _ g. g.advance };

    ghost sum_of = { λ _ a b. add binary32 a b };

    ghost over_of = { λ _ a b. lt b a };

    ghost difference_of = { λ _ a b. sub binary32 a b };

    ghost half_of = { λ _ a. a };

    ghost lawful_of = { λ _ a. lt a a };

    fn zero(&self) -> f32 {
        Self::NIL
    }

    fn width(&self, g: &Glyph) -> f32 {
        g.advance
    }

    fn sum(&self, a: f32, b: f32) -> f32 {
        a + b
    }

    fn over(&self, a: f32, b: f32) -> bool {
        a > b
    }

    fn difference(&self, a: f32, b: f32) -> f32 {
        a - b
    }

    fn half(&self, a: f32) -> f32 {
        a
    }

    fn lawful(&self, a: f32) -> bool {
        a < a
    }
}

/// A measure that keeps no law at all: its sum is a xor, and what is over what follows no order.
#[derive(Clone, Copy)]
pub struct Lawless {
    pub key: u32,
}

impl Measure for Lawless {
    type Width = u32;

    const NIL: u32 = 5;

    ghost NIL = { 5 };

    ghost nil_of = { λ _. 5 };

    ghost width_of = { λ m g. bit_xor g.start m.key };

    ghost sum_of = { λ _ a b. bit_xor a b };

    ghost over_of = { λ _ a b. not (a == b) };

    ghost difference_of = { λ m a b. m.key };

    ghost half_of = { λ m a. bit_xor a m.key };

    ghost lawful_of = { λ _ _. false };

    fn zero(&self) -> u32 {
        Self::NIL
    }

    fn width(&self, g: &Glyph) -> u32 {
        u32::from(g.start) ^ self.key
    }

    fn sum(&self, a: u32, b: u32) -> u32 {
        a ^ b
    }

    fn over(&self, a: u32, b: u32) -> bool {
        a != b
    }

    fn difference(&self, _: u32, _: u32) -> u32 {
        self.key
    }

    fn half(&self, a: u32) -> u32 {
        a ^ self.key
    }

    fn lawful(&self, _: u32) -> bool {
        false
    }
}
