// What tells an embedding level.
ghost use Rattle.std.specs.Prelude.{◌≡◌, ℕ};

/// An element of a line: whatever tells a level. An odd level runs from right to left, an even one from left to right.
pub trait Leveled {
    ghost depth: { Self → ℕ };

    fn level(&self) -> u8
        ensures { result ≡ depth self.now };
}

/// A bare level is an element, too.
impl Leveled for u8 {
    ghost depth = { λ level. level };

    fn level(&self) -> u8 {
        *self
    }
}
