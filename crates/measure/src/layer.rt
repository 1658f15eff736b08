ghost use Rattle.std.specs.Prelude.{◌≡◌, ℕ, ◌≤◌};

/// A change of the numbers that glyphs mean: all that one layer over an exact measure differs in from another.
pub trait Layer {
    ghost changed: { Self → ℕ → ℕ };

    /// What the number `n` is changed into.
    fn change(&self, n: u32) -> u32
        ensures { result ≡ changed self.now n };

    // Numbers up to 131,071 stay so. The measure with the layer over it is then exact again.
    ghost stays_small: { (l : Self) (n : ℕ) → n ≤ 131071 → changed l n ≤ 131071 };
}
