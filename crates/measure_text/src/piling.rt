// What a pile of trackings does to a number, and how it grows.
ghost use Rattle.std.specs.Prelude.{◌≡◌, ℕ, ◌+◌, ◌≤◌, [], MatchOption};
ghost use Rattle.measure.specs.Layers.{tracked};
ghost use Rattle.measure_text.specs.PileLaws.{all_small};
ghost use Rattle.measure_text.specs.Piles.{piled, pile_number};

use crate::pile::Pile;
use measure::layer::Layer;
use measure::tracking::LetterSpacing;

impl Pile {
    /// A pile with no tracking, which changes nothing.
    pub fn new() -> Pile
        ensures { piled result ≡ [] }
    {
        Pile {
            spacings: [LetterSpacing::default(); 8],
            used: 0,
        }
    }

    /// The pile with one tracking more over it, or nothing if it holds 8 already.
    pub fn with(self, over: LetterSpacing) -> Option<Pile>
        ensures { MatchOption result (self.used ≡ 8) (λ p. (p.used ≡ self.used + 1) × ((n : ℕ) → pile_number p n ≡ tracked over.spacing (pile_number self n))) }
    {
        if self.used == 8 {
            return None;
        }
        let mut spacings = self.spacings;
        spacings[self.used] = over;
        Some(Pile {
            spacings,
            used: self.used + 1,
        })
    }
}

impl Layer for Pile {
    ghost changed = { pile_number };

    ghost stays_small = { λ p. all_small (piled p) };

    fn change(&self, n: u32) -> u32 {
        self.spacings[..self.used]
            .iter()
            .fold(n, |number, spacing| spacing.change(number))
    }
}
