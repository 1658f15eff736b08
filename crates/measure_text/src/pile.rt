ghost use Rattle.std.specs.Prelude.{◌≤◌};

use measure::tracking::LetterSpacing;

/// Several trackings as one layer, the innermost first. It holds 8 at most.
///
/// An array and a count of those in use, not an `ArrayVec`: a pile is copied with the measure that it is part of, and an `ArrayVec` can only be moved.
#[derive(Clone, Copy)]
pub struct Pile {
    pub(crate) spacings: [LetterSpacing; 8],
    pub(crate) used: usize,
    ghost few: { used ≤ 8 },
}
