// Which spans have the paragraph's direction, and what is ahead of a position in one of them.
ghost use Rattle.paragraph.specs.Reading.{ahead_in, closing, opening};
ghost use Rattle.paragraph.specs.Text.{congruent};
ghost use Rattle.std.specs.Prelude.{◌≡◌};

use crate::direction::Direction;
use crate::place::{Place, Position, Stretch};
use crate::span::Span;

impl Direction {
    /// Whether a level has this direction.
    pub fn is_congruent(self, level: u8) -> bool
        ensures { result ≡ congruent self level }
    {
        match self {
            Direction::LeftToRight => level % 2 == 0,
            Direction::RightToLeft => level % 2 == 1,
        }
    }
}

impl Span {
    /// What is ahead of a position in this span, which has the index `s` and is the position's own or a later one.
    pub fn ahead_of(&self, direction: Direction, position: Position, s: usize) -> Stretch
        ensures { result ≡ ahead_in direction position s self.now }
    {
        let start = Place { word: 0, glyph: 0 };
        let end = Place {
            word: self.len,
            glyph: 0,
        };
        if s != position.span {
            Stretch { start, end }
        } else if direction.is_congruent(self.level) {
            Stretch {
                start: position.place,
                end,
            }
        } else {
            Stretch {
                start,
                end: position.place,
            }
        }
    }
}
