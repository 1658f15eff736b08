// The range of the ellipsis, and its level.
ghost use Rattle.layout.specs.Ellipsis.{ellipsis_range, level_between, paragraph_level};
ghost use Rattle.std.specs.Prelude.{◌≡◌};

use paragraph::direction::Direction;
use paragraph::place::Place;
use walk::line::VlRange;

/// The ellipsis at a level: it names no span, and runs from (0, 0) to (1, 0).
pub fn ellipsis_range(level: u8) -> VlRange
    ensures { result ≡ ellipsis_range level }
{
    VlRange {
        span: None,
        start: Place::edge(0),
        end: Place::edge(1),
        level,
    }
}

/// A paragraph's own level.
pub fn paragraph_level(direction: Direction) -> u8
    ensures { result ≡ paragraph_level direction }
{
    direction as u8
}

/// The level of an ellipsis between two ranges: the one that both share, the only one's, or else the paragraph's.
pub fn ellipsis_level_between(
    direction: Direction,
    before: Option<VlRange>,
    after: Option<VlRange>,
) -> u8
    ensures { result ≡ level_between direction before after }
{
    match (before, after) {
        (Some(a), Some(b)) if a.level == b.level => a.level,
        (Some(a), None) => a.level,
        (None, Some(b)) => b.level,
        _ => paragraph_level(direction),
    }
}
