// The highest level of a line, and its lowest odd one.
ghost use Rattle.std.specs.List.{filter, reduce};
ghost use Rattle.std.specs.Prelude.{◌≡◌, ◌≤◌, ◌%◌, ◌==◌, map, max, min};
ghost use Rattle.visual_order.specs.VisualOrder.{highest, odd_or};

use crate::leveled::Leveled;

// Both are folds over plain numbers, which run on vectors: `max`, `filter` and `min` of the iterator take two to three times as long.

// The highest level, unless the line is empty.
pub(crate) fn highest_level<E: Leveled>(elements: &[E]) -> Option<u8>
    ensures { result ≡ reduce max (map E.Leveled.depth elements.now) }
{
    let (first, rest) = elements.split_first()?;
    Some(
        rest.iter()
            .fold(first.level(), |top: u8, e| top.max(e.level())),
    )
}

// The level if it is odd, else `none`.
fn odd_or(none: u16, level: u8) -> u16
    ensures { result ≡ odd_or none level }
{
    if level % 2 == 1 {
        u16::from(level)
    } else {
        none
    }
}

// The lowest odd level, if a level is odd, where the highest level is `top`.
pub(crate) fn lowest_odd_level<E: Leveled>(elements: &[E], top: u8) -> Option<u8>
    requires { highest (map E.Leveled.depth elements.now) ≤ top }
    ensures { result ≡ reduce min (filter (λ level. level % 2 == 1) (map E.Leveled.depth elements.now)) }
{
    let none = u16::from(top) + 1;
    let low = elements
        .iter()
        .fold(none, |low: u16, e| low.min(odd_or(none, e.level())));
    if low < none { Some(low as u8) } else { None }
}
