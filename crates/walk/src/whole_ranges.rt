// The ranges of all that is ahead.
ghost use Rattle.std.specs.Prelude.{◌≡◌, ◌-◌, ◌≤◌, ◌++◌, length, drop};
ghost use Rattle.paragraph.specs.Lent.{lent};
ghost use Rattle.walk.specs.Whole.{whole_ranges};

use crate::ahead::span_at;
use crate::line::VlRange;
use crate::put::put;
use paragraph::place::Position;
use paragraph::tables::SoundTables;

/// Writes the ranges of all that is ahead of the position into the first places of the list, in reading order, and answers how many they are. These are
/// the ranges of every walk in which no word overflowed, so no width is asked for.
///
/// Every place beyond is left as it is. A list with a place for each span from the position's on has room for them.
///
/// Any position will do.
pub fn put_whole(tables: SoundTables<'_>, position: Position, ranges: &mut [VlRange]) -> usize
    ensures count { result ≡ length (whole_ranges (lent tables.entry.rows) position) }
    ensures written { length tables.entry.rows.spans.now - position.span ≤ length ranges.old → ranges.new ≡ whole_ranges (lent tables.entry.rows) position ++ drop result ranges.old }
{
    let rows = tables.rows;
    let mut count = 0;
    for s in position.span..rows.spans.len() {
        let span = span_at(rows, s);
        let stretch = span.ahead_of(rows.direction, position, s);
        let range = VlRange {
            span: Some(s),
            start: stretch.start,
            end: stretch.end,
            level: span.level,
        };
        count = put(ranges, count, range);
    }
    count
}
