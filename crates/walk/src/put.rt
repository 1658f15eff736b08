// The line with what was laid of one more span.
ghost use Rattle.std.specs.Prelude.{◌≡◌, ◌+◌, ◌^◌, ◌<◌, ◌≤◌, ◌++◌, reverse, length, take, drop};
ghost use Rattle.walk.specs.Steps.{counted, put_at, range_at};

use crate::line::{VlRange, Walked};
use crate::span_part::SpanPart;
use measure::measure::Measure;

// The list is the caller's, of which a line takes the first places: nothing allocates where a line is laid, here and in all that lays lines.

/// Writes a range behind the first `count` ones, where the list has room, and answers how many there are then. A range with equal ends is left out.
/// One for which there is no room is counted all the same, so that a walk may be asked what it lays without a place to write it to.
pub fn put(ranges: &mut [VlRange], count: usize, range: VlRange) -> usize
    requires { count < 2 ^ 32 }
    ensures count { result ≡ counted count range }
    ensures list { ranges.new ≡ put_at ranges.old count range }
{
    if range.start == range.end {
        return count;
    }
    if count < ranges.len() {
        ranges[count] = range;
    }
    count + 1
}

/// Turns the first `count` ranges around, if the list has so many.
pub fn turn(ranges: &mut [VlRange], count: usize)
    ensures turned { count ≤ length ranges.old → ranges.new ≡ reverse (take count ranges.old) ++ drop count ranges.old }
    ensures kept { length ranges.old < count → ranges.new ≡ ranges.old }
{
    if count <= ranges.len() {
        ranges[..count].reverse();
    }
}

/// The line with what was laid of the span `s`, of the level `level`.
pub fn with_part<M: Measure>(
    m: &M,
    ranges: &mut [VlRange],
    line: Walked<M::Width>,
    s: usize,
    level: u8,
    part: SpanPart<M::Width>,
) -> Walked<M::Width>
    requires { line.ranges < 2 ^ 32 }
    ensures line { result ≡ record { ranges = counted line.ranges (range_at s part.stretch level); blanks = part.blanks; laid = part.laid; width = M.Measure.sum_of m.now line.width part.width; flagged = part.flagged } }
    ensures list { ranges.new ≡ put_at ranges.old line.ranges (range_at s part.stretch level) }
{
    let range = VlRange {
        span: Some(s),
        start: part.stretch.start,
        end: part.stretch.end,
        level,
    };
    Walked {
        ranges: put(ranges, line.ranges, range),
        blanks: part.blanks,
        laid: part.laid,
        width: m.sum(line.width, part.width),
        flagged: part.flagged,
    }
}
