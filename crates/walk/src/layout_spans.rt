// The walk.
ghost use Rattle.paragraph.specs.Aheads.{text_at};
ghost use Rattle.std.specs.Prelude.{◌≡◌, ◌+◌, ◌*◌, ◌-◌, ◌^◌, ◌≤◌, false, ◌++◌, length, drop};
ghost use Rattle.walk.specs.Parts.{words_in};
ghost use Rattle.walk.specs.Steps.{as_part};
ghost use Rattle.walk.specs.Walk.{in_span, lay, told, walked};

use crate::ahead::{goes_up, in_span, spans_of};
use crate::line::{LayoutDirection, Rule, VlRange, Walked};
use crate::places::Places;
use crate::put::{turn, with_part};
use crate::span_ahead::SpanAhead;
use crate::span_part::SpanPart;
use crate::walk_whole::walk_whole;
use crate::walk_words::walk_words;
use measure::measure::Measure;
use paragraph::ahead::Ahead;

// A line with nothing on it.
fn nothing<M: Measure>(m: &M) -> Walked<M::Width>
    ensures { result ≡ record { ranges = 0; blanks = 0; laid = 0; width = M.Measure.nil_of m.now; flagged = false } }
{
    Walked {
        ranges: 0,
        blanks: 0,
        laid: 0,
        width: m.zero(),
        flagged: false,
    }
}

// What the walk lays of a span. Where nothing overflows a loop of its own only adds the words up: asked word by word, that takes a third longer.
// The two bounds keep sums in range within this walk; no caller is told them, so that they stand in no type.
fn walk_span<M: Measure>(
    m: &M,
    rule: Rule<M::Width>,
    own: SpanAhead<'_>,
    up: bool,
    line: Walked<M::Width>,
    spans: Places,
) -> SpanPart<M::Width>
    requires few { line.blanks ≤ 2 ^ 20 }
    requires small { line.laid ≤ 2 ^ 34 }
    requires there { spans.first + spans.count ≤ length (text_at own.ahead).spans }
    ensures exact { as_part result ≡ in_span M.Measure m.now (text_at own.entry.ahead) own.entry.ahead.position rule own.entry.span own.entry.stretch up spans.first spans.count line.width (M.Measure.nil_of m.now) line.blanks line.laid own.entry.stretch.start.word (words_in own.entry.stretch) }
    ensures few { result.flagged ≡ false → result.blanks ≤ line.blanks + words_in own.entry.stretch }
    ensures small { result.flagged ≡ false → result.laid ≤ line.laid + 16384 * words_in own.entry.stretch }
{
    match rule {
        Rule::Never => walk_whole(m, own, up, line, spans),
        _ => walk_words(m, rule, own, up, line, spans),
    }
}

// The walk, its ranges in the order in which it comes to them.
fn walk_spans<M: Measure>(
    m: &M,
    ahead: Ahead<'_>,
    direction: LayoutDirection,
    rule: Rule<M::Width>,
    ranges: &mut [VlRange],
) -> Walked<M::Width>
    ensures told { result ≡ told (walked M.Measure m.now (text_at ahead.entry) ahead.entry.position rule direction) }
    ensures few { result.ranges ≤ length (text_at ahead.entry).spans - ahead.entry.position.span }
    ensures written { length (text_at ahead.entry).spans - ahead.entry.position.span ≤ length ranges.old → ranges.new ≡ (walked M.Measure m.now (text_at ahead.entry) ahead.entry.position rule direction).ranges ++ drop result.ranges ranges.old }
{
    let mut line = nothing(m);
    let mut spans = spans_of(ahead, direction.is_forward());
    while let Some(s) = spans.next() {
        let own = in_span(ahead, s);
        let up = goes_up(ahead.tables.rows.direction, own.span, direction);
        let part = walk_span(m, rule, own, up, line, spans);
        line = with_part(m, ranges, line, s, own.span.level, part);
        if part.flagged {
            return line;
        }
    }
    line
}

/// Walks what is ahead, in reading order or from the paragraph's end back to the position, until a word overflows.
///
/// The ranges are written into the first places of the list, in reading order; every place beyond is left as it is. A list with a place for each
/// span from the position's on has room for them. What the walk tells does not depend on the list, so a walk is asked without a place to write to by an empty one.
pub fn layout_spans<M: Measure>(
    m: &M,
    ahead: Ahead<'_>,
    direction: LayoutDirection,
    rule: Rule<M::Width>,
    ranges: &mut [VlRange],
) -> Walked<M::Width>
    ensures told { result ≡ told (lay M.Measure m.now (text_at ahead.entry) ahead.entry.position rule direction) }
    ensures few { result.ranges ≤ length (text_at ahead.entry).spans - ahead.entry.position.span }
    ensures written { length (text_at ahead.entry).spans - ahead.entry.position.span ≤ length ranges.old → ranges.new ≡ (lay M.Measure m.now (text_at ahead.entry) ahead.entry.position rule direction).ranges ++ drop result.ranges ranges.old }
    ensures length { length ranges.new ≡ length ranges.old }
{
    let line = walk_spans(m, ahead, direction, rule, ranges);
    if !direction.is_forward() {
        turn(ranges, line.ranges);
    }
    line
}
