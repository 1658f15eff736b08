// The closing line with the ellipsis in its middle.
ghost use Rattle.std.specs.Prelude.{◌≡◌, ◌+◌, ◌-◌, ◌^◌, ◌<◌, ◌≤◌, [], ◌++◌, length, take, drop, if◌then◌else◌, Some, None, slice_set};
ghost use Rattle.layout.specs.Elided.{elided_bytes};
ghost use Rattle.layout.specs.Ellipsis.{ellipsis_range, first_of, last_of, level_between, paragraph_level};
ghost use Rattle.layout.specs.Halves.{end_fits, halved_line};
ghost use Rattle.layout.specs.Lines.{ends_at, line_ranges, line_told, middle_line};
ghost use Rattle.paragraph.specs.Aheads.{text_at};
ghost use Rattle.paragraph.specs.Lent.{lent};
ghost use Rattle.walk.specs.Walk.{lay, told};
ghost use Rattle.walk.specs.declared.line.LayoutDirection.TheVariants.{Forward, Backward};
ghost use Rattle.walk.specs.declared.line.Rule.TheVariants.{Closing as ClosingRule};

use crate::closing::Closing;
use crate::line::VisualLine;
use measure::measure::Measure;
use paragraph::ahead::Ahead;
use paragraph::place::Position;
use paragraph::tables::Tables;
use walk::layout_spans::layout_spans;
use walk::line::{LayoutDirection, Rule, VlRange, Walked};
use walk::whole_ranges::put_whole;

// Where a range ends in reading order.
fn ends_at(tables: Tables<'_>, range: VlRange) -> Position
    ensures { result ≡ ends_at (lent tables.entry) range.span range }
{
    let Some(s) = range.span else {
        return Position {
            span: 0,
            place: range.end,
        };
    };
    let span = tables.span_at(s);
    let place = if tables.direction.is_congruent(span.level) {
        range.end
    } else {
        range.start
    };
    Position { span: s, place }
}

// A walk back to the position `cut` whose ranges stand behind the first `n` ones and a place for the ellipsis.
fn layout_behind<M: Measure>(
    m: &M,
    cut: Ahead<'_>,
    rule: Rule<M::Width>,
    n: usize,
    ranges: &mut [VlRange],
) -> Walked<M::Width>
    requires room { n + 1 + (length (text_at cut).spans - cut.position.span) ≤ length ranges.old }
    ensures told { result ≡ told (lay M.Measure m.now (text_at cut.entry) cut.entry.position rule Backward) }
    ensures few { result.ranges ≤ length (text_at cut.entry).spans - cut.entry.position.span }
    ensures written { ranges.new ≡ take (n + 1) ranges.old ++ ((lay M.Measure m.now (text_at cut.entry) cut.entry.position rule Backward).ranges ++ drop result.ranges (drop (n + 1) ranges.old)) }
{
    layout_spans(
        m,
        cut,
        LayoutDirection::Backward,
        rule,
        &mut ranges[n + 1..],
    )
}

impl<M: Measure> Closing<'_, M> {
    // The walk with the ellipsis last, if the line fits so. A trial, so it writes nothing.
    fn try_end(&self, width: M::Width) -> Option<Walked<M::Width>>
        ensures { result ≡ (if end_fits M.Measure self.now.m.now (text_at self.now.ahead) self.now.ahead.position width self.now.ellipsis then Some (told (lay M.Measure self.now.m.now (text_at self.now.ahead) self.now.ahead.position (ClosingRule width self.now.ellipsis) Forward)) else None) }
    {
        let rule = Rule::Closing {
            width,
            ellipsis: self.ellipsis,
        };
        let trial = layout_spans(self.m, self.ahead, LayoutDirection::Forward, rule, &mut []);
        let fits = !trial.flagged && !self.m.over(trial.width, width);
        fits.then_some(trial)
    }

    // The ellipsis as the only range.
    fn ellipsis_alone(&self, ranges: &mut [VlRange]) -> VisualLine<M::Width>
        requires { 0 < length ranges.old }
        ensures told { result ≡ record { ranges = 1; blanks = 0; laid = 0; width = self.now.ellipsis; elided = Some (elided_bytes (text_at self.now.ahead) self.now.none_before [] []) } }
        ensures written { ranges.new ≡ slice_set ranges.old 0 (ellipsis_range (paragraph_level (text_at self.now.ahead).direction)) }
    {
        let (range, elided) = self.ellipsis_between(&[], &[]);
        ranges[0] = range;
        VisualLine {
            ranges: 1,
            blanks: 0,
            laid: 0,
            width: self.ellipsis,
            elided: Some(elided),
        }
    }

    // The line of two walks with the ellipsis between them.
    fn join_halves(
        &self,
        first: Walked<M::Width>,
        second: Walked<M::Width>,
        ranges: &mut [VlRange],
    ) -> VisualLine<M::Width>
        requires room { first.ranges + 1 + second.ranges ≤ length ranges.old }
        requires blanks { first.blanks + second.blanks < 2 ^ 64 }
        requires laid { first.laid + second.laid < 2 ^ 64 }
        ensures told { result ≡ record { ranges = first.ranges + 1 + second.ranges; blanks = first.blanks + second.blanks; laid = first.laid + second.laid; width = M.Measure.sum_of self.now.m.now (M.Measure.sum_of self.now.m.now first.width second.width) self.now.ellipsis; elided = Some (elided_bytes (text_at self.now.ahead) self.now.none_before (take first.ranges ranges.old) (take second.ranges (drop (first.ranges + 1) ranges.old))) } }
        ensures written { ranges.new ≡ slice_set ranges.old first.ranges (ellipsis_range (level_between (text_at self.now.ahead).direction (last_of (take first.ranges ranges.old)) (first_of (take second.ranges (drop (first.ranges + 1) ranges.old))))) }
    {
        let m = self.m;
        let n = first.ranges;
        let laid = &ranges[..];
        let back = &laid[n + 1..][..second.ranges];
        let (range, elided) = self.ellipsis_between(&laid[..n], back);
        ranges[n] = range;
        VisualLine {
            ranges: n + 1 + second.ranges,
            blanks: first.blanks + second.blanks,
            laid: first.laid + second.laid,
            width: m.sum(m.sum(first.width, second.width), self.ellipsis),
            elided: Some(elided),
        }
    }

    // A walk on half the width and, where it overflows, the ellipsis and behind it a second walk back to where the last range of the first ends. Where the
    // first has no range the ellipsis stands alone.
    fn in_halves(&self, width: M::Width, ranges: &mut [VlRange]) -> VisualLine<M::Width>
        requires room { length (text_at self.now.ahead).spans + 2 ≤ length ranges.old }
        ensures told { result ≡ line_told (text_at self.now.ahead) self.now.none_before (halved_line M.Measure self.now.m.now (text_at self.now.ahead) self.now.ahead.position width self.now.ellipsis) }
        ensures written { ranges.new ≡ line_ranges (halved_line M.Measure self.now.m.now (text_at self.now.ahead) self.now.ahead.position width self.now.ellipsis) ++ drop result.ranges ranges.old }
    {
        let m = self.m;
        let half = m.half(width);
        let rule = Rule::Closing {
            width: half,
            ellipsis: m.zero(),
        };
        let first = layout_spans(m, self.ahead, LayoutDirection::Forward, rule, ranges);
        if !first.flagged {
            return VisualLine::from(first);
        }
        let n = first.ranges;
        let Some(last) = ranges[..n].last().copied() else {
            return self.ellipsis_alone(ranges);
        };
        let rule = Rule::Closing {
            width: m.difference(m.difference(width, first.width), self.ellipsis),
            ellipsis: m.zero(),
        };
        let tables = self.ahead.tables;
        let cut = Ahead {
            tables,
            position: ends_at(tables.rows, last),
        };
        let second = layout_behind(m, cut, rule, n, ranges);
        self.join_halves(first, second, ranges)
    }

    /// The line with the ellipsis in its middle, if it does not fit.
    pub fn in_middle(&self, width: M::Width, ranges: &mut [VlRange]) -> VisualLine<M::Width>
        requires room { length (text_at self.now.ahead).spans + 2 ≤ length ranges.old }
        ensures told { result ≡ line_told (text_at self.now.ahead) self.now.none_before (middle_line M.Measure self.now.m.now (text_at self.now.ahead) self.now.ahead.position width self.now.ellipsis) }
        ensures written { ranges.new ≡ line_ranges (middle_line M.Measure self.now.m.now (text_at self.now.ahead) self.now.ahead.position width self.now.ellipsis) ++ drop result.ranges ranges.old }
    {
        if let Some(trial) = self.try_end(width) {
            // No word overflowed, so all that is ahead is on the line.
            put_whole(self.ahead.tables, self.ahead.position, ranges);
            return VisualLine::from(trial);
        }
        self.in_halves(width, ranges)
    }
}
