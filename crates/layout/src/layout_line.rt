// Closing lines, mode by mode.
ghost use Rattle.std.specs.Prelude.{◌≡◌, ◌+◌, ◌<◌, ◌≤◌, ◌∷◌, ◌++◌, length, take, drop};
ghost use Rattle.layout.specs.Elided.{elided_bytes};
ghost use Rattle.layout.specs.Ellipsis.{behind_of, before_of, ellipsis_range, first_of, last_of, level_between};
ghost use Rattle.layout.specs.Lines.{closing_line, edge_line, line_ranges, line_told};
ghost use Rattle.measure.specs.Rows.{row_width};
ghost use Rattle.paragraph.specs.Aheads.{text_at};

use crate::closing::Closing;
use crate::line::{ElidedBytes, Ellipsize, VisualLine};
use glyph::glyph::Glyph;
use measure::measure::Measure;
use measure::rows::row_width;
use paragraph::ahead::Ahead;
use walk::layout_spans::layout_spans;
use walk::line::{LayoutDirection, Rule, VlRange};

// Puts a range before the first `n` ones. The one behind them is lost.
fn put_first(ranges: &mut [VlRange], n: usize, range: VlRange)
    requires { n < length ranges.old }
    ensures { ranges.new ≡ range ∷ (take n ranges.old ++ drop (n + 1) ranges.old) }
{
    ranges[n] = range;
    ranges[..=n].rotate_right(1);
}

impl<M: Measure> Closing<'_, M> {
    // Puts the ellipsis where a walk ended that laid the first `n` ranges: last if it went forward, else first. The range behind them is lost.
    fn put_ellipsis(&self, way: LayoutDirection, n: usize, ranges: &mut [VlRange]) -> ElidedBytes
        requires { n < length ranges.old }
        ensures bytes { result ≡ elided_bytes (text_at self.now.ahead) self.now.none_before (before_of way (take n ranges.old)) (behind_of way (take n ranges.old)) }
        ensures written { ranges.new ≡ (before_of way (take n ranges.old) ++ ellipsis_range (level_between (text_at self.now.ahead).direction (last_of (before_of way (take n ranges.old))) (first_of (behind_of way (take n ranges.old)))) ∷ behind_of way (take n ranges.old)) ++ drop (n + 1) ranges.old }
    {
        match way {
            LayoutDirection::Forward => {
                let (range, elided) = self.ellipsis_between(&ranges[..n], &[]);
                ranges[n] = range;
                elided
            }
            LayoutDirection::Backward => {
                let (range, elided) = self.ellipsis_between(&[], &ranges[..n]);
                put_first(ranges, n, range);
                elided
            }
        }
    }

    // The line of one walk, with the ellipsis where it ended if a word overflowed. Inlined, it is as fast as if each way were written out.
    #[inline]
    fn at_edge(
        &self,
        way: LayoutDirection,
        width: M::Width,
        ranges: &mut [VlRange],
    ) -> VisualLine<M::Width>
        requires room { length (text_at self.now.ahead).spans + 2 ≤ length ranges.old }
        ensures told { result ≡ line_told (text_at self.now.ahead) self.now.none_before (edge_line M.Measure self.now.m.now (text_at self.now.ahead) self.now.ahead.position width self.now.ellipsis way) }
        ensures written { ranges.new ≡ line_ranges (edge_line M.Measure self.now.m.now (text_at self.now.ahead) self.now.ahead.position width self.now.ellipsis way) ++ drop result.ranges ranges.old }
    {
        let rule = Rule::Closing {
            width,
            ellipsis: self.ellipsis,
        };
        let walked = layout_spans(self.m, self.ahead, way, rule, ranges);
        if !walked.flagged {
            return VisualLine::from(walked);
        }
        let elided = self.put_ellipsis(way, walked.ranges, ranges);
        VisualLine {
            ranges: walked.ranges + 1,
            width: self.m.sum(walked.width, self.ellipsis),
            elided: Some(elided),
            ..VisualLine::from(walked)
        }
    }
}

/// What is ahead of a position as one line, by a mode and a width; `ellipsis` is the row of glyphs that the ellipsis shows. Where nothing stands before
/// the ellipsis, the bytes that it stands for begin at `none_before`.
///
/// The line's ranges are written into the first places of the list, in reading order; every place beyond is left as it is.
///
/// The list has two places more than there are spans.
pub fn layout_line<M: Measure>(
    m: &M,
    ahead: Ahead<'_>,
    ellipsis: &[Glyph],
    ellipsize: Ellipsize,
    width: Option<M::Width>,
    none_before: usize,
    ranges: &mut [VlRange],
) -> VisualLine<M::Width>
    requires room { length (text_at ahead).spans + 2 ≤ length ranges.old }
    ensures told { result ≡ line_told (text_at ahead.entry) none_before (closing_line M.Measure m.now (text_at ahead.entry) ahead.entry.position ellipsize width (row_width M.Measure m.now ellipsis.now)) }
    ensures written { ranges.new ≡ line_ranges (closing_line M.Measure m.now (text_at ahead.entry) ahead.entry.position ellipsize width (row_width M.Measure m.now ellipsis.now)) ++ drop result.ranges ranges.old }
{
    let closing = Closing {
        m,
        ahead,
        ellipsis: row_width(m, ellipsis),
        none_before,
    };
    match (ellipsize, width) {
        (Ellipsize::Start, Some(width)) => closing.at_edge(
            LayoutDirection::Backward,
            width,
            ranges,
        ),
        (Ellipsize::Middle, Some(width)) => closing.in_middle(width, ranges),
        (Ellipsize::End, Some(width)) => closing.at_edge(LayoutDirection::Forward, width, ranges),
        _ => VisualLine::from(layout_spans(
            m,
            ahead,
            LayoutDirection::Forward,
            Rule::Never,
            ranges,
        )),
    }
}
