// The two kinds of lines that an entry lays, written to the caller's lists: their ranges, and the visual order of these. The two lists are lent side by
// side: in a struct of two `&mut` each clause on a list would go by the loan's ghost name and the struct's exit, which is no plainer.
ghost use Rattle.entry.specs.Lines.{taken_line};
ghost use Rattle.entry.specs.Written.{Written};
ghost use Rattle.layout.specs.Lines.{closing_line};
ghost use Rattle.measure.specs.Rows.{row_width};
ghost use Rattle.paragraph.specs.Aheads.{text_at};
ghost use Rattle.paragraph.specs.Reading.{ahead as glyphs_ahead};
ghost use Rattle.std.specs.Prelude.{◌≡◌, ◌+◌, ◌<◌, ◌≤◌, length};

use crate::order::write_order;
use glyph::glyph::Glyph;
use layout::layout_line::layout_line;
use layout::line::{Ellipsize, VisualLine};
use measure::measure::Measure;
use paragraph::ahead::Ahead;
use walk::layout_spans::layout_spans;
use walk::line::{LayoutDirection, Rule, VlRange};

/// Lays a line that is taken: forward by the taking rule.
pub(crate) fn lay_taken<M: Measure>(
    m: &M,
    ahead: Ahead<'_>,
    width: M::Width,
    ranges: &mut [VlRange],
    order: &mut [usize],
) -> VisualLine<M::Width>
    requires ranges_fit { length (text_at ahead).spans + 2 ≤ length ranges.old }
    requires order_fit { length (text_at ahead).spans + 2 ≤ length order.old }
    ensures written { Written (text_at ahead.entry) (taken_line M.Measure m.now (text_at ahead.entry) ahead.entry.position width) result ranges.old ranges.new order.old order.new }
    ensures some { 0 < length (glyphs_ahead (text_at ahead.entry) ahead.entry.position) → 0 < result.laid }
    ensures few { result.laid ≤ length (glyphs_ahead (text_at ahead.entry) ahead.entry.position) }
{
    let rule = Rule::Taking { width };
    let walked = layout_spans(m, ahead, LayoutDirection::Forward, rule, ranges);
    write_order(&ranges[..walked.ranges], order);
    VisualLine::from(walked)
}

/// Lays a closing line. Where nothing stands before the ellipsis, the bytes that it stands for begin at 0.
pub(crate) fn lay_closing<M: Measure>(
    m: &M,
    ahead: Ahead<'_>,
    ellipsis: &[Glyph],
    ellipsize: Ellipsize,
    width: Option<M::Width>,
    ranges: &mut [VlRange],
    order: &mut [usize],
) -> VisualLine<M::Width>
    requires ranges_fit { length (text_at ahead).spans + 2 ≤ length ranges.old }
    requires order_fit { length (text_at ahead).spans + 2 ≤ length order.old }
    ensures written { Written (text_at ahead.entry) (closing_line M.Measure m.now (text_at ahead.entry) ahead.entry.position ellipsize width (row_width M.Measure m.now ellipsis.now)) result ranges.old ranges.new order.old order.new }
    ensures few { result.laid ≤ length (glyphs_ahead (text_at ahead.entry) ahead.entry.position) }
{
    let line = layout_line(m, ahead, ellipsis, ellipsize, width, 0, ranges);
    write_order(&ranges[..line.ranges], order);
    line
}
