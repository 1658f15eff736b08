// What is ahead of a position, span by span, and which way a walk meets it.
ghost use Rattle.paragraph.specs.Aheads.{text_at};
ghost use Rattle.paragraph.specs.Lent.{lent};
ghost use Rattle.paragraph.specs.Text.{span_at};
ghost use Rattle.std.specs.Prelude.{◌≡◌, ◌-◌, ◌<◌, length};
ghost use Rattle.walk.specs.Parts.{forward, goes_up};
ghost use Rattle.walk.specs.Widths.{ahead_of};

use crate::line::LayoutDirection;
use crate::places::Places;
use crate::span_ahead::SpanAhead;
use paragraph::ahead::Ahead;
use paragraph::direction::Direction;
use paragraph::span::Span;
use paragraph::tables::Tables;

/// The row `s` of the table of spans, without the test of `Tables::span_at`, which a walk does not need.
pub fn span_at(tables: Tables<'_>, s: usize) -> Span
    requires { s < length tables.spans.now }
    ensures { result ≡ span_at (lent tables.entry) s }
{
    tables.spans[s]
}

/// The spans from the position's own on.
pub fn spans_of(ahead: Ahead<'_>, up: bool) -> Places
    ensures up { result.up ≡ up }
    ensures first { result.first ≡ ahead.entry.position.span }
    ensures count { result.count ≡ length (text_at ahead.entry).spans - ahead.entry.position.span }
{
    let first = ahead.position.span;
    Places {
        up,
        first,
        count: ahead.tables.rows.spans.len() - first,
    }
}

/// What is ahead in the span `s`, which is the position's own or a later one.
pub fn in_span(ahead: Ahead<'_>, s: usize) -> SpanAhead<'_>
    requires { s < length (text_at ahead).spans }
    ensures ahead { result.ahead ≡ ahead.entry }
    ensures span { result.span ≡ span_at (text_at ahead.entry) s }
    ensures stretch { result.stretch ≡ ahead_of (text_at ahead.entry) ahead.entry.position s }
{
    let rows = ahead.tables.rows;
    let span = span_at(rows, s);
    let stretch = span.ahead_of(rows.direction, ahead.position, s);
    SpanAhead {
        ahead,
        span,
        stretch,
    }
}

impl LayoutDirection {
    pub fn is_forward(self) -> bool
        ensures { result ≡ forward self }
    {
        match self {
            LayoutDirection::Forward => true,
            LayoutDirection::Backward => false,
        }
    }
}

/// Whether a walk goes up the table in a span.
pub fn goes_up(direction: Direction, span: Span, way: LayoutDirection) -> bool
    ensures { result ≡ goes_up direction span way }
{
    if direction.is_congruent(span.level) {
        way.is_forward()
    } else {
        !way.is_forward()
    }
}
