// The widths of words, and of what is still to walk.
ghost use Rattle.paragraph.specs.Aheads.{text_at};
ghost use Rattle.std.specs.Prelude.{◌≡◌, ◌+◌, ◌≤◌, length};
ghost use Rattle.walk.specs.Inside.{Reaches, ReachesAll};
ghost use Rattle.walk.specs.Widths.{part_width, words_width, spans_width, rest_width};

use crate::ahead::in_span;
use crate::places::Places;
use crate::rest::Rest;
use crate::span_ahead::SpanAhead;
use measure::measure::Measure;
use measure::rows::row_width;
use paragraph::ahead::Ahead;

/// The width of the part of the word `w` that is ahead.
pub fn part_width<M: Measure>(m: &M, own: SpanAhead<'_>, w: usize) -> M::Width
    requires { Reaches own.stretch w }
    ensures { result ≡ part_width M.Measure m.now (text_at own.entry.ahead) own.entry.span own.entry.stretch w }
{
    row_width(m, own.glyphs(w))
}

/// `before` plus the widths of these words of a span, in table order.
pub fn add_words<M: Measure>(m: &M, own: SpanAhead<'_>, before: M::Width, words: Places) -> M::Width
    requires { ReachesAll own.stretch words }
    ensures { result ≡ words_width M.Measure m.now (text_at own.entry.ahead) own.entry.span own.entry.stretch before words.first words.count }
{
    let mut width = before;
    for w in words.first..words.first + words.count {
        width = m.sum(width, part_width(m, own, w));
    }
    width
}

/// `before` plus what is ahead of the position in these spans, in table order.
pub fn add_spans<M: Measure>(m: &M, ahead: Ahead<'_>, before: M::Width, spans: Places) -> M::Width
    requires { spans.first + spans.count ≤ length (text_at ahead).spans }
    ensures { result ≡ spans_width M.Measure m.now (text_at ahead.entry) ahead.entry.position before spans.first spans.count }
{
    let mut width = before;
    for s in spans.first..spans.first + spans.count {
        let own = in_span(ahead, s);
        width = add_words(m, own, width, own.words(true));
    }
    width
}

/// The words still to walk, added from nil: those of this span first, then the other spans.
pub fn rest_width<M: Measure>(m: &M, rest: Rest<'_>) -> M::Width
    ensures { result ≡ rest_width M.Measure m.now (text_at rest.entry.own.ahead) rest.entry.own.ahead.position rest.entry.own.span rest.entry.own.stretch rest.entry.words.first rest.entry.words.count rest.entry.spans.first rest.entry.spans.count }
{
    let own = add_words(m, rest.own, m.zero(), rest.words);
    add_spans(m, rest.own.ahead, own, rest.spans)
}
