// The walk through one span where nothing overflows.
ghost use Rattle.paragraph.specs.Aheads.{text_at};
ghost use Rattle.std.specs.Prelude.{◌≡◌, ◌+◌, ◌*◌, ◌^◌, ◌≤◌, false};
ghost use Rattle.walk.specs.Parts.{words_in};
ghost use Rattle.walk.specs.Steps.{as_part};
ghost use Rattle.walk.specs.Walk.{in_span};
ghost use Rattle.walk.specs.declared.line.Rule.TheVariants.{Never};

use crate::line::Walked;
use crate::part::{unwalked, with_word};
use crate::places::Places;
use crate::span_ahead::SpanAhead;
use crate::span_part::SpanPart;
use crate::widths::part_width;
use measure::measure::Measure;

/// What a walk in which nothing overflows lays of a span: all that is ahead in it. `line` is what it laid before, and `spans` are those behind this one.
pub fn walk_whole<M: Measure>(
    m: &M,
    own: SpanAhead<'_>,
    up: bool,
    line: Walked<M::Width>,
    spans: Places,
) -> SpanPart<M::Width>
    requires few { line.blanks ≤ 2 ^ 20 }
    requires small { line.laid ≤ 2 ^ 34 }
    ensures exact { as_part result ≡ in_span M.Measure m.now (text_at own.entry.ahead) own.entry.ahead.position Never own.entry.span own.entry.stretch up spans.first spans.count line.width (M.Measure.nil_of m.now) line.blanks line.laid own.entry.stretch.start.word (words_in own.entry.stretch) }
    ensures few { result.blanks ≤ line.blanks + words_in own.entry.stretch }
    ensures small { result.laid ≤ line.laid + 16384 * words_in own.entry.stretch }
{
    let mut part = unwalked(m, line, own.stretch);
    let mut words = own.words(up);
    while let Some(w) = words.next() {
        let x = part_width(m, own, w);
        part = with_word(m, own, part, w, x);
    }
    part
}
