// The walk through one span, which ends at the first word that overflows.
ghost use Rattle.paragraph.specs.Aheads.{text_at};
ghost use Rattle.std.specs.Prelude.{◌≡◌, ◌+◌, ◌*◌, ◌^◌, ◌≤◌, false, length};
ghost use Rattle.walk.specs.Parts.{words_in};
ghost use Rattle.walk.specs.Steps.{as_part};
ghost use Rattle.walk.specs.Walk.{in_span};

use crate::line::{Rule, Walked};
use crate::overflow::overflows;
use crate::part::{cut_part, unwalked, with_word};
use crate::places::Places;
use crate::rest::Rest;
use crate::span_ahead::SpanAhead;
use crate::span_part::SpanPart;
use crate::widths::part_width;
use measure::measure::Measure;

/// What a walk lays of a span. `line` is what it laid before, and `spans` are those behind this one.
pub fn walk_words<M: Measure>(
    m: &M,
    rule: Rule<M::Width>,
    own: SpanAhead<'_>,
    up: bool,
    line: Walked<M::Width>,
    spans: Places,
) -> SpanPart<M::Width>
    requires few { line.blanks ≤ 2 ^ 20 }
    requires small { line.laid ≤ 2 ^ 34 }
    requires there { spans.first + spans.count ≤ length (text_at own.ahead).spans }
    ensures exact { as_part result ≡ in_span M.Measure m.now (text_at own.entry.ahead) own.entry.ahead.position rule own.entry.span own.entry.stretch up spans.first spans.count line.width (M.Measure.nil_of m.now) line.blanks line.laid own.entry.stretch.start.word (words_in own.entry.stretch) }
    ensures few { result.flagged ≡ false → result.blanks ≤ line.blanks + words_in own.entry.stretch }
    ensures small { result.flagged ≡ false → result.laid ≤ line.laid + 16384 * words_in own.entry.stretch }
{
    let mut part = unwalked(m, line, own.stretch);
    let mut words = own.words(up);
    while let Some(w) = words.next() {
        let x = part_width(m, own, w);
        let before = m.sum(line.width, part.width);
        let rest = Rest { own, words, spans };
        if overflows(m, rule, before, x, w, rest) {
            return cut_part(m, rule, own, up, line.width, part, w);
        }
        part = with_word(m, own, part, w, x);
    }
    part
}
