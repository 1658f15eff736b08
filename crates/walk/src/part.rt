// What a walk lays of a span, word by word.
ghost use Rattle.paragraph.specs.Aheads.{text_at};
ghost use Rattle.paragraph.specs.Text.{word_at};
ghost use Rattle.std.specs.Prelude.{◌≡◌, ◌+◌, ◌^◌, ◌<◌, ◌≤◌, false, true, if◌then◌else◌};
ghost use Rattle.walk.specs.Inside.{Reaches};
ghost use Rattle.walk.specs.Parts.{part_size};
ghost use Rattle.walk.specs.Steps.{as_part};
ghost use Rattle.walk.specs.Walk.{cut_part, cut_to};

use crate::fit_glyphs::cut_word;
use crate::line::{Rule, Walked};
use crate::span_ahead::SpanAhead;
use crate::span_part::SpanPart;
use measure::measure::Measure;
use paragraph::place::{Place, Stretch};

/// The stretch between the place where the walk came into the span and the cut.
pub fn cut_to(up: bool, stretch: Stretch, cut: Place) -> Stretch
    ensures { result ≡ cut_to up stretch cut }
{
    if up {
        Stretch {
            end: cut,
            ..stretch
        }
    } else {
        Stretch {
            start: cut,
            ..stretch
        }
    }
}

/// All of a stretch of the next span, before its first word is walked: its width is counted from nil, the line's blanks and glyphs go on.
pub fn unwalked<M: Measure>(m: &M, line: Walked<M::Width>, stretch: Stretch) -> SpanPart<M::Width>
    ensures { result ≡ record { stretch = stretch; width = M.Measure.nil_of m.now; blanks = line.blanks; laid = line.laid; flagged = false } }
{
    SpanPart {
        stretch,
        width: m.zero(),
        blanks: line.blanks,
        laid: line.laid,
        flagged: false,
    }
}

/// The part with one word more, the word `w` of its span, of the width `x`.
pub fn with_word<M: Measure>(
    m: &M,
    own: SpanAhead<'_>,
    part: SpanPart<M::Width>,
    w: usize,
    x: M::Width,
) -> SpanPart<M::Width>
    requires reaches { Reaches own.stretch w }
    requires few { part.blanks < 2 ^ 32 }
    requires small { part.laid < 2 ^ 40 }
    ensures { result ≡ record { stretch = part.stretch; width = M.Measure.sum_of m.now part.width x; blanks = (if (word_at (text_at own.entry.ahead) (own.entry.span.offset + w)).blank then part.blanks + 1 else part.blanks); laid = part.laid + part_size own.entry.stretch w (word_at (text_at own.entry.ahead) (own.entry.span.offset + w)); flagged = part.flagged } }
{
    SpanPart {
        width: m.sum(part.width, x),
        blanks: if own.word(w).blank {
            part.blanks + 1
        } else {
            part.blanks
        },
        laid: part.laid + own.part(w, true).count,
        ..part
    }
}

/// The part where the word `w` of its span overflows. `finished` is the width of finished spans.
pub fn cut_part<M: Measure>(
    m: &M,
    rule: Rule<M::Width>,
    own: SpanAhead<'_>,
    up: bool,
    finished: M::Width,
    part: SpanPart<M::Width>,
    w: usize,
) -> SpanPart<M::Width>
    requires reaches { Reaches own.stretch w }
    requires small { part.laid < 2 ^ 40 }
    ensures cut { as_part result ≡ cut_part M.Measure m.now (text_at own.entry.ahead) own.entry.ahead.position rule own.entry.span own.entry.stretch up finished part.width part.blanks part.laid w }
    ensures flagged { result.flagged ≡ true }
{
    let word = own.word(w);
    let row = &own.ahead.tables.rows.glyphs[word.offset..word.offset + word.len];
    let places = own.part(w, up);
    let before = m.sum(finished, part.width);
    let (cut, width) = cut_word(m, rule, row, places, before, part.laid);
    let cut_at = Place {
        word: w,
        glyph: cut,
    };
    SpanPart {
        stretch: cut_to(up, own.stretch, cut_at),
        width: m.sum(part.width, width),
        blanks: part.blanks,
        laid: part.laid + places.up_to(cut),
        flagged: true,
    }
}
