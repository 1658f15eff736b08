// When a word overflows.
ghost use Rattle.paragraph.specs.Aheads.{text_at};
ghost use Rattle.paragraph.specs.Text.{word_at};
ghost use Rattle.std.specs.Prelude.{◌≡◌, ◌+◌};
ghost use Rattle.walk.specs.Inside.{Reaches};
ghost use Rattle.walk.specs.Parts.{part_size};
ghost use Rattle.walk.specs.Widths.{overflow, rest_width};

use crate::line::Rule;
use crate::rest::Rest;
use crate::widths::rest_width;
use measure::measure::Measure;

/// Whether the word `w` of the span, of the width `x`, overflows behind what is `before` it on the line. `rest` is what is still to walk then.
///
/// The words still to walk are added up only if the ellipsis behind this word passes the width.
pub fn overflows<M: Measure>(
    m: &M,
    rule: Rule<M::Width>,
    before: M::Width,
    x: M::Width,
    w: usize,
    rest: Rest<'_>,
) -> bool
    requires { Reaches rest.own.stretch w }
    ensures { result ≡ overflow M.Measure m.now rule before x (rest_width M.Measure m.now (text_at rest.entry.own.ahead) rest.entry.own.ahead.position rest.entry.own.span rest.entry.own.stretch rest.entry.words.first rest.entry.words.count rest.entry.spans.first rest.entry.spans.count) (part_size rest.entry.own.stretch w (word_at (text_at rest.entry.own.ahead) (rest.entry.own.span.offset + w))) }
{
    match rule {
        Rule::Never => false,
        Rule::Closing { width, ellipsis } => {
            let sum = m.sum(before, x);
            if m.over(sum, width) {
                return true;
            }
            if m.over(m.sum(sum, ellipsis), width) {
                return m.over(rest_width(m, rest), ellipsis);
            }
            false
        }
        Rule::Taking { width } => rest.own.part(w, true).count > 0
            && m.over(m.sum(before, x), width),
    }
}
