// The rows of lent tables by index. The row after the last is empty and begins where the table below ends.
ghost use Rattle.paragraph.specs.Lent.{lent};
ghost use Rattle.paragraph.specs.Ranks.{start_of};
ghost use Rattle.paragraph.specs.Text.{word_at, span_at};
ghost use Rattle.std.specs.Prelude.{◌≡◌, slice_index_or};

use crate::span::Span;
use crate::tables::Tables;
use crate::word::Word;

// A row of a table, or the one past its last.
fn row_or<R: Copy>(rows: &[R], i: usize, past: R) -> R
    ensures { result ≡ slice_index_or rows.now i past }
{
    rows.get(i).copied().unwrap_or(past)
}

impl Tables<'_> {
    pub fn word_at(self, i: usize) -> Word
        ensures { result ≡ word_at (lent self.entry) i }
    {
        let past = Word {
            blank: false,
            offset: self.glyphs.len(),
            len: 0,
        };
        row_or(self.words, i, past)
    }

    pub fn span_at(self, s: usize) -> Span
        ensures { result ≡ span_at (lent self.entry) s }
    {
        let past = Span {
            level: 0,
            offset: self.words.len(),
            len: 0,
        };
        row_or(self.spans, s, past)
    }

    /// Where the glyphs of a span begin in the table.
    pub fn start_of(self, s: usize) -> usize
        ensures { result ≡ start_of (lent self.entry) s }
    {
        self.word_at(self.span_at(s).offset).offset
    }
}
