// The position just before a glyph of reading order.
ghost use Rattle.std.specs.Prelude.{◌≡◌, ℕ, ◌+◌, ◌<◌, ◌≤◌, length};
ghost use Rattle.paragraph.specs.Before.{around, at_end, before_glyph, behind, position_before, word_begins, JustBefore};
ghost use Rattle.paragraph.specs.Lent.{lent};
ghost use Rattle.paragraph.specs.Ranks.{start_of, glyph_rank};

use crate::place::{Place, Position};
use crate::span::Span;
use crate::tables::SoundTables;

// The first of `n` rows that ends beyond a place, where each row ends where the next begins. A loop over their numbers: there is no slice of them to search.
fn row_around<F: Fn(usize) -> usize>(begins: F, at: usize, n: usize) -> usize
    requires { (i : ℕ) → i ≤ n → F.pre begins i }
    ensures { (f : ℕ → ℕ) → ((i r : ℕ) → i ≤ n → F.post begins i r → r ≡ f i) → result ≡ around f at 0 n }
{
    for i in 0..n {
        if at < begins(i + 1) {
            return i;
        }
    }
    n
}

impl Place {
    // Behind a glyph of a word that has `len` of them.
    fn behind(word: usize, glyph: usize, len: usize) -> Place
        requires word { word ≤ 4096 }
        requires glyph { glyph ≤ 16384 }
        ensures { result ≡ behind word glyph len }
    {
        if glyph + 1 == len {
            Place::edge(word + 1)
        } else {
            Place {
                word,
                glyph: glyph + 1,
            }
        }
    }
}

impl SoundTables<'_> {
    // The span whose glyphs stand around a place of the table.
    fn span_around(self, at: usize) -> usize
        ensures { result ≡ around (start_of (lent self.entry.rows)) at 0 (length self.entry.rows.spans.now) }
    {
        row_around(|s| self.rows.start_of(s), at, self.rows.spans.len())
    }

    // The word of a span in which a glyph stands.
    fn word_around(self, span: Span, glyph: usize) -> usize
        requires { span.offset + span.len ≤ 4096 }
        ensures { result ≡ around (word_begins (lent self.entry.rows) span) glyph 0 span.len }
    {
        row_around(
            |w| self.rows.word_at(span.offset + w).offset,
            glyph,
            span.len,
        )
    }

    // The position just before a glyph of a span.
    fn before_glyph(self, s: usize, glyph: usize) -> Position
        requires low { start_of (lent self.rows) s ≤ glyph }
        requires high { glyph < start_of (lent self.rows) (s + 1) }
        ensures { result ≡ before_glyph (lent self.entry.rows) s glyph }
    {
        let span = self.rows.span_at(s);
        let index = self.word_around(span, glyph);
        let word = self.rows.word_at(span.offset + index);
        let in_word = glyph - word.offset;
        let place = if self.rows.direction.is_congruent(span.level) {
            Place {
                word: index,
                glyph: in_word,
            }
        } else {
            Place::behind(index, in_word, word.len)
        };
        Position { span: s, place }
    }

    // Where nothing is ahead.
    fn at_end(self) -> Position
        ensures { result ≡ at_end (lent self.entry.rows) }
    {
        let span = self.rows.spans.len().saturating_sub(1);
        Position {
            span,
            place: self.rows.span_at(span).closing(self.rows.direction),
        }
    }

    // The glyph of a span with a rank in reading order.
    fn glyph_with_rank(self, s: usize, rank: usize) -> usize
        requires span { s < 256 }
        requires low { start_of (lent self.rows) s ≤ rank }
        requires high { rank < start_of (lent self.rows) (s + 1) }
        ensures { result ≡ glyph_rank (lent self.entry.rows) s rank }
    {
        if self.rows.direction.is_congruent(self.rows.span_at(s).level) {
            rank
        } else {
            self.rows.start_of(s) + self.rows.start_of(s + 1) - 1 - rank
        }
    }

    /// The position just before the glyph with a rank in reading order, or the end where none has it.
    pub fn position_before(self, rank: usize) -> Position
        ensures exact { result ≡ position_before (lent self.entry.rows) rank }
        ensures before { JustBefore (lent self.entry.rows) rank result }
    {
        if rank < self.rows.glyphs.len() {
            let s = self.span_around(rank);
            self.before_glyph(s, self.glyph_with_rank(s, rank))
        } else {
            self.at_end()
        }
    }
}
