// What is ahead of a position in one span, word by word.
ghost use Rattle.paragraph.specs.Aheads.{text_at};
ghost use Rattle.paragraph.specs.Text.{word_at};
ghost use Rattle.std.specs.Prelude.{◌≡◌, ◌+◌, ◌^◌, ◌<◌, ◌≤◌, length};
ghost use Rattle.walk.specs.Inside.{Inside, Reaches};
ghost use Rattle.walk.specs.Parts.{glyphs_between, high, low, part_size, words_in};

use crate::places::Places;
use glyph::glyph::Glyph;
use paragraph::ahead::Ahead;
use paragraph::part::Part;
use paragraph::place::Stretch;
use paragraph::span::Span;
use paragraph::word::Word;

/// A span, and the stretch of it that is ahead of a position.
#[derive(Clone, Copy)]
pub struct SpanAhead<'a> {
    pub ahead: Ahead<'a>,
    pub span: Span,
    pub stretch: Stretch,
    ghost inside: { Inside (text_at ahead) span stretch stretch.start.word (words_in stretch) },
}

/// How many words have a part in a stretch.
pub fn words_in(stretch: Stretch) -> usize
    requires { stretch.end.word + 1 < 2 ^ 64 }
    ensures { result ≡ words_in stretch }
{
    let end = if stretch.end.glyph > 0 {
        stretch.end.word + 1
    } else {
        stretch.end.word
    };
    end.saturating_sub(stretch.start.word)
}

// A word is named by its number, and each method asks that the stretch reaches it: a type of its own would be made and taken apart at each step of a walk,
// which is no plainer.
impl<'a> SpanAhead<'a> {
    /// The words that have a part in the stretch.
    pub fn words(self, up: bool) -> Places
        ensures up { result.up ≡ up }
        ensures first { result.first ≡ self.entry.stretch.start.word }
        ensures count { result.count ≡ words_in self.entry.stretch }
    {
        Places {
            up,
            first: self.stretch.start.word,
            count: words_in(self.stretch),
        }
    }

    /// The word `w` of the span.
    pub fn word(self, w: usize) -> Word
        requires { Reaches self.stretch w }
        ensures row { result ≡ word_at (text_at self.entry.ahead) (self.entry.span.offset + w) }
        ensures within { result.offset + result.len ≤ length (text_at self.entry.ahead).glyphs }
    {
        self.ahead.tables.rows.words[self.span.offset + w]
    }

    /// The part of the word `w` that is ahead.
    fn reach(self, w: usize) -> Part
        requires { Reaches self.stretch w }
        ensures low { result.low ≡ low self.entry.stretch w }
        ensures high { result.high ≡ high self.entry.stretch w (word_at (text_at self.entry.ahead) (self.entry.span.offset + w)).len }
        ensures in_order { result.low ≤ result.high }
        ensures in_word { result.high ≤ (word_at (text_at self.entry.ahead) (self.entry.span.offset + w)).len }
    {
        self.stretch.part(w, self.word(w).len)
    }

    /// The glyphs of the word `w` that are ahead, counted in the word.
    pub fn part(self, w: usize, up: bool) -> Places
        requires { Reaches self.stretch w }
        ensures up { result.up ≡ up }
        ensures first { result.first ≡ low self.entry.stretch w }
        ensures count { result.count ≡ part_size self.entry.stretch w (word_at (text_at self.entry.ahead) (self.entry.span.offset + w)) }
        ensures in_word { result.first + result.count ≤ (word_at (text_at self.entry.ahead) (self.entry.span.offset + w)).len }
        ensures small { result.count ≤ 16384 }
    {
        let part = self.reach(w);
        Places {
            up,
            first: part.low,
            count: part.high - part.low,
        }
    }

    /// These glyphs.
    pub fn glyphs(self, w: usize) -> &'a [Glyph]
        requires { Reaches self.stretch w }
        ensures { result.now ≡ glyphs_between (text_at self.entry.ahead).glyphs ((word_at (text_at self.entry.ahead) (self.entry.span.offset + w)).offset + low self.entry.stretch w) ((word_at (text_at self.entry.ahead) (self.entry.span.offset + w)).offset + high self.entry.stretch w (word_at (text_at self.entry.ahead) (self.entry.span.offset + w)).len) }
    {
        let first = self.word(w).offset;
        let part = self.reach(w);
        &self.ahead.tables.rows.glyphs[first + part.low..first + part.high]
    }
}
