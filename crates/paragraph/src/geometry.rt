// Positions in sound tables: which exist, and what is ahead of them.
ghost use Rattle.std.specs.Prelude.{◌≡◌, ◌+◌, ◌≤◌, false, length, MatchOption};
ghost use Rattle.paragraph.specs.Aheads.{text_at};
ghost use Rattle.paragraph.specs.Lent.{lent};
ghost use Rattle.paragraph.specs.Ranks.{rank, ahead_count};
ghost use Rattle.paragraph.specs.Reading.{place_in, glyphs_of_word, exists, ahead, edge, opening, closing, begin, boundary};

use crate::ahead::Ahead;
use crate::direction::Direction;
use crate::place::{Place, Position};
use crate::span::Span;
use crate::tables::{SoundTables, Tables};

// The one position that exists where there are no spans.
const BEGINNING: Position = Position {
    span: 0,
    place: Place { word: 0, glyph: 0 },
};

impl Place {
    /// The place before a word of a span, or at the span's end.
    pub fn edge(word: usize) -> Place
        ensures { result ≡ edge word }
    {
        Place { word, glyph: 0 }
    }
}

impl Span {
    /// Where reading comes into the span.
    pub fn opening(&self, direction: Direction) -> Place
        ensures { result ≡ opening direction self.now }
    {
        if direction.is_congruent(self.level) {
            Place::edge(0)
        } else {
            Place::edge(self.len)
        }
    }

    /// Where reading leaves it.
    pub fn closing(&self, direction: Direction) -> Place
        ensures { result ≡ closing direction self.now }
    {
        if direction.is_congruent(self.level) {
            Place::edge(self.len)
        } else {
            Place::edge(0)
        }
    }
}

impl Tables<'_> {
    /// Where an entry begins.
    pub fn begin(self) -> Position
        ensures { result ≡ begin (lent self.entry) }
    {
        Position {
            span: 0,
            place: self.span_at(0).opening(self.direction),
        }
    }
}

impl<'a> SoundTables<'a> {
    /// Where an entry begins.
    pub fn begin(self) -> Position
        ensures { result ≡ begin (lent self.entry.rows) }
    {
        self.rows.begin()
    }

    // How many glyphs a word of a span has, none where no word stands. That a span ends in its table is asked three times: a type for it would be made anew
    // at each lookup, which is no plainer.
    fn glyphs_of_word(self, span: Span, word: usize) -> usize
        requires { span.offset + span.len ≤ 4096 }
        ensures { result ≡ glyphs_of_word (lent self.entry.rows) span word }
    {
        if word < span.len {
            self.rows.word_at(span.offset + word).len
        } else {
            0
        }
    }

    fn place_in(self, span: Span, place: Place) -> bool
        requires { span.offset + span.len ≤ 4096 }
        ensures { result ≡ place_in (lent self.entry.rows) span place }
    {
        place.word <= span.len && place.glyph <= self.glyphs_of_word(span, place.word)
    }

    /// Whether a position exists. Without spans (0, 0, 0) is the one that does.
    pub fn exists(self, position: Position) -> bool
        ensures { result ≡ exists (lent self.entry.rows) position }
    {
        if self.rows.spans.is_empty() {
            position == BEGINNING
        } else {
            position.span < self.rows.spans.len()
                && self.place_in(self.rows.span_at(position.span), position.place)
        }
    }

    /// How many glyphs of the table stand before a place of a span.
    pub fn boundary(self, span: Span, place: Place) -> usize
        requires word { span.offset + place.word ≤ 4096 }
        requires glyph { place.glyph ≤ 16384 }
        ensures { result ≡ boundary (lent self.entry.rows) span place }
    {
        self.rows.word_at(span.offset + place.word).offset + place.glyph
    }

    /// What is ahead of a position, if it exists.
    pub fn ahead_of(self, position: Position) -> Option<Ahead<'a>>
        ensures { MatchOption result (exists (lent self.entry.rows) position ≡ false) (λ a. (a.tables ≡ self.entry) × (a.position ≡ position)) }
    {
        if self.exists(position) {
            Some(Ahead {
                tables: self,
                position,
            })
        } else {
            None
        }
    }

    /// How many glyphs are ahead of a position, if it exists. Offsets suffice: no glyph is read.
    pub fn ahead_count(self, position: Position) -> Option<usize>
        ensures { result ≡ ahead_count (lent self.entry.rows) position }
    {
        Some(self.ahead_of(position)?.count())
    }
}

impl Ahead<'_> {
    /// How many glyphs of reading order stand before the position.
    pub fn rank(self) -> usize
        ensures { result ≡ rank (text_at self.entry) self.entry.position }
    {
        let s = self.position.span;
        let rows = self.tables.rows;
        let span = rows.span_at(s);
        let at = self.tables.boundary(span, self.position.place);
        if rows.direction.is_congruent(span.level) {
            at
        } else {
            rows.start_of(s) + rows.start_of(s + 1) - at
        }
    }

    /// How many glyphs are ahead. Offsets suffice: no glyph is read.
    pub fn count(self) -> usize
        ensures { result ≡ length (ahead (text_at self.entry) self.entry.position) }
    {
        self.tables.rows.glyphs.len() - self.rank()
    }
}
