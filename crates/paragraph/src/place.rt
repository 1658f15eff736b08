// Places in a span and positions in a paragraph.

/// A place in a span: before the glyph `glyph` of the span's word `word`, or, where the word has no such glyph, at its end.
///
/// The word may be the span's word count, with the glyph 0: the end of the span.
#[derive(Clone, Copy, PartialEq, Eq, Default, Debug)]
pub struct Place {
    pub word: usize,
    pub glyph: usize,
}

/// A part of a span: what stands between two places, in table order.
#[derive(Clone, Copy)]
pub struct Stretch {
    pub start: Place,
    pub end: Place,
}

/// A position in a paragraph: a place in one of its spans.
#[derive(Clone, Copy, PartialEq, Eq, Debug)]
pub struct Position {
    pub span: usize,
    pub place: Place,
}
