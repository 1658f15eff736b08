use paragraph::place::Stretch;

/// What a walk laid of a span, and its width, together with the blanks and glyphs of the line so far, and whether a word of the span overflowed.
#[derive(Clone, Copy)]
pub struct SpanPart<W> {
    pub stretch: Stretch,
    pub width: W,
    pub blanks: usize,
    pub laid: usize,
    pub flagged: bool,
}
