// What a walk is given and what it tells.
use paragraph::place::Place;

/// Which way a walk goes: in reading order from the position on, or from the paragraph's end back to the position.
#[derive(Clone, Copy)]
pub enum LayoutDirection {
    Forward,
    Backward,
}

/// When a word overflows, and what it gives then.
#[derive(Clone, Copy)]
pub enum Rule<W> {
    /// Never.
    Never,
    /// The rule of closing lines: a word overflows if it passes the width, or if it leaves no room for the ellipsis and what is still to walk is wider
    /// than the ellipsis. It gives the glyphs that leave room for the ellipsis.
    Closing { width: W, ellipsis: W },
    /// The rule of lines that are taken: a word overflows if it has a glyph ahead and passes the width. It gives a glyph or more if the line has
    /// none yet, else nothing.
    Taking { width: W },
}

/// A range of a line: a part of a span between two places in table order, with the span's level. The ellipsis is a range that names no span, from
/// (0, 0) to (1, 0).
#[derive(Clone, Copy, PartialEq, Eq, Default, Debug)]
pub struct VlRange {
    pub span: Option<usize>,
    pub start: Place,
    pub end: Place,
    pub level: u8,
}

/// What a walk laid: how many ranges, how many blank words were walked without overflow, how many glyphs, how wide they are, and whether a word
/// overflowed.
#[derive(Clone, Copy)]
pub struct Walked<W> {
    pub ranges: usize,
    pub blanks: usize,
    pub laid: usize,
    pub width: W,
    pub flagged: bool,
}
