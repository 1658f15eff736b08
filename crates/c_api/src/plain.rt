// Records as plain numbers, and what they are here. C has no enums and no options, so a flag stands beside a value that may be missing, and a code for a mode.
use glyph::glyph::Glyph;
use layout::line::{Ellipsize, VisualLine};
use paragraph::direction::Direction;
use paragraph::place::{Place, Position};
use paragraph::span::Span;
use paragraph::word::Word;
use walk::line::VlRange;

/// A glyph as numbers.
#[repr(C)]
#[derive(Clone, Copy, Default)]
pub struct PlainGlyph {
    pub start: u16,
    pub end: u16,
    pub advance: f32,
    pub has_size: bool,
    pub size: f32,
}

/// A word or a span as numbers: whether it is blank, or its level, and where its rows stand.
#[repr(C)]
#[derive(Clone, Copy, Default)]
pub struct PlainRow {
    pub kind: u8,
    pub offset: usize,
    pub len: usize,
}

/// A range as numbers.
#[repr(C)]
#[derive(Clone, Copy)]
pub struct PlainRange {
    pub has_span: bool,
    pub span: usize,
    pub start_word: usize,
    pub start_glyph: usize,
    pub end_word: usize,
    pub end_glyph: usize,
    pub level: u8,
}

/// What is asked: the measure's size, the position, the mode (1 start, 2 middle, 3 end, else none), the width if there is one, the paragraph's
/// direction, and how often the line is to be laid.
#[repr(C)]
#[derive(Clone, Copy)]
pub struct LineQuestion {
    pub size: f32,
    pub span: usize,
    pub word: usize,
    pub glyph: usize,
    pub mode: u8,
    pub has_width: bool,
    pub width: f32,
    pub rtl: bool,
    pub times: usize,
}

/// A closing line as numbers: its ranges, blank words and glyphs, its width, whether the ellipsis stands, and the elided bytes.
#[repr(C)]
#[derive(Clone, Copy)]
pub struct LineAnswer {
    pub ranges: usize,
    pub blanks: usize,
    pub laid: usize,
    pub width: f32,
    pub ellipsized: bool,
    pub start: usize,
    pub end: usize,
}

impl From<PlainGlyph> for Glyph {
    fn from(plain: PlainGlyph) -> Glyph {
        Glyph {
            start: plain.start,
            end: plain.end,
            advance: plain.advance,
            size: plain.has_size.then_some(plain.size),
            units: 0,
            cells: 0,
        }
    }
}

impl From<PlainRow> for Word {
    fn from(plain: PlainRow) -> Word {
        Word {
            blank: plain.kind != 0,
            offset: plain.offset,
            len: plain.len,
        }
    }
}

impl From<PlainRow> for Span {
    fn from(plain: PlainRow) -> Span {
        Span {
            level: plain.kind,
            offset: plain.offset,
            len: plain.len,
        }
    }
}

impl From<VlRange> for PlainRange {
    fn from(range: VlRange) -> PlainRange {
        PlainRange {
            has_span: range.span.is_some(),
            span: range.span.unwrap_or(0),
            start_word: range.start.word,
            start_glyph: range.start.glyph,
            end_word: range.end.word,
            end_glyph: range.end.glyph,
            level: range.level,
        }
    }
}

impl From<VisualLine<f32>> for LineAnswer {
    fn from(line: VisualLine<f32>) -> LineAnswer {
        let (start, end) = line.elided.map_or((0, 0), |bytes| (bytes.start, bytes.end));
        LineAnswer {
            ranges: line.ranges,
            blanks: line.blanks,
            laid: line.laid,
            width: line.width,
            ellipsized: line.elided.is_some(),
            start,
            end,
        }
    }
}

/// The mode of a code: 0 none, 1 start, 2 middle, 3 end.
pub(crate) fn mode_of(code: u8) -> Option<Ellipsize> {
    match code {
        0 => Some(Ellipsize::None),
        1 => Some(Ellipsize::Start),
        2 => Some(Ellipsize::Middle),
        3 => Some(Ellipsize::End),
        _ => None,
    }
}

impl LineQuestion {
    pub(crate) fn position(&self) -> Position {
        Position {
            span: self.span,
            place: Place {
                word: self.word,
                glyph: self.glyph,
            },
        }
    }

    pub(crate) fn mode(&self) -> Ellipsize {
        mode_of(self.mode).unwrap_or(Ellipsize::None)
    }

    pub(crate) fn width(&self) -> Option<f32> {
        self.has_width.then_some(self.width)
    }

    pub(crate) fn direction(&self) -> Direction {
        if self.rtl {
            Direction::RightToLeft
        } else {
            Direction::LeftToRight
        }
    }
}
