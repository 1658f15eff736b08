// What a closing line is asked for and what it tells.
ghost use Rattle.std.specs.Prelude.{◌≡◌, None};

use walk::line::Walked;

/// Where the ellipsis of a line that does not fit stands: the Rust's own four modes, so `None` is one of them.
#[derive(Clone, Copy)]
pub enum Ellipsize {
    /// Nowhere: nothing overflows.
    None,
    Start,
    Middle,
    End,
}

/// The bytes of the text that an ellipsis stands for: from `start` up to `end`. Where the end is below the start there is none.
#[derive(Clone, Copy)]
pub struct ElidedBytes {
    pub start: usize,
    pub end: usize,
}

/// A line: how many ranges it has, its blank words, its glyphs, its width, and, where the ellipsis stands, the bytes that it stands for.
#[derive(Clone, Copy)]
pub struct VisualLine<W> {
    pub ranges: usize,
    pub blanks: usize,
    pub laid: usize,
    pub width: W,
    pub elided: Option<ElidedBytes>,
}

/// A walk as a line without the ellipsis.
impl<W> From<Walked<W>> for VisualLine<W> {
    ghost from_gives = { λ walked line. line ≡ record { ranges = walked.ranges; blanks = walked.blanks; laid = walked.laid; width = walked.width; elided = None } };

    fn from(walked: Walked<W>) -> VisualLine<W> {
        VisualLine {
            ranges: walked.ranges,
            blanks: walked.blanks,
            laid: walked.laid,
            width: walked.width,
            elided: None,
        }
    }
}
