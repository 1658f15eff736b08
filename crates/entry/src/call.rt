// The calls that an open entry answers, as values.
use layout::line::Ellipsize;

/// A call on an entry.
#[derive(Clone, Copy)]
pub enum Call<W> {
    /// Lay a line of this width.
    Take {
        width: W,
    },
    /// Lay what is ahead as the last line.
    Close {
        ellipsize: Ellipsize,
        width: Option<W>,
    },
    /// Tell how far the entry has come.
    Count,
}
