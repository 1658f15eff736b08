// What words and spans have in common: each row names a piece of the table below.
ghost use Rattle.std.specs.Prelude.{◌≡◌, ◌≤◌};
ghost use Rattle.paragraph.specs.Pieces.{follows};

/// A piece of the table below, and whether the other fields of the row that names it are in range.
#[derive(Clone, Copy)]
pub struct Piece {
    pub offset: usize,
    pub len: usize,
    pub lawful: bool,
}

impl Piece {
    /// Whether the piece begins at `at` and ends in a table of `n` rows, and its row's other fields are in range.
    ///
    /// The length is held against what is left, so that nothing wraps, whatever the numbers are.
    pub(crate) fn follows(self, at: usize, n: usize) -> bool
        requires { at ≤ n }
        ensures { result ≡ follows at n self }
    {
        self.lawful && self.offset == at && self.len <= n - at
    }
}
