// A refusal without the name that its layer gives it.
ghost use Rattle.std.specs.Prelude.{◌≡◌};

use crate::fault::Fault;
use std::fmt;

/// What a refusal holds, which `{:?}` shows as `Fault`. It asks nothing of a cause but that it can be shown, where `{:?}` of the refusal itself asks the
/// name that its layer gives it.
#[derive_where(Clone, Copy)]
pub struct Unnamed<'a, C, T> {
    pub cause: &'a C,
    pub row: usize,
    pub table: &'a T,
}

impl<C, T> Fault<C, T> {
    /// This refusal, shown by `{:?}` as `Fault`, whatever its cause is.
    pub fn unnamed(&self) -> Unnamed<'_, C, T>
        ensures cause { result.cause.now ≡ self.now.cause }
        ensures row { result.row ≡ self.now.row }
        ensures table { result.table.now ≡ self.now.table }
    {
        Unnamed {
            cause: &self.cause,
            row: self.row,
            table: &self.table,
        }
    }
}

impl<C: fmt::Debug, T: fmt::Debug> fmt::Debug for Unnamed<'_, C, T> {
    fn fmt<W: fmt::Write>(&self, f: &mut fmt::Formatter<W>) -> fmt::Result {
        f.debug_struct("Fault")
            .field("cause", self.cause)
            .field("row", &self.row)
            .field("table", self.table)
            .finish()
    }
}
