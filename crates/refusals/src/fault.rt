// The refusal itself.
ghost use Rattle.refusals.specs.Line.{refusal_bytes};
ghost use Rattle.std.specs.Prelude.{Some};

use crate::cause::Cause;
use std::fmt;

/// A refusal: its cause, and the row and the table that it is about. A table that ends too early is at fault at the row after its last good one, and what
/// has no rows is at fault at row 0, by the format of refusals.
#[derive(Clone, Copy, PartialEq, Eq)]
pub struct Fault<C, T> {
    pub cause: C,
    pub row: usize,
    pub table: T,
}

// As a derive would show a struct with the name that the layer gives its refusals.
impl<C: Cause + fmt::Debug, T: fmt::Debug> fmt::Debug for Fault<C, T> {
    fn fmt<W: fmt::Write>(&self, f: &mut fmt::Formatter<W>) -> fmt::Result {
        f.debug_struct(C::FAULT)
            .field("cause", &self.cause)
            .field("row", &self.row)
            .field("table", &self.table)
            .finish()
    }
}

impl<C: Cause + Copy, T: fmt::Display> fmt::Display for Fault<C, T> {
    ghost output = { λ f. refusal_bytes (C.number_of f.cause) f.row (T.output f.table) };

    fn fmt<W: fmt::Write>(&self, f: &mut fmt::Formatter<W>) -> fmt::Result {
        let number = self.cause.number();
        let row = self.row;
        let table = &self.table;
        write!(f, "refused {number} at {row} in {table}")
    }
}
