// Why tables are refused, and where.
ghost use Rattle.paragraph.specs.Faults.{number_of, table_name};
ghost use Rattle.std.specs.Prelude.{Some};

use refusals::{Cause, Fault};
use std::fmt;

/// What is wrong with a table, in the order in which it is looked for.
#[derive(Clone, Copy, PartialEq, Eq, Debug)]
pub enum TableCause {
    /// A table has more rows than it may.
    TooManyRows = 1,
    /// A field of a glyph is out of its range.
    GlyphField = 2,
    /// A word does not begin where the one before it ended, or it or the last one does not fit the table of glyphs.
    WordPair = 3,
    /// The same of a span and the table of words, or its level is above 126.
    SpanRow = 4,
    /// The ellipsis has no glyph, or too many, or one with a field out of its range.
    Ellipsis = 5,
}

impl Cause for TableCause {
    const FAULT: &'static str = "TableFault";

    ghost number_of = { number_of };

    fn number(self) -> u8 {
        self as u8
    }
}

/// The table in which a row is at fault.
#[derive(Clone, Copy, PartialEq, Eq, Debug)]
pub enum TableName {
    Glyphs,
    Words,
    Spans,
    Ellipsis,
}

impl fmt::Display for TableName {
    ghost output = { λ t. Some (table_name t) };

    fn fmt<W: fmt::Write>(&self, f: &mut fmt::Formatter<W>) -> fmt::Result {
        f.write_str(match self {
            TableName::Glyphs => "glyphs",
            TableName::Words => "words",
            TableName::Spans => "spans",
            TableName::Ellipsis => "ellipsis",
        })
    }
}

/// The first fault of some tables: what it is, and the row and the table in which it stands.
pub type TableFault = Fault<TableCause, TableName>;
