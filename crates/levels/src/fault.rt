// What a refusal of the tables of a line says.
ghost use Rattle.levels.specs.Faults.{number_of};
ghost use Rattle.levels.specs.Tables.{table_name};
ghost use Rattle.std.specs.Prelude.{Some};

use refusals::{Cause, Fault};
use std::fmt;

/// Why the tables were refused.
#[derive(Clone, Copy, Debug, PartialEq, Eq)]
pub enum ClassCause {
    /// What their supplier gave does not fit together.
    Unfit = 11,
}

impl Cause for ClassCause {
    const FAULT: &'static str = "ClassFault";

    ghost number_of = { number_of };

    fn number(self) -> u8 {
        self as u8
    }
}

/// The table that a refusal is about.
#[derive(Clone, Copy, Debug, PartialEq, Eq)]
pub enum ClassTable {
    /// The class of each character.
    Classes,
    /// The number of bytes of each character.
    Lengths,
    /// The level of each byte.
    Levels,
    /// The level of the paragraph, a table without rows.
    ParagraphLevel,
}

impl fmt::Display for ClassTable {
    ghost output = { λ t. Some (table_name t) };

    fn fmt<W: fmt::Write>(&self, f: &mut fmt::Formatter<W>) -> fmt::Result {
        f.write_str(match self {
            ClassTable::Classes => "classes",
            ClassTable::Lengths => "lengths",
            ClassTable::Levels => "levels",
            ClassTable::ParagraphLevel => "paragraph level",
        })
    }
}

/// A refusal of the tables of a line.
pub type ClassFault = Fault<ClassCause, ClassTable>;
