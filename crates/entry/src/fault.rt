// Why a call on an entry is refused.
ghost use Rattle.entry.specs.Faults.{call_number, entry_number, entry_refusal};
ghost use Rattle.entry.specs.Tables.{table_name};
ghost use Rattle.entry.specs.declared.fault.EntryFault.TheVariants.{Tables, Call};
ghost use Rattle.std.specs.Prelude.{◌≡◌, Some};

use paragraph::fault::TableFault;
use refusals::{Cause, Fault};
use std::fmt;

/// What is wrong with a call.
#[derive(Clone, Copy, PartialEq, Eq, Debug)]
pub enum CallCause {
    /// The entry is closed.
    Closed = 6,
    /// The entry's position does not exist in the paragraph that is lent, or has another count of glyphs ahead than the entry has left.
    Stranger = 7,
    /// The width is unlawful for the measure.
    UnlawfulWidth = 8,
    /// A list that is to be written has fewer places than the paragraph has spans, plus two.
    ListTooShort = 9,
    /// There is no glyph left to take.
    NothingLeft = 10,
}

impl Cause for CallCause {
    const FAULT: &'static str = "CallFault";

    ghost number_of = { call_number };

    fn number(self) -> u8 {
        self as u8
    }
}

/// What it is wrong with.
#[derive(Clone, Copy, PartialEq, Eq, Debug)]
pub enum CallTable {
    Entry,
    Paragraph,
    Width,
    Ranges,
    Order,
}

impl fmt::Display for CallTable {
    ghost output = { λ t. Some (table_name t) };

    fn fmt<W: fmt::Write>(&self, f: &mut fmt::Formatter<W>) -> fmt::Result {
        f.write_str(match self {
            CallTable::Entry => "entry",
            CallTable::Paragraph => "paragraph",
            CallTable::Width => "width",
            CallTable::Ranges => "ranges",
            CallTable::Order => "order",
        })
    }
}

/// A refusal of a call.
pub type CallFault = Fault<CallCause, CallTable>;

/// A refusal: of the tables that an entry was to be opened on, or of a call.
#[derive(Clone, Copy, PartialEq, Eq, Debug)]
pub enum EntryFault {
    Tables(TableFault),
    Call(CallFault),
}

impl EntryFault {
    /// The refusal's number.
    pub fn number(self) -> u8
        ensures { result ≡ entry_number self }
    {
        match self {
            EntryFault::Tables(fault) => fault.cause.number(),
            EntryFault::Call(fault) => fault.cause.number(),
        }
    }
}

impl fmt::Display for EntryFault {
    ghost output = { entry_refusal };

    fn fmt<W: fmt::Write>(&self, f: &mut fmt::Formatter<W>) -> fmt::Result {
        match self {
            EntryFault::Tables(fault) => fault.fmt(f),
            EntryFault::Call(fault) => fault.fmt(f),
        }
    }
}

// A table's fault goes up whole.
impl From<TableFault> for EntryFault {
    ghost from_gives = { λ e r. r ≡ Tables e };

    fn from(e: TableFault) -> EntryFault {
        EntryFault::Tables(e)
    }
}

impl From<CallFault> for EntryFault {
    ghost from_gives = { λ e r. r ≡ Call e };

    fn from(e: CallFault) -> EntryFault {
        EntryFault::Call(e)
    }
}
