// Why no order is written: a cause, a row and a table.
ghost use Rattle.visual_order.specs.Cause.{cause_number};
ghost use Rattle.visual_order.specs.Tables.{table_name};
ghost use Rattle.std.specs.Prelude.{Some};

use refusals::{Cause, Fault};
use std::fmt;

/// What is wrong.
#[derive(Clone, Copy, PartialEq, Eq, Debug)]
pub enum OrderCause {
    /// A table has more rows than are allowed.
    TooManyRows = 1,
    /// A list that is to be written has fewer places than it needs.
    ListTooShort = 9,
}

impl Cause for OrderCause {
    const FAULT: &'static str = "OrderFault";

    ghost number_of = { cause_number };

    fn number(self) -> u8 {
        self as u8
    }
}

/// Where it is wrong.
#[derive(Clone, Copy, PartialEq, Eq, Debug)]
pub enum OrderTable {
    /// The elements to put in order.
    Elements,
    /// The caller's list, which the order is written to.
    Order,
}

impl fmt::Display for OrderTable {
    ghost output = { λ t. Some (table_name t) };

    fn fmt<W: fmt::Write>(&self, f: &mut fmt::Formatter<W>) -> fmt::Result {
        f.write_str(match self {
            OrderTable::Elements => "elements",
            OrderTable::Order => "order",
        })
    }
}

/// A refusal. The row is the one after the last good one.
pub type OrderFault = Fault<OrderCause, OrderTable>;
