// A paragraph's tables, their check, and the geometry of positions in them.
//
// The records: word, span, place, direction, tables, ahead. The check: fault, piece, row, check. What was checked: paragraph.
// The geometry: reading, lookup, geometry, before, part. How it fits together: laws.
#![tactic(auto)]

pub mod ahead;
pub mod before;
pub mod check;
pub mod direction;
pub mod fault;
pub mod geometry;
pub mod laws;
pub mod lookup;
pub mod paragraph;
pub mod part;
pub mod piece;
pub mod place;
pub mod reading;
pub mod row;
pub mod span;
pub mod tables;
pub mod word;

pub use refusals::Cause;
