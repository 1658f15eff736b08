// What Rust and C link, to hold the library against other code and to time it. A slice is passed as a pointer and a length; 0 answers a granted call, and the
// number of the cause a refused one.
//
// - `order`, `level_resets`, `points`, `lines`, `entries`: what is exported;
// - `plain`: the records that cross, as plain numbers; `status`: what a call answers.
#![tactic(auto)]

pub mod entries;
pub mod level_resets;
pub mod lines;
pub mod order;
pub mod plain;
pub mod points;
mod status;
