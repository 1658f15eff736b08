// Whole runs of calls on an entry, and their laws.
//
// - `run`: the public call, which performs any script on a newly opened entry and records every answer;
// - `opening`: what an entry is opened on;
// - `event`: what is recorded;
// - `fault`: why there is no record;
// - `performing`, `recording`: the calls one after another, and their answers;
// - `laws`: the law of every run, above the definition of what each call answers.
#![tactic(auto)]

pub mod event;
pub mod fault;
pub mod laws;
pub mod opening;
mod performing;
mod recording;
pub mod run;
