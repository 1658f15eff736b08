// The places of a table that a walk still has to visit.
ghost use Rattle.std.specs.Prelude.{◌+◌, ◌^◌, ◌<◌};

mod visiting;

// Which way a walk goes is what it walks by, no choice of a step.

/// The `count` places from `first` on. A walk up the table visits the first one first, a walk down it the last.
#[derive(Clone, Copy)]
pub struct Places {
    pub up: bool,
    pub first: usize,
    pub count: usize,
    ghost small: { first + count < 2 ^ 64 },
}
