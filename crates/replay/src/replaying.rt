// The lines, one after another.
ghost use Rattle.replay.specs.Replaying.{Replayed};
ghost use Rattle.std.specs.Prelude.{IfOk};

use crate::tally::Tally;
use std::alloc::{AllocGlobal, Global};
use std::io::Read;

/// Compares each line of standard input, prints the first that differs, and counts them.
pub fn replay<A: Fn(Global, &str) -> anyhow::Result<bool>>(
    rt: &(impl Input + Print + AllocGlobal),
    agrees: A,
) -> anyhow::Result<Tally>
    requires { A.IsAlwaysCallable agrees }
    ensures { IfOk result (λ tally. Replayed (A.post agrees) usize.MAX tally.lines tally.differ) }
{
    let mut text = String::new(rt.alloc());
    rt.reader().read_to_string(&mut text)?;
    let mut tally = Tally::new();
    for line in text.lines() {
        let same = agrees(rt.alloc(), line)?;
        tally = tally.with(same);
        if !same && tally.differ == 1 {
            let number = tally.lines;
            println!(rt; "line {number} differs: {line}")?;
        }
    }
    Ok(tally)
}
