// The numbers of a line.
ghost use Rattle.replay.specs.Numbers.{Reads};
ghost use Rattle.std.specs.Iterator.{Drains, IsFinite};
ghost use Rattle.std.specs.Prelude.{IfOk};

use std::alloc::Global;
use std::error::Error;
use std::str::FromStr;

/// The numbers that the words write, or what is wrong with the first that writes none.
pub fn read_numbers<'a, N: FromStr + Drop, I: Iterator<Item = &'a str> + Drop>(
    heap: Global,
    words: I,
) -> anyhow::Result<Vec<N>>
where
    N::Err: Error,
    requires can { I.can_next words }
    requires ends { IsFinite (I.remaining words) }
    ensures { IfOk result (λ v. (all : _) × Drains I.next_gives words all × Reads N.from_str_gives all v.items) }
{
    let mut numbers = Vec::new(heap);
    for word in words {
        numbers.push(word.parse::<N>()?)?;
    }
    Ok(numbers)
}
