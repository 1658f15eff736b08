// Replays stored answers of the Rust: each line of standard input has levels and the order that the Rust gave for them, as
// `2 2 1 ; 2 0 1`. Prints how many lines there are and how many of them `reorder` answers otherwise, and the first of those.
#![tactic(auto)]

use anyhow::Context;
use replay::{read_numbers, replay};
use std::alloc::Global;
use visual_order::reorder;

// The numbers of a part of a line, with single spaces between them.
fn numbers(heap: Global, part: &str) -> anyhow::Result<Vec<usize>> {
    if part.is_empty() {
        return Ok(Vec::new(heap));
    }
    read_numbers(heap, part.split(' '))
}

// The levels of a part of a line.
fn levels(heap: Global, part: &str) -> anyhow::Result<Vec<u8>> {
    let mut levels = Vec::new(heap);
    for number in &numbers(heap, part)? {
        levels.push(u8::try_from(*number)?)?;
    }
    Ok(levels)
}

// Whether `reorder` answers what the line says.
fn agrees(heap: Global, line: &str) -> anyhow::Result<bool> {
    let (given, expected) = line.split_once(" ; ").context("no levels and order")?;
    let levels = levels(heap, given)?;
    let expected = numbers(heap, expected)?;
    let mut order = vec![in heap; 0; expected.len()]?;
    Ok(levels.len() == expected.len() && reorder(&levels, &mut order).is_ok() && order == expected)
}

fn main(rt: HostRuntime) -> anyhow::Result<()> {
    let tally = replay(&rt, |heap, line| agrees(heap, line))?;
    println!(rt; "{tally}")?;
    Ok(())
}
