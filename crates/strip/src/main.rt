// Reads paragraphs, measures and calls from standard input, and prints what the calls answer: the answer of `strip_text::answer`.
#![tactic(auto)]

use std::io;
use std::process::ExitCode;
use strip_text::answer;

fn main(rt: HostRuntime) -> io::Result<ExitCode> {
    program::run(&rt, "strip", |heap, input| answer(heap, input))
}
