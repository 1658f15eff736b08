// Prints the visual order of a text, and the text as it is seen. Line 1 of the input is the text and line 2 a level for each
// of its characters; line 3, which may be left out, asks for the level resets of rule L1 first: the paragraph's level, and
// the name of each character's bidi class. What is printed is the answer of `seen_text::answer`.
#![tactic(auto)]

use seen_text::answer;
use std::io;
use std::process::ExitCode;

fn main(rt: HostRuntime) -> io::Result<ExitCode> {
    program::run(&rt, "seen", |heap, input| answer(heap, input))
}
