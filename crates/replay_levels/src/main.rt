// Replays recorded lines: `PARAGRAPH LEVEL ; CLASSES ; BYTE LENGTHS ; LEVELS ; EXPECTED LEVELS`, the classes by name, the
// rest as decimals, one class and length for each character and one level for each byte. Says how many lines there are
// and that none differs, or shows the first whose levels after `adjust_levels` are not the expected ones.
#![tactic(auto)]

ghost use Rattle.levels.specs.Refusals.{verdict};
ghost use Rattle.levels.specs.RuleL1.{adjusted};
ghost use Rattle.std.specs.Prelude.{◌≡◌, true, is_ok};

use anyhow::Context;
use levels::{BidiClass, adjust_levels};
use replay::read_numbers;
use std::alloc::Global;
use std::io::{BufRead, BufReader};

#[derive(Drop)]
struct Case {
    paragraph_level: u8,
    classes: Vec<u8>,
    lengths: Vec<u8>,
    levels: Vec<u8>,
    expected: Vec<u8>,
}

fn numbers(heap: Global, field: &str) -> anyhow::Result<Vec<u8>> {
    read_numbers(heap, field.split_whitespace())
}

// The raw codes of the classes that are named.
fn codes(heap: Global, field: &str) -> anyhow::Result<Vec<u8>> {
    let mut codes = Vec::new(heap);
    for name in field.split_whitespace() {
        codes.push(BidiClass::from_name(name).context("no class")?.code())?;
    }
    Ok(codes)
}

fn read_case(heap: Global, line: &str) -> anyhow::Result<Case> {
    let mut fields = line.split(';');
    let mut field = || fields.next().context("a field is missing");
    let paragraph_level = field()?.trim().parse::<u8>()?;
    let classes = codes(heap, field()?)?;
    let lengths = numbers(heap, field()?)?;
    let levels = numbers(heap, field()?)?;
    let expected = numbers(heap, field()?)?;
    Ok(Case {
        paragraph_level,
        classes,
        lengths,
        levels,
        expected,
    })
}

impl Case {
    // Whether the line is granted and its levels, which are written over, come out as expected.
    fn agrees(&mut self) -> bool
        ensures { result ≡ true → (is_ok (verdict self.old.paragraph_level self.old.classes.items self.old.lengths.items self.old.levels.items) ≡ true) × (adjusted self.old.paragraph_level self.old.classes.items self.old.lengths.items self.old.levels.items ≡ self.old.expected.items) }
    {
        adjust_levels(
            self.paragraph_level,
            &self.classes,
            &self.lengths,
            &mut self.levels,
        )
        .is_ok()
            && self.levels == self.expected
    }
}

// What is wrong with a line, if anything is.
fn complaint(heap: Global, line: &str) -> Option<&'static str> {
    match read_case(heap, line) {
        Ok(mut case) => (!case.agrees()).then_some("differs"),
        Err(_) => Some("is not a case"),
    }
}

// Not `replay::replay`, which goes on behind a line that differs, and ends at one that is no case with an error: this ends at either with its line.
fn main(rt: HostRuntime) -> anyhow::Result<()> {
    let mut count: u64 = 0;
    for line in BufReader::new(rt.alloc(), rt.stdin())?.lines(rt.alloc()) {
        let line = line?;
        count = count.saturating_add(1);
        if let Some(wrong) = complaint(rt.alloc(), &line) {
            println!(rt; "line {count} {wrong}: {line}")?;
            return Ok(());
        }
    }
    println!(rt; "{count} lines, 0 differ")?;
    Ok(())
}
