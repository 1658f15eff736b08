// What is written for each answer.
ghost use Rattle.std.specs.Prelude.{◌≡◌, [], ◌∷◌, ◌++◌, IfOk, IfSome, string_bytes};
ghost use Rattle.std.specs.List.{flat_map};
ghost use Rattle.strip_text.specs.Printed.{opened_row, tally_row, ellipsis_row, place_text, span_row, range_row, elided_row, order_row, line_row, spaced};
ghost use Rattle.paragraph.specs.Lent.{lent};

use entry::progress::Tally;
use layout::elided::glyphs_of_range;
use layout::line::ElidedBytes;
use paragraph::place::Place;
use paragraph::tables::Tables;
use std::alloc::{AllocError, Global};
use std::fmt::Display;
use walk::line::VlRange;

/// A refusal, whatever its cause and table are.
pub(crate) fn refusal_row<F: Display>(heap: Global, fault: &F) -> Result<String, AllocError>
    ensures { IfOk result (λ s. IfSome (F.output fault.now) (λ row. string_bytes s ≡ row ++ (10 ∷ []))) }
{
    format!(in heap; "{fault}\n")
}

/// What is written where tables are granted: how many rows they have.
pub(crate) fn opened_row(
    heap: Global,
    glyphs: usize,
    words: usize,
    spans: usize,
) -> Result<String, AllocError>
    ensures { IfOk result (λ s. string_bytes s ≡ opened_row glyphs words spans) }
{
    format!(in heap; "opened {glyphs} {words} {spans}\n")
}

pub(crate) fn tally_row(heap: Global, tally: Tally) -> Result<String, AllocError>
    ensures { IfOk result (λ s. string_bytes s ≡ tally_row tally) }
{
    let lines = tally.lines;
    let laid = tally.laid;
    let hidden = tally.hidden;
    let left = tally.left;
    format!(in heap; "tally lines {lines} laid {laid} hidden {hidden} left {left}\n")
}

/// The first row of a line.
pub(crate) fn line_row(
    heap: Global,
    number: usize,
    ranges: usize,
    blanks: usize,
    width: &str,
) -> Result<String, AllocError>
    ensures { IfOk result (λ s. string_bytes s ≡ line_row number ranges blanks width.now) }
{
    format!(in heap; "line {number}: ranges {ranges}, blanks {blanks}, width {width}\n")
}

fn place_text(heap: Global, place: Place) -> Result<String, AllocError>
    ensures { IfOk result (λ s. string_bytes s ≡ place_text place) }
{
    let word = place.word;
    let glyph = place.glyph;
    format!(in heap; "({word},{glyph})")
}

fn span_row(heap: Global, span: usize, range: VlRange, glyphs: usize) -> Result<String, AllocError>
    ensures { IfOk result (λ s. string_bytes s ≡ span_row span range glyphs) }
{
    let start = place_text(heap, range.start)?;
    let end = place_text(heap, range.end)?;
    let from = start.as_str();
    let to = end.as_str();
    let level = range.level;
    format!(in heap; "range {span} {from}-{to} level {level} glyphs {glyphs}\n")
}

fn ellipsis_row(heap: Global, level: u8) -> Result<String, AllocError>
    ensures { IfOk result (λ s. string_bytes s ≡ ellipsis_row level) }
{
    format!(in heap; "range ellipsis level {level}\n")
}

fn range_row(heap: Global, tables: Tables<'_>, range: VlRange) -> Result<String, AllocError>
    ensures { IfOk result (λ s. string_bytes s ≡ range_row (lent tables.entry) range) }
{
    match range.span {
        Some(span) => span_row(heap, span, range, glyphs_of_range(tables, range).len()),
        None => ellipsis_row(heap, range.level),
    }
}

/// A row for each range.
pub(crate) fn range_rows(
    heap: Global,
    tables: Tables<'_>,
    ranges: &[VlRange],
) -> Result<String, AllocError>
    ensures { IfOk result (λ s. string_bytes s ≡ flat_map (range_row (lent tables.entry)) ranges.now) }
{
    let mut rows = String::new(heap);
    for range in ranges {
        rows.push_str(range_row(heap, tables, *range)?.as_str())?;
    }
    Ok(rows)
}

/// The bytes that an ellipsis stands for, where it stands.
pub(crate) fn elided_row(heap: Global, elided: Option<ElidedBytes>) -> Result<String, AllocError>
    ensures { IfOk result (λ s. string_bytes s ≡ elided_row elided) }
{
    match elided {
        Some(bytes) => {
            let start = bytes.start;
            let end = bytes.end;
            format!(in heap; "elided {start} to {end}\n")
        }
        None => Ok(String::new(heap)),
    }
}

// Each number with a space before it.
fn spaced_numbers(heap: Global, numbers: &[usize]) -> Result<String, AllocError>
    ensures { IfOk result (λ s. string_bytes s ≡ flat_map spaced numbers.now) }
{
    let mut spaced = String::new(heap);
    for number in numbers {
        write!(spaced, " {number}")?;
    }
    Ok(spaced)
}

/// The ranges' places from left to right.
pub(crate) fn order_row(heap: Global, order: &[usize]) -> Result<String, AllocError>
    ensures { IfOk result (λ s. string_bytes s ≡ order_row order.now) }
{
    let places = spaced_numbers(heap, order)?;
    let places = places.as_str();
    format!(in heap; "order{places}\n")
}
