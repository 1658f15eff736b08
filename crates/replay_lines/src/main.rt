// Replays stored answers of the Rust's `layout_line`, on points. A line of standard input is one case: seven parts of numbers, parted by ` ; `, all whole,
// floats as the bits of an f32:
//
//     question ; glyphs ; words ; spans ; ellipsis ; ranges ; line
//
// - question: rtl (0 or 1), span, word, glyph, mode (0 none, 1 start, 2 middle, 3 end), whether there is a width, the width, the size;
// - each glyph, of the ellipsis too: start, end, advance, whether it has a size of its own, that size;
// - each word: blank (0 or 1), offset, length; each span: level, offset, length;
// - each range that the Rust gave: whether it names a span, the span, start word and glyph, end word and glyph, level;
// - the line that the Rust gave: blanks, width, whether the ellipsis stands, elided start and end.
//
// Prints how many lines there are and how many of them are answered otherwise here, and the first of those.
#![tactic(auto)]

ghost use Rattle.std.specs.Prelude.{◌<◌};

use anyhow::{Context, bail};
use glyph::glyph::Glyph;
use layout::layout_line::layout_line;
use layout::line::{Ellipsize, VisualLine};
use measure::points::Points;
use paragraph::direction::Direction;
use paragraph::paragraph::Paragraph;
use paragraph::place::{Place, Position};
use paragraph::span::Span;
use paragraph::tables::OwnedTables;
use paragraph::word::Word;
use replay::{read_numbers, replay};
use std::alloc::Global;
use std::num::{f32_from_bits_with_nan, f32_to_bits_with_nan};
use walk::line::VlRange;

// The numbers of a part of a case, with spaces between them.
fn numbers(heap: Global, part: &str) -> anyhow::Result<Vec<u32>> {
    read_numbers(heap, part.split(' ').filter(|word| !word.is_empty()))
}

// The rows of a part, of so many numbers each, and what each stands for.
fn rows<T: Drop, F: Fn(&[u32]) -> T>(
    heap: Global,
    part: &str,
    size: usize,
    made: F,
) -> anyhow::Result<Vec<T>>
    requires size { 0 < size }
    requires made { F.IsAlwaysCallable made }
{
    let numbers = numbers(heap, part)?;
    let mut table = Vec::new(heap);
    for row in numbers.as_slice().chunks(size) {
        table.push(made(row))?;
    }
    Ok(table)
}

// The first numbers of a row. Those that it lacks are 0: stored cases are numbers, so zeros, flags and codes stand for options and modes.
fn first_of<const N: usize>(row: &[u32]) -> [u32; N] {
    let mut first = [0; N];
    for (number, given) in first.iter_mut().zip(row) {
        *number = *given;
    }
    first
}

// A number's lower half, and its lowest byte: `try_from` would refuse numbers that are read so.
fn small(n: u32) -> u16 {
    (n % 65_536) as u16
}

fn tiny(n: u32) -> u8 {
    (n % 256) as u8
}

fn glyph_in(row: &[u32]) -> Glyph {
    let [start, end, advance, has_size, size] = first_of::<5>(row);
    Glyph {
        start: small(start),
        end: small(end),
        advance: f32_from_bits_with_nan(advance),
        size: (has_size != 0).then_some(f32_from_bits_with_nan(size)),
        units: 0,
        cells: 0,
    }
}

fn word_in(row: &[u32]) -> Word {
    let [blank, offset, len] = first_of::<3>(row);
    Word {
        blank: blank != 0,
        offset: offset as usize,
        len: len as usize,
    }
}

fn span_in(row: &[u32]) -> Span {
    let [level, offset, len] = first_of::<3>(row);
    Span {
        level: tiny(level),
        offset: offset as usize,
        len: len as usize,
    }
}

// What is asked.
#[derive(Clone, Copy)]
struct Question {
    direction: Direction,
    position: Position,
    mode: Ellipsize,
    width: Option<f32>,
    size: f32,
}

fn question_in(heap: Global, part: &str) -> anyhow::Result<Question> {
    let numbers = numbers(heap, part)?;
    let [rtl, span, word, glyph, mode, has_width, width, size] = first_of::<8>(numbers.as_slice());
    Ok(Question {
        direction: if rtl == 0 {
            Direction::LeftToRight
        } else {
            Direction::RightToLeft
        },
        position: Position {
            span: span as usize,
            place: Place {
                word: word as usize,
                glyph: glyph as usize,
            },
        },
        mode: match mode {
            1 => Ellipsize::Start,
            2 => Ellipsize::Middle,
            3 => Ellipsize::End,
            _ => Ellipsize::None,
        },
        width: (has_width != 0).then_some(f32_from_bits_with_nan(width)),
        size: f32_from_bits_with_nan(size),
    })
}

// A number of the answer; those of a case are below 2^32.
fn told(n: usize) -> u32 {
    u32::try_from(n).unwrap_or(u32::MAX)
}

// A range, and a line besides its ranges, as the numbers that a case has for them.
fn range_numbers(range: &VlRange) -> [u32; 7] {
    [
        u32::from(range.span.is_some()),
        range.span.map_or(0, told),
        told(range.start.word),
        told(range.start.glyph),
        told(range.end.word),
        told(range.end.glyph),
        u32::from(range.level),
    ]
}

fn line_numbers(line: &VisualLine<f32>) -> [u32; 5] {
    let (stands, start, end) = match line.elided {
        Some(elided) => (1, told(elided.start), told(elided.end)),
        None => (0, 0, 0),
    };
    [
        told(line.blanks),
        f32_to_bits_with_nan(line.width),
        stands,
        start,
        end,
    ]
}

// Whether the line on a checked paragraph is the expected one.
fn is_expected(
    heap: Global,
    paragraph: &Paragraph,
    q: Question,
    ranges: &[u32],
    line: &[u32],
) -> anyhow::Result<bool> {
    let Ok(points) = Points::new(q.size) else {
        bail!("a size out of range");
    };
    let tables = paragraph.tables();
    let Some(ahead) = tables.ahead_of(q.position) else {
        bail!("a position that does not exist");
    };
    let mut list = vec![in heap; VlRange::default(); tables.rows.spans.len() + 2]?;
    let got = layout_line(
        &points,
        ahead,
        paragraph.ellipsis(),
        q.mode,
        q.width,
        0,
        list.as_mut_slice(),
    );
    let Some(laid) = list.as_slice().get(..got.ranges) else {
        return Ok(false);
    };
    let mut shown = Vec::new(heap);
    for range in laid {
        shown.extend_from_slice(&range_numbers(range))?;
    }
    Ok(shown.as_slice() == ranges && line_numbers(&got).as_slice() == line)
}

fn agrees(heap: Global, case: &str) -> anyhow::Result<bool> {
    let mut parts = case.split(';');
    let mut part = || parts.next().context("a part is missing");
    let q = question_in(heap, part()?)?;
    let tables = OwnedTables {
        glyphs: rows(heap, part()?, 5, glyph_in)?,
        words: rows(heap, part()?, 3, word_in)?,
        spans: rows(heap, part()?, 3, span_in)?,
        ellipsis: rows(heap, part()?, 5, glyph_in)?,
        direction: q.direction,
    };
    let ranges = numbers(heap, part()?)?;
    let line = numbers(heap, part()?)?;
    let mut paragraph = Paragraph::empty(heap);
    let Ok(()) = paragraph.fill(tables) else {
        bail!("tables that are refused");
    };
    is_expected(heap, &paragraph, q, ranges.as_slice(), line.as_slice())
}

fn main(rt: HostRuntime) -> anyhow::Result<()> {
    let tally = replay(&rt, |heap, case| agrees(heap, case))?;
    println!(rt; "{tally}")?;
    Ok(())
}
