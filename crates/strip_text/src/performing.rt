// An entry opened, and the calls performed on it.
ghost use Rattle.std.specs.Prelude.{◌≡◌, take, length, IfOk, string_bytes};
ghost use Rattle.strip_text.specs.Printed.{opened_row};

use crate::head::Head;
use crate::seen::seen_row;
use crate::steps::{Lent, Step};
use crate::width_text::WidthText;
use crate::written::{
    elided_row, line_row, opened_row, order_row, range_rows, refusal_row, tally_row,
};
use entry::call::Call;
use entry::entry::Entry;
use layout::line::VisualLine;
use measure::measure::Measure;
use paragraph::paragraph::Paragraph;
use paragraph::tables::OwnedTables;
use std::alloc::{AllocError, Global};
use walk::line::VlRange;

// The two paragraphs that calls may be lent.
#[derive(Drop)]
struct Paragraphs {
    own: Paragraph,
    other: Paragraph,
    lent: Lent,
}

impl Paragraphs {
    fn empty(heap: Global) -> Paragraphs {
        Paragraphs {
            own: Paragraph::empty(heap),
            other: Paragraph::empty(heap),
            lent: Lent::Own,
        }
    }

    fn lent(&self) -> &Paragraph {
        match self.lent {
            Lent::Own => &self.own,
            Lent::Other => &self.other,
        }
    }
}

// The two lists that calls are lent.
#[derive(Drop)]
struct Lists {
    ranges: Vec<VlRange>,
    order: Vec<usize>,
}

impl Lists {
    fn new(heap: Global, ranges: usize, order: usize) -> Result<Lists, AllocError>
        ensures { IfOk result (λ lists. (length lists.ranges.items ≡ ranges) × (length lists.order.items ≡ order)) }
    {
        Ok(Lists {
            ranges: vec![in heap; VlRange::default(); ranges]?,
            order: vec![in heap; 0; order]?,
        })
    }
}

// The first `count` items of a list, or all if it has fewer: one line, for which a crate to share it with others would be no plainer.
fn first_of<T>(list: &[T], count: usize) -> &[T]
    ensures { result.now ≡ take count list.now }
{
    &list[..count.min(list.len())]
}

// An open entry, what its calls are lent, and the text, if it is given.
#[derive(Drop)]
struct Session<'a, M> {
    heap: Global,
    text: Option<&'a str>,
    entry: Entry<M>,
    paragraphs: Paragraphs,
    lists: Lists,
}

impl<W: WidthText, M: Measure<Width = W>> Session<'_, M> {
    // Performs a step, and writes what it answers.
    fn step(&mut self, step: Step<W>) -> Result<String, AllocError> {
        match step {
            Step::Call(call) => return self.call(call),
            Step::Lists { ranges, order } => {
                self.lists = Lists::new(self.heap, usize::from(ranges), usize::from(order))?;
            }
            Step::Lend(lent) => self.paragraphs.lent = lent,
        }
        Ok(String::new(self.heap))
    }

    fn call(&mut self, call: Call<W>) -> Result<String, AllocError> {
        let entry = &mut self.entry;
        let paragraph = self.paragraphs.lent();
        let ranges = self.lists.ranges.as_mut_slice();
        let order = self.lists.order.as_mut_slice();
        let answer = match call {
            Call::Count => return tally_row(self.heap, entry.tally()),
            Call::Take { width } => entry.take(paragraph, width, ranges, order),
            Call::Close { ellipsize, width } => {
                entry.close(paragraph, ellipsize, width, ranges, order)
            }
        };
        match answer {
            Ok(line) => self.line_rows(line),
            Err(fault) => refusal_row(self.heap, &fault),
        }
    }

    // What a line that was laid looks like: its rows, and, where the text is given, how it is seen.
    fn line_rows(&self, line: VisualLine<W>) -> Result<String, AllocError> {
        let heap = self.heap;
        let tables = self.paragraphs.lent().tables().rows;
        let ranges = first_of(self.lists.ranges.as_slice(), line.ranges);
        let order = first_of(self.lists.order.as_slice(), line.ranges);
        let number = self.entry.tally().lines;
        let width = line.width.write_width(heap)?;
        let mut rows = line_row(heap, number, line.ranges, line.blanks, width.as_str())?;
        rows.push_str(range_rows(heap, tables, ranges)?.as_str())?;
        rows.push_str(elided_row(heap, line.elided)?.as_str())?;
        rows.push_str(order_row(heap, order)?.as_str())?;
        if let Some(text) = self.text {
            rows.push_str(seen_row(heap, text, tables, ranges, order)?.as_str())?;
        }
        Ok(rows)
    }
}

// What is written where these tables are granted.
fn granted_row(heap: Global, tables: &OwnedTables) -> Result<String, AllocError>
    ensures { IfOk result (λ s. string_bytes s ≡ opened_row (length tables.now.glyphs.items) (length tables.now.words.items) (length tables.now.spans.items)) }
{
    opened_row(
        heap,
        tables.glyphs.len(),
        tables.words.len(),
        tables.spans.len(),
    )
}

// Fills another paragraph, which stays empty if its tables are refused.
fn fill_other(
    heap: Global,
    other: &mut Paragraph,
    tables: OwnedTables,
) -> Result<String, AllocError> {
    let granted = granted_row(heap, &tables)?;
    let row = match other.fill(tables) {
        Ok(()) => granted,
        Err(fault) => refusal_row(heap, &fault)?,
    };
    format!(in heap; "other {row}")
}

/// Opens an entry on the tables, performs the steps on it, and writes what each answers. Where the tables are refused there is no entry to call.
pub(crate) fn perform<W: WidthText, M: Measure<Width = W> + Drop>(
    heap: Global,
    head: Head<'_>,
    measure: M,
    steps: &[Step<W>],
) -> Result<String, AllocError> {
    let Head { text, own, other } = head;
    let mut out = granted_row(heap, &own)?;
    // without a line that says otherwise, the lists have room for every line
    let places = own.spans.len().saturating_add(2);
    let mut paragraphs = Paragraphs::empty(heap);
    let entry = match Entry::open(&mut paragraphs.own, own, measure) {
        Ok(entry) => entry,
        Err(fault) => return refusal_row(heap, &fault),
    };
    if let Some(other) = other {
        out.push_str(fill_other(heap, &mut paragraphs.other, other)?.as_str())?;
    }
    let lists = Lists::new(heap, places, places)?;
    let mut session = Session {
        heap,
        text,
        entry,
        paragraphs,
        lists,
    };
    for step in steps {
        out.push_str(session.step(*step)?.as_str())?;
    }
    Ok(out)
}
