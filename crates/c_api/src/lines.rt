// Closing lines in points, to be held against the Rust's and timed beside them.
//
// Glyphs and ranges cross as plain numbers, and are copied into tables of the library's own records here.
ghost use Rattle.std.specs.Prelude.{◌≤◌, length};

use crate::plain::{LineAnswer, LineQuestion, PlainGlyph, PlainRange, PlainRow};
use crate::status::{Refused, status};
use entry::fault::CallCause;
use glyph::glyph::Glyph;
use layout::layout_line::layout_line;
use measure::points::Points;
use paragraph::check::check;
use paragraph::fault::TableCause;
use paragraph::span::Span;
use paragraph::tables::{SoundTables, Tables};
use paragraph::word::Word;
use walk::line::VlRange;

// A paragraph's tables and its ellipsis, as they cross.
#[derive(Clone, Copy)]
struct PlainTables<'a> {
    glyphs: &'a [PlainGlyph],
    words: &'a [PlainRow],
    spans: &'a [PlainRow],
    ellipsis: &'a [PlainGlyph],
}

// Lays the line on tables that are in the library's own form.
fn lay(
    tables: Tables<'_>,
    ellipsis: &[Glyph],
    question: &LineQuestion,
    ranges: &mut [VlRange],
    answer: &mut LineAnswer,
) -> Result<(), Refused>
    requires room { 258 ≤ length ranges.old }
{
    check(tables, ellipsis)?;
    let sound = SoundTables { rows: tables };
    let Some(ahead) = sound.ahead_of(question.position()) else {
        return Err(Refused::by(CallCause::Stranger));
    };
    let points = Points::new(question.size)?;
    let mode = question.mode();
    let width = question.width();
    for _ in 0..question.times {
        let line = layout_line(&points, ahead, ellipsis, mode, width, 0, ranges);
        *answer = LineAnswer::from(line);
    }
    Ok(())
}

// Copies rows, as far as there is room.
fn copy_rows<P: Copy, R: From<P> + Copy>(from: &[P], to: &mut [R]) {
    for (row, place) in from.iter().zip(to.iter_mut()) {
        *place = R::from(*row);
    }
}

// Copies rows into the first places of a table, if there is room for them, and answers these.
fn copied<'a, P: Copy, R: From<P> + Copy>(from: &[P], to: &'a mut [R]) -> Result<&'a [R], Refused> {
    let Some(places) = to.get_mut(..from.len()) else {
        return Err(Refused::by(TableCause::TooManyRows));
    };
    copy_rows(from, places);
    Ok(places)
}

// Copies the tables, where there is room for them, and lays the line.
// The arrays are of a fixed size, since these exported calls are lent no heap.
fn copy_and_lay(
    plain: PlainTables<'_>,
    question: &LineQuestion,
    own_glyphs: &mut [Glyph],
    own_words: &mut [Word],
    ranges: &mut [PlainRange],
    answer: &mut LineAnswer,
) -> Result<(), Refused> {
    let mut own_spans = [Span::from(PlainRow::default()); 256];
    let mut own_ellipsis = [Glyph::from(PlainGlyph::default()); 16];
    let mut own_ranges = [VlRange::default(); 258];
    let tables = Tables {
        glyphs: copied(plain.glyphs, own_glyphs)?,
        words: copied(plain.words, own_words)?,
        spans: copied(plain.spans, &mut own_spans)?,
        direction: question.direction(),
    };
    let ellipsis = copied(plain.ellipsis, &mut own_ellipsis)?;
    let laid = lay(tables, ellipsis, question, &mut own_ranges, answer);
    copy_rows(&own_ranges, ranges);
    laid
}

// The same with tables of so many glyphs and words on the stack.
fn lay_plain<const GLYPHS: usize, const WORDS: usize>(
    plain: PlainTables<'_>,
    question: &LineQuestion,
    ranges: &mut [PlainRange],
    answer: &mut LineAnswer,
) -> usize
    requires glyphs { GLYPHS ≤ 16384 }
    requires words { WORDS ≤ 4096 }
{
    let mut own_glyphs = [Glyph::from(PlainGlyph::default()); GLYPHS];
    let mut own_words = [Word::from(PlainRow::default()); WORDS];
    status(copy_and_lay(
        plain,
        question,
        &mut own_glyphs,
        &mut own_words,
        ranges,
        answer,
    ))
}

/// Lays a closing line, `times` times over, writes its ranges to the first places of `ranges`, and answers 0; or answers the number of the refusal:
/// 1 to 5 of the tables, 7 for a position that does not exist, 12 for the size. For small tables, of 128 glyphs and 64 words at most.
#[unsafe(no_mangle)]
pub extern "C" fn cudinstant_layout_small_line(
    glyphs: &[PlainGlyph],
    words: &[PlainRow],
    spans: &[PlainRow],
    ellipsis: &[PlainGlyph],
    question: &LineQuestion,
    ranges: &mut [PlainRange],
    answer: &mut LineAnswer,
) -> usize {
    let plain = PlainTables {
        glyphs,
        words,
        spans,
        ellipsis,
    };
    lay_plain::<128, 64>(plain, question, ranges, answer)
}

/// The same for tables up to the limits of a paragraph.
#[unsafe(no_mangle)]
pub extern "C" fn cudinstant_layout_line(
    glyphs: &[PlainGlyph],
    words: &[PlainRow],
    spans: &[PlainRow],
    ellipsis: &[PlainGlyph],
    question: &LineQuestion,
    ranges: &mut [PlainRange],
    answer: &mut LineAnswer,
) -> usize {
    let plain = PlainTables {
        glyphs,
        words,
        spans,
        ellipsis,
    };
    lay_plain::<16384, 4096>(plain, question, ranges, answer)
}
