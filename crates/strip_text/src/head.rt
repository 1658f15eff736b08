// What stands before the calls: the text, the tables and the measure.
use crate::fault::{FieldCause, InputFault, LineCause};
use crate::lines::{Lines, fault_at};
use crate::rows::{HeadLine, RawRow, read_head_line};
use measure::settings::SettingFault;
use measure_text::named::{NameCause, NamedMeasure, read_measure};
use paragraph::direction::Direction;
use paragraph::tables::OwnedTables;
use std::alloc::{AllocError, Global};

// Tables of a direction, without a row.
fn begin_tables(heap: Global, direction: Direction) -> OwnedTables {
    let mut tables = OwnedTables::new(heap);
    tables.direction = direction;
    tables
}

fn add_row(tables: &mut OwnedTables, row: RawRow) -> Result<(), AllocError> {
    match row {
        RawRow::Glyph(glyph) => tables.glyphs.push(glyph)?,
        RawRow::Word(word) => tables.words.push(word)?,
        RawRow::Span(span) => tables.spans.push(span)?,
        RawRow::Ellipsis(glyph) => tables.ellipsis.push(glyph)?,
    }
    Ok(())
}

/// The text, if it is given, the paragraph's tables, and those of another paragraph, if it is given.
#[derive(Drop)]
pub(crate) struct Head<'a> {
    pub text: Option<&'a str>,
    pub own: OwnedTables,
    pub other: Option<OwnedTables>,
}

impl Head<'_> {
    // The tables that a row belongs to: those that were begun last.
    fn add_row(&mut self, row: RawRow) -> Result<(), AllocError> {
        match &mut self.other {
            Some(other) => add_row(other, row),
            None => add_row(&mut self.own, row),
        }
    }
}

/// What stands before the calls: the head and the measure that is named, or its refused setting; and the calls' lines.
#[derive(Drop)]
pub(crate) struct Opening<'a> {
    pub head: Head<'a>,
    pub measure: Result<NamedMeasure, SettingFault>,
    pub calls: Lines<'a>,
}

// The measure that is named, or its refused setting, or why it is none of the format.
fn read_named(name: &str) -> Result<Result<NamedMeasure, SettingFault>, LineCause> {
    match read_measure(name) {
        Ok(named) => Ok(Ok(named)),
        Err(fault) => match fault.cause {
            NameCause::Setting(refused) => Ok(Err(refused)),
            // the line's first word stands before the measure's name
            _ => Err(LineCause::Field {
                field: fault.word.saturating_add(2),
                cause: FieldCause::NoMeasure,
            }),
        },
    }
}

/// Reads the lines up to that of the measure.
pub(crate) fn read_head<'a>(heap: Global, lines: Lines<'a>) -> Result<Opening<'a>, InputFault> {
    let mut text = None;
    let mut head = None;
    for (i, text_line) in lines.texts.iter().enumerate() {
        let line = lines.line(i, *text_line);
        if line.is_comment() {
            continue;
        }
        let read = read_head_line(line.text).map_err(|cause| line.fault(cause))?;
        if let HeadLine::Measure(name) = read {
            return Ok(Opening {
                head: head.ok_or(line.fault(LineCause::OutOfPlace))?,
                measure: read_named(name).map_err(|cause| line.fault(cause))?,
                calls: lines.behind(i),
            });
        }
        match (read, &mut head) {
            (HeadLine::Text(given), None) if text.is_none() => text = Some(given),
            (HeadLine::Paragraph(direction), None) => {
                head = Some(Head {
                    text,
                    own: begin_tables(heap, direction),
                    other: None,
                });
            }
            (HeadLine::Other(direction), Some(head)) if head.other.is_none() => {
                head.other = Some(begin_tables(heap, direction));
            }
            (HeadLine::Row(row), Some(head)) => head.add_row(row)?,
            _ => return Err(line.fault(LineCause::OutOfPlace)),
        }
    }
    Err(fault_at(lines.end(), LineCause::NoMeasureYet))
}
