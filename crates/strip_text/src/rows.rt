// Single lines of the head: what stands before the calls.
use crate::fault::{Choices, LineCause};
use crate::fields::Fields;
use glyph::glyph::Glyph;
use paragraph::direction::Direction;
use paragraph::span::Span;
use paragraph::word::Word;

/// A line of the head.
#[derive(Clone, Copy)]
pub(crate) enum HeadLine<'a> {
    /// The paragraph's text.
    Text(&'a str),
    /// Rows of the paragraph's own tables follow.
    Paragraph(Direction),
    /// Rows of another paragraph's tables follow.
    Other(Direction),
    Row(RawRow),
    /// The measure's name; calls follow.
    Measure(&'a str),
}

/// A row of a table, with any numbers.
#[derive(Clone, Copy)]
pub(crate) enum RawRow {
    Glyph(Glyph),
    Word(Word),
    Span(Span),
    Ellipsis(Glyph),
}

fn read_direction(fields: &mut Fields<'_>) -> Result<Direction, LineCause> {
    fields.choice(Choices::Direction, |word| match word {
        "ltr" => Some(Direction::LeftToRight),
        "rtl" => Some(Direction::RightToLeft),
        _ => None,
    })
}

fn read_glyph(fields: &mut Fields<'_>) -> Result<Glyph, LineCause> {
    Ok(Glyph {
        start: fields.number()?,
        end: fields.number()?,
        advance: fields.float()?,
        size: fields.or_none(|fields| fields.float())?,
        units: fields.number()?,
        cells: fields.number()?,
    })
}

fn read_word(fields: &mut Fields<'_>) -> Result<Word, LineCause> {
    let blank = fields.choice(Choices::Word, |word| match word {
        "blank" => Some(true),
        "text" => Some(false),
        _ => None,
    })?;
    Ok(Word {
        blank,
        offset: fields.number()?,
        len: fields.number()?,
    })
}

fn read_span(fields: &mut Fields<'_>) -> Result<Span, LineCause> {
    Ok(Span {
        level: fields.number()?,
        offset: fields.number()?,
        len: fields.number()?,
    })
}

/// Reads a line of the head.
pub(crate) fn read_head_line(line: &str) -> Result<HeadLine<'_>, LineCause> {
    let mut fields = Fields::of(line);
    let read = match fields.next_field() {
        Some("text") => return Ok(HeadLine::Text(fields.rest())),
        Some("measure") => return Ok(HeadLine::Measure(fields.rest())),
        Some("paragraph") => HeadLine::Paragraph(read_direction(&mut fields)?),
        Some("other") => HeadLine::Other(read_direction(&mut fields)?),
        Some("glyph") => HeadLine::Row(RawRow::Glyph(read_glyph(&mut fields)?)),
        Some("word") => HeadLine::Row(RawRow::Word(read_word(&mut fields)?)),
        Some("span") => HeadLine::Row(RawRow::Span(read_span(&mut fields)?)),
        Some("ellipsis") => HeadLine::Row(RawRow::Ellipsis(read_glyph(&mut fields)?)),
        Some("take" | "close" | "tally" | "lists" | "lend") => return Err(LineCause::NoMeasureYet),
        _ => return Err(LineCause::Strange),
    };
    fields.end()?;
    Ok(read)
}
