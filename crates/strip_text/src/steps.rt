// The lines of calls.
use crate::fault::{Choices, InputFault, LineCause};
use crate::fields::Fields;
use crate::lines::Lines;
use crate::width_text::WidthText;
use entry::call::Call;
use layout::line::Ellipsize;
use std::alloc::Global;

/// The paragraph that calls are lent.
#[derive(Clone, Copy)]
pub(crate) enum Lent {
    Own,
    Other,
}

/// What a line behind the measure asks for.
#[derive(Clone, Copy)]
pub(crate) enum Step<W> {
    Call(Call<W>),
    /// The later calls are lent lists of these lengths.
    Lists { ranges: u16, order: u16 },
    /// The later calls are lent this paragraph.
    Lend(Lent),
}

fn read_close<W: WidthText>(fields: &mut Fields<'_>) -> Result<Call<W>, LineCause> {
    let ellipsize = fields.choice(Choices::Ellipsize, |word| match word {
        "none" => Some(Ellipsize::None),
        "start" => Some(Ellipsize::Start),
        "middle" => Some(Ellipsize::Middle),
        "end" => Some(Ellipsize::End),
        _ => None,
    })?;
    let width = fields.or_none(|fields| W::read_width(fields))?;
    Ok(Call::Close { ellipsize, width })
}

fn read_lent(fields: &mut Fields<'_>) -> Result<Lent, LineCause> {
    fields.choice(Choices::Lent, |word| match word {
        "own" => Some(Lent::Own),
        "other" => Some(Lent::Other),
        _ => None,
    })
}

/// Reads a line behind the measure.
pub(crate) fn read_step<W: WidthText>(line: &str) -> Result<Step<W>, LineCause> {
    let mut fields = Fields::of(line);
    let step = match fields.next_field() {
        Some("take") => Step::Call(Call::Take {
            width: W::read_width(&mut fields)?,
        }),
        Some("close") => Step::Call(read_close(&mut fields)?),
        Some("tally") => Step::Call(Call::Count),
        Some("lists") => Step::Lists {
            ranges: fields.number()?,
            order: fields.number()?,
        },
        Some("lend") => Step::Lend(read_lent(&mut fields)?),
        Some("text" | "paragraph" | "other" | "glyph" | "word" | "span" | "ellipsis" | "measure") =>
            {
                return Err(LineCause::OutOfPlace);
            }
        _ => return Err(LineCause::Strange),
    };
    fields.end()?;
    Ok(step)
}

/// Reads the lines behind the measure.
pub(crate) fn read_steps<W: WidthText>(
    heap: Global,
    lines: Lines<'_>,
) -> Result<Vec<Step<W>>, InputFault> {
    let mut steps = Vec::new(heap);
    for (i, text) in lines.texts.iter().enumerate() {
        let line = lines.line(i, *text);
        if !line.is_comment() {
            steps.push(read_step(line.text).map_err(|cause| line.fault(cause))?)?;
        }
    }
    Ok(steps)
}
