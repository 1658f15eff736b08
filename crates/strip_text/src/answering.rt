// What is printed for an input.
use crate::fault::InputFault;
use crate::head::{Head, Opening, read_head};
use crate::lines::{Lines, read_text, split_lines};
use crate::performing::perform;
use crate::steps::read_steps;
use crate::width_text::WidthText;
use crate::written::refusal_row;
use measure::cells::Cells;
use measure::layered::Layered;
use measure::measure::Measure;
use measure::settings::{SettingFault, SettingName};
use measure::units::Units;
use measure_text::lawless::Lawless;
use measure_text::named::NamedMeasure;
use std::alloc::Global;

// Reads the calls, and performs them over the measure.
fn answer_over<W: WidthText, M: Measure<Width = W> + Drop>(
    heap: Global,
    head: Head<'_>,
    calls: Lines<'_>,
    measure: M,
) -> Result<String, InputFault> {
    let steps = read_steps(heap, calls)?;
    Ok(perform(heap, head, measure, steps.as_slice())?)
}

// A refused measure is the whole answer, but what stands behind it has to be of the format.
fn answer_refused(
    heap: Global,
    calls: Lines<'_>,
    fault: SettingFault,
) -> Result<String, InputFault> {
    match fault.table {
        SettingName::Size => {
            read_steps::<f32>(heap, calls)?;
        }
        SettingName::Spacing => {
            read_steps::<u32>(heap, calls)?;
        }
    }
    Ok(refusal_row(heap, &fault)?)
}

// What is printed for one paragraph and its calls.
fn answer_script(heap: Global, script: Lines<'_>) -> Result<String, InputFault> {
    let Opening {
        head,
        measure,
        calls,
    } = read_head(heap, script)?;
    match measure {
        Ok(NamedMeasure::Points(points)) => answer_over(heap, head, calls, points),
        Ok(NamedMeasure::Units(pile)) => answer_over(heap, head, calls, Layered::of(pile, Units)),
        Ok(NamedMeasure::Cells(pile)) => answer_over(heap, head, calls, Layered::of(pile, Cells)),
        Ok(NamedMeasure::Lawless) => answer_over(heap, head, calls, Lawless),
        Err(fault) => answer_refused(heap, calls, fault),
    }
}

/// What is printed for an input: the answers of each of its paragraphs, with an empty line between them.
pub fn answer(heap: Global, bytes: &[u8]) -> Result<String, InputFault> {
    let texts = split_lines(heap, read_text(bytes)?)?;
    let mut lines = Lines {
        first: 1,
        texts: texts.as_slice(),
    };
    let mut out = String::new(heap);
    for script in texts.as_slice().split(|text| text.is_empty()) {
        let count = script.len();
        let script = lines.up_to(count);
        lines = lines.behind(count);
        if count == 0 {
            continue;
        }
        let block = answer_script(heap, script)?;
        if !out.is_empty() {
            out.push_str("\n")?;
        }
        out.push_str(block.as_str())?;
    }
    Ok(out)
}
