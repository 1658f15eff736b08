// Reads a measure's name from each line, and writes what a row of glyphs measures by it.
// Beside the measures of `measure_text`, it knows three of its own.
#![tactic(auto)]

mod nested;
mod thirds;

use glyph::glyph::Glyph;
use measure::cells::Cells;
use measure::layered::Layered;
use measure::measure::Measure;
use measure::rows::row_width;
use measure::units::Units;
use measure_text::named::{NamedMeasure, read_measure};
use nested::nested_number;
use std::fmt::Display;
use std::io;
use thirds::{Ems, Lawless, Short};

const ROW: [Glyph; 4] = [
    Glyph {
        start: 0,
        end: 1,
        advance: 0.5,
        size: None,
        units: 512,
        cells: 1,
    },
    Glyph {
        start: 1,
        end: 2,
        advance: 0.0,
        size: None,
        units: 0,
        cells: 0,
    },
    Glyph {
        start: 2,
        end: 5,
        advance: 1.25,
        size: Some(8.0),
        units: 65_535,
        cells: 2,
    },
    Glyph {
        start: 5,
        end: 6,
        advance: 0.1,
        size: None,
        units: 3,
        cells: 1,
    },
];

// Any measure whose widths can be written.
fn report<M: Measure>(rt: &HostRuntime, name: &str, m: &M) -> io::Result<()>
where
    M::Width: Display,
{
    let width = row_width(m, &ROW);
    println!(rt; "{name}: {width}")
}

fn report_named(rt: &HostRuntime, name: &str) -> io::Result<()> {
    match read_measure(name) {
        Ok(NamedMeasure::Points(points)) => report(rt, name, &points),
        Ok(NamedMeasure::Units(pile)) => report(rt, name, &Layered::of(pile, Units)),
        Ok(NamedMeasure::Cells(pile)) => report(rt, name, &Layered::of(pile, Cells)),
        Ok(NamedMeasure::Lawless) => report(rt, name, &measure_text::lawless::Lawless),
        Err(fault) => println!(rt; "{name}: {fault:?}"),
    }
}

fn main(rt: HostRuntime) -> io::Result<()> {
    for line in rt.lines(rt.alloc()) {
        let line = line?;
        let name = line.as_str();
        match name {
            "short" => report(&rt, name, &Short)?,
            "ems" => report(&rt, name, &Ems)?,
            "lawless" => report(&rt, name, &Lawless { key: 1000 })?,
            "nested" => println!(rt; "{name}: {:?}", nested_number(&ROW))?,
            _ => report_named(&rt, name)?,
        }
    }
    Ok(())
}
