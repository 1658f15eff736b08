// Why an input is not of the format, and where.
use std::fmt;

/// What is wrong with an input, and where. Lines and places are counted from 1.
#[derive(Clone, Copy, Debug)]
pub enum FormatFault {
    /// The input ends before this line.
    MissingLine { line: usize },
    /// This line is one too many.
    ExtraLine { line: usize },
    /// Line 1 is not UTF-8 from this byte on.
    NotUtf8 { byte: usize },
    /// The word at this place of line 2 is no number of 0 to 126.
    NoLevel { place: usize },
    /// Line 2 has not one level for each character of line 1.
    CountsDiffer { characters: usize, levels: usize },
    /// Line 3 does not begin with a paragraph's level, 0 or 1.
    NoParagraphLevel,
    /// The word for the character at this place is no name of a bidi class.
    NoClass { place: usize },
    /// Line 3 has not one class for each character of line 1.
    ClassCountsDiffer { characters: usize, classes: usize },
}

impl fmt::Display for FormatFault {
    fn fmt<W: fmt::Write>(&self, f: &mut fmt::Formatter<W>) -> fmt::Result {
        match *self {
            FormatFault::MissingLine { line } => write!(f, "line {line} is missing"),
            FormatFault::ExtraLine { line } => write!(f, "line {line} is one too many"),
            FormatFault::NotUtf8 { byte } => write!(f, "line 1, byte {byte}: not UTF-8"),
            FormatFault::NoLevel { place } => {
                write!(f, "line 2, level {place}: no number of 0 to 126")
            }
            FormatFault::CountsDiffer { characters, levels } => {
                write!(f, "line 2: {levels} levels for {characters} characters")
            }
            FormatFault::NoParagraphLevel => {
                write!(f, "line 3, word 1: no paragraph level of 0 or 1")
            }
            FormatFault::NoClass { place } => {
                write!(f, "line 3, class {place}: no name of a bidi class")
            }
            FormatFault::ClassCountsDiffer {
                characters,
                classes,
            } => { write!(f, "line 3: {classes} classes for {characters} characters") }
        }
    }
}

/// Why an input gets no answer.
pub type InputFault = program::InputFault<FormatFault>;
