// Why an input is not of the format, and at which line.
use std::fmt;

/// The words of which one has to stand in a field.
#[derive(Clone, Copy, Debug)]
pub enum Choices {
    Direction,
    Word,
    Ellipsize,
    Lent,
}

impl fmt::Display for Choices {
    fn fmt<W: fmt::Write>(&self, f: &mut fmt::Formatter<W>) -> fmt::Result {
        match *self {
            Choices::Direction => write!(f, "ltr or rtl"),
            Choices::Word => write!(f, "blank or text"),
            Choices::Ellipsize => write!(f, "none, start, middle or end"),
            Choices::Lent => write!(f, "own or other"),
        }
    }
}

/// What is wrong with a field.
#[derive(Clone, Copy, Debug)]
pub enum FieldCause {
    /// It is no whole number of 0 to `most`, or there is none.
    NoNumber { most: usize },
    /// It is no float, or there is none.
    NoFloat,
    /// It is none of the words that may stand there.
    NoChoice(Choices),
    /// It stands where the line should end.
    GoesOn,
    /// It names no measure, or none that goes on so.
    NoMeasure,
}

impl fmt::Display for FieldCause {
    fn fmt<W: fmt::Write>(&self, f: &mut fmt::Formatter<W>) -> fmt::Result {
        match *self {
            FieldCause::NoNumber { most } => write!(f, "is no whole number of 0 to {most}"),
            FieldCause::NoFloat => write!(f, "is no float"),
            FieldCause::NoChoice(choices) => write!(f, "is none of {choices}"),
            FieldCause::GoesOn => write!(f, "is one too many"),
            FieldCause::NoMeasure => write!(f, "names no measure"),
        }
    }
}

/// What is wrong with a line. Fields are counted from 1, and a line's first word is its first field.
#[derive(Clone, Copy, Debug)]
pub enum LineCause {
    /// It is not UTF-8.
    NotUtf8,
    /// Its first word is none of the format's.
    Strange,
    /// It may not stand here.
    OutOfPlace,
    /// A line that names a measure has to come before it.
    NoMeasureYet,
    /// A field is at fault.
    Field { field: usize, cause: FieldCause },
}

impl fmt::Display for LineCause {
    fn fmt<W: fmt::Write>(&self, f: &mut fmt::Formatter<W>) -> fmt::Result {
        match *self {
            LineCause::NotUtf8 => write!(f, "not UTF-8"),
            LineCause::Strange => write!(f, "no line of the format begins so"),
            LineCause::OutOfPlace => write!(f, "such a line may not stand here"),
            LineCause::NoMeasureYet => write!(f, "no measure is named before it"),
            LineCause::Field { field, cause } => write!(f, "field {field} {cause}"),
        }
    }
}

/// What is wrong with an input, and at which line, from 1.
#[derive(Clone, Copy, Debug)]
pub struct LineFault {
    pub line: usize,
    pub cause: LineCause,
}

impl fmt::Display for LineFault {
    fn fmt<W: fmt::Write>(&self, f: &mut fmt::Formatter<W>) -> fmt::Result {
        let line = self.line;
        let cause = self.cause;
        write!(f, "line {line}: {cause}")
    }
}

/// Why an input gets no answer.
pub type InputFault = program::InputFault<LineFault>;
