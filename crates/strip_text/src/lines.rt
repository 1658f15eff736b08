// An input as lines.
ghost use Rattle.std.specs.Prelude.{◌≡◌, ◌==◌, ◌+◌, take, drop, count_by, length, map, IfOk};
ghost use Rattle.std.specs.Str.Lines.{lines};
ghost use Rattle.strip_text.specs.Lines.{number_at};

use crate::fault::{InputFault, LineCause, LineFault};
use std::alloc::{AllocError, Global};

/// A line of an input, and its number, from 1.
#[derive(Clone, Copy)]
pub(crate) struct Line<'a> {
    pub number: usize,
    pub text: &'a str,
}

impl Line<'_> {
    pub fn is_comment(self) -> bool {
        self.text.starts_with('#')
    }

    pub fn fault(self, cause: LineCause) -> InputFault {
        fault_at(self.number, cause)
    }
}

/// A fault of the line of this number.
pub(crate) fn fault_at(line: usize, cause: LineCause) -> InputFault {
    InputFault::Format(LineFault { line, cause })
}

// The number of the line that the byte at `at` stands on.
fn line_of(bytes: &[u8], at: usize) -> usize
    ensures { result ≡ count_by (λ b. b == 10) (take at bytes.now) + 1 }
{
    let before = &bytes[..at.min(bytes.len())];
    before.iter().filter(|b| **b == b'\n').count() + 1
}

/// The bytes as text.
pub(crate) fn read_text(bytes: &[u8]) -> Result<&str, InputFault>
    ensures { IfOk result (λ text. text.now ≡ bytes.now) }
{
    std::str::from_utf8(bytes).map_err(|error| fault_at(
        line_of(bytes, error.valid_up_to()),
        LineCause::NotUtf8,
    ))
}

/// The lines of a text.
pub(crate) fn split_lines(heap: Global, text: &str) -> Result<Vec<&str>, AllocError>
    ensures { IfOk result (λ all. map (λ line. line.now) all.items ≡ lines text.now) }
{
    text.lines().collect(heap)
}

/// Lines of an input, one after another, and the number of the first. A line's number follows from its place among them: kept beside each line, the
/// numbers would take half as much memory again.
#[derive(Clone, Copy)]
pub(crate) struct Lines<'a> {
    pub first: usize,
    pub texts: &'a [&'a str],
}

impl<'a> Lines<'a> {
    /// The line with this text, at this place among them.
    pub fn line(self, place: usize, text: &'a str) -> Line<'a>
        ensures number { result.number ≡ number_at self.entry.first place }
        ensures text { result.text.now ≡ text.now }
    {
        Line {
            number: self.first.saturating_add(place),
            text,
        }
    }

    /// The first so many lines.
    pub fn up_to(self, count: usize) -> Lines<'a>
        ensures first { result.first ≡ self.entry.first }
        ensures texts { result.texts.now ≡ take count self.entry.texts.now }
    {
        Lines {
            first: self.first,
            texts: &self.texts[..count.min(self.texts.len())],
        }
    }

    /// The lines behind the first so many and one more, which stands between.
    pub fn behind(self, count: usize) -> Lines<'a>
        ensures first { result.first ≡ number_at self.entry.first (count + 1) }
        ensures texts { result.texts.now ≡ drop (count + 1) self.entry.texts.now }
    {
        Lines {
            first: self.first.saturating_add(count).saturating_add(1),
            texts: self.texts.get(count.saturating_add(1)..).unwrap_or(&[]),
        }
    }

    /// The number of the line behind the last.
    pub fn end(self) -> usize
        ensures { result ≡ number_at self.entry.first (length self.entry.texts.now) }
    {
        self.first.saturating_add(self.texts.len())
    }
}
