// Measures by their names in text: `points SIZE`, `lawless`, or `units` or `cells` and then up to 8 times `tracking SPACING`, the innermost first.
// A size is a decimal number, or 0x and the bits of an f32 in hex.
ghost use Rattle.std.specs.Prelude.{◌≡◌, ◌-◌};

use crate::pile::Pile;
use crate::words::Words;
use measure::points::Points;
use measure::settings::SettingFault;
use measure::tracking::LetterSpacing;
use std::num::f32_from_bits_with_nan;

/// A measure that a text names. Trackings are one layer, so `Layered::of(pile, Units)` is the measure of `Units(pile)`.
#[derive(Clone, Copy)]
pub enum NamedMeasure {
    Points(Points),
    Units(Pile),
    Cells(Pile),
    Lawless,
}

/// Why a text names no measure.
#[derive(Clone, Copy, PartialEq, Eq, Debug)]
pub enum NameCause {
    /// The word is not `points`, `units`, `cells` or `lawless`, or there is none.
    NoMeasure,
    /// The word is no number, or there is none.
    NoNumber,
    /// The word is not `tracking`, or the text goes on behind `lawless` or behind `points` and its size.
    Strange,
    /// There are more than 8 trackings.
    TooMany,
    /// The number is outside its range.
    Setting(SettingFault),
}

/// What is wrong with a measure's name, and at which word, from 0.
#[derive(Clone, Copy, PartialEq, Eq, Debug)]
pub struct NameFault {
    pub cause: NameCause,
    pub word: usize,
}

/// The measure that a text names.
pub fn read_measure(text: &str) -> Result<NamedMeasure, NameFault> {
    let mut words = Words::new(text);
    read_named(&mut words).map_err(|cause| fault(&words, cause))
}

// A cause, with the word last asked for.
fn fault(words: &Words<'_>, cause: NameCause) -> NameFault
    ensures { result ≡ record { cause = cause; word = words.now.read - 1 } }
{
    NameFault {
        cause,
        word: words.place(),
    }
}

// What is wrong is so at the word last asked for.
fn read_named(words: &mut Words<'_>) -> Result<NamedMeasure, NameCause> {
    match words.next_word() {
        Some("points") => Ok(NamedMeasure::Points(read_points(words)?)),
        Some("units") => Ok(NamedMeasure::Units(read_pile(words)?)),
        Some("cells") => Ok(NamedMeasure::Cells(read_pile(words)?)),
        Some("lawless") => ended(words, NamedMeasure::Lawless),
        _ => Err(NameCause::NoMeasure),
    }
}

// The value, if the text ends here.
fn ended<T: Drop>(words: &mut Words<'_>, value: T) -> Result<T, NameCause> {
    match words.next_word() {
        None => Ok(value),
        Some(_) => Err(NameCause::Strange),
    }
}

fn read_points(words: &mut Words<'_>) -> Result<Points, NameCause> {
    let size = read_size(words).ok_or(NameCause::NoNumber)?;
    let points = Points::new(size).map_err(NameCause::Setting)?;
    ended(words, points)
}

// The library of the program `strip` reads floats so, too, with a contract in words of its own format; to share these five lines would be no plainer.
fn read_size(words: &mut Words<'_>) -> Option<f32> {
    let word = words.next_word()?;
    match word.strip_prefix("0x") {
        Some(bits) => Some(f32_from_bits_with_nan(u32::from_str_radix(bits, 16).ok()?)),
        None => word.parse().ok(),
    }
}

fn read_pile(words: &mut Words<'_>) -> Result<Pile, NameCause> {
    let mut pile = Pile::new();
    while let Some(word) = words.next_word() {
        if word != "tracking" {
            return Err(NameCause::Strange);
        }
        let over = read_spacing(words)?;
        pile = pile.with(over).ok_or(NameCause::TooMany)?;
    }
    Ok(pile)
}

fn read_spacing(words: &mut Words<'_>) -> Result<LetterSpacing, NameCause> {
    let word = words.next_word().ok_or(NameCause::NoNumber)?;
    let spacing = word.parse().map_err(|_| NameCause::NoNumber)?;
    LetterSpacing::new(spacing).map_err(NameCause::Setting)
}
