// Single fields: whole numbers and floats.
ghost use Rattle.std.specs.Prelude.{ℕ, Result};
ghost use Rattle.std.proofs.Common.{lit<};
ghost use Rattle.strip_text.specs.Fields.{ConvertsUpTo, converts_up_to, Writes, ReadsBits, ReadsFloat};

use std::num::{TryFromIntError, f32_from_bits_with_nan};

/// A type of whole numbers that a field can write.
pub(crate) trait Whole: TryFrom<usize, Error = TryFromIntError> {
    ghost number_of: { Self → ℕ };

    ghost MOST: { ℕ };

    /// The largest one.
    const MOST: usize;

    ghost converts: { ConvertsUpTo MOST number_of Self.try_from_gives };
}

impl Whole for u8 {
    ghost number_of = { λ n. n };

    ghost MOST = { 255 };

    const MOST: usize = 255;

    ghost converts = { converts_up_to 255 (lit< tt) };
}

impl Whole for u16 {
    ghost number_of = { λ n. n };

    ghost MOST = { 65535 };

    const MOST: usize = 65_535;

    ghost converts = { converts_up_to 65535 (lit< tt) };
}

impl Whole for u32 {
    ghost number_of = { λ n. n };

    ghost MOST = { 4294967295 };

    const MOST: usize = 4_294_967_295;

    ghost converts = { converts_up_to 4294967295 (lit< tt) };
}

impl Whole for usize {
    ghost number_of = { λ n. n };

    ghost MOST = { 18446744073709551615 };

    const MOST: usize = 18_446_744_073_709_551_615;

    ghost converts = { converts_up_to 18446744073709551615 (lit< tt) };
}

/// The number that a field writes as a decimal, with no sign and no leading zero. `seen_text` reads a byte from bytes; the two share but the test of the first
/// digit.
pub(crate) fn read_number(field: &str) -> Option<usize>
    ensures { Writes 18446744073709551615 field.now result }
{
    let number = field.parse::<usize>().ok()?;
    let bytes = field.as_bytes();
    if bytes.len() > 1 && bytes[0] <= b'0' {
        return None;
    }
    Some(number)
}

fn read_bits(digits: &str) -> Option<f32>
    ensures { ReadsBits digits.now result }
{
    let bits = u32::from_str_radix(digits, 16).ok()?;
    Some(f32_from_bits_with_nan(bits))
}

/// The float that a field says: behind `0x` its bits in hex, else what Rust reads as an `f32`.
pub(crate) fn read_float(field: &str) -> Option<f32>
    ensures { ReadsFloat field.now result }
{
    match field.strip_prefix("0x") {
        Some(digits) => read_bits(digits),
        None => field.parse::<f32>().ok(),
    }
}
