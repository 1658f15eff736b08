// Widths as text.
ghost use Rattle.std.specs.Prelude.{ℕ, List, Option};
ghost use Rattle.std.specs.Option.{option_map};
ghost use Rattle.strip_text.specs.Fields.{NextSays, Writes, ReadsFloat};

use crate::fault::LineCause;
use crate::fields::Fields;
use std::alloc::{AllocError, Global};
use std::num::f32_to_bits_with_nan;

/// A width that a line can say and that can be written.
pub(crate) trait WidthText: Copy {
    ghost said_by: { List ℕ → Option Self → Type 0 };

    /// The width that the next field says.
    fn read_width(fields: &mut Fields<'_>) -> Result<Self, LineCause>
        ensures { NextSays said_by (option_map (λ x. x.now) fields.old.left) result (option_map (λ x. x.now) fields.new.left) };

    fn write_width(self, heap: Global) -> Result<String, AllocError>;
}

/// Whole numbers are written as decimals.
impl WidthText for u32 {
    ghost said_by = { Writes 4294967295 };

    fn read_width(fields: &mut Fields<'_>) -> Result<u32, LineCause> {
        fields.number()
    }

    fn write_width(self, heap: Global) -> Result<String, AllocError> {
        format!(in heap; "{self}")
    }
}

/// Points are written as a decimal, and then as their bits.
impl WidthText for f32 {
    ghost said_by = { ReadsFloat };

    fn read_width(fields: &mut Fields<'_>) -> Result<f32, LineCause> {
        fields.float()
    }

    fn write_width(self, heap: Global) -> Result<String, AllocError> {
        let bits = f32_to_bits_with_nan(self);
        format!(in heap; "{self} 0x{bits:08x}")
    }
}
