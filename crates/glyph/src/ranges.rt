// The ranges of a glyph's fields, and the check of one glyph.
ghost use Rattle.glyph.specs.Ranges.{advance_in, from_zero_to, size_in, own_size_in, glyph_in};
ghost use Rattle.std.specs.Prelude.{◌≡◌};

use crate::glyph::Glyph;

// A NaN compares with nothing, so both tests are needed in this form.
fn from_zero_to(most: f32, x: f32) -> bool
    ensures { result ≡ from_zero_to most x }
{
    x >= 0.0 && x <= most
}

/// Whether an advance is one of 0 to 64 ems. A NaN is not.
pub fn advance_in_range(advance: f32) -> bool
    ensures { result ≡ advance_in advance }
{
    from_zero_to(64.0, advance)
}

/// Whether a size is one of 0 to 4,096 points. A NaN is not.
pub fn size_in_range(size: f32) -> bool
    ensures { result ≡ size_in size }
{
    from_zero_to(4096.0, size)
}

fn own_size_in_range(size: Option<f32>) -> bool
    ensures { result ≡ own_size_in size }
{
    size.is_none_or(size_in_range)
}

impl Glyph {
    /// Whether each field is in its range.
    pub fn in_range(&self) -> bool
        ensures { result ≡ glyph_in self.now }
    {
        self.start <= self.end
            && advance_in_range(self.advance)
            && own_size_in_range(self.size)
            && self.cells <= 2
    }
}
