// The width of a row of glyphs.
ghost use Rattle.std.specs.Prelude.{◌≡◌, ◌^◌, ◌<◌, ◌≤◌, length};
ghost use Rattle.measure.specs.RowNumbers.{row_number, Room};
ghost use Rattle.measure.specs.Rows.{row_width};

use crate::exact::ExactMeasure;
use crate::measure::Measure;
use glyph::glyph::Glyph;

/// Nil plus the glyphs of the row, one by one in table order.
pub fn row_width<M: Measure>(m: &M, row: &[Glyph]) -> M::Width
    ensures { result ≡ row_width M.Measure m.now row.now }
{
    row.iter()
        .fold(m.zero(), |width, g| m.sum(width, m.width(g)))
}

/// The same on an exact measure, where the width means the sum of the glyphs' numbers while that stays below 2^32: always at 16,400 glyphs or fewer,
/// which is a whole paragraph with an ellipsis.
pub fn exact_row_width<M: ExactMeasure>(m: &M, row: &[Glyph]) -> M::Width
    ensures value { result ≡ row_width M.Measure m.now row.now }
    ensures means { row_number (M.ExactMeasure.number_of_glyph m.now) row.now < 2 ^ 32 → M.ExactMeasure.number result ≡ row_number (M.ExactMeasure.number_of_glyph m.now) row.now }
    ensures few { length row.now ≤ 16400 → M.ExactMeasure.number result ≡ row_number (M.ExactMeasure.number_of_glyph m.now) row.now }
    ensures room { Room (M.ExactMeasure.number_of_glyph m.now) }
{
    m.exact();
    row_width(m, row)
}
