// A tracking over a tracking, with the number that a row means by it.
ghost use Rattle.std.specs.Prelude.{◌≡◌, ◌≤◌, [], length, IfOk, sum_by};
ghost use Rattle.measure.specs.Layers.{tracked};

use glyph::glyph::Glyph;
use measure::cells::Cells;
use measure::exact::ExactMeasure;
use measure::rows::exact_row_width;
use measure::settings::SettingFault;
use measure::tracking::Tracking;

/// The sum of a row's cells, each glyph that has any tracked by 2 and then by 1.
pub fn nested_number(row: &[Glyph]) -> Result<u32, SettingFault>
    ensures { IfOk result (λ n. length row.now ≤ 16384 → n ≡ sum_by (λ g. tracked 1 (tracked 2 g.cells)) row.now) }
{
    let m: Tracking<Tracking<Cells>> = Tracking::new(Tracking::new(Cells, 2)?, 1)?;
    let width = exact_row_width(&m, row);
    Ok(m.number_of(width))
}
