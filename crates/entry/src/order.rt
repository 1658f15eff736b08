// The visual order of a line's ranges.
ghost use Rattle.std.specs.Prelude.{◌≡◌, ◌≤◌, length};
ghost use Rattle.entry.specs.Lines.{order_of, over_written};
ghost use Rattle.entry.specs.Written.{InVisualOrder};

use visual_order::reorder;
use walk::line::VlRange;

/// Writes the visual order of the ranges to the first places of `order`. There are never so many ranges that this is refused.
pub(crate) fn write_order(ranges: &[VlRange], order: &mut [usize])
    requires few { length ranges.now ≤ 16384 }
    requires room { length ranges.now ≤ length order.old }
    ensures list { order.new ≡ over_written (order_of ranges.now) order.old }
    ensures in_order { InVisualOrder ranges.now (order_of ranges.now) }
{
    reorder(ranges, order).unwrap();
}
