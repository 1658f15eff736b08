// Visual order.
ghost use Rattle.c_api.specs.Answers.{status_of};
ghost use Rattle.std.specs.Prelude.{◌≡◌, length};
ghost use Rattle.visual_order.specs.Cause.{cause_number};
ghost use Rattle.visual_order.specs.Verdict.{after, verdict};

use crate::status::status;
use visual_order::reorder;

/// Writes the visual order of the levels to the first places of `order` and answers 0, or answers the number of the cause
/// for which nothing is written: 1 for more than 16,384 levels, 9 for a list that is shorter than the levels.
#[unsafe(no_mangle)]
pub extern "C" fn cudinstant_reorder(levels: &[u8], order: &mut [usize]) -> usize
    ensures answer { result ≡ status_of cause_number (verdict (length levels.now) (length order.old)) }
    ensures list { order.new ≡ after (verdict (length levels.now) (length order.old)) levels.now order.old }
{
    status(reorder(levels, order))
}
