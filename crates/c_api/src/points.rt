// Points for C: each function answers what the measure of points answers, so that it can be held against other code bit for bit.
ghost use Rattle.glyph.specs.Ranges.{size_in};
ghost use Rattle.measure.specs.Points.{point_difference, point_half, point_lawful};
ghost use Rattle.std.specs.Float.{binary32};
ghost use Rattle.std.specs.Float.Ieee.{add, lt, mul};
ghost use Rattle.std.specs.Prelude.{◌≡◌, cond, if◌then◌else◌};

use glyph::glyph::Glyph;
use measure::measure::Measure;
use measure::points::Points;
use refusals::Cause;

// What does not look at the size is asked of any points.
fn any_points() -> Points {
    Points::new(0.0).unwrap()
}

/// The width of a glyph with an advance, and a size of its own if it has one, at a size. Answers 0 and writes the width; or answers the refusal's
/// number, and writes nothing.
// C has no options, so that a flag stands beside the size.
#[unsafe(no_mangle)]
pub extern "C" fn cudinstant_points_width(
    size: f32,
    has_own: bool,
    own: f32,
    advance: f32,
    width: &mut f32,
) -> u32
    ensures number { result ≡ (if size_in size then 0 else 12) }
    ensures after { width.new ≡ (if size_in size then mul binary32 (cond has_own own size) advance else width.old) }
{
    match Points::new(size) {
        Ok(points) => {
            *width = points.width(&Glyph {
                start: 0,
                end: 0,
                advance,
                size: has_own.then_some(own),
                units: 0,
                cells: 0,
            });
            0
        }
        Err(refused) => u32::from(refused.cause.number()),
    }
}

#[unsafe(no_mangle)]
pub extern "C" fn cudinstant_points_sum(a: f32, b: f32) -> f32
    ensures { result ≡ add binary32 a b }
{
    any_points().sum(a, b)
}

#[unsafe(no_mangle)]
pub extern "C" fn cudinstant_points_over(a: f32, b: f32) -> bool
    ensures { result ≡ lt b a }
{
    any_points().over(a, b)
}

#[unsafe(no_mangle)]
pub extern "C" fn cudinstant_points_difference(a: f32, b: f32) -> f32
    ensures { result ≡ point_difference a b }
{
    any_points().difference(a, b)
}

#[unsafe(no_mangle)]
pub extern "C" fn cudinstant_points_half(a: f32) -> f32
    ensures { result ≡ point_half a }
{
    any_points().half(a)
}

#[unsafe(no_mangle)]
pub extern "C" fn cudinstant_points_lawful(a: f32) -> bool
    ensures { result ≡ point_lawful a }
{
    any_points().lawful(a)
}
