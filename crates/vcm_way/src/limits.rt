//! Points within the limits.

ghost use Rattle.std.specs.Prelude.{◌≡◌};
ghost use Rattle.vcm_way.specs.Marks.{clipped, nearest};

use vcm_num::Point;
use vcm_spec::Bounds;

// The number from one to another that is nearest to a third.
fn clipped(low: i64, high: i64, z: i64) -> i64
    ensures { result ≡ clipped low high z }
{
    z.min(high).max(low)
}

/// The point within the limits that is nearest to a point.
pub(crate) fn nearest(bounds: &Bounds, to: Point) -> Point
    ensures { result ≡ nearest bounds.now to }
{
    let Point([x, y, z]) = to;
    let Point([a, b, c]) = bounds.low;
    let Point([u, v, w]) = bounds.high;
    Point::new(clipped(a, u, x), clipped(b, v, y), clipped(c, w, z))
}
