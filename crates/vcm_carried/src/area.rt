//! The box that a carried box sweeps: a block that it does not touch, is not met.

ghost use Rattle.std.specs.Prelude.{◌≡◌, ◌&&◌};
ghost use Rattle.vcm_num.specs.Point.{coordinate, is_below};
ghost use Rattle.vcm_carried.specs.Carried.{IsBox};
ghost use Rattle.vcm_carried.specs.inner.Shared.{IsSwept};

use crate::way::Way;
use vcm_num::Point;
use vcm_part::is_below;
use vcm_spec::Block3;

/// The box that holds a carried box on all of a way.
pub(crate) fn swept(carried: &Block3, way: &Way) -> Block3
    requires { IsBox 10050000 carried.now }
    ensures { IsSwept carried.now way.now.from way.now.to result }
{
    let Point([x, y, z]) = way.from;
    let Point([u, v, w]) = way.to;
    let Point([left, front, bottom]) = carried.low;
    let Point([right, back, top]) = carried.high;
    Block3 {
        low: Point([x.min(u) + left, y.min(v) + front, z.min(w) + bottom]),
        high: Point([x.max(u) + right, y.max(v) + back, z.max(w) + top]),
    }
}

/// Whether two boxes have a point in common, their faces included.
pub(crate) fn is_touching(block: &Block3, other: &Block3) -> bool
    ensures { result ≡ (is_below (coordinate block.now.low) (coordinate other.now.high) && is_below (coordinate other.now.low) (coordinate block.now.high)) }
{
    is_below(block.low, other.high) && is_below(other.low, block.high)
}
