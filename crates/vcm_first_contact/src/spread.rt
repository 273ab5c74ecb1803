//! Where the centre of the tip stands as a box meets a block.

ghost use Rattle.std.specs.Prelude.{◌≡◌, ◌-ℤ◌, IsTrue};
ghost use Rattle.vcm_num.specs.Point.{point, coordinate, IsReachable};
ghost use Rattle.vcm_spec.specs.Workpiece.{is_block};
ghost use Rattle.vcm_carried.specs.Carried.{IsBox, spread};

use vcm_num::Point;
use vcm_spec::Block3;

// How far one corner lies from another on each axis.
fn apart(one: Point, other: Point) -> Point
    requires one { IsReachable one }
    requires other { IsReachable other }
    ensures { result ≡ point (coordinate one 0 -ℤ coordinate other 0) (coordinate one 1 -ℤ coordinate other 1) (coordinate one 2 -ℤ coordinate other 2) }
{
    let Point([a, b, c]) = one;
    let Point([u, v, w]) = other;
    Point::new(a - u, b - v, c - w)
}

/// The block grown by the box reflected, whose sides are at most 10,000,000 micrometres from the centre of the tip.
pub(crate) fn spread(carried: &Block3, block: &Block3) -> Block3
    requires carried { IsBox 10000000 carried.now }
    requires block { IsTrue (is_block block.now) }
    ensures { result ≡ spread carried.now block.now }
{
    Block3 {
        low: apart(block.low, carried.high),
        high: apart(block.high, carried.low),
    }
}
