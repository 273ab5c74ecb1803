//! Boxes with their sides moved out.

ghost use Rattle.std.specs.Prelude.{◌≡◌, ◌≤◌, pos, ◌+ℤ◌, ◌-ℤ◌};
ghost use Rattle.vcm_num.specs.Point.{point, coordinate, IsReachable};
ghost use Rattle.vcm_spec.specs.Workpiece.{grown};
ghost use Rattle.vcm_carried.specs.Carried.{IsBox};

use vcm_num::Point;
use vcm_spec::Block3;

// The point that lies lower by a length on each axis.
fn lowered(at: Point, by: u32) -> Point
    requires at { IsReachable at }
    requires by { by ≤ 50000 }
    ensures { result ≡ point (coordinate at 0 -ℤ pos by) (coordinate at 1 -ℤ pos by) (coordinate at 2 -ℤ pos by) }
{
    let by = i64::from(by);
    let Point([x, y, z]) = at;
    Point::new(x - by, y - by, z - by)
}

// The point that lies higher by a length on each axis.
fn raised(at: Point, by: u32) -> Point
    requires at { IsReachable at }
    requires by { by ≤ 50000 }
    ensures { result ≡ point (coordinate at 0 +ℤ pos by) (coordinate at 1 +ℤ pos by) (coordinate at 2 +ℤ pos by) }
{
    let by = i64::from(by);
    let Point([x, y, z]) = at;
    Point::new(x + by, y + by, z + by)
}

/// The box with its sides moved out by at most 50,000 micrometres.
pub(crate) fn grown(carried: &Block3, by: u32) -> Block3
    requires carried { IsBox 10000000 carried.now }
    requires by { by ≤ 50000 }
    ensures is { result ≡ grown by carried.now }
    ensures wide { IsBox 10050000 result }
{
    Block3 {
        low: lowered(carried.low, by),
        high: raised(carried.high, by),
    }
}
