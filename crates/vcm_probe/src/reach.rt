//! Points along a direction.

ghost use Rattle.std.specs.Prelude.{◌≡◌, pos, ◌+ℤ◌, ◌*ℤ◌, IsTrue};
ghost use Rattle.vcm_num.specs.Axis.{unit, along};
ghost use Rattle.vcm_num.specs.Point.{coordinate, is_near};
ghost use Rattle.vcm_spec.specs.Outcome.{point_of};
ghost use Rattle.vcm_probe.specs.Places.{fitting, fitting_point};

use vcm_num::{Axis, Point};

// One coordinate of a point that moves along a direction, if it fits.
fn stepped(start: i64, axis: usize, toward: Axis, distance: u32) -> Option<i64>
    ensures { result ≡ fitting (start +ℤ (pos distance *ℤ unit toward axis)) }
{
    if axis != toward.index() {
        Some(start)
    } else if toward.is_forward() {
        start.checked_add(i64::from(distance))
    } else {
        start.checked_sub(i64::from(distance))
    }
}

/// The point at a distance in micrometres along a direction, if its coordinates fit 64 bits.
pub fn reached(from: Point, toward: Axis, distance: u32) -> Option<Point>
    ensures { result ≡ fitting_point (along (coordinate from) toward distance) }
{
    let Point([x, y, z]) = from;
    let x = stepped(x, 0, toward, distance)?;
    let y = stepped(y, 1, toward, distance)?;
    let z = stepped(z, 2, toward, distance)?;
    Some(Point::new(x, y, z))
}

/// The point at a distance in micrometres along a direction, from a point that is at most a kilometre from 0.
pub fn moved(from: Point, toward: Axis, distance: u32) -> Point
    requires { IsTrue (is_near from) }
    ensures { result ≡ point_of (along (coordinate from) toward distance) }
{
    from.moved(toward, distance)
}
