//! Points in whole micrometres.

ghost use Rattle.std.specs.Prelude.{◌≡◌, ◌<◌, ℕ};
ghost use Rattle.vcm_num.specs.Point.{point, coordinate, is_near, is_near_zero, IsReachable};
ghost use Rattle.vcm_num.specs.Axis.{along};

use crate::axis::Axis;

/// A point: its x, y and z in micrometres.
#[derive(Clone, Copy, PartialEq, Eq)]
pub struct Point(pub [i64; 3]);

impl Point {
    /// The point with these coordinates in micrometres.
    pub fn new(x: i64, y: i64, z: i64) -> Point
        ensures { result ≡ point x y z }
    {
        Point([x, y, z])
    }

    /// Whether each coordinate is at most a kilometre (1,000,000,000 micrometres) from 0.
    pub fn is_near(self) -> bool
        ensures { result ≡ is_near self }
    {
        let Point([x, y, z]) = self;
        near(x) && near(y) && near(z)
    }

    /// The point at a distance in micrometres along a direction.
    pub fn moved(self, toward: Axis, distance: u32) -> Point
        requires { IsReachable self }
        ensures { (k : ℕ) → k < 3 → coordinate result k ≡ along (coordinate self) toward distance k }
    {
        let mut to = self;
        let axis = toward.index();
        if toward.is_forward() {
            to.0[axis] += i64::from(distance);
        } else {
            to.0[axis] -= i64::from(distance);
        }
        to
    }
}

// Whether a coordinate is at most a kilometre from 0.
fn near(z: i64) -> bool
    ensures { result ≡ is_near_zero z }
{
    -1_000_000_000 <= z && z <= 1_000_000_000
}
