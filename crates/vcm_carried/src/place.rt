//! Points on a way.

ghost use Rattle.std.specs.Prelude.{◌≡◌, ◌≤◌, ◌*◌, ◌/◌};
ghost use Rattle.vcm_num.specs.Point.{coordinate, IsNear};
ghost use Rattle.vcm_spec.specs.FirstContact.{fraction};
ghost use Rattle.vcm_motion.specs.Places.{part_of_way, point_on_way};

use crate::fraction::Fraction;
use crate::way::Way;
use vcm_num::Point;

// A length times a fraction, rounded down.
fn share(length: u32, at: Fraction) -> u32
    requires { at.num ≤ at.den }
    ensures { result ≡ length * at.num / at.den }
{
    (u64::from(length) * u64::from(at.num) / u64::from(at.den)) as u32
}

// The coordinate at a fraction of the way, cut off towards its start.
fn part_of_way(from: i64, to: i64, at: Fraction) -> i64
    requires from { IsNear from }
    requires to { IsNear to }
    requires at { at.num ≤ at.den }
    ensures { result ≡ part_of_way (fraction at.num at.den) from to }
{
    if from <= to {
        from + i64::from(share((to - from) as u32, at))
    } else {
        from - i64::from(share((from - to) as u32, at))
    }
}

/// The point at a fraction of a way, each coordinate cut off to whole micrometres towards the start.
pub(crate) fn point_on_way(way: &Way, at: Fraction) -> Point
    requires { at.num ≤ at.den }
    ensures { result ≡ point_on_way (fraction at.num at.den) (coordinate way.now.from) (coordinate way.now.to) }
{
    let Point([x, y, z]) = way.from;
    let Point([u, v, w]) = way.to;
    Point::new(
        part_of_way(x, u, at),
        part_of_way(y, v, at),
        part_of_way(z, w, at),
    )
}
