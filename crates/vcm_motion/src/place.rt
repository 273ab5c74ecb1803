//! Where on a move the tip first meets a block.

ghost use Rattle.std.specs.Prelude.{◌≡◌, ◌≤◌, ◌*◌, ◌/◌, IsTrue};
ghost use Rattle.vcm_num.specs.Point.{coordinate, is_near, IsNear};
ghost use Rattle.vcm_spec.specs.Workpiece.{is_block};
ghost use Rattle.vcm_spec.specs.FirstContact.{fraction};
ghost use Rattle.vcm_motion.specs.Places.{part_of_way, entry_point};

use crate::fraction::Fraction;
use crate::hit::crossing;
use vcm_num::Point;
use vcm_spec::Block3;

// A length times a fraction, rounded down.
fn share(length: u32, at: Fraction) -> u32
    requires { at.num ≤ at.den }
    ensures { result ≡ length * at.num / at.den }
{
    (u64::from(length) * u64::from(at.num) / u64::from(at.den)) as u32
}

// The coordinate at a fraction of the way, cut off towards its start.
fn part_of_way(from: i64, to: i64, at: Fraction) -> i64
    requires from { IsNear from }
    requires to { IsNear to }
    requires at { at.num ≤ at.den }
    ensures { result ≡ part_of_way (fraction at.num at.den) from to }
{
    if from <= to {
        from + i64::from(share((to - from) as u32, at))
    } else {
        from - i64::from(share((from - to) as u32, at))
    }
}

/// Where the centre of the tip, whose half width is `tip`, stands when the tip first meets a block on the straight move between two points:
/// each coordinate is cut off to whole micrometres towards the start of the move. None where the move does not meet the block. The points are
/// at most 1,000,000,000 micrometres from 0 on each axis.
pub fn entry_point(block: &Block3, tip: u32, from: Point, to: Point) -> Option<Point>
    requires block { IsTrue (is_block block.now) }
    requires tip { tip ≤ 50000 }
    requires from { IsTrue (is_near from) }
    requires to { IsTrue (is_near to) }
    ensures { result ≡ entry_point tip block.now (coordinate from) (coordinate to) }
{
    let at = crossing(block, tip, from, to)?;
    let Point([x, y, z]) = from;
    let Point([u, v, w]) = to;
    Some(Point::new(
        part_of_way(x, u, at),
        part_of_way(y, v, at),
        part_of_way(z, w, at),
    ))
}
