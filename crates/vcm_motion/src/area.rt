//! Boxes round moves and measurements: a block that such a box does not touch, the tip does not meet. And grown blocks.

ghost use Rattle.std.specs.Prelude.{◌≡◌, ◌≤◌, pos, ◌+ℤ◌, ◌-ℤ◌, ◌&&◌, IsTrue};
ghost use Rattle.vcm_num.specs.Point.{point, coordinate, is_below, is_near, IsReachable};
ghost use Rattle.vcm_motion.specs.inner.Boxes.{IsBoxOf, IsLineBox, IsWideBlock};
ghost use Rattle.vcm_spec.specs.Workpiece.{grown, is_block};

use vcm_num::{Axis, Point};
use vcm_part::is_below;
use vcm_spec::Block3;

// Beyond what the tip reaches where it meets a block.
const FAR: i64 = 1_000_100_000;

// The point that lies lower by a length on each axis.
#[inline(always)]
fn lowered(at: Point, by: u32) -> Point
    requires at { IsReachable at }
    requires by { by ≤ 50000 }
    ensures { result ≡ point (coordinate at 0 -ℤ pos by) (coordinate at 1 -ℤ pos by) (coordinate at 2 -ℤ pos by) }
{
    let by = i64::from(by);
    let Point([x, y, z]) = at;
    Point::new(x - by, y - by, z - by)
}

// The point that lies higher by a length on each axis.
#[inline(always)]
fn raised(at: Point, by: u32) -> Point
    requires at { IsReachable at }
    requires by { by ≤ 50000 }
    ensures { result ≡ point (coordinate at 0 +ℤ pos by) (coordinate at 1 +ℤ pos by) (coordinate at 2 +ℤ pos by) }
{
    let by = i64::from(by);
    let Point([x, y, z]) = at;
    Point::new(x + by, y + by, z + by)
}

/// The block grown by a length on each of its six sides.
#[inline(always)]
pub(crate) fn grown(block: &Block3, by: u32) -> Block3
    requires block { IsTrue (is_block block.now) }
    requires by { by ≤ 50000 }
    ensures is { result ≡ grown by block.now }
    ensures wide { IsWideBlock result }
{
    Block3 {
        low: lowered(block.low, by),
        high: raised(block.high, by),
    }
}

// The box of the ends of a move: on each axis from the lesser to the greater of their coordinates.
#[inline(always)]
fn ends_of(from: Point, to: Point) -> Block3
    requires from { IsTrue (is_near from) }
    requires to { IsTrue (is_near to) }
    ensures holds { IsBoxOf 0 from to result }
    ensures low { IsReachable result.low }
    ensures high { IsReachable result.high }
{
    let Point([x, y, z]) = from;
    let Point([u, v, w]) = to;
    Block3 {
        low: Point([x.min(u), y.min(v), z.min(w)]),
        high: Point([x.max(u), y.max(v), z.max(w)]),
    }
}

/// The box of a move: on each axis from the lesser to the greater coordinate of the tip at its ends.
pub(crate) fn box_of(from: Point, to: Point, tip: u32) -> Block3
    requires from { IsTrue (is_near from) }
    requires to { IsTrue (is_near to) }
    requires tip { tip ≤ 50000 }
    ensures { IsBoxOf tip from to result }
{
    let ends = ends_of(from, to);
    Block3 {
        low: lowered(ends.low, tip),
        high: raised(ends.high, tip),
    }
}

/// The box of the tip on a line that begins at a point and runs along an axis as far as blocks stand.
pub(crate) fn line_of(from: Point, toward: Axis, tip: u32) -> Block3
    requires from { IsTrue (is_near from) }
    requires tip { tip ≤ 50000 }
    ensures { IsLineBox tip (coordinate from) toward result }
{
    let mut low = lowered(from, tip);
    let mut high = raised(from, tip);
    if toward.is_forward() {
        high.0[toward.index()] = FAR;
    } else {
        low.0[toward.index()] = -FAR;
    }
    Block3 { low, high }
}

/// Whether two boxes have a point in common, their faces included.
pub(crate) fn is_touching(block: &Block3, other: &Block3) -> bool
    ensures { result ≡ (is_below (coordinate block.now.low) (coordinate other.now.high) && is_below (coordinate other.now.low) (coordinate block.now.high)) }
{
    is_below(block.low, other.high) && is_below(other.low, block.high)
}
