//! Points in blocks and within limits, and tips that meet blocks.

ghost use Rattle.std.specs.Prelude.{◌≡◌, pos, ◌+ℤ◌, ◌-ℤ◌, int_le};
ghost use Rattle.std.specs.List.{list_all};
ghost use Rattle.vcm_num.specs.Point.{coordinate, is_below, on_each};
ghost use Rattle.vcm_spec.specs.Workpiece.{is_in, is_block, is_met, is_some_met, is_within};

use vcm_num::Point;
use vcm_spec::{Block3, Bounds};

/// Whether no coordinate of `low` is above that of `high`.
pub fn is_below(low: Point, high: Point) -> bool
    ensures { result ≡ is_below (coordinate low) (coordinate high) }
{
    low.0[0] <= high.0[0] && low.0[1] <= high.0[1] && low.0[2] <= high.0[2]
}

/// Whether the point lies in the block, its faces included.
pub fn is_in(block: &Block3, at: Point) -> bool
    ensures { result ≡ is_in block.now (coordinate at) }
{
    is_below(block.low, at) && is_below(at, block.high)
}

// Whether a coordinate is at most `tip` below `low`. Beyond 64 bits the sum is cut off, which changes no answer.
fn is_from(low: i64, tip: u32, x: i64) -> bool
    ensures { result ≡ int_le (low -ℤ pos tip) x }
{
    low.saturating_sub(i64::from(tip)) <= x
}

// Whether a coordinate is at most `tip` above `high`.
fn is_to(high: i64, tip: u32, x: i64) -> bool
    ensures { result ≡ int_le x (high +ℤ pos tip) }
{
    x <= high.saturating_add(i64::from(tip))
}

// Whether no coordinate of the point is more than `tip` below that of the low corner.
fn is_above(low: Point, tip: u32, at: Point) -> bool
    ensures { result ≡ on_each (λ k. int_le (coordinate low k -ℤ pos tip) (coordinate at k)) }
{
    let Point([a, b, c]) = low;
    let Point([x, y, z]) = at;
    is_from(a, tip, x) && is_from(b, tip, y) && is_from(c, tip, z)
}

// Whether none is more than `tip` above that of the high corner.
fn is_beneath(high: Point, tip: u32, at: Point) -> bool
    ensures { result ≡ on_each (λ k. int_le (coordinate at k) (coordinate high k +ℤ pos tip)) }
{
    let Point([a, b, c]) = high;
    let Point([x, y, z]) = at;
    is_to(a, tip, x) && is_to(b, tip, y) && is_to(c, tip, z)
}

/// Whether the tip meets the block where its centre lies at a point. The tip is a closed cube round its centre, `tip` is half its width, and it
/// meets a block where some point of it lies in the block.
pub fn is_met(block: &Block3, tip: u32, at: Point) -> bool
    ensures { result ≡ is_met tip block.now (coordinate at) }
{
    is_above(block.low, tip, at) && is_beneath(block.high, tip, at)
}

/// Whether the tip meets one of the blocks where its centre lies at a point.
pub fn is_some_met(blocks: &[Block3], tip: u32, at: Point) -> bool
    ensures { result ≡ is_some_met tip blocks.now (coordinate at) }
{
    blocks.iter().any(|block| is_met(block, tip, at))
}

/// Whether the point lies within the limits.
pub fn is_within(bounds: &Bounds, at: Point) -> bool
    ensures { result ≡ is_within bounds.now (coordinate at) }
{
    is_below(bounds.low, at) && is_below(at, bounds.high)
}

// Whether the corners of a block are in range, and in order.
fn is_block(block: &Block3) -> bool
    ensures { result ≡ is_block block.now }
{
    block.low.is_near() && block.high.is_near() && is_below(block.low, block.high)
}

// Whether those of all blocks are.
pub(crate) fn are_blocks(blocks: &[Block3]) -> bool
    ensures { result ≡ list_all is_block blocks.now }
{
    blocks.iter().all(|block| is_block(block))
}
