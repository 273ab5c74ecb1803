//! The next block on the line of a way along an axis.

ghost use Rattle.std.specs.Prelude.{◌≡◌, ◌<◌, ◌+ℤ◌, ◌-ℤ◌, ◌&&◌, int_le, pos};
ghost use Rattle.vcm_cause.specs.Ahead.{is_level, is_on_line, gap_on, gap_to, is_in_line, told, far_to, nearer, ahead, free_length};
ghost use Rattle.vcm_cause.specs.inner.Lengths.{IsLength, IsSum};

use vcm_num::Point;
use vcm_part::PartData;
use vcm_spec::Block3;

/// A block on the line of a way, past its end: its number, the first being 1, and how much farther on the tip would meet it, in micrometres.
#[derive(Clone, Copy)]
pub struct Ahead {
    pub block: u32,
    pub far: i64,
}

/// The greatest length that is told, in micrometres.
const FARTHEST: i128 = 4_000_000_000;

// Whether the tip, where it stands at this coordinate, reaches up to a face.
fn is_from(low: i64, tip: u32, at: i64) -> bool
    ensures { result ≡ int_le (low -ℤ pos tip) at }
{
    i128::from(low) - i128::from(tip) <= i128::from(at)
}

// Whether it reaches down to a face.
fn is_up_to(high: i64, tip: u32, at: i64) -> bool
    ensures { result ≡ int_le at (high +ℤ pos tip) }
{
    i128::from(at) <= i128::from(high) + i128::from(tip)
}

// Whether it shares a coordinate with a stretch.
fn is_between(low: i64, high: i64, tip: u32, at: i64) -> bool
    ensures { result ≡ (int_le (low -ℤ pos tip) at && int_le at (high +ℤ pos tip)) }
{
    is_from(low, tip, at) && is_up_to(high, tip, at)
}

// Whether the tip, where it stands on this axis, shares a coordinate with a block.
fn is_level(tip: u32, block: &Block3, at: Point, axis: usize) -> bool
    requires { axis < 3 }
    ensures { result ≡ is_level tip block.now at axis }
{
    is_between(block.low.0[axis], block.high.0[axis], tip, at.0[axis])
}

// Whether a way doesn't go past a block on this axis.
fn is_on_line(tip: u32, block: &Block3, from: Point, to: Point, axis: usize) -> bool
    requires { axis < 3 }
    ensures { result ≡ is_on_line tip block.now from to axis }
{
    if from.0[axis] == to.0[axis] {
        is_level(tip, block, from, axis)
    } else {
        true
    }
}

// How far the tip is from a face above it.
fn up_to(face: i64, tip: u32, at: i64) -> i128
    ensures value { result ≡ face -ℤ pos tip -ℤ at }
    ensures small { IsLength result }
{
    i128::from(face) - i128::from(tip) - i128::from(at)
}

// How far it is from a face below it.
fn down_to(face: i64, tip: u32, at: i64) -> i128
    ensures value { result ≡ at -ℤ face -ℤ pos tip }
    ensures small { IsLength result }
{
    i128::from(at) - i128::from(face) - i128::from(tip)
}

// How far ahead of a place the tip meets a block on this axis.
fn gap_on(tip: u32, block: &Block3, from: Point, to: Point, at: Point, axis: usize) -> i128
    requires { axis < 3 }
    ensures value { result ≡ gap_on tip block.now from to at axis }
    ensures small { IsLength result }
{
    if from.0[axis] < to.0[axis] {
        up_to(block.low.0[axis], tip, at.0[axis])
    } else if to.0[axis] < from.0[axis] {
        down_to(block.high.0[axis], tip, at.0[axis])
    } else {
        0
    }
}

// How far ahead of a place the tip meets a block on a way along an axis.
fn gap_to(tip: u32, block: &Block3, from: Point, to: Point, at: Point) -> i128
    ensures value { result ≡ gap_to tip block.now from to at }
    ensures small { IsSum result }
{
    gap_on(tip, block, from, to, at, 0)
        + gap_on(tip, block, from, to, at, 1)
        + gap_on(tip, block, from, to, at, 2)
}

// Whether a block lies on the line of a way.
fn is_in_line(tip: u32, block: &Block3, from: Point, to: Point) -> bool
    ensures { result ≡ is_in_line tip block.now from to }
{
    is_on_line(tip, block, from, to, 0)
        && is_on_line(tip, block, from, to, 1)
        && is_on_line(tip, block, from, to, 2)
}

// A length, if it is told.
fn told(length: i128) -> Option<i64>
    ensures { result ≡ told length }
{
    if 0 < length && length <= FARTHEST {
        Some(length as i64)
    } else {
        None
    }
}

// How far past the end of a way the tip meets a block, if that lies there on its line.
fn far_to(tip: u32, from: Point, to: Point, block: &Block3) -> Option<i64>
    ensures { result ≡ far_to tip from to block.now }
{
    if is_in_line(tip, block, from, to) {
        told(gap_to(tip, block, from, to, to))
    } else {
        None
    }
}

// The nearer of the block that was found and another one.
fn nearer(found: Option<Ahead>, block: u32, far: Option<i64>) -> Option<Ahead>
    ensures { result ≡ nearer found block far }
{
    let Some(far) = far else {
        return found;
    };
    match found {
        None => Some(Ahead { block, far }),
        Some(old) => {
            if old.far <= far {
                Some(old)
            } else {
                Some(Ahead { block, far })
            }
        }
    }
}

/// The next block past the end of a way along an axis, on its line; of those equally far the first. None where there is none within four kilometres.
pub fn block_ahead(part: &PartData, from: Point, to: Point) -> Option<Ahead>
    ensures { result ≡ ahead part.now from to }
{
    let tip = part.bounds().tip;
    let mut found = None;
    let mut number: u32 = 0;
    for block in part.blocks() {
        number += 1;
        found = nearer(found, number, far_to(tip, from, to, block));
    }
    found
}

/// How far a way along an axis may go from its start without meeting a block, in micrometres: none where it meets it at once, or where it isn't on its way.
pub fn free_length(tip: u32, block: &Block3, from: Point, to: Point) -> Option<i64>
    ensures { result ≡ free_length tip block.now from to }
{
    told(gap_to(tip, block, from, to, from) - 1)
}
