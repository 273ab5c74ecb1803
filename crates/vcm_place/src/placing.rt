//! Workpieces whose blocks are moved.

ghost use Rattle.std.specs.Prelude.{◌≡◌, ◌≤◌, IsTrue, IfOk, length};
ghost use Rattle.std.specs.List.{list_all};
ghost use Rattle.vcm_num.specs.Point.{is_near};
ghost use Rattle.vcm_spec.specs.Workpiece.{is_block};
ghost use Rattle.vcm_place.specs.Placed.{moved, is_fixed, placed_block, placed_blocks, is_in_range, first_far, IsPlaced};

use std::alloc::Global;
use vcm_num::{NoMemory, Point};
use vcm_part::{Block3, PartCode, PartData, PartFault};

// A point, moved by another.
fn moved(place: Point, point: Point) -> Point
    requires place { IsTrue (is_near place) }
    requires point { IsTrue (is_near point) }
    ensures { result ≡ moved place point }
{
    let Point([a, b, c]) = place;
    let Point([x, y, z]) = point;
    Point([x + a, y + b, z + c])
}

// A block at its place: it stays where it is fixed, and else it is moved.
fn placed_block(place: Point, is_fixed: bool, block: &Block3) -> Block3
    requires place { IsTrue (is_near place) }
    requires block { IsTrue (is_block block.now) }
    ensures { result ≡ placed_block place is_fixed block.now }
{
    if is_fixed {
        return *block;
    }
    Block3 {
        low: moved(place, block.low),
        high: moved(place, block.high),
    }
}

// Whether the block at an index is fixed; where nothing is said of it, it isn't.
fn is_fixed(fixtures: &[bool], index: usize) -> bool
    ensures { result ≡ is_fixed fixtures.now index }
{
    match fixtures.get(index) {
        Some(is_fixed) => *is_fixed,
        None => false,
    }
}

// The blocks at their places.
fn placed_blocks(
    alloc: Global,
    place: Point,
    fixtures: &[bool],
    blocks: &[Block3],
) -> Result<Vec<Block3>, NoMemory>
    requires place { IsTrue (is_near place) }
    requires blocks { IsTrue (list_all is_block blocks.now) }
    ensures placed { IfOk result (λ v. v.items ≡ placed_blocks place fixtures.now 0 blocks.now) }
    ensures many { IfOk result (λ v. length v.items ≡ length blocks.now) }
{
    let mut placed = Vec::new(alloc);
    let mut index = 0;
    for block in blocks {
        placed.push(placed_block(place, is_fixed(fixtures, index), block))?;
        index += 1;
    }
    Ok(placed)
}

// Whether the corners of a block are in range.
fn is_in_range(block: &Block3) -> bool
    ensures { result ≡ is_in_range block.now }
{
    block.low.is_near() && block.high.is_near()
}

// The number of the first block with a corner out of range, counted from 1.
fn first_far(blocks: &[Block3]) -> Option<u32>
    requires { length blocks.now ≤ 4096 }
    ensures { result ≡ first_far 1 blocks.now }
{
    let mut number = 1;
    for block in blocks {
        if !is_in_range(block) {
            return Some(number);
        }
        number += 1;
    }
    None
}

// A refusal.
fn refused(code: PartCode, block: u32) -> PartFault
    ensures { result ≡ record { code = code; block = block } }
{
    PartFault { code, block }
}

/// The workpiece with its blocks moved by a place in micrometres, each coordinate of it at most 1,000,000,000 from 0. Limits, home and tip stay, and so do blocks that
/// are of the fixture; where `fixtures` says nothing of a block, it isn't.
///
/// # Errors
///
/// `OutOfRange` with the number of the first block that leaves the range of lengths; `HomeNotClear` where the tip meets a moved block at home; `NoMemory`.
pub fn place_part(
    alloc: Global,
    part: &PartData,
    fixtures: &[bool],
    place: Point,
) -> Result<PartData, PartFault>
    requires { IsTrue (is_near place) }
    ensures { IsPlaced place fixtures.now part.now result }
{
    let Ok(blocks) = placed_blocks(alloc, place, fixtures, part.blocks()) else {
        return Err(refused(PartCode::NoMemory, 0));
    };
    if let Some(number) = first_far(&blocks) {
        return Err(refused(PartCode::OutOfRange, number));
    }
    match part.with_blocks(blocks) {
        Some(placed) => Ok(placed),
        None => Err(refused(PartCode::HomeNotClear, 0)),
    }
}
