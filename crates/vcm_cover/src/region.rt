//! Regions: open boxes into which no block reaches, and the ways out of them.

ghost use Rattle.std.specs.Prelude.{◌≡◌, ◌<◌, ◌≤ℤ◌, length, take, slice_index_or, IsTrue};
ghost use Rattle.std.specs.List.{All};
ghost use Rattle.vcm_num.specs.Point.{coordinate};
ghost use Rattle.vcm_cover.specs.inner.Regions.{AreAside, AreFrom, AreUpTo, IsAside, IsOff, IsOverlap, IsSharedOn, IsWayOut};
ghost use Rattle.vcm_cover.specs.declared.region.Region.{Region};

use vcm_spec::Block3;

/// An open box in micrometres, and the number of an earlier one that overlaps it.
#[derive(Clone, Copy)]
pub struct Region {
    pub low: [i32; 3],
    pub high: [i32; 3],
    pub from: u32,
}

// Whether an open stretch has nothing in common with that of a block.
fn is_off(low: i32, high: i32, block_low: i64, block_high: i64) -> bool
    ensures { IsTrue result → IsOff low high block_low block_high }
{
    if i64::from(high) <= block_low {
        return true;
    }
    block_high <= i64::from(low)
}

// Whether a block lies on one side of a region.
fn is_aside(block: &Block3, region: &Region) -> bool
    ensures { IsTrue result → IsAside region.now block.now }
{
    if is_off(
        region.low[0],
        region.high[0],
        block.low.0[0],
        block.high.0[0],
    ) {
        return true;
    }
    if is_off(
        region.low[1],
        region.high[1],
        block.low.0[1],
        block.high.0[1],
    ) {
        return true;
    }
    is_off(
        region.low[2],
        region.high[2],
        block.low.0[2],
        block.high.0[2],
    )
}

// Whether no block reaches into a region.
fn is_clear(blocks: &[Block3], region: &Region) -> bool
    ensures { IsTrue result → All (IsAside region.now) blocks.now }
{
    for block in blocks {
        if !is_aside(block, region) {
            return false;
        }
    }
    true
}

// Whether on an axis a block lies from a coordinate on.
fn is_from(block: &Block3, axis: usize, at: i32) -> bool
    requires { axis < 3 }
    ensures { IsTrue result → at ≤ℤ coordinate block.now.low axis }
{
    i64::from(at) <= block.low.0[axis]
}

// Whether on an axis a block lies up to a coordinate.
fn is_up_to(block: &Block3, axis: usize, at: i32) -> bool
    requires { axis < 3 }
    ensures { IsTrue result → coordinate block.now.high axis ≤ℤ at }
{
    block.high.0[axis] <= i64::from(at)
}

/// Whether on an axis all blocks lie from a coordinate on.
pub fn are_from(blocks: &[Block3], axis: usize, at: i32) -> bool
    requires { axis < 3 }
    ensures { IsTrue result → AreFrom axis at blocks.now }
{
    for block in blocks {
        if !is_from(block, axis, at) {
            return false;
        }
    }
    true
}

/// Whether on an axis all blocks lie up to a coordinate.
pub fn are_up_to(blocks: &[Block3], axis: usize, at: i32) -> bool
    requires { axis < 3 }
    ensures { IsTrue result → AreUpTo axis at blocks.now }
{
    for block in blocks {
        if !is_up_to(block, axis, at) {
            return false;
        }
    }
    true
}

// Whether all blocks lie on one side of a region on an axis.
fn are_aside_on(blocks: &[Block3], region: &Region, axis: usize) -> bool
    requires { axis < 3 }
    ensures { IsTrue result → AreAside region.now blocks.now }
{
    if are_from(blocks, axis, region.high[axis]) {
        return true;
    }
    are_up_to(blocks, axis, region.low[axis])
}

// Whether all blocks lie on one side of a region.
fn are_aside(blocks: &[Block3], region: &Region) -> bool
    ensures { IsTrue result → AreAside region.now blocks.now }
{
    if are_aside_on(blocks, region, 0) {
        return true;
    }
    if are_aside_on(blocks, region, 1) {
        return true;
    }
    are_aside_on(blocks, region, 2)
}

// Whether two open stretches have a part in common.
fn is_shared(low: i32, high: i32, other_low: i32, other_high: i32) -> bool
    ensures { IsTrue result → IsSharedOn low high other_low other_high }
{
    if high <= low || other_high <= other_low {
        return false;
    }
    low < other_high && other_low < high
}

/// Whether two regions have a part in common.
pub fn overlaps(one: &Region, other: &Region) -> bool
    ensures { IsTrue result → IsOverlap one.now other.now }
{
    if !is_shared(one.low[0], one.high[0], other.low[0], other.high[0]) {
        return false;
    }
    if !is_shared(one.low[1], one.high[1], other.low[1], other.high[1]) {
        return false;
    }
    is_shared(one.low[2], one.high[2], other.low[2], other.high[2])
}

// Whether a way leads out of a region, given that one leads out of each before it.
fn leads_out(blocks: &[Block3], regions: &[Region], index: usize) -> bool
    requires within { index < length regions.now }
    requires before { All (IsWayOut blocks.now) (take index regions.now) }
    ensures { IsTrue result → (d : Region) → IsWayOut blocks.now (slice_index_or regions.now index d) }
{
    let region = &regions[index];
    if are_aside(blocks, region) {
        return true;
    }
    let from = region.from as usize;
    if from >= index {
        return false;
    }
    if !overlaps(region, &regions[from]) {
        return false;
    }
    is_clear(blocks, region)
}

/// Whether a way leads out of each region; the answer no may be wrong.
pub fn all_lead_out(blocks: &[Block3], regions: &[Region]) -> bool
    ensures { IsTrue result → All (IsWayOut blocks.now) regions.now }
{
    for index in 0..regions.len() {
        if !leads_out(blocks, regions, index) {
            return false;
        }
    }
    true
}
