//! Whether each place lies in a block, or a way leads out from it.

ghost use Rattle.std.specs.Prelude.{◌≡◌, ℕ, ℤ, pos, ◌<◌, ◌*ℤ◌, ◌≤ℤ◌, IsTrue};
ghost use lib.Signed.{◌<ℤ◌};
ghost use Rattle.vcm_cover.specs.Hollows.{LeavesNoHollow};
ghost use Rattle.vcm_boxing.specs.Ranges.{numbers, IsIn, IsOn};
ghost use Rattle.vcm_cover.specs.inner.Regions.{AreWithin, IsFree, IsSettled, IsWithin};

use crate::cutting::{Cut, choose_cut};
use crate::held::{DEEPEST, gather, some_holds};
use crate::region::{Region, all_lead_out, are_from, are_up_to};
use vcm_boxing::range::{Range, Stretch, above, below, is_nowhere, level};
use vcm_spec::Block3;

// Whether a stretch lies above a coordinate.
fn lies_above(low: i32, stretch: &Stretch) -> bool
    ensures { IsTrue result → (s : ℕ) (z : ℤ) → 0 < s → IsOn stretch.now s z → (pos s *ℤ low) <ℤ z }
{
    if low < stretch.low {
        return true;
    }
    if stretch.low < low {
        return false;
    }
    stretch.open_low
}

// Whether a stretch lies below a coordinate.
fn lies_below(high: i32, stretch: &Stretch) -> bool
    ensures { IsTrue result → (s : ℕ) (z : ℤ) → 0 < s → IsOn stretch.now s z → z <ℤ (pos s *ℤ high) }
{
    if stretch.high < high {
        return true;
    }
    if high < stretch.high {
        return false;
    }
    stretch.open_high
}

/// Whether a region holds all of a range.
pub fn is_around(region: &Region, range: &Range) -> bool
    ensures { IsTrue result → (s : ℕ) (x : ℕ → ℤ) → 0 < s → IsIn range.now s x → IsWithin region.now s x }
{
    if !lies_above(region.low[0], &range.0[0]) || !lies_below(region.high[0], &range.0[0]) {
        return false;
    }
    if !lies_above(region.low[1], &range.0[1]) || !lies_below(region.high[1], &range.0[1]) {
        return false;
    }
    if !lies_above(region.low[2], &range.0[2]) {
        return false;
    }
    lies_below(region.high[2], &range.0[2])
}

// Whether the region with a number holds all of a range.
fn is_free(regions: &[Region], number: u32, range: &Range) -> bool
    ensures { IsTrue result → IsFree regions.now range.now }
{
    let index = number as usize;
    if index >= regions.len() {
        return false;
    }
    is_around(&regions[index], range)
}

// The next number of a list, or 0 past its end.
fn take_number(numbers: &[u32], next: &mut usize) -> u32 {
    let at = *next;
    if at >= numbers.len() {
        return 0;
    }
    *next = at + 1;
    numbers[at]
}

// Whether each place of a range lies in a block or a region; the answer no may be wrong. The regions of the parts that meet no block stand in `numbers` in
// the order in which the parts come, from `next` on.
fn is_settled(
    blocks: &[Block3],
    regions: &[Region],
    near: &mut [u32],
    numbers: &[u32],
    next: &mut usize,
    range: &Range,
    fuel: u32,
) -> bool
    ensures { IsTrue result → IsSettled blocks.now regions.now range.now }
{
    if fuel == 0 {
        return false;
    }
    if is_nowhere(range) {
        return true;
    }
    let count = gather(blocks, near, range);
    if count == 0 {
        return is_free(regions, take_number(numbers, next), range);
    }
    let own = &mut near[..count];
    if some_holds(blocks, own, range) {
        return true;
    }
    match choose_cut(blocks, own, range) {
        None => false,
        Some(Cut { axis, at }) => {
            let part = below(range, axis, at);
            if !is_settled(
                blocks,
                regions,
                &mut *own,
                numbers,
                &mut *next,
                &part,
                fuel - 1,
            ) {
                return false;
            }
            let part = level(range, axis, at);
            if !is_settled(
                blocks,
                regions,
                &mut *own,
                numbers,
                &mut *next,
                &part,
                fuel - 1,
            ) {
                return false;
            }
            let part = above(range, axis, at);
            is_settled(
                blocks,
                regions,
                &mut *own,
                numbers,
                &mut *next,
                &part,
                fuel - 1,
            )
        }
    }
}

/// The closed range between two corners.
pub fn closed(low: &[i32; 3], high: &[i32; 3]) -> Range
    ensures { (s : ℕ) (x : ℕ → ℤ) → ((k : ℕ) → k < 3 → (pos s *ℤ numbers low.now k) ≤ℤ x k) → ((k : ℕ) → k < 3 → x k ≤ℤ (pos s *ℤ numbers high.now k)) → IsIn result s x }
{
    Range([
        Stretch {
            low: low[0],
            high: high[0],
            open_low: false,
            open_high: false,
        },
        Stretch {
            low: low[1],
            high: high[1],
            open_low: false,
            open_high: false,
        },
        Stretch {
            low: low[2],
            high: high[2],
            open_low: false,
            open_high: false,
        },
    ])
}

// Whether all blocks lie between two corners.
fn are_within(blocks: &[Block3], low: &[i32; 3], high: &[i32; 3]) -> bool
    ensures { IsTrue result → AreWithin blocks.now low.now high.now }
{
    if !are_from(blocks, 0, low[0]) || !are_up_to(blocks, 0, high[0]) {
        return false;
    }
    if !are_from(blocks, 1, low[1]) || !are_up_to(blocks, 1, high[1]) {
        return false;
    }
    if !are_from(blocks, 2, low[2]) {
        return false;
    }
    are_up_to(blocks, 2, high[2])
}

/// Whether blocks leave no hollow; the answer no may be wrong. All of them lie between two corners; regions stand between them, and `numbers` has
/// those of the parts of the box that meet no block, in the order in which it is divided.
pub fn has_no_hollow(
    blocks: &[Block3],
    regions: &[Region],
    near: &mut [u32],
    numbers: &[u32],
    low: &[i32; 3],
    high: &[i32; 3],
) -> bool
    ensures { IsTrue result → LeavesNoHollow blocks.now }
{
    if !are_within(blocks, low, high) {
        return false;
    }
    if !all_lead_out(blocks, regions) {
        return false;
    }
    let mut next = 0;
    is_settled(
        blocks,
        regions,
        near,
        numbers,
        &mut next,
        &closed(low, high),
        DEEPEST,
    )
}
