//! Whether blocks hold all of a triangle.

ghost use Rattle.std.specs.Prelude.{◌≤◌, length, IsTrue};
ghost use Rattle.vcm_covering.specs.Covering.{Covers};
ghost use Rattle.vcm_boxing.specs.Ranges.{facet_corners};
ghost use Rattle.vcm_cover.specs.Models.{corners};
ghost use Rattle.vcm_cover.specs.inner.Held.{IsFilled, IsHeldIn, IsHeldWhole};

use crate::cutting::{Cut, choose_cut, meets};
use vcm_boxing::facet::{Facet, facet_of, facet_range};
use vcm_boxing::parting::is_missed;
use vcm_boxing::range::{Range, above, below, holds_range, is_nowhere, level};
use vcm_mesh::Triangle;
use vcm_spec::Block3;

/// Puts the numbers of those blocks in front that meet a range, and tells how many they are.
pub fn gather(blocks: &[Block3], near: &mut [u32], range: &Range) -> usize
    ensures { result ≤ length near.new }
{
    let mut count = 0;
    for place in 0..near.len() {
        let number = near[place];
        if (number as usize) < blocks.len() && meets(&blocks[number as usize], range) {
            near[place] = near[count];
            near[count] = number;
            count += 1;
        }
    }
    count
}

/// Whether one of some blocks holds all of a range.
pub fn some_holds(blocks: &[Block3], near: &[u32], range: &Range) -> bool
    ensures { IsTrue result → IsFilled blocks.now range.now }
{
    for number in near {
        let index = *number as usize;
        if index < blocks.len() && holds_range(&blocks[index], range) {
            return true;
        }
    }
    false
}

// So many blocks are asked before all are: those that the triangle before met stand in front.
const FIRST: usize = 16;

/// Whether blocks hold all points of a triangle that lie in a range; the answer no may be wrong. It looks at the blocks with the numbers in `near`,
/// whose order may change, and divides the range at most `fuel` times, one part within another.
pub fn is_held(facet: &Facet, blocks: &[Block3], near: &mut [u32], range: &Range, fuel: u32) -> bool
    ensures { IsTrue result → IsHeldIn (facet_corners facet.now) blocks.now range.now }
{
    if fuel == 0 {
        return false;
    }
    if is_nowhere(range) {
        return true;
    }
    if some_holds(blocks, &near[..near.len().min(FIRST)], range) {
        return true;
    }
    let count = gather(blocks, near, range);
    let own = &mut near[..count];
    if some_holds(blocks, own, range) || is_missed(facet, range) {
        return true;
    }
    match choose_cut(blocks, own, range) {
        None => false,
        Some(Cut { axis, at }) => {
            if !is_held(facet, blocks, &mut *own, &below(range, axis, at), fuel - 1) {
                return false;
            }
            if !is_held(facet, blocks, &mut *own, &level(range, axis, at), fuel - 1) {
                return false;
            }
            is_held(facet, blocks, &mut *own, &above(range, axis, at), fuel - 1)
        }
    }
}

/// The most divisions, one part within another.
pub const DEEPEST: u32 = 250;

// Whether blocks hold all of a triangle; the answer no may be wrong.
fn is_whole(triangle: &Triangle, blocks: &[Block3], near: &mut [u32]) -> bool
    ensures { IsTrue result → IsHeldWhole blocks.now triangle.now }
{
    match facet_of(triangle) {
        None => false,
        Some(facet) => is_held(&facet, blocks, near, &facet_range(&facet), DEEPEST),
    }
}

/// Whether blocks hold all of each triangle; the answer no may be wrong. It looks at the blocks with the numbers in `near`, whose order may change.
pub fn all_held(triangles: &[Triangle], blocks: &[Block3], near: &mut [u32]) -> bool
    ensures { IsTrue result → Covers blocks.now (corners triangles.now) }
{
    for triangle in triangles {
        if !is_whole(triangle, blocks, near) {
            return false;
        }
    }
    true
}
