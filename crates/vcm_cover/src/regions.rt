//! Regions round the blocks of a cover: open boxes that together hold all places which lie in no block, each of them behind one that it overlaps.

use crate::cutting::{Cut, choose_cut};
use crate::held::{DEEPEST, gather, some_holds};
use crate::region::{Region, overlaps};
use crate::space::{closed, is_around};
use std::alloc::Global;
use vcm_boxing::range::{Range, Stretch, above, below, is_nowhere, level};
use vcm_boxing::{CoverFault, divided};
use vcm_num::Point;
use vcm_spec::Block3;

// Regions as they are found, and the number of that of each part that meets no block.
#[derive(Drop)]
struct Found {
    regions: Vec<Region>,
    numbers: Vec<u32>,
}

/// Regions in an order in which each but the first six overlaps an earlier one; the numbers of those of the parts that meet no block; and the regions
/// that no way leads out of.
#[derive(Drop)]
pub struct Ways {
    pub regions: Vec<Region>,
    pub numbers: Vec<u32>,
    pub shut: Vec<Region>,
}

// Whether a block reaches into a region on an axis.
fn reaches_on(region: &Region, block: &Block3, axis: usize) -> bool {
    axis < 3
        && block.low.0[axis] < i64::from(region.high[axis])
        && i64::from(region.low[axis]) < block.high.0[axis]
}

// What a cut at one side of a block leaves of a region, on an axis.
#[derive(Clone, Copy)]
struct Left {
    axis: usize,
    low: i32,
    high: i32,
    // In thousandths of what there was.
    share: i64,
}

// The greater one of what two cuts leave.
fn larger(best: Option<Left>, other: Left) -> Option<Left> {
    match best {
        Some(one) if one.share >= other.share => best,
        _ => Some(other),
    }
}

// What a cut from one coordinate to another leaves.
fn left_of(region: &Region, axis: usize, low: i64, high: i64) -> Option<Left> {
    if axis > 2 {
        return None;
    }
    let Ok(low) = i32::try_from(low) else {
        return None;
    };
    let Ok(high) = i32::try_from(high) else {
        return None;
    };
    let old = i64::from(region.high[axis])
        .wrapping_sub(i64::from(region.low[axis]))
        .max(1);
    let new = i64::from(high).wrapping_sub(i64::from(low));
    Some(Left {
        axis,
        low,
        high,
        share: divided(new.wrapping_mul(1000), old),
    })
}

// Whether a stretch lies before a coordinate, which it may touch where it is open.
fn ends_before(stretch: &Stretch, at: i64) -> bool {
    i64::from(stretch.high) < at || i64::from(stretch.high) == at && stretch.open_high
}

fn begins_after(stretch: &Stretch, at: i64) -> bool {
    at < i64::from(stretch.low) || i64::from(stretch.low) == at && stretch.open_low
}

// The region without a block, all of a range staying in it.
fn without(region: &Region, block: &Block3, range: &Range) -> Region {
    let mut best = None;
    for axis in 0..3 {
        let stretch = &range.0[axis];
        if ends_before(stretch, block.low.0[axis])
            && let Some(left) = left_of(
                region,
                axis,
                i64::from(region.low[axis]),
                block.low.0[axis],
            )
        {
            best = larger(best, left);
        }
        if begins_after(stretch, block.high.0[axis])
            && let Some(left) = left_of(
                region,
                axis,
                block.high.0[axis],
                i64::from(region.high[axis]),
            )
        {
            best = larger(best, left);
        }
    }
    let mut rest = *region;
    if let Some(left) = best
        && left.axis < 3
    {
        rest.low[left.axis] = left.low;
        rest.high[left.axis] = left.high;
    }
    rest
}

// A region round a range that meets no block.
fn grown(blocks: &[Block3], outer: &Region, range: &Range) -> Region {
    let mut region = *outer;
    for block in blocks {
        if reaches_on(&region, block, 0)
            && reaches_on(&region, block, 1)
            && reaches_on(&region, block, 2)
        {
            region = without(&region, block, range);
        }
    }
    region
}

impl Found {
    // Notes the region of a range that meets no block.
    fn add(&mut self, blocks: &[Block3], outer: &Region, range: &Range) -> Result<(), CoverFault> {
        let count = self.regions.len();
        for index in 0..count {
            let last = count.wrapping_sub(1).wrapping_sub(index);
            if last < self.regions.len() && is_around(&self.regions[last], range) {
                self.numbers.push((last & 0xffff_ffff) as u32)?;
                return Ok(());
            }
        }
        self.regions.push(grown(blocks, outer, range))?;
        self.numbers.push((count & 0xffff_ffff) as u32)?;
        Ok(())
    }

    // Notes those of all parts of a range that meet no block, in order.
    fn find(
        &mut self,
        blocks: &[Block3],
        near: &mut [u32],
        outer: &Region,
        range: &Range,
        fuel: u32,
    ) -> Result<(), CoverFault> {
        if fuel == 0 || is_nowhere(range) {
            return Ok(());
        }
        let count = gather(blocks, near, range);
        if count == 0 {
            return self.add(blocks, outer, range);
        }
        let own = &mut near[..count];
        if some_holds(blocks, own, range) {
            return Ok(());
        }
        match choose_cut(blocks, own, range) {
            None => Ok(()),
            Some(Cut { axis, at }) => {
                self.find(blocks, &mut *own, outer, &below(range, axis, at), fuel - 1)?;
                self.find(blocks, &mut *own, outer, &level(range, axis, at), fuel - 1)?;
                self.find(blocks, &mut *own, outer, &above(range, axis, at), fuel - 1)
            }
        }
    }
}

// A coordinate one farther out, at most so far.
fn farther(at: i32, by: i32) -> i32 {
    at.saturating_add(by)
}

// The box that reaches one micrometre beyond two corners.
fn outer_of(low: &[i32; 3], high: &[i32; 3]) -> Region {
    Region {
        low: [
            farther(low[0], -1),
            farther(low[1], -1),
            farther(low[2], -1),
        ],
        high: [
            farther(high[0], 1),
            farther(high[1], 1),
            farther(high[2], 1),
        ],
        from: 0,
    }
}

// Puts the six sides round the box between two corners first.
fn put_sides(regions: &mut Vec<Region>, low: &[i32; 3], high: &[i32; 3]) -> Result<(), CoverFault> {
    for axis in 0..3 {
        let mut side = outer_of(low, high);
        side.high[axis] = low[axis];
        regions.push(side)?;
        let mut side = outer_of(low, high);
        side.low[axis] = high[axis];
        regions.push(side)?;
    }
    Ok(())
}

// Puts those regions behind the others that overlap one of them, and notes their new numbers.
fn put_next(
    ways: &mut Ways,
    found: &[Region],
    places: &mut [u32],
    from: usize,
) -> Result<(), CoverFault> {
    for index in 0..found.len() {
        if index < places.len() && places[index] == u32::MAX && from < ways.regions.len() {
            let mut region = found[index];
            if overlaps(&region, &ways.regions[from]) {
                region.from = (from & 0xffff_ffff) as u32;
                places[index] = (ways.regions.len() & 0xffff_ffff) as u32;
                ways.regions.push(region)?;
            }
        }
    }
    Ok(())
}

// The regions in order, with their numbers anew.
fn ordered(
    alloc: Global,
    found: &Found,
    low: &[i32; 3],
    high: &[i32; 3],
) -> Result<Ways, CoverFault> {
    let mut ways = Ways {
        regions: Vec::new(alloc),
        numbers: Vec::new(alloc),
        shut: Vec::new(alloc),
    };
    put_sides(&mut ways.regions, low, high)?;
    let mut places = Vec::from_elem(alloc, u32::MAX, found.regions.len())?;
    for from in 0..found.regions.len().saturating_add(6) {
        put_next(
            &mut ways,
            found.regions.as_slice(),
            places.as_mut_slice(),
            from,
        )?;
    }
    for index in 0..places.len() {
        if places[index] == u32::MAX && index < found.regions.len() {
            ways.shut.push(found.regions[index])?;
        }
    }
    for number in found.numbers.as_slice() {
        let index = *number as usize;
        ways.numbers.push(if index < places.len() {
            places[index]
        } else {
            0
        })?;
    }
    Ok(ways)
}

/// The regions round blocks that all lie between two corners.
pub fn ways_of(
    alloc: Global,
    blocks: &[Block3],
    near: &mut [u32],
    low: &[i32; 3],
    high: &[i32; 3],
) -> Result<Ways, CoverFault> {
    let mut found = Found {
        regions: Vec::new(alloc),
        numbers: Vec::new(alloc),
    };
    found.find(
        blocks,
        near,
        &outer_of(low, high),
        &closed(low, high),
        DEEPEST,
    )?;
    ordered(alloc, &found, low, high)
}

/// The block that a region fills.
pub fn block_of(region: &Region) -> Block3 {
    let [x, y, z] = region.low;
    let [u, v, w] = region.high;
    Block3 {
        low: Point::new(i64::from(x), i64::from(y), i64::from(z)),
        high: Point::new(i64::from(u), i64::from(v), i64::from(w)),
    }
}
