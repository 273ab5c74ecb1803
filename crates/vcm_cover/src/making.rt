//! Covers of triangle meshes.

ghost use Rattle.std.specs.Prelude.{◌≡◌, ◌≤◌, length, true, IfOk, IsTrue};
ghost use Rattle.std.specs.List.{list_all};
ghost use Rattle.vcm_num.specs.Point.{coordinate, is_below};
ghost use Rattle.vcm_spec.specs.Workpiece.{is_block};
ghost use Rattle.vcm_covering.specs.Covering.{Covers};
ghost use Rattle.vcm_cover.specs.Hollows.{LeavesNoHollow};
ghost use Rattle.vcm_cover.specs.Models.{corners};

use crate::asked::{Asked, Cover};
use crate::held::all_held;
use crate::regions::{Ways, block_of, ways_of};
use crate::space::has_no_hollow;
use std::alloc::Global;
use vcm_boxing::facet::{Facet, facet_of};
use vcm_boxing::parting::normal;
use vcm_boxing::{CoverFault, Laying, blocks_on};
use vcm_mesh::Triangle;
use vcm_num::Point;
use vcm_spec::Block3;

// The most planes of faces on an axis.
const MOST_FACES: usize = 1_048_576;

// The triangles in small numbers.
fn facets_of(alloc: Global, triangles: &[Triangle]) -> Result<Vec<Facet>, CoverFault> {
    let mut facets = Vec::new(alloc);
    for triangle in triangles {
        if !triangle.a.is_near() || !triangle.b.is_near() || !triangle.c.is_near() {
            return Err(CoverFault::TooFar);
        }
        match facet_of(triangle) {
            None => return Err(CoverFault::TooFar),
            Some(facet) => facets.push(facet)?,
        }
    }
    Ok(facets)
}

// Blocks round the triangles: with planes at faces, or else in even steps alone, if so they are few enough.
fn blocks_of(
    alloc: Global,
    facets: &[Facet],
    asked: &Asked<'_>,
) -> Result<Vec<Block3>, CoverFault> {
    if facets.is_empty() {
        return Ok(Vec::new(alloc));
    }
    let step = asked.within.max(1);
    let aligned = Laying {
        step,
        aligned: Some(MOST_FACES),
        near: asked.near,
        half: asked.half,
    };
    match blocks_on(alloc, facets, &aligned, asked.most) {
        Err(CoverFault::TooManyBlocks) => {
            let even = Laying {
                step,
                aligned: None,
                near: asked.near,
                half: asked.half,
            };
            blocks_on(alloc, facets, &even, asked.most)
        }
        other => other,
    }
}

// Whether no coordinate of the first point is above the second's.
fn is_below(low: Point, high: Point) -> bool
    ensures { result ≡ is_below (coordinate low) (coordinate high) }
{
    low.0[0] <= high.0[0] && low.0[1] <= high.0[1] && low.0[2] <= high.0[2]
}

// Whether the corners of a block are near, and in order.
fn is_block(block: &Block3) -> bool
    ensures { result ≡ is_block block.now }
{
    block.low.is_near() && block.high.is_near() && is_below(block.low, block.high)
}

// Whether each block is one.
fn are_blocks(blocks: &[Block3]) -> bool
    ensures { result ≡ list_all is_block blocks.now }
{
    blocks.iter().all(|block| is_block(block))
}

// The numbers of so many blocks.
fn numbers_to(alloc: Global, count: usize) -> Result<Vec<u32>, CoverFault> {
    let mut numbers = Vec::new(alloc);
    for number in 0..count {
        numbers.push((number & 0xffff_ffff) as u32)?;
    }
    Ok(numbers)
}

// A coordinate as a small number.
fn small(at: i64) -> i32 {
    i32::try_from(at).unwrap_or(0)
}

// The corners of the least box round blocks, or 0 if there are none.
fn ends_of(blocks: &[Block3]) -> ([i32; 3], [i32; 3]) {
    if blocks.is_empty() {
        return ([0; 3], [0; 3]);
    }
    let mut low = [i32::MAX; 3];
    let mut high = [i32::MIN; 3];
    for block in blocks {
        for axis in 0..3 {
            low[axis] = low[axis].min(small(block.low.0[axis]));
            high[axis] = high[axis].max(small(block.high.0[axis]));
        }
    }
    (low, high)
}

// Whether the blocks leave no hollow, by regions round them.
fn is_open(blocks: &[Block3], near: &mut [u32], ways: &Ways) -> bool
    ensures { IsTrue result → LeavesNoHollow blocks.now }
{
    let (low, high) = ends_of(blocks);
    has_no_hollow(
        blocks,
        ways.regions.as_slice(),
        near,
        ways.numbers.as_slice(),
        &low,
        &high,
    )
}

// The most times that hollows are filled.
const MOST_FILLS: u32 = 4;

// Fills the regions that no way leads out of, and tells the ways out of the others.
fn fill_hollows(alloc: Global, blocks: &mut Vec<Block3>) -> Result<Ways, CoverFault> {
    let mut last = None;
    for _ in 0..MOST_FILLS {
        let mut near = numbers_to(alloc, blocks.len())?;
        let (low, high) = ends_of(blocks.as_slice());
        let ways = ways_of(alloc, blocks.as_slice(), near.as_mut_slice(), &low, &high)?;
        for region in ways.shut.as_slice() {
            blocks.push(block_of(region))?;
        }
        let is_done = ways.shut.is_empty();
        last = Some(ways);
        if is_done {
            break;
        }
    }
    last.ok_or(CoverFault::NotCovered)
}

/// Blocks that cover triangles and leave no hollow: those of a grid that isn't reached from outside.
///
/// Faces square to an axis keep their place. The same triangles and the same question have the same answer.
///
/// # Errors
///
/// `TooFar` where a coordinate is more than 1,000,000,000 micrometres from 0; `TooFine` where the grid would have more than 268,435,456 elements;
/// `TooManyBlocks` where there would be more blocks than asked for; `NotCovered` where what was found doesn't pass the test of what is promised, which no
/// mesh is known to do; `NoMemory` where a growth of memory was refused. The call may then be repeated with a greater length.
pub fn cover(alloc: Global, triangles: &[Triangle], asked: &Asked<'_>) -> Result<Cover, CoverFault>
    ensures covers { IfOk result (λ cover. Covers cover.blocks.items (corners triangles.now)) }
    ensures no_hollow { IfOk result (λ cover. LeavesNoHollow cover.blocks.items) }
    ensures valid { IfOk result (λ cover. list_all is_block cover.blocks.items ≡ true) }
    ensures few { IfOk result (λ cover. length cover.blocks.items ≤ asked.now.most) }
{
    let facets = facets_of(alloc, triangles)?;
    let mut blocks = blocks_of(alloc, facets.as_slice(), asked)?;
    let ways = fill_hollows(alloc, &mut blocks)?;
    let mut near = numbers_to(alloc, blocks.len())?;
    if blocks.len() > asked.most {
        return Err(CoverFault::TooManyBlocks);
    }
    if !are_blocks(blocks.as_slice()) {
        return Err(CoverFault::NotCovered);
    }
    if !all_held(triangles, blocks.as_slice(), near.as_mut_slice()) {
        return Err(CoverFault::NotCovered);
    }
    if !is_open(blocks.as_slice(), near.as_mut_slice(), &ways) {
        return Err(CoverFault::NotCovered);
    }
    Ok(Cover { blocks })
}

// How many numbers of a normal aren't 0.
fn directions(facet: &Facet) -> u32 {
    let [x, y, z] = normal(facet);
    let one = if x == 0 { 0 } else { 1u32 };
    let two = if y == 0 { one } else { one.wrapping_add(1) };
    if z == 0 { two } else { two.wrapping_add(1) }
}

/// Whether some triangle is square to no axis. If none is, a cover within any length is the model itself.
pub fn leans(triangles: &[Triangle]) -> bool {
    for triangle in triangles {
        match facet_of(triangle) {
            None => return true,
            Some(facet) => {
                if directions(&facet) > 1 {
                    return true;
                }
            }
        }
    }
    false
}
