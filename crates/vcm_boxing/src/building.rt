//! Blocks from a grid.

use crate::boxes::{Cells, boxes_of};
use crate::facet::Facet;
use crate::fault::CoverFault;
use crate::flats::add_flats;
use crate::grid::{Grid, Size};
use crate::marks::marks_of;
use crate::planes::{Laying, planes_on};
use crate::reach::reached;
use std::alloc::Global;
use vcm_num::Point;
use vcm_spec::Block3;

// The planes on all axes.
fn grid_of(alloc: Global, facets: &[Facet], laying: &Laying<'_>) -> Result<Grid, CoverFault> {
    let x = planes_on(alloc, facets, 0, laying)?;
    let y = planes_on(alloc, facets, 1, laying)?;
    let z = planes_on(alloc, facets, 2, laying)?;
    Ok(Grid { x, y, z })
}

// The least number of planes for faces that is less than another one.
fn fewer(most: usize) -> usize {
    if most > 256 { 256 } else { most / 2 }
}

// The grid with planes at as many faces as its size allows.
fn fitting(alloc: Global, facets: &[Facet], laying: &Laying<'_>) -> Result<Grid, CoverFault> {
    let mut most = laying.aligned.unwrap_or(0);
    for _ in 0..12 {
        let aligned = if laying.aligned.is_some() {
            Some(most)
        } else {
            None
        };
        let grid = grid_of(
            alloc,
            facets,
            &Laying {
                step: laying.step,
                aligned,
                near: laying.near,
                half: laying.half,
            },
        )?;
        if grid.checked().is_ok() {
            return Ok(grid);
        }
        if most == 0 {
            break;
        }
        most = fewer(most);
    }
    Err(CoverFault::TooFine)
}

// The block of some cells.
fn block_at(grid: &Grid, cells: &Cells) -> Block3 {
    Block3 {
        low: Point::new(
            i64::from(grid.plane(0, cells.low[0])),
            i64::from(grid.plane(1, cells.low[1])),
            i64::from(grid.plane(2, cells.low[2])),
        ),
        high: Point::new(
            i64::from(grid.plane(0, cells.high[0])),
            i64::from(grid.plane(1, cells.high[1])),
            i64::from(grid.plane(2, cells.high[2])),
        ),
    }
}

// The boxes of a grid that hold what isn't reached from outside.
fn boxes_on(
    alloc: Global,
    grid: &Grid,
    size: Size,
    facets: &[Facet],
    most: usize,
) -> Result<Vec<Cells>, CoverFault> {
    let marks = marks_of(alloc, grid, size, facets)?;
    let free = reached(alloc, size, &marks)?;
    let mut boxes = boxes_of(alloc, size, grid.cells(), &free, most)?;
    add_flats(alloc, size, &marks, &free, &mut boxes, most)?;
    Ok(boxes)
}

/// Blocks round triangles, on a grid that is laid so: those of its cells that aren't reached from outside. Nothing is promised of them, so whoever takes them
/// tests them.
///
/// # Errors
///
/// `TooFine` where the grid would have more than 268,435,456 elements; `TooManyBlocks` where there would be more blocks than `most`; `NoMemory` where a
/// growth of memory was refused.
pub fn blocks_on(
    alloc: Global,
    facets: &[Facet],
    laying: &Laying<'_>,
    most: usize,
) -> Result<Vec<Block3>, CoverFault> {
    let grid = fitting(alloc, facets, laying)?;
    let size = grid.checked()?;
    let boxes = boxes_on(alloc, &grid, size, facets, most)?;
    if boxes.len() > most {
        return Err(CoverFault::TooManyBlocks);
    }
    let mut blocks = Vec::new(alloc);
    for cells in boxes.as_slice() {
        blocks.push(block_at(&grid, cells))?;
    }
    Ok(blocks)
}
