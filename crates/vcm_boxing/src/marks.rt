//! Which elements of a grid triangles meet.

use crate::bits::Bits;
use crate::facet::Facet;
use crate::fault::CoverFault;
use crate::grid::{Grid, Size, element_at, number_at};
use crate::parting::is_missed;
use crate::range::{Range, Stretch};
use std::alloc::Global;

// The first and the last of some elements on each axis.
#[derive(Clone, Copy)]
struct Elements {
    first: [usize; 3],
    last: [usize; 3],
}

// The stretch of the elements from one to another.
fn stretch_of(planes: &[i32], first: usize, last: usize) -> Stretch {
    Stretch {
        low: number_at(planes, first / 2),
        high: number_at(planes, last.wrapping_add(1) / 2),
        open_low: first % 2 == 1,
        open_high: last % 2 == 1,
    }
}

// The range of some elements.
fn range_of(grid: &Grid, elements: &Elements) -> Range {
    Range([
        stretch_of(grid.planes(0), elements.first[0], elements.last[0]),
        stretch_of(grid.planes(1), elements.first[1], elements.last[1]),
        stretch_of(grid.planes(2), elements.first[2], elements.last[2]),
    ])
}

// The axis on which there are most elements, and how many less one.
fn longest(elements: &Elements) -> (usize, usize) {
    let x = elements.last[0].saturating_sub(elements.first[0]);
    let y = elements.last[1].saturating_sub(elements.first[1]);
    let z = elements.last[2].saturating_sub(elements.first[2]);
    if x >= y && x >= z {
        (0, x)
    } else if y >= z {
        (1, y)
    } else {
        (2, z)
    }
}

// Marks those of some elements that a triangle may meet, at most `fuel` halvings deep.
fn mark_among(
    grid: &Grid,
    size: Size,
    facet: &Facet,
    elements: &Elements,
    marks: &mut Bits,
    fuel: u32,
) {
    if fuel == 0 || is_missed(facet, &range_of(grid, elements)) {
        return;
    }
    let (axis, more) = longest(elements);
    if more == 0 || axis > 2 {
        marks.turn_on(size.at(elements.first[0], elements.first[1], elements.first[2]));
        return;
    }
    let middle = elements.first[axis].wrapping_add(more / 2);
    let mut lower = *elements;
    lower.last[axis] = middle;
    mark_among(grid, size, facet, &lower, marks, fuel - 1);
    let mut upper = *elements;
    upper.first[axis] = middle.wrapping_add(1);
    mark_among(grid, size, facet, &upper, marks, fuel - 1);
}

// The most halvings, one within another.
const MOST_HALVINGS: u32 = 100;

// The elements of a triangle's box.
fn elements_of(grid: &Grid, facet: &Facet) -> Elements {
    let mut elements = Elements {
        first: [0; 3],
        last: [0; 3],
    };
    for axis in 0..3 {
        let a = facet.a[axis];
        let b = facet.b[axis];
        let c = facet.c[axis];
        elements.first[axis] = element_at(grid.planes(axis), a.min(b).min(c));
        elements.last[axis] = element_at(grid.planes(axis), a.max(b).max(c));
    }
    elements
}

/// The elements that triangles may meet.
pub fn marks_of(
    alloc: Global,
    grid: &Grid,
    size: Size,
    facets: &[Facet],
) -> Result<Bits, CoverFault> {
    let mut marks = Bits::new(alloc, size.count())?;
    for facet in facets {
        let elements = elements_of(grid, facet);
        let (_, more) = longest(&elements);
        if more == 0 {
            marks.turn_on(size.at(elements.first[0], elements.first[1], elements.first[2]));
        } else {
            mark_among(grid, size, facet, &elements, &mut marks, MOST_HALVINGS);
        }
    }
    Ok(marks)
}
