//! Flat boxes for marked elements that no box of cells holds.

use crate::bits::Bits;
use crate::boxes::Cells;
use crate::fault::CoverFault;
use crate::grid::Size;
use std::alloc::Global;

// Elements from one to another on each axis, both among them.
#[derive(Clone, Copy)]
struct Flat {
    low: [usize; 3],
    high: [usize; 3],
}

// Turns on the elements of a box.
fn paint(size: Size, painted: &mut Bits, cells: &Cells) {
    let first = cells.low[0].wrapping_mul(2);
    let last = cells.high[0].wrapping_mul(2);
    for z in cells.low[2].wrapping_mul(2)..cells.high[2].wrapping_mul(2).wrapping_add(1) {
        for y in cells.low[1].wrapping_mul(2)..cells.high[1].wrapping_mul(2).wrapping_add(1) {
            let row = size.at(0, y, z);
            painted.turn_on_run(
                row.wrapping_add(first),
                row.wrapping_add(last).wrapping_add(1),
            );
        }
    }
}

// Whether an even number gives 1, and an odd one 0.
fn even(number: usize) -> usize {
    if number % 2 == 0 { 1 } else { 0 }
}

// Whether an element of the seed's kind between two places is free.
fn is_some_free(size: Size, free: &Bits, seed: &Flat, part: &Flat) -> bool {
    for z in part.low[2]..part.high[2].wrapping_add(1) {
        for y in part.low[1]..part.high[1].wrapping_add(1) {
            for x in part.low[0]..part.high[0].wrapping_add(1) {
                let is_kind = even(x) == even(seed.low[0])
                    && even(y) == even(seed.low[1])
                    && even(z) == even(seed.low[2]);
                if is_kind && free.is_on(size.at(x, y, z)) {
                    return true;
                }
            }
        }
    }
    false
}

// Whether a flat box grew on one side by two elements.
fn grow_side(size: Size, free: &Bits, flat: &mut Flat, axis: usize, is_up: bool) -> bool {
    if axis > 2 {
        return false;
    }
    let mut part = *flat;
    let next = if is_up {
        flat.high[axis].wrapping_add(2)
    } else {
        flat.low[axis].wrapping_sub(2)
    };
    if next >= size.on(axis) {
        return false;
    }
    part.low[axis] = next;
    part.high[axis] = next;
    if is_some_free(size, free, flat, &part) {
        return false;
    }
    if is_up {
        flat.high[axis] = next;
    } else {
        flat.low[axis] = next;
    }
    true
}

// The flat box that grows from an element.
fn grown(size: Size, free: &Bits, spot: [usize; 3]) -> Cells {
    let mut flat = Flat {
        low: spot,
        high: spot,
    };
    for axis in 0..3 {
        if spot[axis] % 2 == 1 {
            for _ in 0..size.on(axis) {
                if !grow_side(size, free, &mut flat, axis, false) {
                    break;
                }
            }
            for _ in 0..size.on(axis) {
                if !grow_side(size, free, &mut flat, axis, true) {
                    break;
                }
            }
        }
    }
    Cells {
        low: [flat.low[0] / 2, flat.low[1] / 2, flat.low[2] / 2],
        high: [
            flat.high[0].wrapping_add(1) / 2,
            flat.high[1].wrapping_add(1) / 2,
            flat.high[2].wrapping_add(1) / 2,
        ],
    }
}

// The place of an element.
fn spot_of(size: Size, index: usize) -> [usize; 3] {
    let row = index / size.x.max(1);
    [
        index % size.x.max(1),
        row % size.y.max(1),
        row / size.y.max(1),
    ]
}

/// Adds flat boxes for the marked elements that no box holds, those that are flat on one axis first.
pub fn add_flats(
    alloc: Global,
    size: Size,
    marks: &Bits,
    free: &Bits,
    boxes: &mut Vec<Cells>,
    most: usize,
) -> Result<(), CoverFault> {
    let mut painted = Bits::new(alloc, size.count())?;
    for cells in boxes.as_slice() {
        paint(size, &mut painted, cells);
    }
    for flats in 1..4 {
        for word in 0..marks.words() {
            if marks.is_within(&painted, word) {
                continue;
            }
            for bit in 0..64 {
                let index = word.wrapping_mul(64).wrapping_add(bit);
                let spot = spot_of(size, index);
                let kind = even(spot[0])
                    .wrapping_add(even(spot[1]))
                    .wrapping_add(even(spot[2]));
                if kind == flats && marks.is_on(index) && !painted.is_on(index) {
                    let cells = grown(size, free, spot);
                    paint(size, &mut painted, &cells);
                    boxes.push(cells)?;
                    if boxes.len() > most.saturating_add(most / 4).saturating_add(64) {
                        return Err(CoverFault::TooManyBlocks);
                    }
                }
            }
        }
    }
    Ok(())
}
