//! Boxes that hold all cells which aren't reached from outside.

use crate::bits::Bits;
use crate::fault::CoverFault;
use crate::grid::Size;
use crate::thinning::thinned;
use std::alloc::Global;

/// The cells between two places, the second one left out.
#[derive(Clone, Copy, PartialEq, Eq)]
pub struct Cells {
    pub low: [usize; 3],
    pub high: [usize; 3],
}

// How many cells before a place are free.
#[derive(Drop)]
struct Sums {
    size: Size,
    counts: Vec<u32>,
}

impl Sums {
    fn get(&self, x: usize, y: usize, z: usize) -> u32 {
        let index = self.size.at(x, y, z);
        if index < self.counts.len() {
            self.counts[index]
        } else {
            0
        }
    }

    fn set(&mut self, x: usize, y: usize, z: usize, count: u32) {
        let index = self.size.at(x, y, z);
        if index < self.counts.len() {
            self.counts[index] = count;
        }
    }

    // The sums of a row of cells.
    fn add_row(&mut self, elements: Size, free: &Bits, y: usize, z: usize) {
        let row = elements.at(
            0,
            y.wrapping_mul(2).wrapping_add(1),
            z.wrapping_mul(2).wrapping_add(1),
        );
        let mut count = 0u32;
        for x in 0..self.size.x.saturating_sub(1) {
            if free.is_on(row.wrapping_add(x.wrapping_mul(2)).wrapping_add(1)) {
                count = count.wrapping_add(1);
            }
            let next = x.wrapping_add(1);
            let (above, behind) = (y.wrapping_add(1), z.wrapping_add(1));
            let sum = count
                .wrapping_add(self.get(next, y, behind))
                .wrapping_add(self.get(next, above, z))
                .wrapping_sub(self.get(next, y, z));
            self.set(next, above, behind, sum);
        }
    }

    // How many cells of a box up to a layer are free.
    fn layer(&self, cells: &Cells, z: usize) -> u32 {
        self.get(cells.high[0], cells.high[1], z)
            .wrapping_sub(self.get(cells.low[0], cells.high[1], z))
            .wrapping_sub(self.get(cells.high[0], cells.low[1], z))
            .wrapping_add(self.get(cells.low[0], cells.low[1], z))
    }

    // Whether no cell of a box is free.
    fn is_taken(&self, cells: &Cells) -> bool {
        self.layer(cells, cells.high[2]) == self.layer(cells, cells.low[2])
    }
}

// The sums of a grid's cells.
fn sums_of(alloc: Global, elements: Size, cells: Size, free: &Bits) -> Result<Sums, CoverFault> {
    let size = Size {
        x: cells.x.saturating_add(1),
        y: cells.y.saturating_add(1),
        z: cells.z.saturating_add(1),
    };
    let mut sums = Sums {
        size,
        counts: Vec::from_elem(alloc, 0, size.count())?,
    };
    for z in 0..cells.z {
        for y in 0..cells.y {
            sums.add_row(elements, free, y, z);
        }
    }
    Ok(sums)
}

// Boxes on a grid, and which cells they hold.
#[derive(Drop)]
struct Boxes {
    size: Size,
    sums: Sums,
    held: Bits,
    all: Vec<Cells>,
}

impl Boxes {
    // Whether a box grew by a layer of taken cells on one side.
    fn grow_side(&self, cells: &mut Cells, axis: usize, is_up: bool) -> bool {
        if axis > 2 {
            return false;
        }
        let mut layer = *cells;
        if is_up {
            if cells.high[axis] >= self.size.on(axis) {
                return false;
            }
            layer.low[axis] = cells.high[axis];
            layer.high[axis] = cells.high[axis].wrapping_add(1);
        } else {
            if cells.low[axis] == 0 {
                return false;
            }
            layer.high[axis] = cells.low[axis];
            layer.low[axis] = cells.low[axis].wrapping_sub(1);
        }
        if !self.sums.is_taken(&layer) {
            return false;
        }
        if is_up {
            cells.high[axis] = layer.high[axis];
        } else {
            cells.low[axis] = layer.low[axis];
        }
        true
    }

    // Grows a box on an axis as far as it can.
    fn grow_axis(&self, cells: &mut Cells, axis: usize) {
        for _ in 0..self.size.on(axis) {
            if !self.grow_side(&mut *cells, axis, false) {
                break;
            }
        }
        for _ in 0..self.size.on(axis) {
            if !self.grow_side(&mut *cells, axis, true) {
                break;
            }
        }
    }

    // A cell grown on one axis after another.
    fn grown_in_order(&self, seed: &Cells, first: usize, second: usize, third: usize) -> Cells {
        let mut cells = *seed;
        self.grow_axis(&mut cells, first);
        self.grow_axis(&mut cells, second);
        self.grow_axis(&mut cells, third);
        cells
    }

    // A cell grown on all axes in turn.
    fn grown_evenly(&self, seed: &Cells) -> Cells {
        let mut cells = *seed;
        for _ in 0..self.size.count() {
            let mut any = false;
            for axis in 0..3 {
                if self.grow_side(&mut cells, axis, false) {
                    any = true;
                }
                if self.grow_side(&mut cells, axis, true) {
                    any = true;
                }
            }
            if !any {
                break;
            }
        }
        cells
    }

    // How many cells of a box no other one holds; it isn't counted to its end where it can't be more than so many.
    fn gain(&self, cells: &Cells, most: usize) -> usize {
        let mut gain = volume_of(cells);
        for z in cells.low[2]..cells.high[2] {
            if gain <= most {
                break;
            }
            for y in cells.low[1]..cells.high[1] {
                let row = self.size.at(0, y, z);
                gain = gain.wrapping_sub(
                    self.held.count_on(
                        row.wrapping_add(cells.low[0]),
                        row.wrapping_add(cells.high[0]),
                    ),
                );
            }
        }
        gain
    }

    // The one of some boxes that gains most cells, the first of those that gain as many.
    fn best_of(&self, boxes: &[Cells; 7]) -> Cells {
        let mut best = boxes[0];
        let mut most = 0;
        for number in 0..boxes.len() {
            let cells = &boxes[number];
            if !boxes[..number].contains(cells) {
                let gain = self.gain(cells, most);
                if gain > most {
                    best = *cells;
                    most = gain;
                }
            }
        }
        best
    }

    // The best box at a cell.
    fn best_at(&self, x: usize, y: usize, z: usize) -> Cells {
        let seed = Cells {
            low: [x, y, z],
            high: [x.wrapping_add(1), y.wrapping_add(1), z.wrapping_add(1)],
        };
        self.best_of(&[
            self.grown_in_order(&seed, 0, 1, 2),
            self.grown_in_order(&seed, 0, 2, 1),
            self.grown_in_order(&seed, 1, 0, 2),
            self.grown_in_order(&seed, 1, 2, 0),
            self.grown_in_order(&seed, 2, 0, 1),
            self.grown_in_order(&seed, 2, 1, 0),
            self.grown_evenly(&seed),
        ])
    }

    // Holds the cells of a box.
    fn hold(&mut self, cells: &Cells) {
        for z in cells.low[2]..cells.high[2] {
            for y in cells.low[1]..cells.high[1] {
                let row = self.size.at(0, y, z);
                self.held.turn_on_run(
                    row.wrapping_add(cells.low[0]),
                    row.wrapping_add(cells.high[0]),
                );
            }
        }
    }

    // Adds boxes for the taken cells of a row that no box holds yet.
    fn fill_row(
        &mut self,
        elements: Size,
        free: &Bits,
        y: usize,
        z: usize,
        most: usize,
    ) -> Result<(), CoverFault> {
        let row = self.size.at(0, y, z);
        let above = elements.at(
            1,
            y.wrapping_mul(2).wrapping_add(1),
            z.wrapping_mul(2).wrapping_add(1),
        );
        for x in 0..self.size.x {
            if !self.held.is_on(row.wrapping_add(x))
                && !free.is_on(above.wrapping_add(x.wrapping_mul(2)))
            {
                let best = self.best_at(x, y, z);
                self.hold(&best);
                self.all.push(best)?;
                if self.all.len() > most {
                    return Err(CoverFault::TooManyBlocks);
                }
            }
        }
        Ok(())
    }
}

/// How many cells a box has.
pub fn volume_of(cells: &Cells) -> usize {
    let x = cells.high[0].saturating_sub(cells.low[0]);
    let y = cells.high[1].saturating_sub(cells.low[1]);
    let z = cells.high[2].saturating_sub(cells.low[2]);
    x.saturating_mul(y).saturating_mul(z)
}

/// Boxes that hold all cells that aren't free, at most some more than so many before they are thinned out.
pub fn boxes_of(
    alloc: Global,
    elements: Size,
    cells: Size,
    free: &Bits,
    most: usize,
) -> Result<Vec<Cells>, CoverFault> {
    let sums = sums_of(alloc, elements, cells, free)?;
    let mut boxes = Boxes {
        size: cells,
        sums,
        held: Bits::new(alloc, cells.count())?,
        all: Vec::new(alloc),
    };
    let more = most.saturating_add(most / 4).saturating_add(64);
    for z in 0..cells.z {
        for y in 0..cells.y {
            boxes.fill_row(elements, free, y, z, more)?;
        }
    }
    let Boxes {
        size: _,
        sums: _,
        held: _,
        all,
    } = boxes;
    thinned(alloc, cells, all)
}
