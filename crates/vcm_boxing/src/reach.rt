//! Which elements of a grid are reached from outside.

use crate::bits::Bits;
use crate::fault::CoverFault;
use crate::grid::Size;
use std::alloc::Global;

// The place of an element.
#[derive(Clone, Copy)]
struct Spot {
    x: usize,
    y: usize,
    z: usize,
}

/// What is known while elements are reached.
#[derive(Drop)]
struct Reach {
    free: Bits,
    todo: Vec<Spot>,
}

// Whether an element is marked, or was reached.
fn is_closed(marks: &Bits, free: &Bits, index: usize) -> bool {
    marks.is_on(index) || free.is_on(index)
}

// The first element of the open ones up to a place of a row.
fn run_start(marks: &Bits, free: &Bits, row: usize, x: usize) -> usize {
    let mut start = x;
    for _ in 0..x {
        let before = start.wrapping_sub(1);
        if start == 0 || is_closed(marks, free, row.wrapping_add(before)) {
            break;
        }
        start = before;
    }
    start
}

// The place behind the open elements from a place of a row on.
fn run_end(marks: &Bits, free: &Bits, row: usize, x: usize, length: usize) -> usize {
    let mut end = x;
    for place in x..length {
        if is_closed(marks, free, row.wrapping_add(place)) {
            break;
        }
        end = place.wrapping_add(1);
    }
    end
}

impl Reach {
    // Puts the open runs of a row on the list, between two places.
    fn put_runs(
        &mut self,
        size: Size,
        marks: &Bits,
        from: &Spot,
        end: usize,
    ) -> Result<(), CoverFault> {
        let row = size.at(0, from.y, from.z);
        let mut was = false;
        for x in from.x..end {
            let is_open = !is_closed(marks, &self.free, row.wrapping_add(x));
            if is_open && !was {
                self.todo.push(Spot {
                    x,
                    y: from.y,
                    z: from.z,
                })?;
            }
            was = is_open;
        }
        Ok(())
    }

    // Reaches the open run at a place, and puts its neighbours on the list.
    fn take_run(&mut self, size: Size, marks: &Bits, spot: &Spot) -> Result<(), CoverFault> {
        let row = size.at(0, spot.y, spot.z);
        if is_closed(marks, &self.free, row.wrapping_add(spot.x)) {
            return Ok(());
        }
        let start = run_start(marks, &self.free, row, spot.x);
        let end = run_end(marks, &self.free, row, spot.x, size.x);
        for x in start..end {
            self.free.turn_on(row.wrapping_add(x));
        }
        if spot.y > 0 {
            self.put_runs(
                size,
                marks,
                &Spot {
                    x: start,
                    y: spot.y - 1,
                    z: spot.z,
                },
                end,
            )?;
        }
        if spot.y.wrapping_add(1) < size.y {
            self.put_runs(
                size,
                marks,
                &Spot {
                    x: start,
                    y: spot.y.wrapping_add(1),
                    z: spot.z,
                },
                end,
            )?;
        }
        if spot.z > 0 {
            self.put_runs(
                size,
                marks,
                &Spot {
                    x: start,
                    y: spot.y,
                    z: spot.z - 1,
                },
                end,
            )?;
        }
        if spot.z.wrapping_add(1) < size.z {
            self.put_runs(
                size,
                marks,
                &Spot {
                    x: start,
                    y: spot.y,
                    z: spot.z.wrapping_add(1),
                },
                end,
            )?;
        }
        Ok(())
    }

    // Reaches all that can be reached from the list.
    fn spread(&mut self, size: Size, marks: &Bits) -> Result<(), CoverFault> {
        for _ in 0..u64::MAX {
            match self.todo.pop() {
                None => break,
                Some(spot) => self.take_run(size, marks, &spot)?,
            }
        }
        Ok(())
    }

    // Puts the rim of a row on the list.
    fn put_rim(&mut self, size: Size, marks: &Bits, y: usize, z: usize) -> Result<(), CoverFault> {
        if y == 0 || z == 0 || y.wrapping_add(1) == size.y || z.wrapping_add(1) == size.z {
            return self.put_runs(size, marks, &Spot { x: 0, y, z }, size.x);
        }
        self.put_runs(size, marks, &Spot { x: 0, y, z }, 1)?;
        self.put_runs(
            size,
            marks,
            &Spot {
                x: size.x.saturating_sub(1),
                y,
                z,
            },
            size.x,
        )
    }
}

/// The elements that are reached from the rim through elements that aren't marked.
pub fn reached(alloc: Global, size: Size, marks: &Bits) -> Result<Bits, CoverFault> {
    let mut reach = Reach {
        free: Bits::new(alloc, size.count())?,
        todo: Vec::new(alloc),
    };
    for z in 0..size.z {
        for y in 0..size.y {
            reach.put_rim(size, marks, y, z)?;
        }
        reach.spread(size, marks)?;
    }
    let Reach { free, todo: _ } = reach;
    Ok(free)
}
