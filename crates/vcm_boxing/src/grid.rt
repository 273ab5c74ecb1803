//! The grid on which blocks are found.

use crate::fault::CoverFault;

/// The most elements of a grid.
pub const MOST_ELEMENTS: usize = 268_435_456;

/// How many things a grid has on each axis.
#[derive(Clone, Copy)]
pub struct Size {
    pub x: usize,
    pub y: usize,
    pub z: usize,
}

impl Size {
    /// The number of the thing at a place.
    pub fn at(self, x: usize, y: usize, z: usize) -> usize {
        z.wrapping_mul(self.y)
            .wrapping_add(y)
            .wrapping_mul(self.x)
            .wrapping_add(x)
    }

    /// How many there are.
    pub fn count(self) -> usize {
        self.x.saturating_mul(self.y).saturating_mul(self.z)
    }

    /// How many there are on an axis.
    pub fn on(self, axis: usize) -> usize {
        match axis {
            0 => self.x,
            1 => self.y,
            _ => self.z,
        }
    }
}

/// Planes on each axis, ascending. On an axis element 2i is the plane i, and element 2i + 1 the open stretch after it.
#[derive(Drop)]
pub struct Grid {
    pub x: Vec<i32>,
    pub y: Vec<i32>,
    pub z: Vec<i32>,
}

impl Grid {
    /// The planes on an axis.
    pub fn planes(&self, axis: usize) -> &[i32] {
        match axis {
            0 => self.x.as_slice(),
            1 => self.y.as_slice(),
            _ => self.z.as_slice(),
        }
    }

    /// The coordinate of a plane.
    pub fn plane(&self, axis: usize, index: usize) -> i32 {
        number_at(self.planes(axis), index)
    }

    /// How many elements there are.
    pub fn elements(&self) -> Size {
        Size {
            x: odd(self.x.len()),
            y: odd(self.y.len()),
            z: odd(self.z.len()),
        }
    }

    /// How many cells there are.
    pub fn cells(&self) -> Size {
        Size {
            x: self.x.len().saturating_sub(1),
            y: self.y.len().saturating_sub(1),
            z: self.z.len().saturating_sub(1),
        }
    }

    /// That it has no more elements than a grid may have.
    pub fn checked(&self) -> Result<Size, CoverFault> {
        let size = self.elements();
        if size.count() > MOST_ELEMENTS {
            Err(CoverFault::TooFine)
        } else {
            Ok(size)
        }
    }
}

// The elements of so many planes.
fn odd(planes: usize) -> usize {
    planes.saturating_mul(2).saturating_sub(1)
}

/// The number at a place of a list, or 0 past its end.
pub fn number_at(numbers: &[i32], index: usize) -> i32 {
    if index < numbers.len() {
        numbers[index]
    } else {
        0
    }
}

/// The first place of an ascending list whose number isn't below another one.
pub fn first_from(numbers: &[i32], at: i32) -> usize {
    let mut low = 0;
    let mut high = numbers.len();
    for _ in 0..64 {
        if low >= high {
            break;
        }
        let middle = low + (high - low) / 2;
        if number_at(numbers, middle) < at {
            low = middle + 1;
        } else {
            high = middle;
        }
    }
    low
}

/// The element in which a coordinate lies.
pub fn element_at(planes: &[i32], at: i32) -> usize {
    let index = first_from(planes, at);
    if number_at(planes, index) == at {
        index.wrapping_mul(2)
    } else {
        index.wrapping_mul(2).wrapping_sub(1)
    }
}

/// A quotient of whole numbers, rounded towards 0; 0 where the divisor isn't above 0.
pub fn divided(number: i64, by: i64) -> i64 {
    if by < 1 {
        return 0;
    }
    number / by
}
