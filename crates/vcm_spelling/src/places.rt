//! The place in front of a point.

use crate::numbers::Rounding;
use std::alloc::Global;
use vcm_num::{NoMemory, write_thousandths};
use vcm_sentences::{has_function, read_decimal};

/// The direction of a point, from the part outwards.
#[derive(Clone, Copy)]
pub enum Direction {
    /// It has none.
    Missing,
    /// Along an axis, by its number from 0 on, and whether forwards.
    Along(usize, bool),
    /// Another one, counted in ten millionths.
    Slanted(i64, i64, i64),
    /// It can't be read, or is of no length.
    Unclear,
}

// The direction of these components.
fn direction_by(vector: [i64; 3]) -> Direction {
    match vector {
        [0, 0, 0] => Direction::Unclear,
        [10_000_000, 0, 0] => Direction::Along(0, true),
        [0, 10_000_000, 0] => Direction::Along(1, true),
        [0, 0, 10_000_000] => Direction::Along(2, true),
        [-10_000_000, 0, 0] => Direction::Along(0, false),
        [0, -10_000_000, 0] => Direction::Along(1, false),
        [0, 0, -10_000_000] => Direction::Along(2, false),
        [x, y, z] => Direction::Slanted(x, y, z),
    }
}

/// The direction of three fields.
pub fn direction_in(x: &[u8], y: &[u8], z: &[u8]) -> Direction {
    match (read_decimal(x), read_decimal(y), read_decimal(z)) {
        (Some(x), Some(y), Some(z)) => direction_by([x.value, y.value, z.value]),
        _ => Direction::Unclear,
    }
}

/// The direction of a PTMEAS with these fields.
pub fn direction_of(fields: &[&[u8]]) -> Direction {
    match fields {
        [_, _, _, _] => Direction::Missing,
        [_, _, _, _, rest @ ..] => match rest {
            [x, y, z] => direction_in(x, y, z),
            _ => Direction::Unclear,
        },
        _ => Direction::Unclear,
    }
}

/// Whether a direction is one along an axis, of whatever length.
pub fn is_along(direction: Direction) -> bool {
    match direction {
        Direction::Along(_, _) => true,
        Direction::Slanted(x, y, z) => { x == 0 && y == 0 || y == 0 && z == 0 || z == 0 && x == 0 }
        Direction::Missing | Direction::Unclear => false,
    }
}

// The longest component of a direction that is taken as it is.
const MOST: i64 = 20_000_000;

// A vector whose components are no longer than that, in the same direction.
fn shortened(vector: [i64; 3]) -> [i64; 3] {
    let [mut x, mut y, mut z] = vector;
    for _ in 0..40 {
        if x.saturating_abs() <= MOST && y.saturating_abs() <= MOST && z.saturating_abs() <= MOST {
            break;
        }
        x /= 2;
        y /= 2;
        z /= 2;
    }
    [x, y, z]
}

// The square of a component.
fn square(component: i64) -> u64 {
    let size = component.unsigned_abs();
    size.saturating_mul(size)
}

// A hundred times the length of a vector.
fn length(x: i64, y: i64, z: i64) -> i64 {
    let squares = square(x)
        .saturating_add(square(y))
        .saturating_add(square(z));
    let root = squares.saturating_mul(10_000).isqrt();
    i64::try_from(root).unwrap_or(i64::MAX)
}

// So much of a distance, in micrometres, as a component is of a length: in ten millionths of a millimetre, to the nearest one.
fn share(distance: i64, component: i64, length: i64) -> i64 {
    let whole = distance
        .saturating_mul(10_000)
        .saturating_mul(component.saturating_mul(100));
    let half = length / 2;
    let whole = if whole < 0 {
        whole.saturating_sub(half)
    } else {
        whole.saturating_add(half)
    };
    if length > 0 { whole / length } else { 0 }
}

// How far the place in front of a point lies from it in this direction.
fn slanted_offsets(vector: [i64; 3], distance: i64) -> Option<[i64; 3]> {
    if !(0..=200_000).contains(&distance) {
        return None;
    }
    let [x, y, z] = shortened(vector);
    let whole = length(x, y, z);
    Some([
        share(distance, x, whole),
        share(distance, y, whole),
        share(distance, z, whole),
    ])
}

/// How far the place in front of a point lies from it along each axis, in ten millionths of a millimetre, at this distance in micrometres.
pub fn offsets(direction: Direction, distance: i64) -> Option<[i64; 3]> {
    let whole = distance.saturating_mul(10_000);
    match direction {
        Direction::Missing | Direction::Unclear => None,
        Direction::Along(axis, is_forward) => {
            let offset = if is_forward {
                whole
            } else {
                whole.saturating_neg()
            };
            Some([
                if axis == 0 { offset } else { 0 },
                if axis == 1 { offset } else { 0 },
                if axis == 2 { offset } else { 0 },
            ])
        }
        Direction::Slanted(x, y, z) => slanted_offsets([x, y, z], distance),
    }
}

// Appends a coordinate that is no literal, with what is added to it.
fn put_sum(field: &[u8], offset: i64, out: &mut Vec<u8>) -> Result<(), NoMemory> {
    out.extend_from_slice(field)?;
    if offset != 0 {
        out.push(if offset < 0 { b'-' } else { b'+' })?;
        write_thousandths(offset.saturating_abs(), out)?;
    }
    Ok(())
}

/// Appends a coordinate with what is added to it, both in ten millionths; a literal is an inch where `is_inch` says so. It says whether it could be.
pub fn put_coordinate(
    field: &[u8],
    offset: i64,
    is_inch: bool,
    rounding: &mut Rounding,
    out: &mut Vec<u8>,
) -> Result<bool, NoMemory> {
    match read_decimal(field) {
        Some(number) => {
            let value = in_millimetres(number.value, is_inch).saturating_add(offset);
            write_thousandths(rounding.round(value), out)?;
            Ok(true)
        }
        None if is_inch || has_function(field) || field.is_empty() => Ok(false),
        None => {
            put_sum(field, rounding.round(offset), out)?;
            Ok(true)
        }
    }
}

/// A length in ten millionths, which are of inches where `is_inch` says so, in those of millimetres.
pub fn in_millimetres(value: i64, is_inch: bool) -> i64 {
    if is_inch {
        value.saturating_mul(254) / 10
    } else {
        value
    }
}

/// The move to the place in front of a point, with these three coordinates; none where one of them can't be written.
pub fn approach(
    alloc: Global,
    coordinates: [&[u8]; 3],
    offsets: [i64; 3],
    is_inch: bool,
    rounding: &mut Rounding,
) -> Result<Option<Vec<u8>>, NoMemory> {
    let [x, y, z] = coordinates;
    let [dx, dy, dz] = offsets;
    let mut out = Vec::new(alloc);
    out.extend_from_slice(b"GOTO/")?;
    let has_x = put_coordinate(x, dx, is_inch, rounding, &mut out)?;
    out.push(b',')?;
    let has_y = put_coordinate(y, dy, is_inch, rounding, &mut out)?;
    out.push(b',')?;
    let has_z = put_coordinate(z, dz, is_inch, rounding, &mut out)?;
    if has_x && has_y && has_z {
        Ok(Some(out))
    } else {
        Ok(None)
    }
}
