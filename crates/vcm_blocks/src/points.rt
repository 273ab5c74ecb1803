//! The points that are measured: a table of fields with commas between them, as `vcm points --machine` writes it.

ghost use Rattle.std.specs.Prelude.{◌<◌, length};

use crate::fault::{Halt, Refusal};
use crate::words::millimetres;
use std::alloc::Global;
use vcm_cover::NearPoint;
use vcm_num::{Axis, Point, is, line_feed};

// Where the six columns stand.
#[derive(Clone, Copy)]
struct Columns {
    at: [usize; 3],
    toward: [usize; 3],
}

// The fields of a line.
fn field_at(line: &[u8], index: usize) -> Option<&[u8]> {
    line.split(|byte| *byte == b',').nth(index)
}

// The column with a name.
fn column_of(line: &[u8], name: &[u8]) -> Option<usize> {
    line.split(|byte| *byte == b',')
        .position(|field| is(field, name))
}

// The columns of the first line.
fn columns_of(line: &[u8]) -> Option<Columns> {
    let at = [
        column_of(line, b"mx")?,
        column_of(line, b"my")?,
        column_of(line, b"mz")?,
    ];
    let toward = [
        column_of(line, b"mi")?,
        column_of(line, b"mj")?,
        column_of(line, b"mk")?,
    ];
    Some(Columns { at, toward })
}

// The number in a field, in thousandths.
fn number_at(line: &[u8], index: usize) -> Option<i64> {
    millimetres(field_at(line, index)?)
}

// The direction along an axis with these parts in thousandths.
fn axis_of(parts: [i64; 3]) -> Option<Axis> {
    match parts {
        [1000, 0, 0] => Some(Axis::PlusX),
        [-1000, 0, 0] => Some(Axis::MinusX),
        [0, 1000, 0] => Some(Axis::PlusY),
        [0, -1000, 0] => Some(Axis::MinusY),
        [0, 0, 1000] => Some(Axis::PlusZ),
        [0, 0, -1000] => Some(Axis::MinusZ),
        _ => None,
    }
}

// Three numbers of a line.
fn three_numbers(line: &[u8], columns: [usize; 3]) -> Option<[i64; 3]> {
    let [first, second, third] = columns;
    let x = number_at(line, first)?;
    let y = number_at(line, second)?;
    let z = number_at(line, third)?;
    Some([x, y, z])
}

// The point of a line.
fn point_of(columns: &Columns, line: &[u8]) -> Option<NearPoint> {
    let at = three_numbers(line, columns.at)?;
    let toward = axis_of(three_numbers(line, columns.toward)?)?;
    Some(NearPoint {
        at: Point(at),
        toward,
    })
}

// A line without the carriage return of its ending.
fn without_return(line: &[u8]) -> &[u8] {
    match line {
        [front @ .., b'\r'] => front,
        _ => line,
    }
}

// The first line, and what stands after it.
fn split_line(text: &[u8]) -> (&[u8], &[u8])
    ensures { 0 < length text.now → length result.1.now < length text.now }
{
    match line_feed(text) {
        None => (text, &[]),
        Some(end) => (without_return(&text[..end]), &text[end + 1..]),
    }
}

// The refusal of a line.
fn no_points(line: u32) -> Halt {
    Halt::Refused(Refusal::NoPoints(line))
}

/// The points of a table, whose first line names its columns: `mx`, `my` and `mz` are where a point lies on the machine, in millimetres, `mi`, `mj` and
/// `mk` the direction from the surface outward, along an axis. Other columns are passed over.
///
/// # Errors
///
/// A first line that lacks one of these columns, or a line whose fields aren't so; want of memory.
pub(crate) fn near_points(alloc: Global, text: &[u8]) -> Result<Vec<NearPoint>, Halt> {
    let mut points = Vec::new(alloc);
    let (first, mut rest) = split_line(text);
    let Some(columns) = columns_of(first) else {
        return Err(no_points(1));
    };
    let mut number: u32 = 1;
    while !rest.is_empty() {
        let (line, behind) = split_line(rest);
        number = number.saturating_add(1);
        let Some(point) = point_of(&columns, line) else {
            return Err(no_points(number));
        };
        points.push(point)?;
        rest = behind;
    }
    Ok(points)
}
