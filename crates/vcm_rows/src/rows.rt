//! Rows, one after another, and those of points. Nothing here takes memory.

ghost use Rattle.std.specs.Prelude.{◌≡◌, ◌≤◌, ◌<◌, ℕ, List, flat_map};
ghost use Rattle.vcm_num.specs.Written.{Wrote};
ghost use Rattle.vcm_rows.specs.Rows.{rows_below, point_row, points_row, told_entries};

use std::io::Write;
use vcm_num::{MOST_NAMES, Point, WriteFault, int_text, write_pieces};

/// Writes a row for each thing of a list.
pub(crate) trait Rows<T, W: Write> {
    /// The row of a thing.
    ghost row_of: { Self → T → List ℕ };

    /// Writes the row of a thing.
    fn write_row(&self, thing: &T, writer: &mut W) -> Result<(), WriteFault>
        ensures { Wrote (W.contents writer.old) (W.contents writer.new) (row_of self.now thing.now) result };
}

/// Writes the rows of all things.
pub(crate) fn write_rows<T, W: Write, R: Rows<T, W>>(
    rows: &R,
    things: &[T],
    writer: &mut W,
) -> Result<(), WriteFault>
    ensures { Wrote (W.contents writer.old) (W.contents writer.new) (flat_map (R.row_of rows.now) things.now) result }
{
    for thing in things {
        rows.write_row(thing, writer)?;
    }
    Ok(())
}

/// Writes rows by their numbers.
pub trait Numbered<W: Write> {
    /// How many rows there are.
    ghost count: { Self → ℕ };

    /// The row with a number.
    ghost row_at: { Self → ℕ → List ℕ };

    /// Writes the row with a number.
    fn write_row_at(&self, number: usize, writer: &mut W) -> Result<(), WriteFault>
        requires { number < count self.now }
        ensures { Wrote (W.contents writer.old) (W.contents writer.new) (row_at self.now number) result };
}

/// Writes all rows in the order of their numbers.
pub fn write_numbered<W: Write, R: Numbered<W>>(
    rows: &R,
    count: usize,
    writer: &mut W,
) -> Result<(), WriteFault>
    requires { count ≡ R.count rows.now }
    ensures { Wrote (W.contents writer.old) (W.contents writer.new) (rows_below (R.row_at rows.now) count) result }
{
    for number in 0..count {
        rows.write_row_at(number, writer)?;
    }
    Ok(())
}

/// How many entries of a table are told.
pub fn told_entries(entries: usize) -> usize
    ensures told { result ≡ told_entries entries }
    ensures few { result ≤ 4096 }
{
    entries.min(MOST_NAMES)
}

/// Writes a row of a point behind these letters.
pub(crate) fn write_point_row<W: Write>(
    letters: &[u8],
    at: Point,
    writer: &mut W,
) -> Result<(), WriteFault>
    ensures { Wrote (W.contents writer.old) (W.contents writer.new) (point_row letters.now at) result }
{
    let Point([x, y, z]) = at;
    write_pieces(
        writer,
        &[
            letters,
            int_text(x).as_slice(),
            b" ",
            int_text(y).as_slice(),
            b" ",
            int_text(z).as_slice(),
            b"\n",
        ],
    )
}

/// Writes a row of two points behind these letters.
pub(crate) fn write_points_row<W: Write>(
    letters: &[u8],
    from: Point,
    to: Point,
    writer: &mut W,
) -> Result<(), WriteFault>
    ensures { Wrote (W.contents writer.old) (W.contents writer.new) (points_row letters.now from to) result }
{
    let Point([x, y, z]) = from;
    let Point([u, v, w]) = to;
    write_pieces(
        writer,
        &[
            letters,
            int_text(x).as_slice(),
            b" ",
            int_text(y).as_slice(),
            b" ",
            int_text(z).as_slice(),
            b" ",
            int_text(u).as_slice(),
            b" ",
            int_text(v).as_slice(),
            b" ",
            int_text(w).as_slice(),
            b"\n",
        ],
    )
}
