//! Places and numbers of steps as text.

ghost use Rattle.vcm_num.specs.Written.{Wrote};
ghost use Rattle.vcm_report.specs.Printed.{point_text, position_line, steps_line};

use itoa::Buffer;
use std::io::Write;
use vcm_num::{Point, WriteFault, thousandths_text, write_all, write_pieces};

/// Writes a point in millimetres, with this text between its coordinates.
///
/// Errors: the writer failed, or took no byte; then it has taken a front of the text, and not all of it.
pub fn write_point<W: Write>(at: Point, between: &[u8], writer: &mut W) -> Result<(), WriteFault>
    ensures { Wrote (W.contents writer.old) (W.contents writer.new) (point_text between.now at) result }
{
    let Point([x, y, z]) = at;
    write_pieces(
        writer,
        &[
            thousandths_text(x).as_slice(),
            between,
            thousandths_text(y).as_slice(),
            between,
            thousandths_text(z).as_slice(),
        ],
    )
}

/// Writes the line that tells where the probe is, in millimetres.
///
/// Errors: the writer failed, or took no byte; then it has taken a front of the line, and not all of it.
pub fn write_position<W: Write>(at: Point, writer: &mut W) -> Result<(), WriteFault>
    ensures { Wrote (W.contents writer.old) (W.contents writer.new) (position_line at) result }
{
    write_all(writer, b"position ")?;
    write_point(at, b" ", writer)?;
    write_all(writer, b"\n")
}

/// Writes the line that tells how many steps were done.
///
/// Errors: the writer failed, or took no byte; then it has taken a front of the line, and not all of it.
pub fn write_steps<W: Write>(done: u64, writer: &mut W) -> Result<(), WriteFault>
    ensures { Wrote (W.contents writer.old) (W.contents writer.new) (steps_line done) result }
{
    let mut steps = Buffer::new();
    let steps = steps.format(done).as_bytes();
    write_pieces(writer, &[b"steps ", steps, b"\n"])
}
