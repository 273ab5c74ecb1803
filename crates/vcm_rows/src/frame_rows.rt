//! The rows of frames. Nothing here takes memory.

ghost use Rattle.std.specs.Prelude.{◌≡◌, []};
ghost use Rattle.vcm_num.specs.Written.{Wrote};
ghost use Rattle.vcm_spec.specs.Outcome.{Answers, Outcome};
ghost use Rattle.vcm_num.specs.declared.point.Point.{Point as Place};
ghost use Rattle.vcm_words.specs.Operands.{axis_text};
ghost use Rattle.vcm_report.specs.Printed.{in_a_row};
ghost use Rattle.vcm_rows.specs.Rows.{point_then};
ghost use Rattle.vcm_rows.specs.Frames.{point_if, axes_end, frame_end};

use std::io::Write;
use vcm_frame::Frame;
use vcm_num::{Axis, Point, WriteFault, int_text, write_pieces};
use vcm_spec::Stop;

// A direction as text.
fn axis_text(toward: Axis) -> &'static [u8]
    ensures { result.now ≡ axis_text toward }
{
    match toward {
        Axis::PlusX => b"+X",
        Axis::MinusX => b"-X",
        Axis::PlusY => b"+Y",
        Axis::MinusY => b"-Y",
        Axis::PlusZ => b"+Z",
        Axis::MinusZ => b"-Z",
    }
}

// Writes a point.
fn write_point<W: Write>(at: Point, writer: &mut W) -> Result<(), WriteFault>
    ensures { Wrote (W.contents writer.old) (W.contents writer.new) (in_a_row (point_then at [])) result }
{
    let Point([x, y, z]) = at;
    write_pieces(
        writer,
        &[
            int_text(x).as_slice(),
            b" ",
            int_text(y).as_slice(),
            b" ",
            int_text(z).as_slice(),
        ],
    )
}

// Writes a point where there is one.
fn write_point_if<W: Write>(at: Result<Point, Stop>, writer: &mut W) -> Result<(), WriteFault>
    ensures { (outcome : Outcome Place) → Answers outcome at → Wrote (W.contents writer.old) (W.contents writer.new) (point_if outcome) result }
{
    match at {
        Ok(at) => write_point(at, writer),
        Err(_) => Ok(()),
    }
}

// Writes the machine axes that those of a frame go along, and ends the row.
fn write_axes<W: Write>(frame: Frame, writer: &mut W) -> Result<(), WriteFault>
    ensures { Wrote (W.contents writer.old) (W.contents writer.new) (axes_end frame) result }
{
    write_pieces(
        writer,
        &[
            b" ",
            axis_text(frame.direction(Axis::PlusX)),
            b" ",
            axis_text(frame.direction(Axis::PlusY)),
            b" ",
            axis_text(frame.direction(Axis::PlusZ)),
            b"\n",
        ],
    )
}

/// Writes a frame, and ends the row.
///
/// Errors: the writer failed, or took no byte; then it has taken a front of the row, and not all of it.
pub fn write_frame<W: Write>(frame: Frame, writer: &mut W) -> Result<(), WriteFault>
    ensures { Wrote (W.contents writer.old) (W.contents writer.new) (frame_end frame) result }
{
    write_point_if(frame.apply(Point([0, 0, 0])), writer)?;
    write_axes(frame, writer)
}
