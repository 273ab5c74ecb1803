//! The frame in which a run stopped on a way. Nothing here takes memory.

ghost use Rattle.std.specs.Prelude.{◌≡◌, ◌++◌, pos};
ghost use Rattle.vcm_num.specs.Written.{Wrote};
ghost use Rattle.vcm_num.specs.declared.point.Point.{Point as Place};
ghost use Rattle.vcm_spec.specs.Frame.{to_machine};
ghost use Rattle.vcm_spec.specs.Outcome.{Answers, Outcome, point_at};
ghost use Rattle.vcm_words.specs.Operands.{axis_text};
ghost use Rattle.vcm_why.specs.Framed.{framed_text, origin_text, axes_text, frame_line, is_framed, frame_if, frame_lines};

use itoa::Buffer;
use std::io::Write;
use vcm_cause::Cause;
use vcm_frame::Frame;
use vcm_num::{Axis, Point, WriteFault, write_pieces};
use vcm_report::write_point;
use vcm_spec::Stop;

// A direction as text.
fn axis_text(toward: Axis) -> &'static [u8]
    ensures { result.now ≡ axis_text toward }
{
    match toward {
        Axis::PlusX => b"+X",
        Axis::MinusX => b"-X",
        Axis::PlusY => b"+Y",
        Axis::MinusY => b"-Y",
        Axis::PlusZ => b"+Z",
        Axis::MinusZ => b"-Z",
    }
}

// Writes the line of the statement that made a frame.
fn write_framed<W: Write>(line: u32, writer: &mut W) -> Result<(), WriteFault>
    ensures { Wrote (W.contents writer.old) (W.contents writer.new) (framed_text line) result }
{
    let mut digits = Buffer::new();
    let line = digits.format(line).as_bytes();
    write_pieces(writer, &[b"frame of line ", line, b": origin "])
}

// Writes a point, where there is one.
fn write_origin_at<W: Write>(at: Result<Point, Stop>, writer: &mut W) -> Result<(), WriteFault>
    ensures { (outcome : Outcome Place) → Answers outcome at → Wrote (W.contents writer.old) (W.contents writer.new) (origin_text outcome) result }
{
    match at {
        Ok(at) => write_point(at, b" ", writer),
        Err(_) => Ok(()),
    }
}

// Writes along which axes of the machine those of a frame go.
fn write_axes<W: Write>(frame: Frame, writer: &mut W) -> Result<(), WriteFault>
    ensures { Wrote (W.contents writer.old) (W.contents writer.new) (axes_text frame) result }
{
    write_pieces(
        writer,
        &[
            b", x along ",
            axis_text(frame.direction(Axis::PlusX)),
            b", y along ",
            axis_text(frame.direction(Axis::PlusY)),
            b", z along ",
            axis_text(frame.direction(Axis::PlusZ)),
            b"\n",
        ],
    )
}

// Writes where the origin of a frame lies on the machine, and along which axes its own go.
fn write_shape<W: Write>(frame: Frame, writer: &mut W) -> Result<(), WriteFault>
    ensures { Wrote (W.contents writer.old) (W.contents writer.new) (origin_text (point_at (to_machine frame (λ k. pos 0))) ++ axes_text frame) result }
{
    write_origin_at(frame.apply(Point([0, 0, 0])), writer)?;
    write_axes(frame, writer)
}

// Writes a frame that a statement of this line made.
fn write_frame_line<W: Write>(frame: Frame, line: u32, writer: &mut W) -> Result<(), WriteFault>
    ensures { Wrote (W.contents writer.old) (W.contents writer.new) (frame_line frame line) result }
{
    write_framed(line, writer)?;
    write_shape(frame, writer)
}

// Whether there is a line of a text.
fn is_framed(is_text: bool, line: u32) -> bool
    ensures { result ≡ is_framed is_text line }
{
    is_text && 0 < line
}

// Writes a frame that a statement of this line made, if it is told.
fn write_frame_if<W: Write>(
    frame: Frame,
    is_told: bool,
    line: u32,
    writer: &mut W,
) -> Result<(), WriteFault>
    ensures { Wrote (W.contents writer.old) (W.contents writer.new) (frame_if frame is_told line) result }
{
    if is_told {
        write_frame_line(frame, line, writer)
    } else {
        Ok(())
    }
}

/// Writes the frame of a stop on a way, which a statement of this line of a text made, 0 where none did.
///
/// Errors: the writer failed, or took no byte; then it has taken a front of the line, and not all of it.
pub(crate) fn write_frame<W: Write>(
    frame: Frame,
    is_text: bool,
    line: u32,
    cause: &Cause,
    writer: &mut W,
) -> Result<(), WriteFault>
    ensures { Wrote (W.contents writer.old) (W.contents writer.new) (frame_lines frame is_text line cause.now) result }
{
    match cause {
        Cause::Elsewhere => Ok(()),
        Cause::Way(_, _) => write_frame_if(frame, is_framed(is_text, line), line, writer),
        Cause::Met(_) => write_frame_if(frame, is_framed(is_text, line), line, writer),
    }
}
