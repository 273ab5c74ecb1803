//! The lines of a motion that stopped. Nothing here takes memory.

ghost use Rattle.std.specs.Prelude.{◌≡◌};
ghost use Rattle.vcm_num.specs.Texts.{thousandths};
ghost use Rattle.vcm_num.specs.Written.{Wrote};
ghost use Rattle.vcm_why.specs.Causes.{point_between, way_line, corners_text, block_text, block_line, contact_line, side_text, edge_text, side_line, beside_text, height_text, over_line, alone_line, free_line, block_lines, met_lines, cause_lines};

use itoa::Buffer;
use std::io::Write;
use vcm_cause::{Cause, FreeSide, Obstacle, Side};
use vcm_num::{Point, WriteFault, thousandths_text, write_all, write_pieces};
use vcm_report::write_point;

/// Writes a point in millimetres between two texts.
///
/// Errors: the writer failed, or took no byte; then it has taken a front of that, and not all of it.
pub fn write_between<W: Write>(
    before: &[u8],
    at: Point,
    after: &[u8],
    writer: &mut W,
) -> Result<(), WriteFault>
    ensures { Wrote (W.contents writer.old) (W.contents writer.new) (point_between before.now at after.now) result }
{
    write_all(writer, before)?;
    write_point(at, b" ", writer)?;
    write_all(writer, after)
}

/// Writes the line of a way.
///
/// Errors: the writer failed, or took no byte; then it has taken a front of the line, and not all of it.
pub fn write_way<W: Write>(from: Point, to: Point, writer: &mut W) -> Result<(), WriteFault>
    ensures { Wrote (W.contents writer.old) (W.contents writer.new) (way_line from to) result }
{
    write_between(b"way ", from, b" to ", writer)?;
    write_between(b"", to, b"\n", writer)
}

// Writes the corners of a block.
fn write_corners<W: Write>(low: Point, high: Point, writer: &mut W) -> Result<(), WriteFault>
    ensures { Wrote (W.contents writer.old) (W.contents writer.new) (corners_text low high) result }
{
    write_between(b"", low, b" to ", writer)?;
    write_between(b"", high, b"\n", writer)
}

// Writes the number of a block.
fn write_block<W: Write>(block: u32, writer: &mut W) -> Result<(), WriteFault>
    ensures { Wrote (W.contents writer.old) (W.contents writer.new) (block_text block) result }
{
    let mut number = Buffer::new();
    write_pieces(writer, &[b"block ", number.format(block).as_bytes(), b", "])
}

/// Writes the number of a block and its corners.
///
/// Errors: the writer failed, or took no byte; then it has taken a front of that, and not all of it.
pub fn write_block_line<W: Write>(met: &Obstacle, writer: &mut W) -> Result<(), WriteFault>
    ensures { Wrote (W.contents writer.old) (W.contents writer.new) (block_line met.now) result }
{
    write_block(met.contact.block, writer)?;
    write_corners(met.block.low, met.block.high, writer)
}

// Writes a contact and the block that is met.
fn write_contact<W: Write>(met: &Obstacle, writer: &mut W) -> Result<(), WriteFault>
    ensures { Wrote (W.contents writer.old) (W.contents writer.new) (contact_line met.now) result }
{
    write_between(
        b"contact of the tip's centre at ",
        met.contact.at,
        b" with ",
        writer,
    )?;
    write_block_line(met, writer)
}

// The words before the edge of a side.
fn side_text(side: Side) -> &'static [u8]
    ensures { result.now ≡ side_text side }
{
    match side {
        Side::LowX => b"beside it to x ",
        Side::HighX => b"beside it from x ",
        Side::LowY => b"beside it to y ",
        Side::HighY => b"beside it from y ",
    }
}

// Writes the edge of the side past which a way is free of a block, and the end of the line.
fn write_edge<W: Write>(past: FreeSide, writer: &mut W) -> Result<(), WriteFault>
    ensures { Wrote (W.contents writer.old) (W.contents writer.new) (edge_text past) result }
{
    write_pieces(
        writer,
        &[
            side_text(past.side),
            thousandths_text(past.at).as_slice(),
            b"\n",
        ],
    )
}

// Writes that edge behind these words.
fn write_side<W: Write>(before: &[u8], past: FreeSide, writer: &mut W) -> Result<(), WriteFault>
    ensures { Wrote (W.contents writer.old) (W.contents writer.new) (side_line before.now past) result }
{
    write_all(writer, before)?;
    write_edge(past, writer)
}

// Writes that side, if there is one, and the end of the line.
fn write_beside<W: Write>(beside: Option<FreeSide>, writer: &mut W) -> Result<(), WriteFault>
    ensures { Wrote (W.contents writer.old) (W.contents writer.new) (beside_text beside) result }
{
    match beside {
        Some(past) => write_side(b", ", past, writer),
        None => write_pieces(writer, &[b"\n"]),
    }
}

/// Writes a length in millimetres.
///
/// Errors: the writer failed, or took no byte; then it has taken a front of the text, and not all of it.
pub(crate) fn write_length<W: Write>(length: i64, writer: &mut W) -> Result<(), WriteFault>
    ensures { Wrote (W.contents writer.old) (W.contents writer.new) (thousandths length) result }
{
    write_all(writer, thousandths_text(length).as_slice())
}

// Writes over which height a way is free of a block.
fn write_height<W: Write>(height: i64, writer: &mut W) -> Result<(), WriteFault>
    ensures { Wrote (W.contents writer.old) (W.contents writer.new) (height_text height) result }
{
    write_all(writer, b"free over it from z ")?;
    write_length(height, writer)
}

// Writes that height, and the side.
fn write_over<W: Write>(
    height: i64,
    beside: Option<FreeSide>,
    writer: &mut W,
) -> Result<(), WriteFault>
    ensures { Wrote (W.contents writer.old) (W.contents writer.new) (over_line height beside) result }
{
    write_height(height, writer)?;
    write_beside(beside, writer)
}

// Writes the side alone, if there is one.
fn write_alone<W: Write>(beside: Option<FreeSide>, writer: &mut W) -> Result<(), WriteFault>
    ensures { Wrote (W.contents writer.old) (W.contents writer.new) (alone_line beside) result }
{
    match beside {
        Some(past) => write_side(b"free ", past, writer),
        None => Ok(()),
    }
}

/// Writes where a way is free of a block.
///
/// Errors: the writer failed, or took no byte; then it has taken a front of the line, and not all of it.
pub fn write_free<W: Write>(
    over: Option<i64>,
    beside: Option<FreeSide>,
    writer: &mut W,
) -> Result<(), WriteFault>
    ensures { Wrote (W.contents writer.old) (W.contents writer.new) (free_line over beside) result }
{
    match over {
        Some(height) => write_over(height, beside, writer),
        None => write_alone(beside, writer),
    }
}

// Writes the contact, and where a way is free of the block.
fn write_block_met<W: Write>(met: &Obstacle, writer: &mut W) -> Result<(), WriteFault>
    ensures { Wrote (W.contents writer.old) (W.contents writer.new) (block_lines met.now) result }
{
    write_contact(met, writer)?;
    write_free(met.over, met.beside, writer)
}

// Writes the way on which a block is met, the contact, and where a way is free of the block.
fn write_met<W: Write>(met: &Obstacle, writer: &mut W) -> Result<(), WriteFault>
    ensures { Wrote (W.contents writer.old) (W.contents writer.new) (met_lines met.now) result }
{
    write_way(met.contact.from, met.contact.aim, writer)?;
    write_block_met(met, writer)
}

/// Writes the lines of a motion that stopped.
///
/// Errors: the writer failed, or took no byte; then it has taken a front of the lines, and not all of them.
pub(crate) fn write_cause<W: Write>(cause: &Cause, writer: &mut W) -> Result<(), WriteFault>
    ensures { Wrote (W.contents writer.old) (W.contents writer.new) (cause_lines cause.now) result }
{
    match cause {
        Cause::Elsewhere => Ok(()),
        Cause::Way(from, to) => write_way(*from, *to, writer),
        Cause::Met(met) => write_met(met, writer),
    }
}
