//! What would mend a stop on a way. Nothing here takes memory.

ghost use Rattle.std.specs.Prelude.{◌≡◌, ◌<◌};
ghost use Rattle.vcm_num.specs.Point.{coordinate};
ghost use Rattle.vcm_num.specs.Written.{Wrote};
ghost use Rattle.vcm_why.specs.Hints.{past_line, limit_line, limit_lines, next_front, next_line, ahead_line, length_text, length_line, back_line, travel_lines, missed_lines, back_lines, phase_lines, hint_lines};

use crate::approaches::write_approach;
use crate::causes::write_length;
use itoa::Buffer;
use std::io::Write;
use vcm_cause::{Ahead, Cause, Obstacle, block_ahead, free_length};
use vcm_fields::BorrowedOp;
use vcm_num::{Point, WriteFault, thousandths_text, write_all, write_pieces};
use vcm_part::PartData;
use vcm_spec::{Bounds, MovePhase, Stop};
use vcm_state::World;

// Writes a coordinate on an axis, and the limit past which it lies.
fn write_past<W: Write>(
    axis: &[u8],
    at: i64,
    words: &[u8],
    limit: i64,
    writer: &mut W,
) -> Result<(), WriteFault>
    ensures { Wrote (W.contents writer.old) (W.contents writer.new) (past_line axis.now at words.now limit) result }
{
    write_pieces(
        writer,
        &[
            axis,
            thousandths_text(at).as_slice(),
            words,
            thousandths_text(limit).as_slice(),
            b"\n",
        ],
    )
}

// Writes the limit past which a place lies on an axis with this name, if it does.
fn write_limit<W: Write>(
    name: &[u8],
    axis: usize,
    bounds: &Bounds,
    at: Point,
    writer: &mut W,
) -> Result<(), WriteFault>
    requires { axis < 3 }
    ensures { Wrote (W.contents writer.old) (W.contents writer.new) (limit_line name.now (coordinate at axis) (coordinate bounds.now.low axis) (coordinate bounds.now.high axis)) result }
{
    let (z, low, high) = (at.0[axis], bounds.low.0[axis], bounds.high.0[axis]);
    if z < low {
        write_past(name, z, b" is below ", low, writer)
    } else if high < z {
        write_past(name, z, b" is above ", high, writer)
    } else {
        Ok(())
    }
}

// Writes the limits past which a place lies.
fn write_limits<W: Write>(bounds: &Bounds, at: Point, writer: &mut W) -> Result<(), WriteFault>
    ensures { Wrote (W.contents writer.old) (W.contents writer.new) (limit_lines bounds.now at) result }
{
    write_limit(b"past a limit: x ", 0, bounds, at, writer)?;
    write_limit(b"past a limit: y ", 1, bounds, at, writer)?;
    write_limit(b"past a limit: z ", 2, bounds, at, writer)
}

// Writes the number of the next block on the line of a search.
fn write_next_front<W: Write>(block: u32, writer: &mut W) -> Result<(), WriteFault>
    ensures { Wrote (W.contents writer.old) (W.contents writer.new) (next_front block) result }
{
    let mut digits = Buffer::new();
    let block = digits.format(block).as_bytes();
    write_pieces(writer, &[b"the next block on that line is ", block, b", "])
}

// Writes that block, and how much farther it lies.
fn write_next<W: Write>(next: Ahead, writer: &mut W) -> Result<(), WriteFault>
    ensures { Wrote (W.contents writer.old) (W.contents writer.new) (next_line next) result }
{
    write_next_front(next.block, writer)?;
    write_length(next.far, writer)?;
    write_all(writer, b" past the end of the search\n")
}

// Writes it, or that there is none.
fn write_ahead<W: Write>(next: Option<Ahead>, writer: &mut W) -> Result<(), WriteFault>
    ensures { Wrote (W.contents writer.old) (W.contents writer.new) (ahead_line next) result }
{
    match next {
        Some(next) => write_next(next, writer),
        None => write_all(writer, b"no block lies farther on that line\n"),
    }
}

// Writes the longest way back that is free.
fn write_free_length<W: Write>(length: i64, writer: &mut W) -> Result<(), WriteFault>
    ensures { Wrote (W.contents writer.old) (W.contents writer.new) (length_text length) result }
{
    write_all(writer, b"a retract of ")?;
    write_length(length, writer)?;
    write_all(writer, b" at most is free of it\n")
}

// Writes it, if there is one.
fn write_length_if<W: Write>(length: Option<i64>, writer: &mut W) -> Result<(), WriteFault>
    ensures { Wrote (W.contents writer.old) (W.contents writer.new) (length_line length) result }
{
    match length {
        Some(length) => write_free_length(length, writer),
        None => Ok(()),
    }
}

// Writes it of a way back that met a block.
fn write_back<W: Write>(bounds: &Bounds, met: &Obstacle, writer: &mut W) -> Result<(), WriteFault>
    ensures { Wrote (W.contents writer.old) (W.contents writer.new) (back_line bounds.now met.now) result }
{
    let (from, aim) = (met.contact.from, met.contact.aim);
    write_length_if(free_length(bounds.tip, &met.block, from, aim), writer)
}

// Writes what is told of a motion that would leave the limits.
fn write_travel<W: Write>(part: &PartData, cause: &Cause, writer: &mut W) -> Result<(), WriteFault>
    ensures { Wrote (W.contents writer.old) (W.contents writer.new) (travel_lines part.now cause.now) result }
{
    let bounds = part.bounds();
    match cause {
        Cause::Elsewhere => Ok(()),
        Cause::Way(_, to) => write_limits(&bounds, *to, writer),
        Cause::Met(_) => Ok(()),
    }
}

// Writes what is told of a search that touched nothing.
fn write_missed<W: Write>(part: &PartData, cause: &Cause, writer: &mut W) -> Result<(), WriteFault>
    ensures { Wrote (W.contents writer.old) (W.contents writer.new) (missed_lines part.now cause.now) result }
{
    match cause {
        Cause::Elsewhere => Ok(()),
        Cause::Way(from, to) => write_ahead(block_ahead(part, *from, *to), writer),
        Cause::Met(_) => Ok(()),
    }
}

// Writes what is told of a way back that met a block.
fn write_met_back<W: Write>(
    part: &PartData,
    cause: &Cause,
    writer: &mut W,
) -> Result<(), WriteFault>
    ensures { Wrote (W.contents writer.old) (W.contents writer.new) (back_lines part.now cause.now) result }
{
    let bounds = part.bounds();
    match cause {
        Cause::Elsewhere => Ok(()),
        Cause::Way(_, _) => Ok(()),
        Cause::Met(met) => write_back(&bounds, met, writer),
    }
}

// Writes what is told of a collision on this part of a motion.
fn write_phase<W: Write>(
    part: &PartData,
    world: &World,
    op: &BorrowedOp<'_>,
    phase: MovePhase,
    cause: &Cause,
    writer: &mut W,
) -> Result<(), WriteFault>
    ensures { Wrote (W.contents writer.old) (W.contents writer.new) (phase_lines part.now world.now.state op.now phase cause.now) result }
{
    match phase {
        MovePhase::Move => Ok(()),
        MovePhase::Approach => write_approach(part, world, op, cause, writer),
        MovePhase::Search => Ok(()),
        MovePhase::Retract => write_met_back(part, cause, writer),
    }
}

/// Writes what would mend a stop, in this state at a statement that does this.
///
/// Errors: the writer failed, or took no byte; then it has taken a front of the lines, and not all of them.
pub(crate) fn write_hints<W: Write>(
    part: &PartData,
    world: &World,
    op: &BorrowedOp<'_>,
    stop: Stop,
    cause: &Cause,
    writer: &mut W,
) -> Result<(), WriteFault>
    ensures { Wrote (W.contents writer.old) (W.contents writer.new) (hint_lines part.now world.now.state op.now stop cause.now) result }
{
    match stop {
        Stop::Travel(_) => write_travel(part, cause, writer),
        Stop::Missed => write_missed(part, cause, writer),
        Stop::Collision(phase, _) => write_phase(part, world, op, phase, cause, writer),
        _ => Ok(()),
    }
}
