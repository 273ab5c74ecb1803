//! The lines of a trace. Nothing here takes memory.

ghost use Rattle.std.specs.Prelude.{◌≡◌, ◌<◌, ◌++◌, codes, length, slice_get};
ghost use Rattle.vcm_num.specs.Written.{Wrote};
ghost use Rattle.vcm_trace.specs.Lines.{done_end, step_end, step_line, open_line};

use crate::fields::{write_front, write_told};
use crate::told::told_of;
use std::io::Write;
use vcm_fields::{BorrowedOp, BorrowedStatement};
use vcm_num::{WriteFault, write_all};
use vcm_print::word;
use vcm_report::{write_no_stop, write_stop_line};
use vcm_state::World;

// Writes what is told of a statement, and ends the line.
fn write_done<W: Write>(
    world: &World,
    next: u32,
    op: &BorrowedOp<'_>,
    writer: &mut W,
) -> Result<(), WriteFault>
    ensures { Wrote (W.contents writer.old) (W.contents writer.new) (done_end world.now.tables world.now.state next op.now) result }
{
    write_told(world, next, told_of(op), writer)?;
    write_all(writer, b"\n")
}

// Writes the last field of a step's line, and ends the line.
fn write_step_end<W: Write>(
    world: &World,
    next: u32,
    op: &BorrowedOp<'_>,
    writer: &mut W,
) -> Result<(), WriteFault>
    ensures { Wrote (W.contents writer.old) (W.contents writer.new) (step_end world.now.tables world.now.state next op.now world.now.state.stop) result }
{
    match world.stop() {
        Some(place) => write_stop_line(world.tables(), place, writer),
        None => write_done(world, next, op, writer),
    }
}

/// Writes the line of a step: how many steps were taken with it, the number of the statement that was carried out, and this statement; the
/// state and the next statement's number are those behind it.
///
/// Errors: the writer failed, or took no byte; then it has taken a front of the line, and not all of it.
pub fn write_step<W: Write>(
    count: u64,
    number: u32,
    statement: &BorrowedStatement<'_>,
    world: &World,
    next: u32,
    writer: &mut W,
) -> Result<(), WriteFault>
    ensures { Wrote (W.contents writer.old) (W.contents writer.new) (step_line world.now.tables count number statement.now world.now.state next) result }
{
    write_front(
        count,
        number,
        statement.line,
        word(&statement.op),
        world.position(),
        writer,
    )?;
    write_step_end(world, next, &statement.op, writer)
}

/// Writes the line of a run that has not stopped: how many steps were taken, the next statement's number, and its source line.
///
/// Errors: the writer failed, or took no byte; then it has taken a front of the line, and not all of it.
pub fn write_open<W: Write>(
    count: u64,
    next: u32,
    line: u32,
    world: &World,
    writer: &mut W,
) -> Result<(), WriteFault>
    ensures { Wrote (W.contents writer.old) (W.contents writer.new) (open_line count next line world.now.state) result }
{
    write_front(count, next, line, b"", world.position(), writer)?;
    write_no_stop(count, writer)
}
