//! The rows of a step. Nothing here takes memory.

ghost use Rattle.std.specs.Prelude.{◌≡◌};
ghost use Rattle.vcm_num.specs.Written.{Wrote};
ghost use Rattle.vcm_spec.specs.World.{World as Shown};
ghost use Rattle.vcm_trace.specs.Lines.{step_line, told_of};
ghost use Rattle.vcm_steps.specs.Passages.{passage};
ghost use Rattle.vcm_story.specs.Steps.{way_rows, last_printed, printed_row, framed_row, change_row, change_rows, step_rows};

use crate::state_rows::{feature_at, write_feature_row};
use std::io::Write;
use vcm_fields::BorrowedStatement;
use vcm_marks::Mark;
use vcm_num::{WriteFault, write_all, write_pieces};
use vcm_report::{Line, name_at};
use vcm_rows::{write_frame, write_marks, write_spelled};
use vcm_spec::Source;
use vcm_state::World;
use vcm_trace::{Told, told_of, write_step};

// Writes the rows of what a step adds to the way.
fn write_way<W: Write>(
    world: &World,
    told: Told,
    marks: &[Mark],
    writer: &mut W,
) -> Result<(), WriteFault>
    ensures { Wrote (W.contents writer.old) (W.contents writer.new) (way_rows world.now.tables world.now.state.stop told marks.now) result }
{
    match world.stop() {
        Some(_) => write_marks(world.tables(), marks, writer),
        None => match told {
            Told::Moved => Ok(()),
            _ => write_marks(world.tables(), marks, writer),
        },
    }
}

// The bytes of the last output line.
fn last_printed(lines: &[Line]) -> &[u8]
    ensures { result.now ≡ last_printed lines.now }
{
    match lines.get(lines.len().saturating_sub(1)) {
        Some(line) => line.as_bytes(),
        None => &[],
    }
}

// Writes the row of an output line.
fn write_printed<W: Write>(line: &[u8], writer: &mut W) -> Result<(), WriteFault>
    ensures { Wrote (W.contents writer.old) (W.contents writer.new) (printed_row line.now) result }
{
    write_all(writer, b"o ")?;
    write_spelled(line, writer)?;
    write_all(writer, b"\n")
}

// Writes the row of the frame that became the current one.
fn write_framed<W: Write>(name: &[u8], world: &World, writer: &mut W) -> Result<(), WriteFault>
    ensures { Wrote (W.contents writer.old) (W.contents writer.new) (framed_row name.now world.now.state) result }
{
    write_pieces(writer, &[b"d ", name, b" "])?;
    write_frame(world.frame(), writer)
}

// Writes what a statement changed, in the state behind it.
fn write_change<W: Write>(world: &World, told: Told, writer: &mut W) -> Result<(), WriteFault>
    ensures { Wrote (W.contents writer.old) (W.contents writer.new) (change_row world.now.tables world.now.state told) result }
{
    let tables = world.tables();
    match told {
        Told::Declared(index) => {
            let feature = feature_at(world.nominal(), index);
            write_feature_row(b"f ", tables, Source::Nominal, index, feature, writer)
        }
        Told::Measured(index) => {
            let feature = feature_at(world.actual(), index);
            write_feature_row(b"f ", tables, Source::Actual, index, feature, writer)
        }
        Told::Framed(index) => write_framed(name_at(tables.frames(), index), world, writer),
        Told::Printed => write_printed(last_printed(world.lines().as_slice()), writer),
        _ => Ok(()),
    }
}

// Writes what a step changed, in the state behind it.
fn write_changes<W: Write>(world: &World, told: Told, writer: &mut W) -> Result<(), WriteFault>
    ensures { Wrote (W.contents writer.old) (W.contents writer.new) (change_rows world.now.tables world.now.state world.now.state.stop told) result }
{
    match world.stop() {
        Some(_) => Ok(()),
        None => write_change(world, told, writer),
    }
}

/// Writes the rows of a step that added these marks to the way: how many steps were taken with it, the number of its statement, and this
/// statement; the state and the next statement's number are those behind it.
///
/// Errors: the writer failed, or took no byte; then it has taken a front of the rows, and not all of them.
pub(crate) fn write_step_rows<W: Write>(
    count: u64,
    number: u32,
    statement: &BorrowedStatement<'_>,
    world: &World,
    next: u32,
    marks: &[Mark],
    writer: &mut W,
) -> Result<(), WriteFault>
    ensures { (before : Shown) → Wrote (W.contents writer.old) (W.contents writer.new)
        (step_rows world.now.tables marks.now (passage count number statement.now before world.now.state next)) result }
{
    let told = told_of(&statement.op);
    write_step(count, number, statement, world, next, writer)?;
    write_way(world, told, marks, writer)?;
    write_changes(world, told, writer)
}
