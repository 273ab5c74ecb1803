//! What is told of a run that was watched. Nothing here takes memory.

ghost use Rattle.std.specs.Prelude.{◌≡◌, ◌<◌, length, slice_get};
ghost use Rattle.vcm_num.specs.Written.{Wrote};
ghost use Rattle.vcm_cause.specs.Watched.{seen};
ghost use Rattle.vcm_why.specs.Reasons.{text_lines, where_lines, stop_front, is_of_text, motion_lines, stop_lines, is_ended, why_lines};
ghost use Rattle.vcm_cause.specs.Cause.{cause_of};

use crate::causes::write_cause;
use crate::framed::write_frame;
use crate::hints::write_hints;
use std::io::Write;
use vcm_backtrace::{Source, Standing, write_source_line, write_sourced};
use vcm_cause::{Progress, Rounds, cause_of};
use vcm_items::Tables;
use vcm_loader::Loaded;
use vcm_naming::{BlockNames, stop_block};
use vcm_num::{WriteFault, write_all};
use vcm_part::PartData;
use vcm_report::{write_no_stop, write_stop_line};
use vcm_spec::{Stop, StopPlace};
use vcm_state::World;

// Writes the line of the text and the CALLs that a statement comes from, and the loops round it.
fn write_text<W: Write>(
    source: &Source<'_>,
    loaded: &Loaded<'_>,
    world: &World,
    rounds: &Rounds,
    number: u32,
    line: u32,
    writer: &mut W,
) -> Result<(), WriteFault>
    ensures { Wrote (W.contents writer.old) (W.contents writer.new) (text_lines source.now loaded.now.statements world.now rounds.now number line) result }
{
    let standing = Standing {
        tables: world.tables(),
        variables: world.variables(),
        rounds,
    };
    write_source_line(source, line, writer)?;
    write_sourced(source, loaded, &standing, number, writer)
}

/// Writes where a statement comes from, of which nothing is known without a text.
///
/// Errors: the writer failed, or took no byte; then it has taken a front of the lines, and not all of them.
pub fn write_where<W: Write>(
    source: &Option<Source<'_>>,
    loaded: &Loaded<'_>,
    world: &World,
    rounds: &Rounds,
    number: u32,
    line: u32,
    writer: &mut W,
) -> Result<(), WriteFault>
    ensures { Wrote (W.contents writer.old) (W.contents writer.new) (where_lines source.now loaded.now.statements world.now rounds.now number line) result }
{
    match source {
        Some(source) => write_text(source, loaded, world, rounds, number, line, writer),
        None => write_all(
            writer,
            b"the source line, the calls and the loops stand in the program's text; an image has none\n",
        ),
    }
}

// Whether the run came to the end of its program.
fn is_ended(stop: Stop) -> bool
    ensures { result ≡ is_ended stop }
{
    matches!(stop, Stop::Ended)
}

// Writes the line of a stop, and the name of the block that it names, if that has one.
fn write_named_stop<W: Write>(
    tables: &Tables,
    place: StopPlace,
    names: &BlockNames,
    writer: &mut W,
) -> Result<(), WriteFault>
    ensures { Wrote (W.contents writer.old) (W.contents writer.new) (stop_front names.now tables.now place) result }
{
    write_stop_line(tables, place, writer)?;
    names.write_name(stop_block(place.stop), writer)
}

// Whether lines are those of a text.
fn is_of_text(source: &Option<Source<'_>>) -> bool
    ensures { result ≡ is_of_text source.now }
{
    match source {
        Some(_) => true,
        None => false,
    }
}

// Writes what is told of the motion of a stop.
fn write_motion<W: Write>(
    loaded: &Loaded<'_>,
    part: &PartData,
    world: &World,
    progress: &Progress,
    number: u32,
    is_text: bool,
    stop: Stop,
    writer: &mut W,
) -> Result<(), WriteFault>
    requires { number < length loaded.now.statements }
    ensures { Wrote (W.contents writer.old) (W.contents writer.new)
        (motion_lines part.now world.now.state (slice_get loaded.now.statements number) is_text (seen progress.now).framed stop (cause_of part.now (seen progress.now).marks)) result }
{
    let cause = cause_of(part, progress.marks.as_slice());
    let statement = loaded.statement(number as usize);
    write_cause(&cause, writer)?;
    write_hints(part, world, &statement.op, stop, &cause, writer)?;
    write_frame(world.frame(), is_text, progress.framed, &cause, writer)
}

// Writes a stop that isn't the program's end.
fn write_stop<W: Write>(
    source: &Option<Source<'_>>,
    loaded: &Loaded<'_>,
    part: &PartData,
    world: &World,
    progress: &Progress,
    number: u32,
    place: StopPlace,
    names: &BlockNames,
    writer: &mut W,
) -> Result<(), WriteFault>
    requires { number < length loaded.now.statements }
    ensures { Wrote (W.contents writer.old) (W.contents writer.new) (stop_lines names.now source.now part.now loaded.now.statements world.now number (seen progress.now) place) result }
{
    write_named_stop(world.tables(), place, names, writer)?;
    write_where(
        source,
        loaded,
        world,
        &progress.rounds,
        number,
        place.line,
        writer,
    )?;
    let is_text = is_of_text(source);
    write_motion(
        loaded, part, world, progress, number, is_text, place.stop, writer,
    )
}

/// Writes what is told of a run that came to a state with this number of the next statement after so many steps, beside blocks with these names.
///
/// Errors: the writer failed, or took no byte; then it has taken a front of the text, and not all of it.
pub fn write_why<W: Write>(
    source: &Option<Source<'_>>,
    loaded: &Loaded<'_>,
    part: &PartData,
    world: &World,
    progress: &Progress,
    number: u32,
    done: u64,
    names: &BlockNames,
    writer: &mut W,
) -> Result<(), WriteFault>
    requires { number < length loaded.now.statements }
    ensures { Wrote (W.contents writer.old) (W.contents writer.new) (why_lines names.now source.now part.now loaded.now.statements world.now number (seen progress.now) done) result }
{
    match world.stop() {
        None => write_no_stop(done, writer),
        Some(place) => {
            if is_ended(place.stop) {
                return write_stop_line(world.tables(), place, writer);
            }
            write_stop(
                source, loaded, part, world, progress, number, place, names, writer,
            )
        }
    }
}
