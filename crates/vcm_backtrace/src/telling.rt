//! The backtrace of a statement, as text.

ghost use Rattle.std.specs.Prelude.{◌≡◌, IfOk};
ghost use Rattle.vcm_num.specs.Written.{Wrote};
ghost use Rattle.vcm_backtrace.specs.Backtrace.{text_lines, backtrace_lines, backtrace_at};

use crate::calls::write_calls;
use crate::loops::write_loops;
use crate::source::Source;
use crate::standing::Standing;
use std::alloc::Global;
use std::io::Write;
use vcm_cause::{Watched, watch};
use vcm_loader::Loaded;
use vcm_machine::End;
use vcm_motion::Part;
use vcm_num::{NoMemory, WriteFault};
use vcm_part::PartData;

/// Writes the CALLs that the statement with this number comes from, and the rounds of the loops round it. It takes no memory.
///
/// Errors: the writer failed, or took no byte; then it has taken a front of the lines, and not all of them.
pub fn write_sourced<W: Write>(
    source: &Source<'_>,
    loaded: &Loaded<'_>,
    standing: &Standing<'_>,
    number: u32,
    writer: &mut W,
) -> Result<(), WriteFault>
    ensures { Wrote (W.contents writer.old) (W.contents writer.new)
        (text_lines source.now loaded.now.statements standing.now.tables.now standing.now.variables.now standing.now.rounds.now number) result }
{
    write_calls(source, number, writer)?;
    write_loops(loaded, standing, number, writer)
}

/// Writes the backtrace of the statement with this number of a loaded code, where a step stands: the CALLs that it comes from, and the rounds of the loops round it. Of a code
/// without a text it writes nothing. It takes no memory.
///
/// Errors: the writer failed, or took no byte; then it has taken a front of the lines, and not all of them.
pub fn write_backtrace<W: Write>(
    source: &Option<Source<'_>>,
    loaded: &Loaded<'_>,
    standing: &Standing<'_>,
    number: u32,
    writer: &mut W,
) -> Result<(), WriteFault>
    ensures { Wrote (W.contents writer.old) (W.contents writer.new)
        (backtrace_lines source.now loaded.now.statements standing.now.tables.now standing.now.variables.now standing.now.rounds.now number) result }
{
    match source {
        Some(source) => write_sourced(source, loaded, standing, number, writer),
        None => Ok(()),
    }
}

/// The same as a text.
///
/// Errors: want of memory.
pub fn backtrace_of(
    alloc: Global,
    source: &Option<Source<'_>>,
    loaded: &Loaded<'_>,
    standing: &Standing<'_>,
    number: u32,
) -> Result<Vec<u8>, NoMemory>
    ensures { IfOk result (λ t. t.items ≡ backtrace_lines source.now loaded.now.statements standing.now.tables.now standing.now.variables.now standing.now.rounds.now number) }
{
    let mut text = Vec::new(alloc);
    match write_backtrace(source, loaded, standing, number, &mut text) {
        Ok(()) => Ok(text),
        Err(_) => Err(NoMemory),
    }
}

// The same where a run that was watched stands.
fn backtrace_behind(
    alloc: Global,
    source: &Option<Source<'_>>,
    loaded: &Loaded<'_>,
    watched: &Watched,
    number: u32,
) -> Result<Vec<u8>, NoMemory>
    ensures { IfOk result (λ t. t.items ≡ backtrace_lines source.now loaded.now.statements watched.now.world.tables watched.now.world.state.variables watched.now.progress.rounds number) }
{
    let standing = Standing {
        tables: watched.world.tables(),
        variables: watched.world.variables(),
        rounds: &watched.progress.rounds,
    };
    backtrace_of(alloc, source, loaded, &standing, number)
}

/// The backtrace of the statement with this number, behind so many steps of a run of a loaded code beside a workpiece, whose blocks are given too, as a text.
///
/// Errors: want of memory.
pub fn backtrace_at<P: Part>(
    alloc: Global,
    source: &Option<Source<'_>>,
    loaded: &Loaded<'_>,
    part: &P,
    blocks: &PartData,
    steps: u64,
    number: u32,
) -> Result<Vec<u8>, NoMemory>
    requires { P.part part.now ≡ blocks.now }
    ensures { IfOk result (λ t. t.items ≡ backtrace_at source.now blocks.now loaded.now steps number) }
{
    if source.is_none() {
        return Ok(Vec::new(alloc));
    }
    let watched = watch(alloc, loaded, part, blocks, steps)?;
    match watched.ran.end {
        End::NoMemory => Err(NoMemory),
        _ => backtrace_behind(alloc, source, loaded, &watched, number),
    }
}
