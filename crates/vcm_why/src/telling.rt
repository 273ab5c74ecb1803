//! Runs of which it is told why they stopped.

ghost use Rattle.std.specs.Prelude.{◌≡◌, ◌<◌, Some, None, length, IfOk, IfErr};
ghost use Rattle.vcm_why.specs.inner.Watching.{IsAmple, IsHalted, IsTold, IsNotTold};
ghost use Rattle.vcm_why.specs.Telling.{IsWhy, IsNoWhy};

use crate::stops::write_why;
use std::alloc::Global;
use std::io::Write;
use vcm_backtrace::{Source, source_of};
use vcm_cause::{Watched, watch};
use vcm_loader::Loaded;
use vcm_machine::End;
use vcm_motion::Part;
use vcm_naming::BlockNames;
use vcm_part::PartData;
use vcm_spec::StopPlace;
use vcm_steps::Unfinished;

// Writes what is told of a run that was watched, and gives its stop.
fn tell<W: Write>(
    source: &Option<Source<'_>>,
    loaded: &Loaded<'_>,
    part: &PartData,
    watched: &Watched,
    names: &BlockNames,
    writer: &mut W,
) -> Result<Option<StopPlace>, Unfinished>
    requires { watched.now.next < length loaded.now.statements }
    ensures told { IfOk result (λ stop. IsTold names.now source.now part.now loaded.now watched.now stop (W.contents writer.old) (W.contents writer.new)) }
    ensures fault { IfErr result (λ f. IsNotTold names.now source.now part.now loaded.now watched.now f (W.contents writer.old) (W.contents writer.new)) }
{
    let world = &watched.world;
    let done = watched.ran.done;
    match write_why(
        source,
        loaded,
        part,
        world,
        &watched.progress,
        watched.next,
        done,
        names,
        writer,
    ) {
        Ok(()) => Ok(world.stop()),
        Err(_) => Err(Unfinished::Write { done }),
    }
}

// Runs a loaded code, whose steps are watched.
fn run_watched<P: Part>(
    alloc: Global,
    loaded: &Loaded<'_>,
    part: &P,
    blocks: &PartData,
    steps: u64,
) -> Result<Watched, Unfinished>
    requires { P.part part.now ≡ blocks.now }
    ensures watched { IfOk result (IsAmple blocks.now loaded.now steps) }
    ensures within { IfOk result (λ w. w.next < length loaded.now.statements) }
    ensures fault { IfErr result (IsHalted blocks.now loaded.now steps) }
{
    let watched = match watch(alloc, loaded, part, blocks, steps) {
        Ok(watched) => watched,
        Err(_) => return Err(Unfinished::NoMemory),
    };
    let done = watched.ran.done;
    match watched.ran.end {
        End::NoMemory => Err(Unfinished::Memory { done }),
        _ => Ok(watched),
    }
}

/// Runs the code of a program's text for at most so many steps beside a workpiece, whose blocks are given too, and writes why the run stopped where it did,
/// below the line of a stop that names a block the block's name, if it is among these. It answers the stop, if it came to one.
///
/// Errors: see `Unfinished`. Nothing is written where memory is refused.
pub fn why_text<P: Part, W: Write>(
    alloc: Global,
    loaded: &Loaded<'_>,
    part: &P,
    blocks: &PartData,
    text: &[u8],
    steps: u64,
    names: &BlockNames,
    writer: &mut W,
) -> Result<Option<StopPlace>, Unfinished>
    requires { P.part part.now ≡ blocks.now }
    ensures why { IfOk result (λ stop. IsWhy names.now (Some text.now) blocks.now loaded.now steps stop (W.contents writer.old) (W.contents writer.new)) }
    ensures fault { IfErr result (λ f. IsNoWhy names.now (Some text.now) blocks.now loaded.now steps f (W.contents writer.old) (W.contents writer.new)) }
{
    let watched = match run_watched(alloc, loaded, part, blocks, steps) {
        Ok(watched) => watched,
        Err(fault) => return Err(fault),
    };
    match source_of(alloc, text) {
        Ok(source) => {
            let source = Some(source);
            tell(&source, loaded, blocks, &watched, names, writer)
        }
        // The text of a program that was built is refused for want of memory alone.
        Err(_) => Err(Unfinished::NoMemory),
    }
}

/// The same of the code of an image, which has no text.
///
/// Errors: see `Unfinished`. Nothing is written where memory is refused.
pub fn why_image<P: Part, W: Write>(
    alloc: Global,
    loaded: &Loaded<'_>,
    part: &P,
    blocks: &PartData,
    steps: u64,
    names: &BlockNames,
    writer: &mut W,
) -> Result<Option<StopPlace>, Unfinished>
    requires { P.part part.now ≡ blocks.now }
    ensures why { IfOk result (λ stop. IsWhy names.now None blocks.now loaded.now steps stop (W.contents writer.old) (W.contents writer.new)) }
    ensures fault { IfErr result (λ f. IsNoWhy names.now None blocks.now loaded.now steps f (W.contents writer.old) (W.contents writer.new)) }
{
    let watched = match run_watched(alloc, loaded, part, blocks, steps) {
        Ok(watched) => watched,
        Err(fault) => return Err(fault),
    };
    tell(&None, loaded, blocks, &watched, names, writer)
}
