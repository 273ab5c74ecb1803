//! What is told of the first contact of a box in a run.

ghost use Rattle.std.specs.Prelude.{◌≡◌, ◌<◌, length, slice_get, option_map, Some, IfOk, IfErr};
ghost use Rattle.vcm_cause.specs.Watched.{seen};
ghost use Rattle.vcm_num.specs.Written.{Wrote};
ghost use Rattle.vcm_backtrace.specs.Sources.{IsSourced};
ghost use Rattle.vcm_first_contact.specs.Lines.{none_lines, name_of, met_of, told_lines};
ghost use Rattle.vcm_first_contact.specs.Telling.{steps_up_to, told_of, IsTold, IsNotTold};
ghost use Rattle.vcm_first_contact.specs.inner.Standing.{IsAmple};

use crate::finding::find_first;
use crate::first::FirstContact;
use crate::lines::{obstacle_of, write_first};
use std::alloc::Global;
use std::io::Write;
use vcm_backtrace::{Source, source_of};
use vcm_boxes::Boxes;
use vcm_cause::{Obstacle, Watched, watch};
use vcm_loader::Loaded;
use vcm_machine::End;
use vcm_motion::Part;
use vcm_naming::BlockNames;
use vcm_num::{NoMemory, WriteFault, write_all};
use vcm_part::PartData;
use vcm_spec::StopPlace;
use vcm_steps::Unfinished;
use vcm_why::write_why;

/// What a run came to: whether a box meets a block, and the stop of the run, if none does and it came to one.
#[derive(Clone, Copy)]
pub struct FirstTold {
    pub is_met: bool,
    pub stop: Option<StopPlace>,
}

// The source that a text is, if there is one.
fn source_in(alloc: Global, text: Option<&[u8]>) -> Result<Option<Source<'_>>, NoMemory>
    ensures { IfOk result (λ s. IsSourced (option_map (λ t. t.now) text.entry) s) }
{
    match text {
        None => Ok(None),
        Some(text) => match source_of(alloc, text) {
            Ok(source) => Ok(Some(source)),
            // The text of a program that was built is refused for want of memory alone.
            Err(_) => Err(NoMemory),
        },
    }
}

// A run for so many steps, which are watched.
fn watched_for<P: Part>(
    alloc: Global,
    loaded: &Loaded<'_>,
    part: &P,
    blocks: &PartData,
    steps: u64,
) -> Result<Watched, NoMemory>
    requires { P.part part.now ≡ blocks.now }
    ensures watched { IfOk result (IsAmple blocks.now loaded.now steps) }
    ensures within { IfOk result (λ w. w.next < length loaded.now.statements) }
{
    let watched = watch(alloc, loaded, part, blocks, steps)?;
    match watched.ran.end {
        End::NoMemory => Err(NoMemory),
        _ => Ok(watched),
    }
}

// Writes that no box meets a block, and why the run stopped where it did.
fn write_none<W: Write>(
    source: &Option<Source<'_>>,
    loaded: &Loaded<'_>,
    blocks: &PartData,
    watched: &Watched,
    names: &BlockNames,
    writer: &mut W,
) -> Result<(), WriteFault>
    requires { watched.now.next < length loaded.now.statements }
    ensures { Wrote (W.contents writer.old) (W.contents writer.new)
        (none_lines names.now source.now blocks.now loaded.now.statements watched.now.world watched.now.next (seen watched.now.progress) watched.now.ran.done) result }
{
    write_all(writer, b"no box of the probe meets a block\n")?;
    write_why(
        source,
        loaded,
        blocks,
        &watched.world,
        &watched.progress,
        watched.next,
        watched.ran.done,
        names,
        writer,
    )
}

// The name of the box of a place.
fn name_at(boxes: &Boxes, place: usize) -> &[u8]
    ensures { result.now ≡ name_of (slice_get boxes.now place) }
{
    match boxes.as_slice().get(place) {
        Some(tried) => tried.name.as_bytes(),
        None => &[],
    }
}

// What the box of a first contact meets.
fn met_of(blocks: &PartData, boxes: &Boxes, first: &FirstContact) -> Option<Obstacle>
    ensures { result ≡ met_of blocks.now (slice_get boxes.now first.now.index) first.now }
{
    match boxes.as_slice().get(first.index) {
        Some(tried) => obstacle_of(blocks, &tried.block, first),
        None => None,
    }
}

// Writes what is told of the first contact of a box.
fn write_met<W: Write>(
    source: &Option<Source<'_>>,
    loaded: &Loaded<'_>,
    blocks: &PartData,
    boxes: &Boxes,
    watched: &Watched,
    first: &FirstContact,
    names: &BlockNames,
    writer: &mut W,
) -> Result<(), WriteFault>
    ensures { Wrote (W.contents writer.old) (W.contents writer.new)
        (told_lines names.now source.now blocks.now boxes.now loaded.now.statements watched.now.world watched.now.next (seen watched.now.progress) watched.now.ran.done (Some first.now)) result }
{
    let met = met_of(blocks, boxes, first);
    let name = name_at(boxes, first.index);
    write_first(source, loaded, watched, name, first, &met, names, writer)
}

// Writes what is told of a run with this first contact, or with none.
fn tell<W: Write>(
    source: &Option<Source<'_>>,
    loaded: &Loaded<'_>,
    blocks: &PartData,
    boxes: &Boxes,
    watched: &Watched,
    first: &Option<FirstContact>,
    names: &BlockNames,
    writer: &mut W,
) -> Result<(), WriteFault>
    requires { watched.now.next < length loaded.now.statements }
    ensures { Wrote (W.contents writer.old) (W.contents writer.new)
        (told_lines names.now source.now blocks.now boxes.now loaded.now.statements watched.now.world watched.now.next (seen watched.now.progress) watched.now.ran.done first.now) result }
{
    match first {
        Some(first) => write_met(source, loaded, blocks, boxes, watched, first, names, writer),
        None => write_none(source, loaded, blocks, watched, names, writer),
    }
}

// How many steps of a run are taken up to its first contact, or of one without a contact so many.
fn steps_up_to(first: &Option<FirstContact>, steps: u64) -> u64
    ensures { result ≡ steps_up_to first.now steps }
{
    match first {
        Some(first) => first.told.step,
        None => steps,
    }
}

// What a run came to that stands here.
fn told_of(first: &Option<FirstContact>, stop: Option<StopPlace>) -> FirstTold
    ensures { result ≡ told_of first.now stop }
{
    match first {
        Some(_) => FirstTold {
            is_met: true,
            stop: None,
        },
        None => FirstTold {
            is_met: false,
            stop,
        },
    }
}

/// Runs a loaded code for at most so many steps beside a workpiece, whose blocks are given too, and writes what is told of the first contact of a box that is fixed to the tip, of a
/// code from this text, or of an image, which has none: below its line the name of the block, if it is among these, the backtrace of its statement, the way, the block, and where the box
/// is free of it. Where no box meets a block, it writes that, and why the run stopped where it did.
///
/// Errors: see `Unfinished`. Nothing is written where memory is refused.
pub fn tell_first<P: Part, W: Write>(
    alloc: Global,
    loaded: &Loaded<'_>,
    part: &P,
    blocks: &PartData,
    boxes: &Boxes,
    text: Option<&[u8]>,
    steps: u64,
    names: &BlockNames,
    writer: &mut W,
) -> Result<FirstTold, Unfinished>
    requires { P.part part.now ≡ blocks.now }
    ensures told { IfOk result (λ t. IsTold names.now (option_map (λ t. t.now) text.entry) blocks.now boxes.now loaded.now steps t (W.contents writer.old) (W.contents writer.new)) }
    ensures fault { IfErr result (λ f. IsNotTold names.now (option_map (λ t. t.now) text.entry) blocks.now boxes.now loaded.now steps f (W.contents writer.old) (W.contents writer.new)) }
{
    let first = match find_first(alloc, loaded, part, blocks, boxes, steps) {
        Ok(first) => first,
        Err(fault) => return Err(fault),
    };
    let Ok(watched) = watched_for(alloc, loaded, part, blocks, steps_up_to(&first, steps)) else {
        return Err(Unfinished::NoMemory);
    };
    let Ok(source) = source_in(alloc, text) else {
        return Err(Unfinished::NoMemory);
    };
    let done = watched.ran.done;
    match tell(
        &source, loaded, blocks, boxes, &watched, &first, names, writer,
    ) {
        Ok(()) => Ok(told_of(&first, watched.world.stop())),
        Err(_) => Err(Unfinished::Write { done }),
    }
}
