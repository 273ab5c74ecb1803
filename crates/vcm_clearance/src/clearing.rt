//! The clearance of a run.

ghost use Rattle.std.specs.Prelude.{◌≡◌, ℕ, List, [], ◌∷◌, ◌++◌, length, replicate, IfOk, IfErr};
ghost use Rattle.std.specs.List.{list_any};
ghost use Rattle.vcm_machine.specs.Running.{started, HasRun};
ghost use Rattle.vcm_steps.specs.Passages.{passages, IsBroken};
ghost use Rattle.vcm_clearance.specs.Clearance.{IsClearance, IsNotCleared};
ghost use Rattle.vcm_naming.specs.Naming.{plain, last_line};
ghost use Rattle.vcm_naming.specs.Pages.{page, Added};
ghost use Rattle.vcm_clearance.specs.Printed.{ways_text};
ghost use Rattle.vcm_clearance.specs.Rooms.{is_met_room};
ghost use Rattle.vcm_clearance.specs.inner.Here.{past_text, kept_lines};
ghost use Rattle.vcm_clearance.specs.inner.Following.{HasTried, HasBroken, opening, opening_kept};

use crate::following::{Progress, Trier};
use crate::here::Behind;
use crate::printing::{write_boxes, write_ways};
use crate::room::Room;
use std::alloc::Global;
use std::io::Write;
use vcm_backtrace::{Kept, Source};
use vcm_boxes::{Boxes, ProbeBox};
use vcm_cause::MOST_LOOPS;
use vcm_loader::Loaded;
use vcm_machine::{End, Machine, Ran};
use vcm_motion::Part;
use vcm_naming::{BlockNames, block_at_end};
use vcm_num::{MOST_ROOM, NoMemory, WriteFault};
use vcm_part::PartData;
use vcm_report::write_end_line;
use vcm_spec::StopPlace;
use vcm_state::World;
use vcm_steps::{Unfinished, follow_run};

/// What a run with its boxes came to: whether a box meets a block, and the stop of the run, if it came to one.
#[derive(Clone, Copy)]
pub struct Cleared {
    pub is_met: bool,
    pub stop: Option<StopPlace>,
}

// The rooms of boxes before the first way.
fn opening_rooms(alloc: Global, boxes: &[ProbeBox]) -> Result<Vec<Room>, NoMemory>
    ensures { IfOk result (λ r. r.items ≡ opening boxes.now) }
{
    let mut rooms = Vec::new(alloc);
    for _tried in boxes {
        rooms.push(Room::Clear(MOST_ROOM, None))?;
    }
    Ok(rooms)
}

// What is kept of the narrowest place round each box, before the first way.
fn opening_kept(alloc: Global, boxes: &[ProbeBox], count: usize) -> Result<Vec<Kept>, NoMemory>
    ensures { IfOk result (λ k. k.items ≡ opening_kept count boxes.now) }
{
    let mut kept = Vec::new(alloc);
    for _tried in boxes {
        kept.push(Kept::new(alloc, count)?)?;
    }
    Ok(kept)
}

// Whether a box is met.
fn is_met(room: &Room) -> bool
    ensures { result ≡ is_met_room room.now }
{
    match room {
        Room::Met(_) => true,
        Room::Clear(_, _) => false,
    }
}

// Whether one of them is.
fn is_some_met(rooms: &[Room]) -> bool
    ensures { result ≡ list_any is_met_room rooms.now }
{
    rooms.iter().any(|room| is_met(room))
}

// Writes how the run ended, and the name of the block that its stop names, if it is left.
fn write_end<W: Write>(
    world: &World,
    done: u64,
    names: &mut BlockNames,
    writer: &mut W,
) -> Result<(), WriteFault>
    ensures { Added (page (W.contents writer.old) names.old) (page (W.contents writer.new) names.new) (last_line world.now.tables world.now.state.stop done ∷ []) result }
{
    let stop = world.stop();
    write_end_line(world.tables(), stop, done, writer)?;
    names.write_once(block_at_end(stop), writer)
}

// Writes the rooms, and how the run ended.
fn write_rest<W: Write>(
    boxes: &[ProbeBox],
    rooms: &[Room],
    kept: &[Kept],
    behind: &Behind<'_>,
    world: &World,
    done: u64,
    names: &mut BlockNames,
    writer: &mut W,
) -> Result<(), WriteFault>
    ensures { Added (page (W.contents writer.old) names.old) (page (W.contents writer.new) names.new)
        (kept_lines (past_text behind.now.source.now behind.now.loaded.now.statements behind.now.tables.now) boxes.now rooms.now kept.now ++ last_line world.now.tables world.now.state.stop done ∷ []) result }
{
    write_boxes(boxes, rooms, kept, behind, names, writer)?;
    write_end(world, done, names, writer)
}

// Writes what comes behind the contacts.
fn write_summary<W: Write>(
    untried: &[u8],
    boxes: &[ProbeBox],
    rooms: &[Room],
    kept: &[Kept],
    behind: &Behind<'_>,
    count: u64,
    world: &World,
    done: u64,
    names: &mut BlockNames,
    writer: &mut W,
) -> Result<(), WriteFault>
    ensures { Added (page (W.contents writer.old) names.old) (page (W.contents writer.new) names.new)
        (plain (ways_text untried.now count) ∷ kept_lines (past_text behind.now.source.now behind.now.loaded.now.statements behind.now.tables.now) boxes.now rooms.now kept.now
        ++ last_line world.now.tables world.now.state.stop done ∷ []) result }
{
    write_ways(untried, count, writer)?;
    write_rest(boxes, rooms, kept, behind, world, done, names, writer)
}

// Follows a run with its boxes: how it went, and how many ways there were.
fn try_run<P: Part, W: Write>(
    alloc: Global,
    loaded: &Loaded<'_>,
    machine: &mut Machine<'_, P>,
    trier: &Trier<'_, P>,
    steps: u64,
    rooms: &mut Vec<Room>,
    kept: &mut Vec<Kept>,
    names: &mut BlockNames,
    writer: &mut W,
) -> Result<(Ran, u64), Unfinished>
    requires start { machine.old ≡ started machine.old.part loaded.now }
    requires tie { P.part trier.now.part.now ≡ trier.now.blocks.now }
    requires beside { machine.old.part ≡ trier.now.blocks.now }
    ensures run { IfOk result (λ r. HasRun steps machine.old machine.new r.0) }
    ensures has { IfOk result (λ r. (behind : List ℕ) × HasTried trier.now.source.now trier.now.loaded.now.statements loaded.now.tables trier.now.blocks.now trier.now.boxes.now
        (replicate 32 0) rooms.old.items kept.old.items 0 (page (W.contents writer.old) names.old)
        behind rooms.new.items kept.new.items r.1 (page (W.contents writer.new) names.new) (passages machine.old.part loaded.now r.0.done)) }
    ensures err { IfErr result (λ f. IsBroken steps machine.old.part loaded.now
        (λ ps p. HasBroken trier.now.source.now trier.now.loaded.now.statements loaded.now.tables trier.now.blocks.now trier.now.boxes.now (replicate 32 0) rooms.old.items kept.old.items 0 (page (W.contents writer.old) names.old) (page (W.contents writer.new) names.new) ps p f)) }
{
    loaded.known_valid();
    let mut progress = Progress {
        writer,
        rooms,
        names,
        kept,
        rounds: [0; MOST_LOOPS],
        count: 0,
    };
    match follow_run(alloc, loaded, machine, steps, trier, &mut progress) {
        Ok(ran) => Ok((ran, progress.count)),
        Err(fault) => Err(fault),
    }
}

// Writes the clearance of a machine that stands at the start.
fn clear_run<P: Part, W: Write>(
    alloc: Global,
    loaded: &Loaded<'_>,
    machine: &mut Machine<'_, P>,
    trier: &Trier<'_, P>,
    steps: u64,
    untried: &[u8],
    rooms: &mut Vec<Room>,
    kept: &mut Vec<Kept>,
    names: &mut BlockNames,
    writer: &mut W,
) -> Result<Cleared, Unfinished>
    requires start { machine.old ≡ started machine.old.part loaded.now }
    requires tie { P.part trier.now.part.now ≡ trier.now.blocks.now }
    requires beside { machine.old.part ≡ trier.now.blocks.now }
    requires rooms { rooms.old.items ≡ opening trier.now.boxes.now }
    requires kept { kept.old.items ≡ opening_kept (length loaded.now.tables.variables) trier.now.boxes.now }
    requires same { trier.now.loaded.now ≡ loaded.now }
    ensures cleared { IfOk result (λ t. IsClearance names.old untried.now trier.now.source.now trier.now.blocks.now trier.now.boxes.now loaded.now steps t (W.contents writer.old) (W.contents writer.new)) }
    ensures fault { IfErr result (λ f. IsNotCleared names.old untried.now trier.now.source.now trier.now.blocks.now trier.now.boxes.now loaded.now steps f (W.contents writer.old) (W.contents writer.new)) }
{
    // It is called for what it tells of the workpiece: that it is valid.
    let _bounds = trier.blocks.bounds();
    let boxes = trier.boxes.as_slice();
    let (ran, count) = match try_run(
        alloc, loaded, machine, trier, steps, rooms, kept, names, writer,
    ) {
        Ok(tried) => tried,
        Err(fault) => return Err(fault),
    };
    let done = ran.done;
    match ran.end {
        End::NoMemory => return Err(Unfinished::Memory { done }),
        End::Count => {}
        End::Stopped => {}
    }
    let world = machine.world();
    let known = rooms.as_slice();
    let behind = Behind {
        source: trier.source,
        loaded: trier.loaded,
        tables: world.tables(),
    };
    let kept = kept.as_slice();
    match write_summary(
        untried, boxes, known, kept, &behind, count, world, done, names, writer,
    ) {
        Ok(()) => Ok(Cleared {
            is_met: is_some_met(known),
            stop: world.stop(),
        }),
        Err(_) => Err(Unfinished::Write { done }),
    }
}

/// Runs a loaded code for at most so many steps beside a workpiece, whose blocks are given too, tries boxes that are fixed to the tip on each way of the run, and writes
/// as the steps are taken where a box enters a block; behind that how many ways there were, with these bytes of ways that weren't tried behind their number, for each box on how many it meets a block, or how much room is left round it and
/// where that is narrowest; and how the run ended; below the first line that names a block the block's name, if it is among these, and below each contact and each narrowest place the backtrace of its statement, by the source of the code, if there is one. The tip alone decides the run. Fractions and contacts are exact; lengths are whole micrometres; ways are counted up to
/// 18,446,744,073,709,551,615.
///
/// Errors: see `Unfinished`.
pub fn clearance<P: Part, W: Write>(
    alloc: Global,
    loaded: &Loaded<'_>,
    part: &P,
    blocks: &PartData,
    boxes: &Boxes,
    source: &Option<Source<'_>>,
    steps: u64,
    untried: &[u8],
    names: &mut BlockNames,
    writer: &mut W,
) -> Result<Cleared, Unfinished>
    requires { P.part part.now ≡ blocks.now }
    ensures cleared { IfOk result (λ t. IsClearance names.old untried.now source.now (P.part part.now) boxes.now loaded.now steps t (W.contents writer.old) (W.contents writer.new)) }
    ensures fault { IfErr result (λ f. IsNotCleared names.old untried.now source.now (P.part part.now) boxes.now loaded.now steps f (W.contents writer.old) (W.contents writer.new)) }
{
    let Ok(mut rooms) = opening_rooms(alloc, boxes.as_slice()) else {
        return Err(Unfinished::NoMemory);
    };
    let Ok(mut kept) = opening_kept(alloc, boxes.as_slice(), loaded.variable_count()) else {
        return Err(Unfinished::NoMemory);
    };
    let trier = Trier {
        part,
        blocks,
        boxes,
        source,
        loaded,
    };
    let mut machine = match Machine::new(alloc, loaded, part) {
        Ok(machine) => machine,
        Err(_) => return Err(Unfinished::NoMemory),
    };
    clear_run(
        alloc,
        loaded,
        &mut machine,
        &trier,
        steps,
        untried,
        &mut rooms,
        &mut kept,
        names,
        writer,
    )
}
