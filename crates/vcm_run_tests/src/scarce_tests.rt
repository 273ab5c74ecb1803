//! Calls under little memory that no command shows: each gives want of memory, and its answer when it is called again.

use std::alloc::Global;
use vcm_fields::ImageFault;
use vcm_image::read;
use vcm_loader::Loaded;
use vcm_machine::Machine;
use vcm_motion::{Hit, Part, PartData, Point, Strips};
use vcm_part::read_part;
use vcm_run::End;
use vcm_state::World;
use vcm_test_tools::{
    BOUNDS, FORTY, Scarce, THREE, Told, answer, beside_block, each_line_is_refused, image_of,
    is_refused, refusal, refusals,
};

// What reading an image of four statements tells.
fn reading(alloc: Global, image: &[u8]) -> Told {
    match read(alloc, image) {
        Ok(code) => answer(code.statements.len() == 4),
        Err(fault) => refusal(fault == ImageFault::NoMemory),
    }
}

// How often it is refused.
fn read_refusals(alloc: Global) -> Option<u32> {
    let image = image_of(alloc, FORTY)?;
    let image = image.as_slice();
    refusals(alloc, |alloc| reading(alloc, image))
}

#[test]
fn images_are_read(rt: HostRuntime) {
    assert!(rt; is_refused(read_refusals(rt.alloc())));
}

// Whether a state is that behind 21 steps of the loop: ten lines are printed, and the eleventh comes next.
fn is_behind(world: &World) -> bool {
    world.lines().len() == 10 && world.variables() == [11].as_slice() && world.stop().is_none()
}

// What copying a machine behind 21 steps of the loop tells.
fn copying<P: Part>(alloc: Global, machine: &Machine<'_, P>) -> Told {
    match machine.copy(alloc) {
        Ok(copy) => answer(copy.next() == 1 && is_behind(copy.world())),
        Err(_) => Told::Short,
    }
}

// What copying its state tells.
fn copying_world(alloc: Global, world: &World) -> Told {
    match world.copy(alloc) {
        Ok(copy) => answer(is_behind(&copy)),
        Err(_) => Told::Short,
    }
}

// Whether a machine behind 21 steps of the loop is copied, and its state.
fn is_copied<P: Part>(alloc: Global, machine: &Machine<'_, P>) -> bool {
    is_refused(refusals(alloc, |alloc| copying(alloc, machine)))
        && is_refused(refusals(alloc, |alloc| copying_world(alloc, machine.world())))
}

// The same of a machine that stands at the start.
fn is_copied_behind<P: Part>(alloc: Global, machine: &mut Machine<'_, P>) -> bool {
    machine.run(alloc, 21).done == 21 && is_copied(alloc, &*machine)
}

// The same of a machine that is made.
fn new_is_copied<P: Part>(alloc: Global, loaded: &Loaded<'_>, part: &P) -> Option<bool> {
    let Ok(mut machine) = Machine::new(alloc, loaded, part) else {
        return None;
    };
    Some(is_copied_behind(alloc, &mut machine))
}

// The same of the loop beside one block.
fn loop_is_copied(alloc: Global) -> bool {
    beside_block(
        alloc,
        FORTY,
        |loaded, part| new_is_copied(alloc, loaded, part),
    ) == Some(true)
}

#[test]
fn machines_and_states_are_copied(rt: HostRuntime) {
    assert!(rt; loop_is_copied(rt.alloc()));
}

// Adds a block that begins here along x, as a part file has it.
fn push_block(text: &mut String, x: u32) -> Option<()> {
    let right = x.saturating_add(20_000);
    writeln!(
        text,
        "[[block]]\nlow = [{x}, 10000, 0]\nhigh = [{right}, 30000, 20000]"
    )
    .ok()
}

// A part file with twenty blocks side by side.
fn twenty(alloc: Global) -> Option<String> {
    let mut text = String::new(alloc);
    text.push_str(BOUNDS).ok()?;
    for block in 0..20u32 {
        push_block(&mut text, block * 20_000)?;
    }
    Some(text)
}

// What a move into the second block meets first.
fn second(strips: &Strips<'_>) -> Option<Hit> {
    let (from, to) = (Point([40_000, 0, 10_000]), Point([40_000, 40_000, 10_000]));
    strips.first_hit_counted(from, to).0
}

// What cutting a part into strips tells.
fn cutting(alloc: Global, part: &PartData) -> Told {
    let hit = Hit {
        block: 2,
        permille: 250,
    };
    match Strips::build(alloc, part) {
        Ok(strips) => answer(second(&strips) == Some(hit)),
        Err(_) => Told::Short,
    }
}

// How often it is refused.
fn strip_refusals(alloc: Global) -> Option<u32> {
    let file = twenty(alloc)?;
    let part = read_part(alloc, file.as_bytes()).ok()?;
    refusals(alloc, |alloc| cutting(alloc, &part))
}

#[test]
fn strips_are_built(rt: HostRuntime) {
    assert!(rt; is_refused(strip_refusals(rt.alloc())));
}

// How many steps a run of the loop did that memory cut short under a budget, or 8 where it did not; none where it told anything else, or where
// it did not end behind eight steps in all, with three lines, when it was run on with ample memory.
fn run_under<P: Part>(
    alloc: Global,
    scarce: &mut Scarce,
    machine: &mut Machine<'_, P>,
    budget: usize,
) -> Option<u64> {
    scarce.leave(alloc, budget).ok()?;
    let first = machine.run(alloc, 100);
    scarce.ease();
    let rest = machine.run(alloc, 100);
    let ends = rest.end == End::Stopped && first.done.saturating_add(rest.done) == 8;
    let is_told = match first.end {
        End::Stopped => first.done == 8,
        End::NoMemory => first.done < 8,
        End::Count => false,
    };
    if ends && is_told && machine.world().lines().len() == 3 {
        Some(first.done)
    } else {
        None
    }
}

// The same of a new machine.
fn new_run_under<P: Part>(
    alloc: Global,
    scarce: &mut Scarce,
    loaded: &Loaded<'_>,
    part: &P,
    budget: usize,
) -> Option<u64> {
    let Ok(mut machine) = Machine::new(alloc, loaded, part) else {
        return None;
    };
    run_under(alloc, scarce, &mut machine, budget)
}

// Whether each line of the loop is refused memory, in runs that then go on to its end.
fn lines_are_refused(alloc: Global) -> bool {
    beside_block(alloc, THREE, |loaded, part| {
        each_line_is_refused(
            alloc,
            |scarce, budget| new_run_under(alloc, scarce, loaded, part, budget),
        )
    }) == Some(true)
}

#[test]
fn each_line_of_a_run(rt: HostRuntime) {
    assert!(rt; lines_are_refused(rt.alloc()));
}
