//! The contacts of a run.

ghost use Rattle.std.specs.Prelude.{◌≡◌, [], None, map, replicate, IfOk, IfErr, OnOk};
ghost use Rattle.vcm_machine.specs.Running.{started};
ghost use Rattle.vcm_contacts.specs.Collecting.{AreContacts, AreNoContacts};
ghost use Rattle.vcm_contacts.specs.Noted.{seen};
ghost use Rattle.vcm_contacts.specs.inner.Standing.{HasGoneOn, IsRefusedHere};

use crate::contact::FoundContact;
use crate::noting::{Notes, no_notes, note_step};
use crate::passing::Passing;
use std::alloc::Global;
use vcm_backtrace::Source;
use vcm_loader::Loaded;
use vcm_motion::Part;
use vcm_part::PartData;
use vcm_spec::StopPlace;
use vcm_steps::Unfinished;

/// The contacts of a run in their order, and its stop, if it came to one.
#[derive(Drop)]
pub struct Contacts {
    pub found: Vec<FoundContact>,
    pub stop: Option<StopPlace>,
}

// One step of a machine that has not stopped, behind so many others, and what is noted of it.
fn step_on<P: Part>(
    alloc: Global,
    source: &Option<Source<'_>>,
    loaded: &Loaded<'_>,
    machine: &mut Passing<'_, P>,
    done: u64,
    notes: &mut Notes,
) -> Result<(), Unfinished>
    requires code { machine.old.code ≡ loaded.now }
    requires running { machine.old.state.world.stop ≡ None }
    ensures went { OnOk result (HasGoneOn source.now loaded.now machine.old (map seen notes.old.found.items) notes.old.rounds
        machine.new (map seen notes.new.found.items) notes.new.rounds) }
    ensures fault { IfErr result (IsRefusedHere machine.old done) }
{
    let number = machine.next();
    match machine.step(alloc) {
        Ok(met) => match note_step(
            alloc,
            source,
            loaded,
            number,
            machine.world(),
            machine.next(),
            met,
            notes,
        ) {
            Ok(()) => Ok(()),
            Err(_) => Err(Unfinished::NoMemory),
        },
        Err(_) => Err(Unfinished::Memory { done }),
    }
}

// Runs a machine that stands at the start, and notes its contacts: its stop, if it comes to one.
fn run_on<P: Part>(
    alloc: Global,
    source: &Option<Source<'_>>,
    loaded: &Loaded<'_>,
    machine: &mut Passing<'_, P>,
    steps: u64,
    notes: &mut Notes,
) -> Result<Option<StopPlace>, Unfinished>
    requires start { machine.old ≡ started machine.old.part loaded.now }
    requires empty { notes.old.found.items ≡ [] }
    requires none { notes.old.rounds ≡ replicate 32 0 }
    ensures contacts { IfOk result (AreContacts source.now machine.old.part machine.old.code steps (map seen notes.new.found.items)) }
    ensures fault { IfErr result (AreNoContacts machine.old.part machine.old.code steps) }
{
    let mut done = 0;
    while done < steps {
        match machine.world().stop() {
            Some(stop) => return Ok(Some(stop)),
            None => match step_on(alloc, source, loaded, machine, done, notes) {
                Ok(()) => done += 1,
                Err(fault) => return Err(fault),
            },
        }
    }
    Ok(machine.world().stop())
}

/// Runs a loaded code for at most so many steps beside a workpiece, whose blocks are given too, and goes on behind each contact: the motion that met a block is
/// taken as done. With each contact the backtrace of its statement is told, by the source of the code, if there is one. A measurement whose approach met one is begun once more from
/// its approach point, which is a step of its own; where that point lies in a block, it is left out.
///
/// Errors: see `Unfinished`; nothing is written here.
pub fn collect_contacts<P: Part>(
    alloc: Global,
    loaded: &Loaded<'_>,
    source: &Option<Source<'_>>,
    part: &P,
    blocks: &PartData,
    steps: u64,
) -> Result<Contacts, Unfinished>
    requires { P.part part.now ≡ blocks.now }
    ensures contacts { IfOk result (λ x. AreContacts source.now blocks.now loaded.now steps (map seen x.found.items) x.stop) }
    ensures fault { IfErr result (AreNoContacts blocks.now loaded.now steps) }
{
    let mut notes = no_notes(alloc);
    let mut machine = match Passing::new(alloc, loaded, part, blocks) {
        Ok(machine) => machine,
        Err(_) => return Err(Unfinished::NoMemory),
    };
    match run_on(alloc, source, loaded, &mut machine, steps, &mut notes) {
        Ok(stop) => {
            let found = notes.found;
            Ok(Contacts { found, stop })
        }
        Err(fault) => Err(fault),
    }
}
