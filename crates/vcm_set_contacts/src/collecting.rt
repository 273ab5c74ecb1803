//! The contacts of a run with several probes.

ghost use Rattle.std.specs.Prelude.{◌≡◌, ◌<◌, ◌+◌, ◌^◌, ◌++◌, [], List, map, replicate, None, IfOk, IfErr, IfSome};
ghost use Rattle.vcm_contacts.specs.Noted.{Found as Told, seen};
ghost use Rattle.vcm_turning.specs.Machine.{turner};
ghost use Rattle.vcm_set_contacts.specs.Collecting.{AreSetContacts, AreNoSetContacts};
ghost use Rattle.vcm_set_contacts.specs.inner.Standing.{HasNoted, IsLostHere, IsRefusedHere};

use crate::found::{Lost, PassedEnd, SetContacts};
use crate::passing::step;
use std::alloc::Global;
use vcm_backtrace::Source;
use vcm_contacts::{Notes, no_notes, note_step};
use vcm_loader::Loaded;
use vcm_motion::Part;
use vcm_steps::Unfinished;
use vcm_turning::Turning;

// One step of a machine that has not stopped, behind so many others, and its contact noted: why the run ends there without a probe, if it does.
fn step_on<P: Part>(
    alloc: Global,
    source: &Option<Source<'_>>,
    loaded: &Loaded<'_>,
    machine: &mut Turning<'_, P>,
    done: u64,
    notes: &mut Notes,
) -> Result<Option<Lost>, Unfinished>
    requires code { machine.old.code ≡ loaded.now }
    requires running { machine.old.state.world.stop ≡ None }
    requires few { done + 1 < 2 ^ 64 }
    ensures went { IfOk result (λ o. o ≡ None → (fs : List Told) × HasNoted source.now machine.old notes.old.rounds fs machine.new notes.new.rounds
        × (map seen notes.new.found.items ≡ map seen notes.old.found.items ++ fs)) }
    ensures lost { IfOk result (λ o. IfSome o (λ l. IsLostHere machine.old done l × (notes.new ≡ notes.old))) }
    ensures fault { IfErr result (IsRefusedHere machine.old done) }
{
    let number = machine.next();
    let statement = loaded.statement(number as usize);
    if let Some(probe) = machine.lost(&statement) {
        return Ok(Some(Lost {
            probe,
            step: done + 1,
        }));
    }
    match step(alloc, loaded, machine) {
        Ok(met) => {
            let next = machine.next();
            match note_step(
                alloc,
                source,
                loaded,
                number,
                machine.world(),
                next,
                met,
                notes,
            ) {
                Ok(()) => Ok(None),
                Err(_) => Err(Unfinished::NoMemory),
            }
        }
        Err(_) => Err(Unfinished::Memory { done }),
    }
}

// Runs a machine that stands at the start, and notes its contacts: how it ends.
fn run_on<P: Part>(
    alloc: Global,
    source: &Option<Source<'_>>,
    loaded: &Loaded<'_>,
    machine: &mut Turning<'_, P>,
    steps: u64,
    notes: &mut Notes,
) -> Result<PassedEnd, Unfinished>
    requires start { machine.old ≡ turner machine.old.part machine.old.probes machine.old.variable loaded.now }
    requires empty { notes.old.found.items ≡ [] }
    requires none { notes.old.rounds ≡ replicate 32 0 }
    ensures contacts { IfOk result (AreSetContacts source.now machine.old.part machine.old.probes machine.old.variable loaded.now steps (map seen notes.new.found.items)) }
    ensures fault { IfErr result (AreNoSetContacts machine.old.part machine.old.probes machine.old.variable loaded.now steps) }
{
    let mut done = 0;
    while done < steps {
        match machine.world().stop() {
            Some(stop) => {
                return Ok(PassedEnd {
                    stop: Some(stop),
                    lost: None,
                });
            }
            None => match step_on(alloc, source, loaded, machine, done, notes) {
                Ok(None) => done += 1,
                Ok(Some(lost)) => {
                    return Ok(PassedEnd {
                        stop: None,
                        lost: Some(lost),
                    });
                }
                Err(fault) => return Err(fault),
            },
        }
    }
    let stop = machine.world().stop();
    Ok(PassedEnd { stop, lost: None })
}

/// Takes at most so many steps of a machine that stands at the start of a loaded code, and goes on behind each contact: the motion that met a block is taken as done, and
/// then the probe is put on that is chosen. With each contact the backtrace of its statement is told, by the source of the code, if there is one. A measurement whose approach met a block is begun once more from its approach point, which is a step of its own; where that point
/// lies in a block, it is left out. A statement that moves while the chosen probe isn't on ends the run before it.
///
/// Errors: see `Unfinished`; nothing is written here.
pub fn collect_set_contacts<P: Part>(
    alloc: Global,
    loaded: &Loaded<'_>,
    source: &Option<Source<'_>>,
    machine: &mut Turning<'_, P>,
    steps: u64,
) -> Result<SetContacts, Unfinished>
    requires { machine.old ≡ turner machine.old.part machine.old.probes machine.old.variable loaded.now }
    ensures contacts { IfOk result (λ x. AreSetContacts source.now machine.old.part machine.old.probes machine.old.variable loaded.now steps (map seen x.found.items) x.end) }
    ensures fault { IfErr result (AreNoSetContacts machine.old.part machine.old.probes machine.old.variable loaded.now steps) }
{
    let mut notes = no_notes(alloc);
    match run_on(alloc, source, loaded, machine, steps, &mut notes) {
        Ok(end) => {
            let found = notes.found;
            Ok(SetContacts { found, end })
        }
        Err(fault) => Err(fault),
    }
}
