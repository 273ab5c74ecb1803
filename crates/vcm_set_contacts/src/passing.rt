//! A machine that turns its head, and goes on behind contacts.

ghost use Rattle.std.specs.Prelude.{◌≡◌, None, IfOk, OnErr};
ghost use Rattle.vcm_spec.specs.declared.stop.Stop.TheVariants.{Collision};
ghost use Rattle.vcm_code.specs.Code.{CodeStatement};
ghost use Rattle.vcm_machine.specs.Running.{WantsMemory};
ghost use Rattle.vcm_turning.specs.Turning.{put_behind};
ghost use Rattle.vcm_turning.specs.Machine.{turned_of, carrier, StandsAt, with_probe};
ghost use Rattle.vcm_contacts.specs.Leading.{IsSound};
ghost use Rattle.vcm_set_contacts.specs.inner.Standing.{part_of, lead_at, contact_at, led_on, IsStopping, IsLed, HasMet, HasStepped};

use std::alloc::Global;
use vcm_contacts::{Contact, Lead, lead};
use vcm_loader::Loaded;
use vcm_motion::Part;
use vcm_num::NoMemory;
use vcm_spec::{Hit, MovePhase, Stop};
use vcm_turning::Turning;

// Carries out a lead behind the next statement.
fn follow<P: Part>(machine: &mut Turning<'_, P>, way: Lead)
    requires { (s : CodeStatement) × StandsAt machine.old s × IsSound (part_of machine.old) machine.old.code.tables s.op way }
    ensures { (s : CodeStatement) → StandsAt machine.old s → machine.new ≡ led_on machine.old s way }
{
    match way {
        Lead::On(at) => {
            machine.stand(at);
            machine.skip();
        }
        Lead::Again(at) => machine.stand(at),
        Lead::Back(at, feature, measured) => {
            machine.stand(at);
            machine.set_actual(feature, measured);
            machine.skip();
        }
        Lead::Stops(stop) => {
            let _turn = machine.halt(stop);
        }
    }
}

// The next statement met a block: how the run goes on.
fn pass<P: Part>(
    loaded: &Loaded<'_>,
    machine: &mut Turning<'_, P>,
    phase: MovePhase,
    hit: Hit,
) -> Contact
    requires code { machine.old.code ≡ loaded.now }
    requires running { machine.old.state.world.stop ≡ None }
    requires stops { (s : CodeStatement) × IsStopping machine.old (Collision phase hit) s }
    ensures { (s : CodeStatement) × StandsAt machine.old s × (result ≡ contact_at machine.old phase hit s) × (machine.new ≡ led_on machine.old s (lead_at machine.old s phase hit)) }
{
    // It is called for what it tells of the code: that it is valid.
    loaded.known_valid();
    // It is called for what it tells of the place: that it is near.
    let _at = machine.world().near_position();
    let number = machine.next();
    let statement = loaded.statement(number as usize);
    let way = lead(
        machine.part(),
        machine.blocks(),
        machine.world(),
        &statement,
        phase,
        hit,
    );
    follow(machine, way);
    Contact {
        phase,
        hit,
        number,
        line: statement.line,
    }
}

// The next statement has a stop: a contact is told, and passed.
fn meet<P: Part>(loaded: &Loaded<'_>, machine: &mut Turning<'_, P>, stop: Stop) -> Option<Contact>
    requires code { machine.old.code ≡ loaded.now }
    requires running { machine.old.state.world.stop ≡ None }
    requires stops { (s : CodeStatement) × IsStopping machine.old stop s }
    ensures { (s : CodeStatement) × StandsAt machine.old s × IsLed machine.old s stop result machine.new }
{
    match stop {
        Stop::Collision(phase, hit) => Some(pass(loaded, machine, phase, hit)),
        other => {
            let _turn = machine.halt(other);
            None
        }
    }
}

// Carries out the next statement, where there is no stop: the contact behind which it goes on, if there is one.
fn carry<P: Part>(
    alloc: Global,
    loaded: &Loaded<'_>,
    machine: &mut Turning<'_, P>,
) -> Result<Option<Contact>, NoMemory>
    requires code { machine.old.code ≡ loaded.now }
    requires running { machine.old.state.world.stop ≡ None }
    ensures ok { IfOk result (λ met. HasMet machine.old met machine.new) }
    ensures err { OnErr result (WantsMemory (carrier machine.old.part machine.old.probes machine.old.code (turned_of machine.old))) }
{
    match machine.go(alloc) {
        Ok(None) => Ok(None),
        Ok(Some(stop)) => Ok(meet(loaded, machine, stop)),
        Err(fault) => Err(fault),
    }
}

// Behind a step: the chosen probe is put on, unless it is on, or the step has stopped.
fn turn_on<P: Part>(machine: &mut Turning<'_, P>)
    ensures { machine.new ≡ with_probe machine.old (put_behind machine.old.probes machine.old.variable machine.old.state machine.old.on) }
{
    match machine.world().stop() {
        Some(_) => {}
        None => {
            let _turn = machine.turn();
        }
    }
}

/// One step, where there is no stop and the statement isn't lost: the contact behind which it goes on, if there is one.
///
/// Errors: want of memory, at a statement that makes an output line and would not stop.
pub(crate) fn step<P: Part>(
    alloc: Global,
    loaded: &Loaded<'_>,
    machine: &mut Turning<'_, P>,
) -> Result<Option<Contact>, NoMemory>
    requires code { machine.old.code ≡ loaded.now }
    requires running { machine.old.state.world.stop ≡ None }
    ensures ok { IfOk result (λ met. HasStepped machine.old met machine.new) }
    ensures err { OnErr result (WantsMemory (carrier machine.old.part machine.old.probes machine.old.code (turned_of machine.old))) }
{
    match carry(alloc, loaded, machine) {
        Ok(met) => {
            turn_on(machine);
            Ok(met)
        }
        Err(fault) => Err(fault),
    }
}
