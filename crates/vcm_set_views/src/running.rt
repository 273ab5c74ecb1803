//! Runs with several probes, of which each step is seen.

ghost use Rattle.std.specs.Prelude.{◌≡◌, ◌<◌, length, map, IfOk, IfSome};
ghost use Rattle.vcm_turning.specs.Choosing.{tipped};
ghost use Rattle.vcm_turning.specs.Machine.{turner};
ghost use Rattle.vcm_set_views.specs.Chains.{Chain};
ghost use Rattle.vcm_set_views.specs.Ends.{IsAtEnd};
ghost use Rattle.vcm_set_views.specs.Fit.{steps_of};

use crate::beside::Beside;
use crate::ends::SetEnd;
use crate::fitted::Fitted;
use crate::following::{Marking, SeesSteps};
use std::alloc::Global;
use vcm_motion::{AnyPart, Part};
use vcm_num::NoMemory;
use vcm_set_clearance::in_strips;
use vcm_state::World;
use vcm_turning::{Ended, Turning, follow_turns};

/// The machine at the end of a run: its state, with the tables of its names, the number of the next statement, the place of the probe that is on, if one is, and how
/// the run ended.
#[derive(Drop)]
pub struct Ending {
    pub world: World,
    pub next: u32,
    pub on: Option<usize>,
    pub end: SetEnd,
}

// What a machine is at the end of a run.
fn ending_of<P: Part>(machine: Turning<'_, P>, done: u64, end: Ended) -> Ending
    ensures state { result.world.state ≡ machine.entry.state.world }
    ensures tables { result.world.tables ≡ machine.entry.code.tables }
    ensures next { result.next ≡ machine.entry.state.next }
    ensures within { result.next < length machine.entry.code.statements }
    ensures on { result.on ≡ machine.entry.on }
    ensures there { IfSome result.on (λ i. i < length machine.entry.probes) }
    ensures end { result.end ≡ record { done = done; end = end; stop = machine.entry.state.world.stop } }
{
    let next = machine.next();
    let on = machine.on();
    let world = machine.into_world();
    let stop = world.stop();
    Ending {
        world,
        next,
        on,
        end: SetEnd { done, end, stop },
    }
}

// The same of a machine that stands at the start.
fn run_machine<P: Part, To, S: SeesSteps<To>>(
    alloc: Global,
    fitted: &Fitted<'_>,
    machine: Turning<'_, P>,
    steps: u64,
    by: &Marking<'_, P, S>,
    to: &mut To,
) -> Result<Ending, NoMemory>
    requires start { machine ≡ turner fitted.now.part fitted.now.probes fitted.now.variable fitted.now.code }
    requires tie { P.part by.now.beside.own.now ≡ by.now.beside.blocks.now }
    requires each { by.now.beside.each.now ≡ map (λ p. tipped by.now.beside.blocks.now p.tip) by.now.beside.probes.now }
    requires ties { map P.part by.now.beside.parts.now ≡ by.now.beside.each.now }
    requires part { by.now.beside.blocks.now ≡ fitted.now.part }
    requires probes { by.now.beside.probes.now ≡ fitted.now.probes }
    ensures end { IfOk result (IsAtEnd fitted.now steps) }
    ensures seen { IfOk result (λ e. Chain (S.One by.now.by.now fitted.now.code.tables) fitted.now.part fitted.now.probes to.old to.new (steps_of fitted.now e.end.done)) }
{
    let mut machine = machine;
    fitted.loaded.known_valid();
    let ran = follow_turns(alloc, fitted.loaded, &mut machine, steps, by, to)?;
    match ran.end {
        Ended::NoMemory => Err(NoMemory),
        end => Ok(ending_of(machine, ran.done, end)),
    }
}

// The same beside these workpieces, of which each may have its blocks in strips.
fn run_beside<P: Part, To, S: SeesSteps<To>>(
    alloc: Global,
    fitted: &Fitted<'_>,
    own: &P,
    parts: &[P],
    steps: u64,
    by: &S,
    to: &mut To,
) -> Result<Ending, NoMemory>
    requires tie { P.part own.now ≡ fitted.now.part }
    requires ties { map P.part parts.now ≡ map (λ p. tipped fitted.now.part p.tip) fitted.now.probes }
    ensures end { IfOk result (IsAtEnd fitted.now steps) }
    ensures seen { IfOk result (λ e. Chain (S.One by.now fitted.now.code.tables) fitted.now.part fitted.now.probes to.old to.new (steps_of fitted.now e.end.done)) }
{
    let Fitted {
        loaded,
        set,
        part,
        variable,
        ..
    } = *fitted;
    let each = fitted.each.as_slice();
    let machine = Turning::new(alloc, loaded, set, own, part, parts, each, variable)?;
    let beside = Beside {
        own,
        blocks: part,
        probes: set.probes(),
        parts,
        each,
    };
    run_machine(alloc, fitted, machine, steps, &Marking { beside, by }, to)
}

/// Runs for at most so many steps, and has each seen as it is taken. It answers the machine at the end.
///
/// Errors: want of memory, before the run or in it.
pub fn run_seen<To, S: SeesSteps<To>>(
    alloc: Global,
    fitted: &Fitted<'_>,
    steps: u64,
    by: &S,
    to: &mut To,
) -> Result<Ending, NoMemory>
    ensures end { IfOk result (IsAtEnd fitted.now steps) }
    ensures seen { IfOk result (λ e. Chain (S.One by.now fitted.now.code.tables) fitted.now.part fitted.now.probes to.old to.new (steps_of fitted.now e.end.done)) }
{
    let parts = in_strips(alloc, &fitted.each)?;
    let own = AnyPart::of(alloc, fitted.part)?;
    run_beside(alloc, fitted, &own, &parts, steps, by, to)
}
