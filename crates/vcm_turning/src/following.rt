//! Runs that turn the head, followed step by step.

ghost use Rattle.std.specs.Prelude.{◌≡◌, ◌<◌, ◌+◌, ◌^◌, ℕ, List, [], ◌∷◌, ◌++◌, Option, None, IfSome, IfOk, IfErr, OnOk};
ghost use Rattle.vcm_spec.specs.Setup.{Tables};
ghost use Rattle.vcm_spec.specs.Workpiece.{Workpiece};
ghost use Rattle.vcm_spec.specs.World.{World as Shown};
ghost use Rattle.vcm_code.specs.Code.{CodeStatement};
ghost use Rattle.vcm_code.specs.declared.code.Code.{Code};
ghost use Rattle.vcm_probe_set.specs.Probes.{Probe};
ghost use Rattle.vcm_turning.specs.Machine.{turner, HasRunTurned};
ghost use Rattle.vcm_turning.specs.Following.{IsNextTurned, WasNextTurned, IsBrokenOff, told_step};
ghost use Rattle.vcm_turning.specs.Steps.{TurnedStep, turned_steps};
ghost use Rattle.vcm_turning.specs.inner.Standing.{IsLater, EndsHere, next_step};

use crate::ended::{Ended, Ran};
use crate::turn::Turn;
use crate::turning::Turning;
use std::alloc::Global;
use vcm_fields::BorrowedStatement;
use vcm_loader::Loaded;
use vcm_motion::Part;
use vcm_state::World;

/// What follows such a run step by step, and puts what it makes of each step into a `To`.
pub trait FollowsTurns<To> {
    /// What it keeps of the state before a step until it is taken.
    type Before: Copy;

    /// Why it breaks off.
    type Fault;

    /// What it follows a run of this code with these probes beside this workpiece by.
    ghost Fits: { Self → Workpiece → List Probe → Code → Type 0 };

    /// What it keeps of a state before a statement, with the probe of this place on.
    ghost Looked: { Self → Self.Before → Shown → Option ℕ → CodeStatement → Type 0 };

    /// From the first to the second it has put what it makes of these steps, by these tables.
    ghost Has: { Self → Tables → To → To → List TurnedStep → Type 0 };

    /// It broke off in a step behind these.
    ghost Broke: { Self → Tables → To → To → List TurnedStep → TurnedStep → Self.Fault → Type 0 };

    /// What it keeps of the state before a statement, which is taken with the probe of this place on.
    fn look(
        &self,
        world: &World,
        on: Option<usize>,
        statement: &BorrowedStatement<'_>,
    ) -> Self::Before
        requires { IsNextTurned (Fits self.now) world.now.tables world.now.state on statement.now }
        ensures { Looked self.now result world.now.state on statement.now };

    /// Puts what it makes of a step that was taken with the probe of this place on: with it so many were taken, the statement has this number, the state and the
    /// number of the next statement are those behind it, and the probe was put on behind it that the turn tells.
    fn see(
        &self,
        before: Self::Before,
        count: u64,
        number: u32,
        on: Option<usize>,
        statement: &BorrowedStatement<'_>,
        world: &World,
        next: u32,
        turn: Turn,
        to: &mut To,
    ) -> Result<(), Self::Fault>
        requires { WasNextTurned (Fits self.now) (λ w. Looked self.now before w on statement.now) on statement.now turn world.now.state }
        ensures ok { OnOk result ((w : Shown) (from : To) (ss : List TurnedStep)
            → Looked self.now before w on statement.now → Has self.now world.now.tables from to.old ss
            → Has self.now world.now.tables from to.new (ss ++ told_step count number statement.now w world.now.state next on turn ∷ [])) }
        ensures err { IfErr result (λ f. (w : Shown) (from : To) (ss : List TurnedStep)
            → Looked self.now before w on statement.now → Has self.now world.now.tables from to.old ss
            → Broke self.now world.now.tables from to.new ss (told_step count number statement.now w world.now.state next on turn) f) };

    /// Of no step it makes nothing.
    ghost nothing: { (s : Self) (tables : Tables) (x : To) → Has s tables x x [] };
}

// One step of a machine that has not stopped, behind so many others, and what is made of it: how the run ends there, if it does.
fn step_on<P: Part, T, F: FollowsTurns<T>>(
    alloc: Global,
    loaded: &Loaded<'_>,
    machine: &mut Turning<'_, P>,
    done: u64,
    by: &F,
    to: &mut T,
) -> Result<Option<Ended>, F::Fault>
    requires code { machine.old.code ≡ loaded.now }
    requires fits { F.Fits by.now machine.old.part machine.old.probes machine.old.code }
    requires running { machine.old.state.world.stop ≡ None }
    requires few { done + 1 < 2 ^ 64 }
    ensures done { IfOk result (λ o. o ≡ None → IsLater machine.old machine.new × ((from : T) (ss : List TurnedStep)
        → F.Has by.now loaded.now.tables from to.old ss → F.Has by.now loaded.now.tables from to.new (ss ++ next_step done machine.old))) }
    ensures ended { IfOk result (λ o. IfSome o (λ end. (machine.new ≡ machine.old) × (to.new ≡ to.old) × EndsHere machine.old end)) }
    ensures err { IfErr result (λ f. (s : TurnedStep) × (s.passage.count ≡ done + 1) × (next_step done machine.old ≡ s ∷ [])
        × ((from : T) (ss : List TurnedStep) → F.Has by.now loaded.now.tables from to.old ss → F.Broke by.now loaded.now.tables from to.new ss s f)) }
{
    let number = machine.next();
    let on = machine.on();
    let statement = loaded.statement(number as usize);
    if let Some(lost) = machine.lost(&statement) {
        return Ok(Some(Ended::Lost(lost)));
    }
    // It is called for what it tells of the place: that it is near.
    let _at = machine.world().near_position();
    let before = by.look(machine.world(), on, &statement);
    match machine.step(alloc) {
        Ok(turn) => {
            let next = machine.next();
            match by.see(
                before,
                done + 1,
                number,
                on,
                &statement,
                machine.world(),
                next,
                turn,
                to,
            ) {
                Ok(()) => Ok(None),
                Err(fault) => Err(fault),
            }
        }
        Err(_) => Ok(Some(Ended::NoMemory)),
    }
}

/// Takes at most so many steps of a machine that stands at the start of a loaded code, and hands each to a follower as it is taken. It answers how many were done,
/// and how the run ended.
///
/// Errors: the follower's, in a step that was done.
pub fn follow_turns<P: Part, T, F: FollowsTurns<T>>(
    alloc: Global,
    loaded: &Loaded<'_>,
    machine: &mut Turning<'_, P>,
    steps: u64,
    by: &F,
    to: &mut T,
) -> Result<Ran, F::Fault>
    requires start { machine.old ≡ turner machine.old.part machine.old.probes machine.old.variable loaded.now }
    requires fits { F.Fits by.now machine.old.part machine.old.probes loaded.now }
    ensures run { IfOk result (λ ran. HasRunTurned steps machine.old.part machine.old.probes machine.old.variable loaded.now machine.new ran) }
    ensures has { IfOk result (λ ran. F.Has by.now loaded.now.tables to.old to.new
        (turned_steps machine.old.part machine.old.probes machine.old.variable loaded.now ran.done)) }
    ensures err { IfErr result (λ f. IsBrokenOff steps machine.old.part machine.old.probes machine.old.variable loaded.now
        (λ ss s. F.Broke by.now loaded.now.tables to.old to.new ss s f)) }
{
    let mut done = 0;
    while done < steps {
        match machine.world().stop() {
            Some(_) => {
                let end = Ended::Stopped;
                return Ok(Ran { done, end });
            }
            None => match step_on(alloc, loaded, machine, done, by, to) {
                Ok(None) => done += 1,
                Ok(Some(end)) => return Ok(Ran { done, end }),
                Err(fault) => return Err(fault),
            },
        }
    }
    match machine.world().stop() {
        Some(_) => {
            let end = Ended::Stopped;
            Ok(Ran { done, end })
        }
        None => {
            let end = Ended::Count;
            Ok(Ran { done, end })
        }
    }
}
