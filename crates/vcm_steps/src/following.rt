//! Runs that are followed step by step.

ghost use Rattle.std.specs.Prelude.{◌≡◌, ◌<◌, ◌+◌, ◌^◌, true, false, List, [], ◌∷◌, ◌++◌, None, IfOk, IfErr, OnOk};
ghost use Rattle.vcm_spec.specs.Workpiece.{Workpiece};
ghost use Rattle.vcm_code.specs.declared.code.Code.{Code};
ghost use Rattle.vcm_spec.specs.Setup.{Tables};
ghost use Rattle.vcm_spec.specs.World.{World as Shown};
ghost use Rattle.vcm_code.specs.Code.{CodeStatement};
ghost use Rattle.vcm_machine.specs.Running.{started, later, WantsMemory, HasRun};
ghost use Rattle.vcm_steps.specs.Passages.{Passage, passage, passages, IsNext, WasNext, IsBroken};
ghost use Rattle.vcm_steps.specs.inner.Stepping.{next_passage};

use std::alloc::Global;
use vcm_fields::BorrowedStatement;
use vcm_loader::Loaded;
use vcm_machine::{End, Machine, Ran};
use vcm_motion::Part;
use vcm_state::World;

/// What follows a run step by step, and puts what it makes of each step into a `To`.
pub trait Follows<To> {
    /// What it keeps of the state before a step until it is taken.
    type Before: Copy;

    /// Why it breaks off.
    type Fault;

    /// What it follows a run of this code beside this workpiece by.
    ghost Fits: { Self → Workpiece → Code → Type 0 };

    /// What it keeps of a state before a statement.
    ghost Looked: { Self → Self.Before → Shown → CodeStatement → Type 0 };

    /// From the first to the second it has put what it makes of these steps, by these tables.
    ghost Has: { Self → Tables → To → To → List Passage → Type 0 };

    /// It broke off in a step behind these.
    ghost Broke: { Self → Tables → To → To → List Passage → Passage → Self.Fault → Type 0 };

    /// What it keeps of the state before a statement.
    fn look(&self, world: &World, statement: &BorrowedStatement<'_>) -> Self::Before
        requires { IsNext (Fits self.now) world.now.tables world.now.state statement.now }
        ensures { Looked self.now result world.now.state statement.now };

    /// Puts what it makes of a step: with it so many were taken, the statement has this number, and the state and the number of the next
    /// statement are those behind it.
    fn see(
        &self,
        before: Self::Before,
        count: u64,
        number: u32,
        statement: &BorrowedStatement<'_>,
        world: &World,
        next: u32,
        to: &mut To,
    ) -> Result<(), Self::Fault>
        requires { WasNext (Fits self.now) (λ w. Looked self.now before w statement.now) statement.now world.now.state }
        ensures ok { OnOk result ((w : Shown) (from : To) (ps : List Passage)
            → Looked self.now before w statement.now → Has self.now world.now.tables from to.old ps
            → Has self.now world.now.tables from to.new (ps ++ passage count number statement.now w world.now.state next ∷ [])) }
        ensures err { IfErr result (λ f. (w : Shown) (from : To) (ps : List Passage)
            → Looked self.now before w statement.now → Has self.now world.now.tables from to.old ps
            → Broke self.now world.now.tables from to.new ps (passage count number statement.now w world.now.state next) f) };

    /// Of no step it makes nothing.
    ghost nothing: { (s : Self) (tables : Tables) (x : To) → Has s tables x x [] };
}

// One step of a machine that has not stopped, behind so many others, and what is made of it: whether it was done.
fn step_on<P: Part, T, F: Follows<T>>(
    alloc: Global,
    loaded: &Loaded<'_>,
    machine: &mut Machine<'_, P>,
    done: u64,
    by: &F,
    to: &mut T,
) -> Result<bool, F::Fault>
    requires code { machine.old.code ≡ loaded.now }
    requires fits { F.Fits by.now machine.old.part machine.old.code }
    requires running { machine.old.state.world.stop ≡ None }
    requires few { done + 1 < 2 ^ 64 }
    ensures done { IfOk result (λ b. b ≡ true → (machine.new ≡ later 1 machine.old) × ((from : T) (ps : List Passage)
        → F.Has by.now loaded.now.tables from to.old ps → F.Has by.now loaded.now.tables from to.new (ps ++ next_passage done machine.old))) }
    ensures refused { IfOk result (λ b. b ≡ false → (machine.new ≡ machine.old) × (to.new ≡ to.old) × WantsMemory machine.old) }
    ensures err { IfErr result (λ f. (p : Passage) × (p.count ≡ done + 1) × (next_passage done machine.old ≡ p ∷ []) × ((from : T) (ps : List Passage)
        → F.Has by.now loaded.now.tables from to.old ps → F.Broke by.now loaded.now.tables from to.new ps p f)) }
{
    let number = machine.next();
    let statement = loaded.statement(number as usize);
    let before = by.look(machine.world(), &statement);
    match machine.step(alloc) {
        Ok(()) => {
            let next = machine.next();
            match by.see(
                before,
                done + 1,
                number,
                &statement,
                machine.world(),
                next,
                to,
            ) {
                Ok(()) => Ok(true),
                Err(fault) => Err(fault),
            }
        }
        Err(_) => Ok(false),
    }
}

/// Takes at most so many steps of a machine that stands at the start of a loaded code, and hands each to a follower as it is taken. It answers how many
/// were done, and how the run ended.
///
/// Errors: the follower's, in a step that was done.
pub fn follow_run<P: Part, T, F: Follows<T>>(
    alloc: Global,
    loaded: &Loaded<'_>,
    machine: &mut Machine<'_, P>,
    steps: u64,
    by: &F,
    to: &mut T,
) -> Result<Ran, F::Fault>
    requires start { machine.old ≡ started machine.old.part loaded.now }
    requires fits { F.Fits by.now machine.old.part loaded.now }
    ensures run { IfOk result (λ ran. HasRun steps machine.old machine.new ran) }
    ensures has { IfOk result (λ ran. F.Has by.now loaded.now.tables to.old to.new (passages machine.old.part loaded.now ran.done)) }
    ensures err { IfErr result (λ f. IsBroken steps machine.old.part loaded.now (λ ps p. F.Broke by.now loaded.now.tables to.old to.new ps p f)) }
{
    let mut done = 0;
    while done < steps {
        match machine.world().stop() {
            Some(_) => {
                let end = End::Stopped;
                return Ok(Ran { done, end });
            }
            None => match step_on(alloc, loaded, machine, done, by, to) {
                Ok(true) => done += 1,
                Ok(false) => {
                    let end = End::NoMemory;
                    return Ok(Ran { done, end });
                }
                Err(fault) => return Err(fault),
            },
        }
    }
    match machine.world().stop() {
        Some(_) => {
            let end = End::Stopped;
            Ok(Ran { done, end })
        }
        None => {
            let end = End::Count;
            Ok(Ran { done, end })
        }
    }
}
