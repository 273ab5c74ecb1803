//! Runs that are watched up to their last step.

ghost use Rattle.std.specs.Prelude.{◌≡◌, ◌<◌, refl, length, IfOk};
ghost use Rattle.vcm_code.specs.Valid.{IsValid};
ghost use Rattle.vcm_way.specs.Steps.{IsBefore};
ghost use Rattle.vcm_cause.specs.Behind.{behind, before_steps};
ghost use Rattle.vcm_cause.specs.Watched.{seen, HasWatched};

use crate::framed::framed_behind;
use crate::rounds::{MOST_LOOPS, Rounds, count_round};
use std::alloc::Global;
use vcm_fields::BorrowedStatement;
use vcm_loader::Loaded;
use vcm_machine::{Machine, Ran};
use vcm_motion::Part;
use vcm_num::NoMemory;
use vcm_part::PartData;
use vcm_state::World;
use vcm_steps::{Follows, follow_run};
use vcm_way::{Before, StepMarks, look, marks_of_step, reason};

/// What is known behind the steps of a run: the marks that the last one adds to the way, the rounds of the loops, and the line of the statement that made
/// the current frame, 0 before there is one.
#[derive(Clone, Copy)]
pub struct Progress {
    pub marks: StepMarks,
    pub rounds: Rounds,
    pub framed: u32,
}

/// What a run came to.
#[derive(Drop)]
pub struct Watched {
    /// The state of the machine, with the tables of its names.
    pub world: World,
    /// The number of the next statement: at a stop that of the statement which stopped.
    pub next: u32,
    /// How many steps were done, and how the run ended.
    pub ran: Ran,
    /// What is known behind its last step.
    pub progress: Progress,
}

// What watches a run beside a workpiece, whose blocks are given too.
#[derive(Clone, Copy)]
struct Watcher<'a, P: Part> {
    part: &'a P,
    blocks: &'a PartData,
}

impl<P: Part> Follows<Progress> for Watcher<'_, P> {
    type Before = Before;

    type Fault = NoMemory;

    ghost Fits = { λ s part c. (P.part s.part.now ≡ s.blocks.now) × (part ≡ s.blocks.now) × IsValid c };

    ghost Looked = { λ s b w statement. IsBefore s.blocks.now.bounds.home w statement b };

    ghost Has = { λ s tables from to ps. seen to ≡ behind s.blocks.now (seen from) ps };

    ghost Broke = { λ s tables from to ps p f. Unit {0} };

    ghost nothing = { λ s tables x. refl };

    fn look(&self, world: &World, statement: &BorrowedStatement<'_>) -> Before {
        look(world, self.blocks.bounds().home, statement)
    }

    fn see(
        &self,
        before: Before,
        _count: u64,
        number: u32,
        statement: &BorrowedStatement<'_>,
        world: &World,
        next: u32,
        to: &mut Progress,
    ) -> Result<(), NoMemory> {
        let stop = world.stop();
        to.marks = marks_of_step(self.part, self.blocks, &before, reason(stop));
        count_round(&mut to.rounds, &statement.op, number, next, stop);
        to.framed = framed_behind(to.framed, &statement.op, statement.line, stop);
        Ok(())
    }
}

/// What is known before the first step.
pub fn before_steps() -> Progress
    ensures { seen result ≡ before_steps }
{
    let marks = StepMarks::Zero;
    let rounds = [0; MOST_LOOPS];
    Progress {
        marks,
        rounds,
        framed: 0,
    }
}

/// Runs a loaded code for at most so many steps beside a workpiece, whose blocks are given too, and tells what is known behind its last step. Want of
/// memory at an output line ends the run, and `ran` tells it.
///
/// Errors: want of memory before the run.
pub fn watch<P: Part>(
    alloc: Global,
    loaded: &Loaded<'_>,
    part: &P,
    blocks: &PartData,
    steps: u64,
) -> Result<Watched, NoMemory>
    requires { P.part part.now ≡ blocks.now }
    ensures watched { IfOk result (λ w. HasWatched blocks.now loaded.now steps w.world w.next w.ran w.progress) }
    ensures within { IfOk result (λ w. w.next < length loaded.now.statements) }
{
    loaded.known_valid();
    let watcher = Watcher { part, blocks };
    let mut progress = before_steps();
    let mut machine = Machine::new(alloc, loaded, part)?;
    match follow_run(alloc, loaded, &mut machine, steps, &watcher, &mut progress) {
        Ok(ran) => {
            let next = machine.next();
            let world = machine.into_world();
            Ok(Watched {
                world,
                next,
                ran,
                progress,
            })
        }
        Err(refused) => {
            drop(machine);
            Err(refused)
        }
    }
}
