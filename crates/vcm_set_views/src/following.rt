//! What sees the steps of a run with several probes, each with the marks that it adds to the way.

ghost use Rattle.std.specs.Prelude.{◌≡◌, refl, map, List, IfOk, OnOk};
ghost use Rattle.vcm_spec.specs.Setup.{Tables};
ghost use Rattle.vcm_spec.specs.World.{World as Shown};
ghost use Rattle.vcm_code.specs.Valid.{IsValid};
ghost use Rattle.vcm_marks.specs.declared.mark.Mark.{Mark as Marked};
ghost use Rattle.vcm_way.specs.Steps.{IsBefore, listed};
ghost use Rattle.vcm_turning.specs.Choosing.{tipped};
ghost use Rattle.vcm_turning.specs.Following.{told_step};
ghost use Rattle.vcm_turning.specs.Steps.{TurnedStep};
ghost use Rattle.vcm_set_views.specs.Chains.{Chain};

use crate::beside::Beside;
use vcm_fields::BorrowedStatement;
use vcm_motion::Part;
use vcm_num::NoMemory;
use vcm_state::World;
use vcm_turning::{FollowsTurns, Turn};
use vcm_way::{Before, StepMarks, look, reason};

/// What sees the steps of a run one by one, and puts what it makes of each into a `To`.
pub trait SeesSteps<To> {
    /// From the first to the second it has put what it makes of a step that adds these marks to the way, by these tables.
    ghost One: { Self → Tables → To → To → TurnedStep → List Marked → Type 0 };

    /// Sees a step that was taken with the probe of this place on: with it so many were taken, the statement has this number, the state and the number of the next
    /// statement are those behind it, the probe was put on behind it that the turn tells, and these are the marks that it adds to the way.
    ///
    /// Errors: want of memory.
    fn see(
        &self,
        count: u64,
        number: u32,
        on: Option<usize>,
        statement: &BorrowedStatement<'_>,
        world: &World,
        next: u32,
        turn: Turn,
        marks: &StepMarks,
        to: &mut To,
    ) -> Result<(), NoMemory>
        ensures { OnOk result ((w : Shown)
            → One self.now world.now.tables to.old to.new (told_step count number statement.now w world.now.state next on turn) (listed marks.now)) };
}

/// Finds the marks of each step, and hands it on with them.
#[derive(Drop)]
pub(crate) struct Marking<'a, P: Part, S> {
    pub(crate) beside: Beside<'a, P>,
    pub(crate) by: &'a S,
}

impl<'a, P: Part, To, S: SeesSteps<To>> FollowsTurns<To> for Marking<'a, P, S> {
    type Before = Before;

    type Fault = NoMemory;

    ghost Fits = { λ s part ps c. (P.part s.beside.own.now ≡ s.beside.blocks.now) × (s.beside.each.now ≡ map (λ p. tipped s.beside.blocks.now p.tip) s.beside.probes.now)
        × (map P.part s.beside.parts.now ≡ s.beside.each.now) × (part ≡ s.beside.blocks.now) × (ps ≡ s.beside.probes.now) × IsValid c };

    ghost Looked = { λ s b w on statement. IsBefore s.beside.blocks.now.bounds.home w statement b };

    ghost Has = { λ s tables from to ss. Chain (S.One s.by.now tables) s.beside.blocks.now s.beside.probes.now from to ss };

    ghost Broke = { λ s tables from to ss p f. Unit {0} };

    ghost nothing = { λ s tables x. refl };

    fn look(&self, world: &World, _on: Option<usize>, statement: &BorrowedStatement<'_>) -> Before {
        look(world, self.beside.blocks.bounds().home, statement)
    }

    fn see(
        &self,
        before: Before,
        count: u64,
        number: u32,
        on: Option<usize>,
        statement: &BorrowedStatement<'_>,
        world: &World,
        next: u32,
        turn: Turn,
        to: &mut To,
    ) -> Result<(), NoMemory> {
        let marks = self.beside.marks(&before, on, reason(world.stop()));
        self.by.see(count, number, on, statement, world, next, turn, &marks, to)
    }
}
