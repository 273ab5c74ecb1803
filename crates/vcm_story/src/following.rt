//! What writes the rows of each step of a run.

ghost use Rattle.std.specs.Prelude.{◌≡◌, ◌==◌, nat_lt};
ghost use Rattle.vcm_num.specs.Written.{Wrote};
ghost use Rattle.vcm_num.proofs.KnownWrites.{appends_nothing};
ghost use Rattle.vcm_spec.specs.World.{World as State};
ghost use Rattle.vcm_steps.specs.Passages.{passage};
ghost use Rattle.vcm_story.specs.Steps.{step_rows};
ghost use Rattle.vcm_way.specs.Steps.{IsBefore};
ghost use Rattle.vcm_code.specs.Valid.{IsValid};
ghost use Rattle.vcm_story.specs.Stories.{rows_from, passage_rows};
ghost use Rattle.vcm_story.specs.inner.Going.{HasRows, HasBegun};

use crate::state_rows::write_state;
use crate::step_rows::write_step_rows;
use crate::story::StoryFault;
use std::io::Write;
use vcm_fields::BorrowedStatement;
use vcm_marks::Mark;
use vcm_motion::Part;
use vcm_num::WriteFault;
use vcm_part::PartData;
use vcm_state::World;
use vcm_steps::Follows;
use vcm_way::{Before, look, marks_of_step, reason};

/// Writes the rows of each step beside a workpiece, whose blocks are given too, behind the first ones that are not shown.
#[derive(Drop)]
pub(crate) struct StoryWriter<'a, P: Part> {
    pub(crate) part: &'a P,
    pub(crate) blocks: &'a PartData,
    pub(crate) from: u64,
}

// Whether a step stands before the last one that is not shown.
fn is_before(count: u64, from: u64) -> bool
    ensures { result ≡ nat_lt count from }
{
    count < from
}

// Whether a step is the last one that is not shown.
fn is_last(count: u64, from: u64) -> bool
    ensures { result ≡ (count == from) }
{
    count == from
}

/// Writes what a step adds that added these marks to the way: nothing before the last step that is not shown, with that one the state behind it.
///
/// Errors: the writer failed, or took no byte; then it has taken a front of the rows, and not all of them.
pub fn write_passage<W: Write>(
    from: u64,
    count: u64,
    number: u32,
    statement: &BorrowedStatement<'_>,
    world: &World,
    next: u32,
    marks: &[Mark],
    writer: &mut W,
) -> Result<(), WriteFault>
    ensures { (before : State) → Wrote (W.contents writer.old) (W.contents writer.new)
        (rows_from from world.now.tables (passage count number statement.now before world.now.state next)
        (step_rows world.now.tables marks.now (passage count number statement.now before world.now.state next))) result }
{
    if is_before(count, from) {
        Ok(())
    } else if is_last(count, from) {
        write_state(from, world, writer)
    } else {
        write_step_rows(count, number, statement, world, next, marks, writer)
    }
}

impl<P: Part, W: Write> Follows<W> for StoryWriter<'_, P> {
    type Before = Before;

    type Fault = StoryFault;

    ghost Fits = { λ s part c. (P.part s.part.now ≡ s.blocks.now) × (part ≡ s.blocks.now) × IsValid c };

    ghost Looked = { λ s b w statement. IsBefore s.blocks.now.bounds.home w statement b };

    ghost Has = { λ s tables from to ps. HasRows (passage_rows s.blocks.now tables s.from) (W.contents from) (W.contents to) ps };

    ghost Broke = { λ s tables from to ps p f. HasBegun (passage_rows s.blocks.now tables s.from) (W.contents from) (W.contents to) ps p };

    ghost nothing = { λ s tables x. appends_nothing (W.contents x) };

    fn look(&self, world: &World, statement: &BorrowedStatement<'_>) -> Before {
        look(world, self.blocks.bounds().home, statement)
    }

    fn see(
        &self,
        before: Before,
        count: u64,
        number: u32,
        statement: &BorrowedStatement<'_>,
        world: &World,
        next: u32,
        to: &mut W,
    ) -> Result<(), StoryFault> {
        let marks = marks_of_step(self.part, self.blocks, &before, reason(world.stop()));
        match write_passage(
            self.from,
            count,
            number,
            statement,
            world,
            next,
            marks.as_slice(),
            to,
        ) {
            Ok(()) => Ok(()),
            Err(_) => Err(StoryFault),
        }
    }
}
