//! Runs of which something is remarked.

ghost use Rattle.std.specs.Prelude.{◌≡◌, refl, IfOk, IfErr};
ghost use Rattle.vcm_code.specs.Valid.{IsValid};
ghost use Rattle.vcm_steps.specs.Passages.{passages};
ghost use Rattle.vcm_trace.specs.Framed.{no_frames, frames_behind, framed};
ghost use Rattle.vcm_way.specs.Steps.{IsBefore};
ghost use Rattle.vcm_meant.specs.Meant.{meant};
ghost use Rattle.vcm_meant.specs.Noted.{nothing_noted, noted_behind};
ghost use Rattle.vcm_meant.specs.inner.Kept.{noted_of};

use crate::measuring::aim_of;
use crate::noted::{Noted, note, nothing_noted};
use crate::ordering::remarks_of;
use crate::remark::Remark;
use std::alloc::Global;
use vcm_fields::BorrowedStatement;
use vcm_loader::Loaded;
use vcm_machine::{End, Machine};
use vcm_motion::Part;
use vcm_num::NoMemory;
use vcm_part::PartData;
use vcm_state::World;
use vcm_steps::{Follows, follow_run};
use vcm_trace::{Frames, keep_frame, no_frames};
use vcm_way::{Before, look};

// What is known so far, and the frames in which features were declared.
#[derive(Drop)]
pub(crate) struct Progress {
    pub(crate) noted: Noted,
    pub(crate) frames: Frames,
}

// Notes what is to be remarked beside a workpiece.
#[derive(Clone, Copy)]
pub(crate) struct Noting<'a> {
    pub(crate) blocks: &'a PartData,
}

impl Follows<Progress> for Noting<'_> {
    type Before = Before;

    type Fault = NoMemory;

    ghost Fits = { λ s part c. (part ≡ s.blocks.now) × IsValid c };

    ghost Looked = { λ s b w statement. IsBefore s.blocks.now.bounds.home w statement b };

    ghost Has = { λ s tables from to ps. (to.frames ≡ frames_behind from.frames ps)
        × (noted_of to.noted ≡ noted_behind s.blocks.now.bounds.home (noted_of from.noted) (framed from.frames ps)) };

    ghost Broke = { λ s tables from to ps p f. Unit {0} };

    ghost nothing = { λ s tables x. (refl, refl) };

    fn look(&self, world: &World, statement: &BorrowedStatement<'_>) -> Before {
        look(world, self.blocks.bounds().home, statement)
    }

    fn see(
        &self,
        before: Before,
        _count: u64,
        number: u32,
        statement: &BorrowedStatement<'_>,
        world: &World,
        next: u32,
        to: &mut Progress,
    ) -> Result<(), NoMemory> {
        let aim = aim_of(before.task, world.frame());
        note(
            &mut to.noted,
            &to.frames,
            statement,
            number,
            next,
            world,
            aim,
        )?;
        keep_frame(&mut to.frames, statement, world);
        Ok(())
    }
}

/// What is known before the first step from this state.
pub(crate) fn opening(alloc: Global, world: &World) -> Result<Progress, NoMemory>
    ensures noted { IfOk result (λ p. noted_of p.noted ≡ nothing_noted world.now.tables) }
    ensures frames { IfOk result (λ p. p.frames ≡ no_frames world.now.tables) }
{
    let count = world.tables().features().len();
    let noted = nothing_noted(alloc, count)?;
    let frames = no_frames(alloc, count)?;
    Ok(Progress { noted, frames })
}

/// What is remarked of a run of a loaded code for at most so many steps beside a workpiece, whose blocks are given too.
///
/// Errors: want of memory, before the run or in it.
pub fn meant<P: Part>(
    alloc: Global,
    loaded: &Loaded<'_>,
    part: &P,
    blocks: &PartData,
    steps: u64,
) -> Result<Vec<Remark>, NoMemory>
    requires { P.part part.now ≡ blocks.now }
    ensures { IfOk result (λ rs. rs.items ≡ meant (P.part part.now) loaded.now steps) }
{
    loaded.known_valid();
    let mut machine = Machine::new(alloc, loaded, part)?;
    let mut progress = opening(alloc, machine.world())?;
    let noting = Noting { blocks };
    let ran = follow_run(alloc, loaded, &mut machine, steps, &noting, &mut progress)?;
    match ran.end {
        End::NoMemory => Err(NoMemory),
        End::Count => remarks_of(alloc, &progress.noted, machine.world().stop()),
        End::Stopped => remarks_of(alloc, &progress.noted, machine.world().stop()),
    }
}
