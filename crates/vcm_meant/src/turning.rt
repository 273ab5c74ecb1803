//! Runs with several probes of which something is remarked.

ghost use Rattle.std.specs.Prelude.{◌≡◌, refl, IfOk, IfErr};
ghost use Rattle.vcm_code.specs.Valid.{IsValid};
ghost use Rattle.vcm_trace.specs.Framed.{frames_behind, framed};
ghost use Rattle.vcm_turning.specs.Machine.{turner};
ghost use Rattle.vcm_way.specs.Steps.{IsBefore};
ghost use Rattle.vcm_meant.specs.Noted.{noted_behind};
ghost use Rattle.vcm_meant.specs.Turned.{passages_in, IsMeantTurned};
ghost use Rattle.vcm_meant.specs.inner.Kept.{noted_of};

use crate::following::{Noting, Progress, opening};
use crate::measuring::aim_of;
use crate::noted::note;
use crate::ordering::remarks_of;
use crate::remark::Remark;
use std::alloc::Global;
use vcm_fields::BorrowedStatement;
use vcm_loader::Loaded;
use vcm_motion::Part;
use vcm_num::NoMemory;
use vcm_part::PartData;
use vcm_state::World;
use vcm_trace::keep_frame;
use vcm_turning::{Ended, FollowsTurns, Turn, Turning, follow_turns};
use vcm_way::{Before, look};

impl FollowsTurns<Progress> for Noting<'_> {
    type Before = Before;

    type Fault = NoMemory;

    ghost Fits = { λ s part ps c. (part ≡ s.blocks.now) × IsValid c };

    ghost Looked = { λ s b w on statement. IsBefore s.blocks.now.bounds.home w statement b };

    ghost Has = { λ s tables from to ss. (to.frames ≡ frames_behind from.frames (passages_in ss))
        × (noted_of to.noted ≡ noted_behind s.blocks.now.bounds.home (noted_of from.noted) (framed from.frames (passages_in ss))) };

    ghost Broke = { λ s tables from to ss p f. Unit {0} };

    ghost nothing = { λ s tables x. (refl, refl) };

    fn look(&self, world: &World, _on: Option<usize>, statement: &BorrowedStatement<'_>) -> Before {
        look(world, self.blocks.bounds().home, statement)
    }

    fn see(
        &self,
        before: Before,
        _count: u64,
        number: u32,
        _on: Option<usize>,
        statement: &BorrowedStatement<'_>,
        world: &World,
        next: u32,
        _turn: Turn,
        to: &mut Progress,
    ) -> Result<(), NoMemory> {
        let aim = aim_of(before.task, world.frame());
        note(
            &mut to.noted,
            &to.frames,
            statement,
            number,
            next,
            world,
            aim,
        )?;
        keep_frame(&mut to.frames, statement, world);
        Ok(())
    }
}

/// What is remarked of a run of a loaded code for at most so many steps, on a machine with several probes that stands at the start, beside a workpiece, whose blocks are given too.
///
/// Errors: want of memory, before the run or in it.
pub fn meant_turned<P: Part>(
    alloc: Global,
    loaded: &Loaded<'_>,
    machine: Turning<'_, P>,
    blocks: &PartData,
    steps: u64,
) -> Result<Vec<Remark>, NoMemory>
    requires start { machine ≡ turner machine.part machine.probes machine.variable loaded.now }
    requires part { machine.part ≡ blocks.now }
    ensures { IfOk result (λ rs. IsMeantTurned steps machine.entry.part machine.entry.probes machine.entry.variable loaded.now rs.items) }
{
    let mut machine = machine;
    loaded.known_valid();
    let mut progress = opening(alloc, machine.world())?;
    let noting = Noting { blocks };
    let ran = follow_turns(alloc, loaded, &mut machine, steps, &noting, &mut progress)?;
    match ran.end {
        Ended::NoMemory => Err(NoMemory),
        _ => remarks_of(alloc, &progress.noted, machine.world().stop()),
    }
}
