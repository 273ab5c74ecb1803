//! What tries boxes on the ways of a run.

ghost use Rattle.std.specs.Prelude.{◌≡◌, refl, [], ◌∷◌, ◌++◌};
ghost use Rattle.vcm_naming.specs.Pages.{page, Adds, AddsFront};
ghost use Rattle.vcm_naming.proofs.Pages.{adds_nothing};
ghost use Rattle.vcm_code.specs.Valid.{IsValid};
ghost use Rattle.vcm_way.specs.Steps.{IsBefore};
ghost use Rattle.vcm_clearance.specs.inner.Following.{HasTried, HasBroken};

use crate::here::Here;
use crate::room::Room;
use crate::trying::try_ways;
use std::io::Write;
use vcm_backtrace::{Kept, Source, Standing};
use vcm_boxes::Boxes;
use vcm_cause::{Rounds, count_round};
use vcm_fields::BorrowedStatement;
use vcm_loader::Loaded;
use vcm_marks::Moment;
use vcm_motion::Part;
use vcm_naming::BlockNames;
use vcm_part::PartData;
use vcm_state::World;
use vcm_steps::{Follows, Unfinished};
use vcm_way::{Before, look, marks_of_step, reason};

/// What is known so far: the rooms of the boxes with what is kept of the narrowest places, how many rounds each loop has begun, and how many ways there were; and where contacts
/// are written, with the names of blocks that are left.
#[derive(Drop)]
pub(crate) struct Progress<'a, W: Write> {
    pub(crate) writer: &'a mut W,
    pub(crate) rooms: &'a mut Vec<Room>,
    pub(crate) names: &'a mut BlockNames,
    pub(crate) kept: &'a mut Vec<Kept>,
    pub(crate) rounds: Rounds,
    pub(crate) count: u64,
}

/// Tries boxes beside a workpiece, whose blocks are given too, in runs of a code with this source, if it has one.
#[derive(Clone, Copy)]
pub(crate) struct Trier<'a, P: Part> {
    pub(crate) part: &'a P,
    pub(crate) blocks: &'a PartData,
    pub(crate) boxes: &'a Boxes,
    pub(crate) source: &'a Option<Source<'a>>,
    pub(crate) loaded: &'a Loaded<'a>,
}

impl<'a, P: Part, W: Write> Follows<Progress<'a, W>> for Trier<'_, P> {
    type Before = Before;

    type Fault = Unfinished;

    ghost Fits = { λ s part c. (P.part s.part.now ≡ s.blocks.now) × (part ≡ s.blocks.now) × IsValid c };

    ghost Looked = { λ s b w statement. IsBefore s.blocks.now.bounds.home w statement b };

    ghost Has = { λ s tables from to ps. (to.writer.ghost_name ≡ from.writer.ghost_name) × (to.rooms.ghost_name ≡ from.rooms.ghost_name) × (to.names.ghost_name ≡ from.names.ghost_name)
        × (to.kept.ghost_name ≡ from.kept.ghost_name)
        × HasTried s.source.now s.loaded.now.statements tables s.blocks.now s.boxes.now from.rounds from.rooms.now.items from.kept.now.items from.count
        (page (W.contents from.writer.now) from.names.now) to.rounds to.rooms.now.items to.kept.now.items to.count (page (W.contents to.writer.now) to.names.now) ps };

    ghost Broke = { λ s tables from to ps p f. (to.writer.ghost_name ≡ from.writer.ghost_name) × (to.rooms.ghost_name ≡ from.rooms.ghost_name) × (to.names.ghost_name ≡ from.names.ghost_name)
        × (to.kept.ghost_name ≡ from.kept.ghost_name)
        × HasBroken s.source.now s.loaded.now.statements tables s.blocks.now s.boxes.now from.rounds from.rooms.now.items from.kept.now.items from.count (page (W.contents from.writer.now) from.names.now)
        (page (W.contents to.writer.now) to.names.now) ps p f };

    ghost nothing = { λ s tables x. (refl, refl, refl, refl, (refl, λ below n told h k. (h, adds_nothing (page (W.contents x.writer.now) x.names.now), k))) };

    fn look(&self, world: &World, statement: &BorrowedStatement<'_>) -> Before {
        look(world, self.blocks.bounds().home, statement)
    }

    fn see(
        &self,
        before: Before,
        count: u64,
        number: u32,
        statement: &BorrowedStatement<'_>,
        world: &World,
        next: u32,
        to: &mut Progress<'a, W>,
    ) -> Result<(), Unfinished> {
        // It is called for what it tells of the limits: that they are valid.
        let _bounds = self.blocks.bounds();
        let stop = world.stop();
        let marks = marks_of_step(self.part, self.blocks, &before, reason(stop));
        count_round(&mut to.rounds, &statement.op, number, next, stop);
        let rounds = to.rounds;
        let here = Here {
            place: Moment {
                step: count,
                number,
                line: statement.line,
            },
            source: self.source,
            loaded: self.loaded,
            standing: Standing {
                tables: world.tables(),
                variables: world.variables(),
                rounds: &rounds,
            },
        };
        match try_ways(
            self.blocks,
            self.boxes.as_slice(),
            &here,
            marks.as_slice(),
            to.count,
            to.rooms,
            to.kept,
            to.names,
            to.writer,
        ) {
            Ok(sum) => {
                to.count = sum;
                Ok(())
            }
            Err(_) => Err(Unfinished::Write { done: count }),
        }
    }
}
