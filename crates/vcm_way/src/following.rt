//! A run, with the way of the probe.

ghost use Rattle.std.specs.Prelude.{◌≡◌, [], IfOk, flat_map};
ghost use Rattle.vcm_code.specs.Valid.{IsValid};
ghost use Rattle.vcm_marks.specs.declared.mark.PlacedMark.{PlacedMark as Stands};
ghost use Rattle.vcm_way.specs.Following.{HasFollowed};
ghost use Rattle.vcm_way.specs.Steps.{IsBefore};
ghost use Rattle.vcm_way.specs.Ways.{placed_marks, most_pieces, whole_way};
ghost use Rattle.vcm_way.specs.Keeping.{kept};
ghost use Rattle.vcm_way.specs.inner.Added.{Keeps, HasKept};

use crate::step::{Before, look, marks_of_step, reason};
use crate::way::Way;
use std::alloc::Global;
use vcm_fields::BorrowedStatement;
use vcm_loader::Loaded;
use vcm_machine::{Machine, Ran};
use vcm_marks::Moment;
use vcm_motion::Part;
use vcm_num::NoMemory;
use vcm_part::PartData;
use vcm_state::World;
use vcm_steps::{Follows, follow_run};

/// The most pieces that a way keeps.
pub const MOST_PIECES: usize = 20_000;

/// What a run came to, and its way.
#[derive(Drop)]
pub struct Followed {
    /// The state of the machine, with the tables of its names.
    pub world: World,
    /// How many steps were done, and how the run ended.
    pub ran: Ran,
    /// The way of the steps that were done.
    pub way: Way,
}

// What keeps the way of a run beside a workpiece, whose blocks are given too.
#[derive(Drop)]
struct Keeper<'a, P: Part> {
    alloc: Global,
    part: &'a P,
    blocks: &'a PartData,
    most: usize,
}

impl<P: Part> Follows<Way> for Keeper<'_, P> {
    type Before = Before;

    type Fault = NoMemory;

    ghost Fits = { λ s part c. (P.part s.part.now ≡ s.blocks.now) × (part ≡ s.blocks.now) × (s.most ≡ most_pieces) × IsValid c };

    ghost Looked = { λ s b w statement. IsBefore s.blocks.now.bounds.home w statement b };

    ghost Has = { λ s tables from to ps. Keeps from to (flat_map (placed_marks s.blocks.now) ps) };

    ghost Broke = { λ s tables from to ps p f. Unit {0} };

    ghost nothing = { λ s tables x h. h };

    fn look(&self, world: &World, statement: &BorrowedStatement<'_>) -> Before {
        look(world, self.blocks.bounds().home, statement)
    }

    fn see(
        &self,
        before: Before,
        count: u64,
        number: u32,
        statement: &BorrowedStatement<'_>,
        world: &World,
        _next: u32,
        to: &mut Way,
    ) -> Result<(), NoMemory> {
        let stop = reason(world.stop());
        let marks = marks_of_step(self.part, self.blocks, &before, stop);
        let place = Moment {
            step: count,
            number,
            line: statement.line,
        };
        to.add_step(self.alloc, self.most, place, marks.as_slice())
    }
}

// A run of at most so many steps: its state, and what it came to. To the way it adds that of the run.
//
// Errors: want of memory before the run, or for the way.
fn run_kept<P: Part>(
    alloc: Global,
    loaded: &Loaded<'_>,
    keeper: &Keeper<'_, P>,
    steps: u64,
    way: &mut Way,
) -> Result<(World, Ran), NoMemory>
    requires tie { P.part keeper.now.part.now ≡ keeper.now.blocks.now }
    requires most { keeper.now.most ≡ most_pieces }
    ensures { IfOk result (λ r. HasKept (P.part keeper.now.part.now) loaded.now steps r.0 r.1 way.old way.new) }
{
    // It is called for what it tells of the code: that it is valid.
    let _count = loaded.statement_count();
    let mut machine = Machine::new(alloc, loaded, keeper.part)?;
    match follow_run(alloc, loaded, &mut machine, steps, keeper, way) {
        Ok(ran) => Ok((machine.into_world(), ran)),
        Err(refused) => {
            drop(machine);
            Err(refused)
        }
    }
}

/// Runs a loaded code for at most so many steps beside a workpiece, whose blocks are given too, and keeps the way of the probe. Want of memory at
/// an output line ends the run, and `ran` tells it.
///
/// Errors: want of memory before the run, or for the way; a way of which more pieces are left out than 64 bits count is told as such.
pub fn follow<P: Part>(
    alloc: Global,
    loaded: &Loaded<'_>,
    part: &P,
    blocks: &PartData,
    steps: u64,
) -> Result<Followed, NoMemory>
    requires { P.part part.now ≡ blocks.now }
    ensures { IfOk result (λ f. HasFollowed (P.part part.now) loaded.now steps f.world f.ran f.way) }
{
    let most = MOST_PIECES;
    let keeper = Keeper {
        alloc,
        part,
        blocks,
        most,
    };
    let mut way = Way::new(alloc);
    let (world, ran) = run_kept(alloc, loaded, &keeper, steps, &mut way)?;
    match way.keep_last(alloc, most) {
        Ok(()) => Ok(Followed { world, ran, way }),
        Err(refused) => {
            drop(world);
            Err(refused)
        }
    }
}
