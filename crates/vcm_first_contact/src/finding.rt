//! The first contact of a box in a run.

ghost use Rattle.std.specs.Prelude.{◌≡◌, IfOk, IfErr};
ghost use Rattle.vcm_code.specs.Valid.{IsValid};
ghost use Rattle.vcm_way.specs.Steps.{IsBefore};
ghost use Rattle.vcm_first_contact.specs.First.{or_else, first_in, first_contact};
ghost use Rattle.vcm_first_contact.specs.inner.Standing.{ways_along, or_none, IsHalted};

use crate::first::{FirstContact, first_among};
use std::alloc::Global;
use vcm_boxes::Boxes;
use vcm_fields::BorrowedStatement;
use vcm_loader::Loaded;
use vcm_machine::{End, Machine};
use vcm_marks::Moment;
use vcm_motion::Part;
use vcm_num::NoMemory;
use vcm_part::PartData;
use vcm_state::World;
use vcm_steps::{Follows, Unfinished, follow_run};
use vcm_way::{Before, look, marks_of_step, reason};

// What looks for it beside a workpiece, whose blocks are given too.
#[derive(Clone, Copy)]
struct Finder<'a, P: Part> {
    part: &'a P,
    blocks: &'a PartData,
    boxes: &'a Boxes,
}

impl<P: Part> Follows<Option<FirstContact>> for Finder<'_, P> {
    type Before = Before;

    type Fault = NoMemory;

    ghost Fits = { λ s part c. (P.part s.part.now ≡ s.blocks.now) × (part ≡ s.blocks.now) × IsValid c };

    ghost Looked = { λ s b w statement. IsBefore s.blocks.now.bounds.home w statement b };

    ghost Has = { λ s tables from to ps. to ≡ or_else from (first_in s.blocks.now.blocks s.boxes.now (ways_along s.blocks.now ps)) };

    ghost Broke = { λ s tables from to ps p f. Unit {0} };

    ghost nothing = { λ s tables x. or_none x };

    fn look(&self, world: &World, statement: &BorrowedStatement<'_>) -> Before {
        look(world, self.blocks.bounds().home, statement)
    }

    fn see(
        &self,
        before: Before,
        count: u64,
        number: u32,
        statement: &BorrowedStatement<'_>,
        world: &World,
        _next: u32,
        to: &mut Option<FirstContact>,
    ) -> Result<(), NoMemory> {
        if to.is_some() {
            return Ok(());
        }
        // It is called for what it tells of the limits: that they are valid.
        let _bounds = self.blocks.bounds();
        let marks = marks_of_step(self.part, self.blocks, &before, reason(world.stop()));
        let place = Moment {
            step: count,
            number,
            line: statement.line,
        };
        *to = first_among(self.blocks, self.boxes.as_slice(), place, marks.as_slice());
        Ok(())
    }
}

/// The first contact of a box in a run of a loaded code for at most so many steps beside a workpiece, whose blocks are given too: the first in the order of the run, of those on one
/// way that at the least fraction, of equals that of the box that stands first. None where no box meets a block.
///
/// Errors: see `Unfinished`; nothing is written here.
pub fn find_first<P: Part>(
    alloc: Global,
    loaded: &Loaded<'_>,
    part: &P,
    blocks: &PartData,
    boxes: &Boxes,
    steps: u64,
) -> Result<Option<FirstContact>, Unfinished>
    requires { P.part part.now ≡ blocks.now }
    ensures first { IfOk result (λ f. f ≡ first_contact blocks.now boxes.now loaded.now steps) }
    ensures fault { IfErr result (IsHalted blocks.now loaded.now steps) }
{
    loaded.known_valid();
    let finder = Finder {
        part,
        blocks,
        boxes,
    };
    let mut first = None;
    let mut machine = match Machine::new(alloc, loaded, part) {
        Ok(machine) => machine,
        Err(_) => return Err(Unfinished::NoMemory),
    };
    match follow_run(alloc, loaded, &mut machine, steps, &finder, &mut first) {
        Ok(ran) => match ran.end {
            End::NoMemory => Err(Unfinished::Memory { done: ran.done }),
            End::Count => Ok(first),
            End::Stopped => Ok(first),
        },
        Err(_) => Err(Unfinished::NoMemory),
    }
}
