//! The picture of a run with several probes.

ghost use Rattle.std.specs.Prelude.{◌≡◌, ◌++◌, List, IfOk};
ghost use Rattle.vcm_marks.specs.declared.mark.PlacedMark.{PlacedMark as Stands};
ghost use Rattle.vcm_way.specs.Keeping.{StandsFor};
ghost use Rattle.vcm_set_views.specs.Drawn.{placed_turned, kept_way, picture_of};
ghost use Rattle.vcm_set_views.specs.Ends.{HasEnded, IsAtEnd};

use crate::ends::SetTold;
use crate::fitted::Fitted;
use crate::following::SeesSteps;
use crate::reasons::part_at;
use crate::running::{Ending, run_seen};
use std::alloc::Global;
use vcm_fields::BorrowedStatement;
use vcm_marks::Moment;
use vcm_num::NoMemory;
use vcm_picture::write_picture;
use vcm_state::World;
use vcm_turning::Turn;
use vcm_way::{MOST_PIECES, StepMarks, Way};

/// Keeps the way of a run.
#[derive(Clone, Copy)]
struct Keeping {
    alloc: Global,
}

impl SeesSteps<Way> for Keeping {
    ghost One = { λ s tables from to step marks. (whole : List Stands) → StandsFor from whole → StandsFor to (whole ++ placed_turned step marks) };

    fn see(
        &self,
        count: u64,
        number: u32,
        _on: Option<usize>,
        statement: &BorrowedStatement<'_>,
        _world: &World,
        _next: u32,
        _turn: Turn,
        marks: &StepMarks,
        to: &mut Way,
    ) -> Result<(), NoMemory> {
        let place = Moment {
            step: count,
            number,
            line: statement.line,
        };
        to.add_step(self.alloc, MOST_PIECES, place, marks.as_slice())
    }
}

// A run, and what is kept of its way.
fn run_kept(alloc: Global, fitted: &Fitted<'_>, steps: u64) -> Result<(Ending, Way), NoMemory>
    ensures end { IfOk result (λ r. IsAtEnd fitted.now steps r.0) }
    ensures way { IfOk result (λ r. r.1 ≡ kept_way fitted.now r.0.end.done) }
{
    let mut way = Way::new(alloc);
    let ending = run_seen(alloc, fitted, steps, &Keeping { alloc }, &mut way)?;
    match way.keep_last(alloc, MOST_PIECES) {
        Ok(()) => Ok((ending, way)),
        Err(fault) => {
            drop(ending);
            Err(fault)
        }
    }
}

/// The picture of a run for at most so many steps, beside the workpiece with the tip that is on at its end; a close one shows the blocks as large as they are.
///
/// Errors: want of memory.
pub fn set_picture(
    alloc: Global,
    fitted: &Fitted<'_>,
    steps: u64,
    is_close: bool,
) -> Result<SetTold, NoMemory>
    ensures { IfOk result (λ t. HasEnded fitted.now steps t.end × (t.text.items ≡ picture_of fitted.now t.end is_close)) }
{
    let (ending, way) = run_kept(alloc, fitted, steps)?;
    let mut text = Vec::new(alloc);
    let part = part_at(fitted, ending.on);
    match write_picture(
        alloc,
        part,
        &ending.world,
        ending.end.done,
        way.marks(),
        way.left_out(),
        is_close,
        &[],
        &mut text,
    ) {
        Ok(()) => Ok(SetTold {
            text,
            end: ending.end,
        }),
        Err(_) => Err(NoMemory),
    }
}
