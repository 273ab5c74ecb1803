//! The story of a run with several probes.

ghost use Rattle.std.specs.Prelude.{◌≡◌, ◌++◌, IfOk, OnOk};
ghost use Rattle.vcm_rows.specs.Opening.{opening_rows};
ghost use Rattle.vcm_set_views.specs.Ends.{HasEnded};
ghost use Rattle.vcm_set_views.specs.Fit.{behind};
ghost use Rattle.vcm_set_views.specs.Story.{not_shown, turned_rows, first_rows, story_of};

use crate::ends::SetTold;
use crate::fitted::Fitted;
use crate::following::SeesSteps;
use crate::result::steps_taken;
use crate::rows::write_last_row;
use crate::running::run_seen;
use std::alloc::Global;
use vcm_fields::BorrowedStatement;
use vcm_num::NoMemory;
use vcm_state::World;
use vcm_story::{ShownText, write_opening, write_passage, write_start};
use vcm_turning::Turn;
use vcm_way::StepMarks;

/// Writes the rows of each step behind the first ones that aren't shown.
#[derive(Clone, Copy)]
struct Telling {
    from: u64,
}

impl SeesSteps<Vec<u8>> for Telling {
    ghost One = { λ s tables from to step marks. to.items ≡ from.items ++ turned_rows s.from tables step marks };

    fn see(
        &self,
        count: u64,
        number: u32,
        _on: Option<usize>,
        statement: &BorrowedStatement<'_>,
        world: &World,
        next: u32,
        _turn: Turn,
        marks: &StepMarks,
        to: &mut Vec<u8>,
    ) -> Result<(), NoMemory> {
        match write_passage(
            self.from,
            count,
            number,
            statement,
            world,
            next,
            marks.as_slice(),
            to,
        ) {
            Ok(()) => Ok(()),
            Err(_) => Err(NoMemory),
        }
    }
}

// The state at the start.
fn start_of(alloc: Global, fitted: &Fitted<'_>) -> Result<World, NoMemory>
    ensures state { IfOk result (λ w. w.state ≡ (behind fitted.now 0).state.world) }
    ensures tables { IfOk result (λ w. w.tables ≡ fitted.now.code.tables) }
{
    let tables = fitted.loaded.tables(alloc)?;
    let home = fitted.part.bounds().home;
    World::opening(alloc, tables, home)
}

// What stands before the steps.
fn write_before(
    fitted: &Fitted<'_>,
    world: &World,
    shown: ShownText<'_>,
    from: u64,
    text: &mut Vec<u8>,
) -> Result<(), NoMemory>
    requires state { world.now.state ≡ (behind fitted.now 0).state.world }
    requires tables { world.now.tables ≡ fitted.now.code.tables }
    ensures { OnOk result (text.new.items ≡ text.old.items
        ++ (opening_rows fitted.now.part fitted.now.code shown.entry.text.now shown.entry.is_listing shown.entry.notices.now ++ first_rows fitted.now from)) }
{
    match write_opening(fitted.loaded, fitted.part, shown, text) {
        Ok(()) => match write_start(from, world, text) {
            Ok(()) => Ok(()),
            Err(_) => Err(NoMemory),
        },
        Err(_) => Err(NoMemory),
    }
}

// How many steps aren't shown of a run of so many.
fn not_shown(done: u64) -> u64
    ensures { result ≡ not_shown done }
{
    done.saturating_sub(100_000)
}

/// The story of a run for at most so many steps, beside this text. The run is made twice: once to count its steps, of which the last hundred thousand are shown.
///
/// Errors: want of memory.
pub fn set_story(
    alloc: Global,
    fitted: &Fitted<'_>,
    steps: u64,
    shown: ShownText<'_>,
) -> Result<SetTold, NoMemory>
    ensures { IfOk result (λ t. HasEnded fitted.now steps t.end
        × (t.text.items ≡ story_of fitted.now shown.entry.text.now shown.entry.is_listing shown.entry.notices.now t.end)) }
{
    let from = not_shown(steps_taken(alloc, fitted, steps)?);
    let mut text = Vec::new(alloc);
    let world = start_of(alloc, fitted)?;
    write_before(fitted, &world, shown, from, &mut text)?;
    let ending = run_seen(alloc, fitted, steps, &Telling { from }, &mut text)?;
    match write_last_row(fitted, &ending, &mut text) {
        Ok(()) => Ok(SetTold {
            text,
            end: ending.end,
        }),
        Err(_) => Err(NoMemory),
    }
}
