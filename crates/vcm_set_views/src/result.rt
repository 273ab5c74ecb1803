//! The result of a run with several probes.

ghost use Rattle.std.specs.Prelude.{◌≡◌, ◌<◌, ◌-◌, ◌^◌, IfOk};
ghost use Rattle.vcm_num.specs.Written.{Wrote};
ghost use Rattle.vcm_turning.specs.declared.ended.NoProbe.{NoProbe as Lack};
ghost use Rattle.vcm_turning.specs.declared.ended.Ended.TheVariants.{Lost};
ghost use Rattle.vcm_set_views.specs.declared.ends.SetEnd.{SetEnd as End};
ghost use Rattle.vcm_set_views.specs.Ends.{HasEnded};
ghost use Rattle.vcm_set_views.specs.Result.{run_in, result_in, result_of};

use crate::ends::{SetEnd, SetTold, write_ended};
use crate::fitted::Fitted;
use crate::following::SeesSteps;
use crate::running::run_seen;
use std::alloc::Global;
use std::io::Write;
use vcm_fields::BorrowedStatement;
use vcm_num::{NoMemory, WriteFault};
use vcm_report::{write_lines, write_position, write_steps};
use vcm_state::World;
use vcm_turning::Turn;
use vcm_values::write_values;
use vcm_way::StepMarks;

/// Makes nothing of a step.
#[derive(Clone, Copy)]
struct Unseen;

impl SeesSteps<()> for Unseen {
    ghost One = { λ s tables from to step marks. Unit {0} };

    fn see(
        &self,
        _count: u64,
        _number: u32,
        _on: Option<usize>,
        _statement: &BorrowedStatement<'_>,
        _world: &World,
        _next: u32,
        _turn: Turn,
        _marks: &StepMarks,
        _to: &mut (),
    ) -> Result<(), NoMemory> {
        Ok(())
    }
}

/// How many steps a run for at most so many takes.
///
/// Errors: want of memory.
pub(crate) fn steps_taken(alloc: Global, fitted: &Fitted<'_>, steps: u64) -> Result<u64, NoMemory>
    ensures { IfOk result (λ n. (e : End) × HasEnded fitted.now steps e × (n ≡ e.done)) }
{
    let ending = run_seen(alloc, fitted, steps, &Unseen, &mut ())?;
    Ok(ending.end.done)
}

// Writes the output lines of a run that ended so in this state, how it ended, where the probe is, and how many steps were taken.
fn write_run<W: Write>(world: &World, end: SetEnd, writer: &mut W) -> Result<(), WriteFault>
    requires { (l : Lack) → end.end ≡ Lost l → end.done < 2 ^ 64 - 1 }
    ensures { Wrote (W.contents writer.old) (W.contents writer.new) (run_in world.now.tables world.now.state end) result }
{
    write_lines(world.lines(), writer)?;
    write_ended(world.tables(), end, writer)?;
    write_position(world.position(), writer)?;
    write_steps(end.done, writer)
}

// Writes the result of a run that ended so in this state, and the values of the variables of these places.
fn write_ended_result<W: Write>(
    world: &World,
    end: SetEnd,
    places: &[u16],
    writer: &mut W,
) -> Result<(), WriteFault>
    requires { (l : Lack) → end.end ≡ Lost l → end.done < 2 ^ 64 - 1 }
    ensures { Wrote (W.contents writer.old) (W.contents writer.new) (result_in world.now.tables world.now.state end places.now) result }
{
    write_run(world, end, writer)?;
    write_values(world.tables(), world.variables(), places, writer)
}

/// The result of a run for at most so many steps, and the values of the variables of these places of the tables, a line for each.
///
/// Errors: want of memory.
pub fn set_result(
    alloc: Global,
    fitted: &Fitted<'_>,
    steps: u64,
    places: &[u16],
) -> Result<SetTold, NoMemory>
    ensures { IfOk result (λ t. HasEnded fitted.now steps t.end × (t.text.items ≡ result_of fitted.now t.end places.now)) }
{
    let ending = run_seen(alloc, fitted, steps, &Unseen, &mut ())?;
    let mut text = Vec::new(alloc);
    match write_ended_result(&ending.world, ending.end, places, &mut text) {
        Ok(()) => Ok(SetTold {
            text,
            end: ending.end,
        }),
        Err(_) => Err(NoMemory),
    }
}
