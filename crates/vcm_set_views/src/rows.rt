//! The trace and the measured points of a run with several probes.

ghost use Rattle.std.specs.Prelude.{◌≡◌, ◌<◌, ◌++◌, ◌-◌, ◌^◌, ℕ, [], length, slice_get, option_map, IfOk};
ghost use Rattle.vcm_trace.specs.Framed.{framed_step, frames_with, no_frames};
ghost use Rattle.vcm_num.specs.Written.{Wrote};
ghost use Rattle.vcm_set_views.specs.Ends.{HasEnded, IsAtEnd};
ghost use Rattle.vcm_set_views.specs.Fit.{steps_of};
ghost use Rattle.vcm_set_views.specs.Rows.{rows_of, open_row, lost_row, last_row, trace_of, ArePoints};

use crate::ends::SetTold;
use crate::fitted::Fitted;
use crate::following::SeesSteps;
use crate::reasons::source_in;
use crate::running::{Ending, run_seen};
use std::alloc::Global;
use std::io::Write;
use vcm_backtrace::CallFields;
use vcm_fields::BorrowedStatement;
use vcm_loader::Loaded;
use vcm_num::{NoMemory, WriteFault};
use vcm_set_debug::write_no_probe;
use vcm_state::World;
use vcm_trace::{
    Frames, PointRows, TraceRows, WritesRows, keep_frame, no_frames, write_front, write_open,
};
use vcm_turning::{Ended, NoProbe, Turn};
use vcm_way::StepMarks;

/// The text so far, and the frames in which features were declared.
#[derive(Drop)]
struct Rowed {
    text: Vec<u8>,
    frames: Frames,
}

/// Writes the row of each step.
#[derive(Clone, Copy)]
struct RowsOf<'a, F> {
    by: &'a F,
}

impl<F: WritesRows<Vec<u8>>> SeesSteps<Rowed> for RowsOf<'_, F> {
    ghost One = { λ s tables from to step marks. (to.text.items ≡ from.text.items ++ (F.Rows s.by.now).row tables (framed_step from.frames step.passage))
        × (to.frames ≡ frames_with from.frames step.passage) };

    fn see(
        &self,
        count: u64,
        number: u32,
        _on: Option<usize>,
        statement: &BorrowedStatement<'_>,
        world: &World,
        next: u32,
        _turn: Turn,
        _marks: &StepMarks,
        to: &mut Rowed,
    ) -> Result<(), NoMemory> {
        match self.by.write_row(
            &to.frames,
            count,
            number,
            statement,
            world,
            next,
            &mut to.text,
        ) {
            Ok(()) => {
                keep_frame(&mut to.frames, statement, world);
                Ok(())
            }
            Err(_) => Err(NoMemory),
        }
    }
}

// An empty text, where no feature is declared.
fn no_rows(alloc: Global, fitted: &Fitted<'_>) -> Result<Rowed, NoMemory>
    ensures text { IfOk result (λ r. r.text.items ≡ []) }
    ensures frames { IfOk result (λ r. r.frames ≡ no_frames fitted.now.code.tables) }
{
    let tables = fitted.loaded.tables(alloc)?;
    let frames = no_frames(alloc, tables.features().len())?;
    let text = Vec::new(alloc);
    Ok(Rowed { text, frames })
}

// Runs, and adds what stands before the steps and the row of each to a text.
fn add_rows<F: WritesRows<Vec<u8>>>(
    alloc: Global,
    fitted: &Fitted<'_>,
    steps: u64,
    by: &F,
    rowed: &mut Rowed,
) -> Result<Ending, NoMemory>
    requires { rowed.old.frames ≡ no_frames fitted.now.code.tables }
    ensures end { IfOk result (IsAtEnd fitted.now steps) }
    ensures text { IfOk result (λ e. rowed.new.text.items ≡ rowed.old.text.items ++ rows_of (F.Rows by.now) fitted.now.code.tables (steps_of fitted.now e.end.done)) }
{
    match by.write_before(&mut rowed.text) {
        Ok(()) => run_seen(alloc, fitted, steps, &RowsOf { by }, rowed),
        Err(_) => Err(NoMemory),
    }
}

// Writes the row of a run that ended without a probe behind so many steps.
fn write_lost_row<W: Write>(
    lost: NoProbe,
    done: u64,
    world: &World,
    writer: &mut W,
) -> Result<(), WriteFault>
    requires { done < 2 ^ 64 - 1 }
    ensures { Wrote (W.contents writer.old) (W.contents writer.new) (lost_row lost done world.now.state) result }
{
    write_front(done, lost.number, lost.line, b"", world.position(), writer)?;
    write_no_probe(lost, done + 1, writer)
}

// Writes the row of a run that has not stopped behind so many steps.
fn write_open_row<W: Write>(
    loaded: &Loaded<'_>,
    next: u32,
    done: u64,
    world: &World,
    writer: &mut W,
) -> Result<(), WriteFault>
    requires { next < length loaded.now.statements }
    ensures { Wrote (W.contents writer.old) (W.contents writer.new) (open_row done next world.now.state (slice_get loaded.now.statements next)) result }
{
    let line = loaded.line(next as usize);
    write_open(done, next, line, world, writer)
}

/// Writes the last row of the trace of a run that came to this end.
///
/// Errors: the writer failed, or took no byte; then it has taken a front of the row, and not all of it.
pub(crate) fn write_last_row<W: Write>(
    fitted: &Fitted<'_>,
    ending: &Ending,
    writer: &mut W,
) -> Result<(), WriteFault>
    requires { (n : ℕ) × (n < 2 ^ 64) × IsAtEnd fitted.now n ending.now }
    ensures { Wrote (W.contents writer.old) (W.contents writer.new) (last_row fitted.now ending.now.end.done ending.now.end.end) result }
{
    let done = ending.end.done;
    match ending.end.end {
        Ended::Count => write_open_row(fitted.loaded, ending.next, done, &ending.world, writer),
        Ended::Lost(lost) => write_lost_row(lost, done, &ending.world, writer),
        Ended::Stopped => Ok(()),
        Ended::NoMemory => Ok(()),
    }
}

/// The trace of a run for at most so many steps.
///
/// Errors: want of memory.
pub fn set_trace(alloc: Global, fitted: &Fitted<'_>, steps: u64) -> Result<SetTold, NoMemory>
    ensures { IfOk result (λ t. HasEnded fitted.now steps t.end × (t.text.items ≡ trace_of fitted.now t.end)) }
{
    let mut rowed = no_rows(alloc, fitted)?;
    let ending = add_rows(alloc, fitted, steps, &TraceRows, &mut rowed)?;
    let mut text = rowed.text;
    match write_last_row(fitted, &ending, &mut text) {
        Ok(()) => Ok(SetTold {
            text,
            end: ending.end,
        }),
        Err(_) => Err(NoMemory),
    }
}

/// The points that a run for at most so many steps measures, in machine coordinates too where that is wanted, with the CALLs that their statements come from: of a code from this
/// text, or of an image, which has none.
///
/// Errors: want of memory.
pub fn set_points(
    alloc: Global,
    fitted: &Fitted<'_>,
    steps: u64,
    text: Option<&[u8]>,
    is_machine: bool,
) -> Result<SetTold, NoMemory>
    ensures end { IfOk result (λ t. HasEnded fitted.now steps t.end) }
    ensures text { IfOk result (λ t. ArePoints (option_map (λ t. t.now) text.entry) is_machine fitted.now t.end t.text.items) }
{
    let source = source_in(alloc, text)?;
    let calls = CallFields { source: &source };
    let by = PointRows {
        is_machine,
        calls: &calls,
    };
    let mut rowed = no_rows(alloc, fitted)?;
    let ending = add_rows(alloc, fitted, steps, &by, &mut rowed)?;
    Ok(SetTold {
        text: rowed.text,
        end: ending.end,
    })
}
