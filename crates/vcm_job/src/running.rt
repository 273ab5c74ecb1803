//! Jobs: a part and a program read from one input, run, and the result written.

ghost use Rattle.std.specs.Prelude.{◌≡◌, ◌≢◌, true, false, IfOk, IfErr, IfSome};
ghost use Rattle.vcm_job.specs.Jobs.{status_of, most_steps};
ghost use Rattle.vcm_job.specs.Reading.{ReadsLittle};
ghost use Rattle.vcm_job.specs.Unread.{AnswersUnread};
ghost use Rattle.vcm_job.specs.Results.{IsJobRefusal, IsDone, IsNotDone};
ghost use Rattle.vcm_job.specs.inner.Judged.{IsRefusedAs};
ghost use Rattle.vcm_run.specs.Programs.{IsSummary, IsRefusal};
ghost use Rattle.vcm_job.specs.inner.Running.{IsShown, IsNotShown, IsTextsRun, IsNoJob};

use crate::cutting::texts_of;
use crate::fault::JobFault;
use crate::reading::read_all;
use std::alloc::Global;
use std::io::{Read, Write};
use vcm_motion::{AnyPart, Part};
use vcm_part::{PartData, read_part};
use vcm_program::Noticed;
use vcm_run::{End, Ran, Refusal, Summary, run_text, write_result};
use vcm_spec::{Stop, StopPlace};

/// The most steps of a job.
const MAX_STEPS: u64 = 1_000_000;

/// What a job that wrote its result tells: the exit status (0 where the program ended, 3 at another stop, 4 at the step limit), and the lines
/// of the program that have no effect.
#[derive(Drop)]
pub struct Done {
    pub status: u8,
    pub notices: Vec<Noticed>,
}

/// Why no whole result of a run was written: a growth of memory was refused, or the writer failed, after so many steps of the run.
#[derive(Clone, Copy)]
pub(crate) enum Unwritten {
    Memory { done: u64 },
    Write { done: u64 },
}

/// The exit status that a stop gives: 0 at the program's end, 3 at another stop, 4 where there is none.
pub fn status_of(stop: Option<StopPlace>) -> u8
    ensures { result ≡ status_of stop }
{
    match stop {
        None => 4,
        Some(place) => if matches!(place.stop, Stop::Ended) {
            0
        } else {
            3
        },
    }
}

/// Whether a run was refused memory.
pub fn is_halted(ran: Ran) -> bool
    ensures halted { result ≡ true → ran.end ≡ End.NoMemory }
    ensures ample { result ≡ false → ran.end ≢ End.NoMemory }
{
    match ran.end {
        End::NoMemory => true,
        End::Count => false,
        End::Stopped => false,
    }
}

// Writes the result of a run that wasn't refused memory, and gives its exit status.
fn write_run<W: Write>(summary: &Summary, writer: &mut W) -> Result<u8, Unwritten>
    ensures written { IfOk result (λ status. IsShown summary.now status summary.now.notices (W.contents writer.old) (W.contents writer.new)) }
    ensures fault { IfErr result (λ f. IsNotShown summary.now f (W.contents writer.old) (W.contents writer.new)) }
{
    let ran = summary.ran();
    let done = ran.done;
    if is_halted(ran) {
        return Err(Unwritten::Memory { done });
    }
    match write_result(summary.world(), &ran, writer) {
        Ok(()) => Ok(status_of(summary.world().stop())),
        Err(_) => Err(Unwritten::Write { done }),
    }
}

/// Writes the result of a run that wasn't refused memory, and tells what it was.
pub(crate) fn finish<W: Write>(summary: Summary, writer: &mut W) -> Result<Done, Unwritten>
    ensures done { IfOk result (λ d. IsShown summary d.status d.notices.items (W.contents writer.old) (W.contents writer.new)) }
    ensures fault { IfErr result (λ f. IsNotShown summary f (W.contents writer.old) (W.contents writer.new)) }
{
    let written = write_run(&summary, writer);
    let notices = summary.into_notices();
    match written {
        Ok(status) => Ok(Done { status, notices }),
        Err(fault) => Err(fault),
    }
}

// The run of a program beside a workpiece, for so many steps.
fn run_beside(
    alloc: Global,
    part: &PartData,
    program: &[u8],
    steps: u64,
) -> Result<Summary, JobFault>
    ensures run { IfOk result (IsSummary part.now program.now steps) }
    ensures refused { IfErr result (IsRefusedAs (IsRefusal program.now)) }
{
    match AnyPart::of(alloc, part) {
        Ok(workpiece) => run_program(alloc, &workpiece, program, steps),
        Err(_) => Err(JobFault::NoMemory),
    }
}

// The run of a program, for so many steps.
fn run_program<P: Part>(
    alloc: Global,
    part: &P,
    program: &[u8],
    steps: u64,
) -> Result<Summary, JobFault>
    ensures run { IfOk result (IsSummary (P.part part.now) program.now steps) }
    ensures refused { IfErr result (IsRefusedAs (IsRefusal program.now)) }
{
    match run_text(alloc, part, program, steps) {
        Ok(summary) => Ok(summary),
        Err(refusal) => Err(JobFault::Refused(refusal)),
    }
}

// The run of the two texts of an input, for so many steps.
fn summary_of_texts(alloc: Global, input: &[u8], steps: u64) -> Result<Summary, JobFault>
    ensures run { IfOk result (IsTextsRun input.now steps) }
    ensures fault { IfErr result (IsRefusedAs (IsJobRefusal input.now)) }
{
    let (part, program) = texts_of(input);
    match read_part(alloc, part) {
        Ok(part) => run_beside(alloc, &part, program, steps),
        Err(fault) => Err(JobFault::Refused(Refusal::Part(fault))),
    }
}

// Runs the two texts of an input for so many steps, and writes the result.
fn run_job<W: Write>(
    alloc: Global,
    input: &[u8],
    steps: u64,
    writer: &mut W,
) -> Result<Done, JobFault>
    requires { steps ≡ most_steps }
    ensures done { IfOk result (λ d. IsDone input.now d.status d.notices.items (W.contents writer.old) (W.contents writer.new)) }
    ensures fault { IfErr result (λ f. IsNoJob input.now f (W.contents writer.old) (W.contents writer.new)) }
{
    // A fault is handed on by a match, since `?` on a value as big as a summary costs the prover far more.
    let summary = match summary_of_texts(alloc, input, steps) {
        Ok(summary) => summary,
        Err(fault) => return Err(fault),
    };
    match finish(summary, writer) {
        Ok(done) => Ok(done),
        Err(Unwritten::Memory { done }) => Err(JobFault::Memory { done }),
        Err(Unwritten::Write { done }) => Err(JobFault::Write { done }),
    }
}

/// Reads a job, runs it, and writes its result and nothing else. The part text stands before the first line that is exactly `%%`, the program
/// text behind it. A refused job and one that ends by want of memory write nothing.
///
/// Errors: see `JobFault`. After a failed write the writer has taken a front of the result, and not all of it.
pub fn job<R: Read, W: Write>(
    alloc: Global,
    reader: &mut R,
    writer: &mut W,
) -> Result<Done, JobFault>
    ensures done { IfOk result (λ d. IfSome (R.remaining reader.old) (λ input. IsDone input d.status d.notices.items (W.contents writer.old) (W.contents writer.new))) }
    ensures fault { IfErr result (λ f. IsNotDone (R.remaining reader.old) (R.remaining reader.new) f (W.contents writer.old) (W.contents writer.new)) }
    ensures long { AnswersUnread (R.remaining reader.old) result }
    ensures little { ReadsLittle (R.remaining reader.old) (R.remaining reader.new) }
{
    let input = read_all(alloc, reader)?;
    run_job(alloc, &input, MAX_STEPS, writer)
}
