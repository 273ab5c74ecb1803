//! Runs of programs and images from an input, beside a workpiece.

ghost use Rattle.std.specs.Prelude.{◌≡◌, ◌≢◌, ℕ, List, option_map, IfOk, IfErr, IfSome};
ghost use Rattle.vcm_job.specs.Given.{IsGiven};
ghost use Rattle.vcm_job.specs.Reading.{ReadsLittle};
ghost use Rattle.vcm_job.specs.Unread.{AnswersUnread};
ghost use Rattle.vcm_job.specs.Inputs.{IsInputRun, IsInputRefusal, IsWritten, IsNotWritten};
ghost use Rattle.vcm_job.specs.inner.Judged.{IsRefusedAs};
ghost use Rattle.vcm_job.specs.inner.Running.{IsNotRun};

use crate::fault::{InputRefusal, RunFault};
use crate::given::{Given, given_of};
use crate::reading::read_all;
use crate::running::{Done, Unwritten, finish};
use crate::views::judged;
use std::alloc::Global;
use std::io::{Read, Write};
use vcm_motion::{AnyPart, Part};
use vcm_part::PartData;
use vcm_run::{Summary, run_noticed};

// The run of what was read beside a workpiece, for at most so many steps.
fn run_given<P: Part>(
    alloc: Global,
    part: &P,
    given: Given,
    steps: u64,
) -> Result<Summary, RunFault>
    ensures run { (input : List ℕ) → IsGiven input given.image.items (option_map (λ t. t.items) given.text) given.notices.items → IfOk result (IsInputRun (P.part part.now) input steps) }
    ensures refused { (input : List ℕ) → IsGiven input given.image.items (option_map (λ t. t.items) given.text) given.notices.items → IfErr result (IsRefusedAs (IsInputRefusal input)) }
{
    let Given {
        image,
        text,
        notices,
    } = given;
    match run_noticed(alloc, part, &image, steps, notices) {
        Ok(summary) => Ok(summary),
        Err(fault) => {
            let fault = RunFault::Refused(InputRefusal::Image(fault));
            Err(judged(text.is_some(), fault))
        }
    }
}

// The run of what was read beside the workpiece of a part file.
fn run_beside(alloc: Global, part: &PartData, given: Given, steps: u64) -> Result<Summary, RunFault>
    ensures run { (input : List ℕ) → IsGiven input given.image.items (option_map (λ t. t.items) given.text) given.notices.items → IfOk result (IsInputRun part.now input steps) }
    ensures refused { (input : List ℕ) → IsGiven input given.image.items (option_map (λ t. t.items) given.text) given.notices.items → IfErr result (IsRefusedAs (IsInputRefusal input)) }
{
    match AnyPart::of(alloc, part) {
        Ok(workpiece) => run_given(alloc, &workpiece, given, steps),
        Err(_) => Err(RunFault::NoMemory),
    }
}

// The run of an input beside the workpiece of a part file.
fn summary_of_input(
    alloc: Global,
    part: &PartData,
    input: Vec<u8>,
    steps: u64,
) -> Result<Summary, RunFault>
    ensures run { IfOk result (IsInputRun part.now input.items steps) }
    ensures refused { IfErr result (IsRefusedAs (IsInputRefusal input.items)) }
{
    match given_of(alloc, input) {
        Ok(given) => run_beside(alloc, part, given, steps),
        Err(fault) => Err(fault),
    }
}

// Runs an input for at most so many steps, and writes the result.
fn run_input<W: Write>(
    alloc: Global,
    part: &PartData,
    input: Vec<u8>,
    steps: u64,
    writer: &mut W,
) -> Result<Done, RunFault>
    ensures done { IfOk result (λ d. IsWritten part.now input.items steps d.status d.notices.items (W.contents writer.old) (W.contents writer.new)) }
    ensures fault { IfErr result (λ f. IsNotRun part.now input.items steps f (W.contents writer.old) (W.contents writer.new)) }
{
    // A fault is handed on by a match, since `?` on a value as big as a summary costs the prover far more.
    let summary = match summary_of_input(alloc, part, input, steps) {
        Ok(summary) => summary,
        Err(fault) => return Err(fault),
    };
    match finish(summary, writer) {
        Ok(done) => Ok(done),
        Err(Unwritten::Memory { done }) => Err(RunFault::Memory { done }),
        Err(Unwritten::Write { done }) => Err(RunFault::Write { done }),
    }
}

/// Reads an input whole, runs it beside a workpiece for at most so many steps, and writes the result and nothing else. An input whose first four
/// bytes are `VCMI` is an image, any other the text of a program. A refused input and a run that ends by want of memory write nothing.
///
/// Errors: see `RunFault`. After a failed write the writer has taken a front of the result, and not all of it.
pub fn run<R: Read, W: Write>(
    alloc: Global,
    part: &PartData,
    reader: &mut R,
    steps: u64,
    writer: &mut W,
) -> Result<Done, RunFault>
    ensures done { IfOk result (λ d. IfSome (R.remaining reader.old) (λ input. IsWritten part.now input steps d.status d.notices.items (W.contents writer.old) (W.contents writer.new))) }
    ensures fault { IfErr result (λ f. IsNotWritten part.now steps (R.remaining reader.old) (R.remaining reader.new) f (W.contents writer.old) (W.contents writer.new)) }
    ensures long { AnswersUnread (R.remaining reader.old) result }
    ensures little { ReadsLittle (R.remaining reader.old) (R.remaining reader.new) }
{
    let input = read_all(alloc, reader)?;
    run_input(alloc, part, input, steps, writer)
}
