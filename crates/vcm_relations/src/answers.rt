//! The commands that are no session, each with all that its contract says of a known input as one answer: so the law `answers_are_one` speaks of these contracts.

ghost use Rattle.std.specs.Prelude.{IfSome};
ghost use Rattle.vcm_job.specs.Answers.{IsJobAnswer, IsRunAnswer, IsViewAnswer, IsBuildAnswer, IsCheckAnswer, IsListAnswer, IsAsmAnswer, IsPartAnswer, IsReadAnswer};

use std::alloc::Global;
use std::io::{Read, Write};
use vcm_job::{
    AsmFault, BuildFault, CheckFault, Done, JobFault, PartFileFault, PrintFault, ReadFault,
    RunFault, Shows, asm, build, check, job, list, part_from, read_all, run, view_of,
};
use vcm_part::PartData;
use vcm_program::Noticed;
use vcm_run::Built;

/// A job.
pub fn called_job<R: Read, W: Write>(
    alloc: Global,
    reader: &mut R,
    writer: &mut W,
) -> Result<Done, JobFault>
    ensures { IfSome (R.remaining reader.old) (λ input. IsJobAnswer input result (R.remaining reader.new) (W.contents writer.old) (W.contents writer.new)) }
{
    job(alloc, reader, writer)
}

/// A run of an input.
pub fn called_run<R: Read, W: Write>(
    alloc: Global,
    part: &PartData,
    reader: &mut R,
    steps: u64,
    writer: &mut W,
) -> Result<Done, RunFault>
    ensures { IfSome (R.remaining reader.old) (λ input. IsRunAnswer part.now steps input result (R.remaining reader.new) (W.contents writer.old) (W.contents writer.new)) }
{
    run(alloc, part, reader, steps, writer)
}

/// A view of a run of an input.
pub fn called_view<R: Read, W: Write, S: Shows<W>>(
    alloc: Global,
    view: &S,
    part: &PartData,
    reader: &mut R,
    steps: u64,
    writer: &mut W,
) -> Result<Done, RunFault>
    ensures { IfSome (R.remaining reader.old) (λ input. IsViewAnswer (S.RunView view.now) part.now steps input result (R.remaining reader.new) (W.contents writer.old) (W.contents writer.new)) }
{
    view_of(alloc, view, part, reader, steps, writer)
}

/// The image of a program.
pub fn called_build<R: Read>(alloc: Global, reader: &mut R) -> Result<Built, BuildFault>
    ensures { IfSome (R.remaining reader.old) (λ input. IsBuildAnswer input result (R.remaining reader.new)) }
{
    build(alloc, reader)
}

/// The check of a program.
pub fn called_check<R: Read, W: Write>(
    alloc: Global,
    reader: &mut R,
    writer: &mut W,
) -> Result<Vec<Noticed>, CheckFault>
    ensures { IfSome (R.remaining reader.old) (λ input. IsCheckAnswer input result (R.remaining reader.new) (W.contents writer.old) (W.contents writer.new)) }
{
    check(alloc, reader, writer)
}

/// The listing of an input.
pub fn called_list<R: Read, W: Write>(
    alloc: Global,
    reader: &mut R,
    writer: &mut W,
) -> Result<Vec<Noticed>, PrintFault>
    ensures { IfSome (R.remaining reader.old) (λ input. IsListAnswer input result (R.remaining reader.new) (W.contents writer.old) (W.contents writer.new)) }
{
    list(alloc, reader, writer)
}

/// The image of a listing.
pub fn called_asm<R: Read>(alloc: Global, reader: &mut R) -> Result<Vec<u8>, AsmFault>
    ensures { IfSome (R.remaining reader.old) (λ input. IsAsmAnswer input result (R.remaining reader.new)) }
{
    asm(alloc, reader)
}

/// The workpiece of a part file.
pub fn called_part_from<R: Read>(alloc: Global, reader: &mut R) -> Result<PartData, PartFileFault>
    ensures { IfSome (R.remaining reader.old) (λ input. IsPartAnswer input result (R.remaining reader.new)) }
{
    part_from(alloc, reader)
}

/// An input read whole.
pub fn called_read_all<R: Read>(alloc: Global, reader: &mut R) -> Result<Vec<u8>, ReadFault>
    ensures { IfSome (R.remaining reader.old) (λ input. IsReadAnswer input result (R.remaining reader.new)) }
{
    read_all(alloc, reader)
}
