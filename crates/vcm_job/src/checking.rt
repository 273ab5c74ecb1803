//! Checks a program: whether its text is accepted.

ghost use Rattle.std.specs.Prelude.{◌≡◌, IfOk, IfErr, IfSome};
ghost use Rattle.vcm_num.specs.Written.{Wrote};
ghost use Rattle.vcm_lines.specs.Fault.{NoMemoryOr};
ghost use Rattle.vcm_tree.specs.Acceptance.{IsRefused};
ghost use Rattle.vcm_job.specs.Reading.{ReadsLittle};
ghost use Rattle.vcm_job.specs.Unread.{AnswersUnread};
ghost use Rattle.vcm_job.specs.Checks.{count_line, IsChecked, IsNotChecked};
ghost use Rattle.vcm_job.specs.inner.Counting.{IsCounted};

use crate::fault::CheckFault;
use crate::reading::read_all;
use itoa::Buffer;
use std::alloc::Global;
use std::io::{Read, Write};
use vcm_lines::SourceFault;
use vcm_num::{WriteFault, write_pieces};
use vcm_program::Noticed;
use vcm_tree::accept;

// How many statements a text has that is accepted, and its lines that have no effect.
fn counted(alloc: Global, text: &[u8]) -> Result<(usize, Vec<Noticed>), SourceFault>
    ensures counted { IfOk result (λ r. IsCounted text.now r.0 r.1.items) }
    ensures refused { IfErr result (NoMemoryOr (IsRefused text.now)) }
{
    let accepted = accept(alloc, text)?;
    let count = accepted.count();
    Ok((count, accepted.into_notices()))
}

// Writes the line that tells how many statements a program has.
fn write_count<W: Write>(count: usize, writer: &mut W) -> Result<(), WriteFault>
    ensures { Wrote (W.contents writer.old) (W.contents writer.new) (count_line count) result }
{
    let mut digits = Buffer::new();
    let digits = digits.format(count).as_bytes();
    write_pieces(writer, &[b"ok ", digits, b" statements\n"])
}

/// Reads the text of a program whole, and writes how many statements it has, as in `ok 3 statements`, where it is accepted. It answers the
/// lines of the program that have no effect.
///
/// Errors: see `CheckFault`. After a failed write the writer has taken a front of the line, and not all of it; else nothing was written.
pub fn check<R: Read, W: Write>(
    alloc: Global,
    reader: &mut R,
    writer: &mut W,
) -> Result<Vec<Noticed>, CheckFault>
    ensures done { IfOk result (λ v. IfSome (R.remaining reader.old) (λ text. IsChecked text v.items (W.contents writer.old) (W.contents writer.new))) }
    ensures fault { IfErr result (λ f. IsNotChecked (R.remaining reader.old) (R.remaining reader.new) f (W.contents writer.old) (W.contents writer.new)) }
    ensures long { AnswersUnread (R.remaining reader.old) result }
    ensures little { ReadsLittle (R.remaining reader.old) (R.remaining reader.new) }
{
    let text = read_all(alloc, reader)?;
    let (count, notices) = match counted(alloc, &text) {
        Ok(found) => found,
        Err(fault) => return Err(CheckFault::Refused(fault)),
    };
    match write_count(count, writer) {
        Ok(()) => Ok(notices),
        Err(_) => Err(CheckFault::Write { done: 0 }),
    }
}
