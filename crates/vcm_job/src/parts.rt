//! Part files, read whole and judged.

ghost use Rattle.std.specs.Prelude.{◌≡◌, IfOk, IfErr, IfSome};
ghost use Rattle.vcm_job.specs.Reading.{ReadsLittle};
ghost use Rattle.vcm_job.specs.Unread.{AnswersUnread};
ghost use Rattle.vcm_job.specs.Files.{IsPartIn, IsNoPart};

use crate::fault::PartFileFault;
use crate::reading::read_all;
use std::alloc::Global;
use std::io::Read;
use vcm_part::{PartData, read_part};

/// The workpiece of a part file.
///
/// Errors: see `PartFileFault`.
pub fn part_from<R: Read>(alloc: Global, reader: &mut R) -> Result<PartData, PartFileFault>
    ensures part { IfOk result (λ p. IfSome (R.remaining reader.old) (λ file. IsPartIn file p)) }
    ensures fault { IfErr result (λ f. IsNoPart (R.remaining reader.old) (R.remaining reader.new) f) }
    ensures long { AnswersUnread (R.remaining reader.old) result }
    ensures little { ReadsLittle (R.remaining reader.old) (R.remaining reader.new) }
{
    let file = read_all(alloc, reader)?;
    match read_part(alloc, &file) {
        Ok(part) => Ok(part),
        Err(fault) => Err(PartFileFault::Refused(fault)),
    }
}
