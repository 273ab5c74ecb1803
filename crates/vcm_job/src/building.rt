//! Images of programs, built from their text.

ghost use Rattle.std.specs.Prelude.{◌≡◌, IfOk, IfErr, IfSome};
ghost use Rattle.vcm_run.specs.Built.{IsBuilt};
ghost use Rattle.vcm_job.specs.Reading.{ReadsLittle};
ghost use Rattle.vcm_job.specs.Unread.{AnswersUnread};
ghost use Rattle.vcm_job.specs.Files.{IsNotBuilt};

use crate::fault::BuildFault;
use crate::reading::read_all;
use std::alloc::Global;
use std::io::Read;
use vcm_run::{Built, build_image};

/// Reads the text of a program whole, and gives its image and the lines that have no effect.
///
/// Errors: see `BuildFault`.
pub fn build<R: Read>(alloc: Global, reader: &mut R) -> Result<Built, BuildFault>
    ensures built { IfOk result (λ b. IfSome (R.remaining reader.old) (λ text. IsBuilt text b.image.items b.notices.items)) }
    ensures fault { IfErr result (λ f. IsNotBuilt (R.remaining reader.old) (R.remaining reader.new) f) }
    ensures long { AnswersUnread (R.remaining reader.old) result }
    ensures little { ReadsLittle (R.remaining reader.old) (R.remaining reader.new) }
{
    let text = read_all(alloc, reader)?;
    match build_image(alloc, &text) {
        Ok(built) => Ok(built),
        Err(refusal) => Err(BuildFault::Refused(refusal)),
    }
}
