//! The one place where an input is an image or the text of a program.

ghost use Rattle.std.specs.Prelude.{◌≡◌, IfOk, IfErr, option_map};
ghost use Rattle.vcm_job.specs.Inputs.{is_image, IsInputRefusal};
ghost use Rattle.vcm_job.specs.Given.{IsGiven};
ghost use Rattle.vcm_job.specs.inner.Judged.{IsRefusedAs};

use crate::fault::{InputRefusal, RunFault};
use std::alloc::Global;
use vcm_program::Noticed;
use vcm_run::{Built, build_image};

/// Whether an input is an image: its first four bytes are `VCMI`.
pub fn is_image(input: &[u8]) -> bool
    ensures { result ≡ is_image input.now }
{
    input.starts_with(b"VCMI")
}

/// A program or an image that was read.
#[derive(Drop)]
pub struct Given {
    /// The image: of a program the one that was built of its text.
    pub image: Vec<u8>,
    /// The text of the program; an image has none.
    pub text: Option<Vec<u8>>,
    /// The lines of the text that have no effect.
    pub notices: Vec<Noticed>,
}

/// What an input is: an image where its first four bytes are `VCMI`, else the text of a program, whose image is built. An image isn't judged.
///
/// Errors: `Refused` where the text is refused, or memory is.
pub fn given_of(alloc: Global, input: Vec<u8>) -> Result<Given, RunFault>
    ensures given { IfOk result (λ g. IsGiven input.items g.image.items (option_map (λ t. t.items) g.text) g.notices.items) }
    ensures refused { IfErr result (IsRefusedAs (IsInputRefusal input.items)) }
{
    if is_image(&input) {
        let notices = Vec::new(alloc);
        return Ok(Given {
            image: input,
            text: None,
            notices,
        });
    }
    match build_image(alloc, &input) {
        Ok(Built { image, notices }) => Ok(Given {
            image,
            text: Some(input),
            notices,
        }),
        Err(refusal) => Err(RunFault::Refused(InputRefusal::Text(refusal))),
    }
}
