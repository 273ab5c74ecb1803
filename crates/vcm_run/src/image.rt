//! Runs of images.

ghost use Rattle.std.specs.Prelude.{◌≡◌, ℕ, List, [], IfOk, IfErr};
ghost use Rattle.vcm_run.specs.Built.{IsBuilt};
ghost use Rattle.vcm_run.specs.Programs.{IsSummary, NextIsThere};
ghost use Rattle.vcm_run.specs.Images.{IsImageRun, IsImageRefusal};

use crate::run::{Summary, run_loaded};
use std::alloc::Global;
use vcm_fields::ImageFault;
use vcm_loader::load;
use vcm_motion::Part;
use vcm_program::Noticed;

/// Runs an image for at most n steps, beside a workpiece. Its summary has these notices: none of an image by itself, and of one that was built of a text
/// that text's.
///
/// Errors: the refusal of the loader; want of memory.
pub fn run_noticed<P: Part>(
    alloc: Global,
    part: &P,
    image: &[u8],
    n: u64,
    notices: Vec<Noticed>,
) -> Result<Summary, ImageFault>
    ensures image { notices.items ≡ [] → IfOk result (IsImageRun (P.part part.now) image.now n) }
    ensures text { (text : List ℕ) → IsBuilt text image.now notices.items → IfOk result (IsSummary (P.part part.now) text n) }
    ensures next { (text : List ℕ) → IsBuilt text image.now notices.items → IfOk result (NextIsThere text) }
    ensures refused { IfErr result (IsImageRefusal image.now) }
{
    let loaded = load(alloc, image)?;
    let summary = run_loaded(alloc, part, &loaded, n, notices)?;
    Ok(summary)
}

/// Runs an image for at most n steps, beside a workpiece. Its summary has no notices.
///
/// Errors: the refusal of the loader; want of memory.
pub fn run_image<P: Part>(
    alloc: Global,
    part: &P,
    image: &[u8],
    n: u64,
) -> Result<Summary, ImageFault>
    ensures run { IfOk result (IsImageRun (P.part part.now) image.now n) }
    ensures refused { IfErr result (IsImageRefusal image.now) }
{
    run_noticed(alloc, part, image, n, Vec::new(alloc))
}
