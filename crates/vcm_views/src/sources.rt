//! The source of what was given.

ghost use Rattle.std.specs.Prelude.{IfOk, option_map};
ghost use Rattle.vcm_backtrace.specs.Sources.{IsSourced};

use std::alloc::Global;
use vcm_backtrace::{Source, source_of};
use vcm_job::Given;
use vcm_num::NoMemory;

/// The source that the text of a program is, which was given; an image has none.
///
/// Errors: want of memory.
pub(crate) fn source_in(alloc: Global, given: &Given) -> Result<Option<Source<'_>>, NoMemory>
    ensures { IfOk result (λ s. IsSourced (option_map (λ t. t.items) given.now.text) s) }
{
    match &given.text {
        None => Ok(None),
        Some(text) => match source_of(alloc, text) {
            Ok(source) => Ok(Some(source)),
            // The text of a program that was built is refused for want of memory alone.
            Err(_) => Err(NoMemory),
        },
    }
}
