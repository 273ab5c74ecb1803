//! The clearance of a probe in a run of a loaded code.

ghost use Rattle.std.specs.Prelude.{◌≡◌, map, option_map, IfOk};
ghost use Rattle.vcm_backtrace.specs.Sources.{IsSourced};
ghost use Rattle.vcm_views.specs.Views.{asked_for, clearance_status, clearance_view};

use crate::sources::source_in;
use crate::unfinished::cut_short;
use std::alloc::Global;
use std::io::Write;
use vcm_backtrace::Source;
use vcm_boxes::Boxes;
use vcm_clearance::{Cleared, clearance};
use vcm_job::{Given, RunFault, Shows, status_of};
use vcm_loader::Loaded;
use vcm_motion::AnyPart;
use vcm_naming::BlockNames;
use vcm_num::NoMemory;
use vcm_part::PartData;

// The source of what was given, if it is asked for.
fn source_if(alloc: Global, given: &Given, is_asked: bool) -> Result<Option<Source<'_>>, NoMemory>
    ensures { IfOk result (λ s. IsSourced (asked_for is_asked (option_map (λ t. t.items) given.now.text)) s) }
{
    if is_asked {
        source_in(alloc, given)
    } else {
        Ok(None)
    }
}

// The exit status of a clearance.
fn status_with(cleared: Cleared) -> u8
    ensures { result ≡ clearance_status cleared.is_met cleared.stop }
{
    if cleared.is_met {
        3
    } else {
        status_of(cleared.stop)
    }
}

/// Which of these boxes, which are fixed to the tip, meet a block, and how much room the others have. What is told of ways that weren't tried stands behind the number
/// of ways. The names of the part's blocks, each of which may be empty, are told with the blocks, and, if that is asked for, the backtraces of the statements of contacts.
#[derive(Clone, Copy)]
pub struct Clearance<'a> {
    pub boxes: &'a Boxes,
    pub untried: &'a [u8],
    pub block_names: &'a [Vec<u8>],
    pub tells_calls: bool,
}

impl<W: Write> Shows<W> for Clearance<'_> {
    ghost RunView = { λ s. clearance_view s.tells_calls (map (λ name. name.items) s.block_names.now) s.untried.now s.boxes.now };

    fn show(
        &self,
        alloc: Global,
        loaded: &Loaded<'_>,
        given: &Given,
        part: &PartData,
        steps: u64,
        writer: &mut W,
    ) -> Result<u8, RunFault> {
        let Ok(workpiece) = AnyPart::of(alloc, part) else {
            return Err(RunFault::NoMemory);
        };
        let Ok(mut names) = BlockNames::new(alloc, self.block_names) else {
            return Err(RunFault::NoMemory);
        };
        let Ok(source) = source_if(alloc, given, self.tells_calls) else {
            return Err(RunFault::NoMemory);
        };
        match clearance(
            alloc,
            loaded,
            &workpiece,
            part,
            self.boxes,
            &source,
            steps,
            self.untried,
            &mut names,
            writer,
        ) {
            Ok(cleared) => Ok(status_with(cleared)),
            Err(fault) => Err(cut_short(fault)),
        }
    }
}
