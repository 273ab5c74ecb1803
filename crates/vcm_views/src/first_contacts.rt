//! The first contact of a box of the probe, as a view.

ghost use Rattle.std.specs.Prelude.{◌≡◌, map, option_map};
ghost use Rattle.vcm_views.specs.Views.{first_status, first_view};

use crate::unfinished::cut_short;
use std::alloc::Global;
use std::io::Write;
use vcm_boxes::Boxes;
use vcm_first_contact::{FirstTold, tell_first};
use vcm_job::{Given, RunFault, Shows, status_of};
use vcm_loader::Loaded;
use vcm_motion::AnyPart;
use vcm_naming::BlockNames;
use vcm_part::PartData;

// The exit status: 3 where a box meets a block, else that of the run.
fn status_with(told: FirstTold) -> u8
    ensures { result ≡ first_status told.is_met told.stop }
{
    if told.is_met { 3 } else { status_of(told.stop) }
}

// The text of a program that was given; an image has none.
fn text_in(given: &Given) -> Option<&[u8]>
    ensures { option_map (λ t. t.now) result ≡ option_map (λ t. t.items) given.now.text }
{
    match &given.text {
        Some(text) => Some(text.as_slice()),
        None => None,
    }
}

/// What the first contact of these boxes, which are fixed to the tip, comes from; where there is none, why the run stops where it does. The names of the part's blocks, each of which
/// may be empty, are told with the blocks.
#[derive(Clone, Copy)]
pub struct FirstContacts<'a> {
    pub boxes: &'a Boxes,
    pub block_names: &'a [Vec<u8>],
}

impl<W: Write> Shows<W> for FirstContacts<'_> {
    ghost RunView = { λ s. first_view (map (λ name. name.items) s.block_names.now) s.boxes.now };

    fn show(
        &self,
        alloc: Global,
        loaded: &Loaded<'_>,
        given: &Given,
        part: &PartData,
        steps: u64,
        writer: &mut W,
    ) -> Result<u8, RunFault> {
        let Ok(workpiece) = AnyPart::of(alloc, part) else {
            return Err(RunFault::NoMemory);
        };
        let Ok(names) = BlockNames::new(alloc, self.block_names) else {
            return Err(RunFault::NoMemory);
        };
        match tell_first(
            alloc,
            loaded,
            &workpiece,
            part,
            self.boxes,
            text_in(given),
            steps,
            &names,
            writer,
        ) {
            Ok(told) => Ok(status_with(told)),
            Err(fault) => Err(cut_short(fault)),
        }
    }
}
