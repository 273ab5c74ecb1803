//! All contacts of a run in one go, as a view.

ghost use Rattle.std.specs.Prelude.{◌≡◌, map};
ghost use Rattle.vcm_contacts.specs.Noted.{seen};
ghost use Rattle.vcm_views.specs.Views.{contacts_status, contacts_view};

use crate::sources::source_in;
use crate::unfinished::cut_short;
use std::alloc::Global;
use std::io::Write;
use vcm_contacts::{FoundContact, collect_contacts, write_contacts};
use vcm_job::{Given, RunFault, Shows, status_of};
use vcm_loader::Loaded;
use vcm_motion::AnyPart;
use vcm_naming::BlockNames;
use vcm_part::PartData;
use vcm_spec::StopPlace;

// The exit status: that of a collision where there is a contact, else that of the run.
fn status_with(contacts: &[FoundContact], stop: Option<StopPlace>) -> u8
    ensures { result ≡ contacts_status (map seen contacts.now) stop }
{
    if contacts.is_empty() {
        status_of(stop)
    } else {
        3
    }
}

/// The contacts of a run that goes on after each: the motion that met a block is taken as done. The names of the part's blocks, each of which may be empty,
/// are told with the blocks.
#[derive(Clone, Copy)]
pub struct AllContacts<'a> {
    pub block_names: &'a [Vec<u8>],
}

impl<W: Write> Shows<W> for AllContacts<'_> {
    ghost RunView = { λ s. contacts_view (map (λ name. name.items) s.block_names.now) };

    fn show(
        &self,
        alloc: Global,
        loaded: &Loaded<'_>,
        given: &Given,
        part: &PartData,
        steps: u64,
        writer: &mut W,
    ) -> Result<u8, RunFault> {
        let Ok(workpiece) = AnyPart::of(alloc, part) else {
            return Err(RunFault::NoMemory);
        };
        let Ok(source) = source_in(alloc, given) else {
            return Err(RunFault::NoMemory);
        };
        let found = match collect_contacts(alloc, loaded, &source, &workpiece, part, steps) {
            Ok(found) => found,
            Err(fault) => return Err(cut_short(fault)),
        };
        let Ok(tables) = loaded.tables(alloc) else {
            return Err(RunFault::NoMemory);
        };
        let Ok(mut names) = BlockNames::new(alloc, self.block_names) else {
            return Err(RunFault::NoMemory);
        };
        match write_contacts(&tables, &found.found, found.stop, steps, &mut names, writer) {
            Ok(()) => Ok(status_with(&found.found, found.stop)),
            Err(_) => Err(RunFault::Write { done: steps }),
        }
    }
}
