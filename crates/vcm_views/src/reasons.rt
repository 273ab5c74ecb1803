//! Why a run stops where it does, as a view.

ghost use Rattle.std.specs.Prelude.{◌≡◌, IfOk, IfErr, map, option_map};
ghost use Rattle.vcm_why.specs.Telling.{IsWhy, IsNoWhy};
ghost use Rattle.vcm_views.specs.Views.{why_view};

use crate::unfinished::cut_short;
use std::alloc::Global;
use std::io::Write;
use vcm_job::{Given, RunFault, Shows, status_of};
use vcm_loader::Loaded;
use vcm_motion::{AnyPart, Part};
use vcm_naming::BlockNames;
use vcm_part::PartData;
use vcm_spec::StopPlace;
use vcm_steps::Unfinished;
use vcm_why::{why_image, why_text};

// Writes why a run stops, with the place of its statement in the text, if there is one.
fn tell<P: Part, W: Write>(
    alloc: Global,
    loaded: &Loaded<'_>,
    workpiece: &P,
    given: &Given,
    part: &PartData,
    steps: u64,
    names: &BlockNames,
    writer: &mut W,
) -> Result<Option<StopPlace>, Unfinished>
    requires { P.part workpiece.now ≡ part.now }
    ensures why { IfOk result (λ stop. IsWhy names.now (option_map (λ t. t.items) given.now.text) part.now loaded.now steps stop (W.contents writer.old) (W.contents writer.new)) }
    ensures fault { IfErr result (λ f. IsNoWhy names.now (option_map (λ t. t.items) given.now.text) part.now loaded.now steps f (W.contents writer.old) (W.contents writer.new)) }
{
    match &given.text {
        Some(text) => why_text(alloc, loaded, workpiece, part, text, steps, names, writer),
        None => why_image(alloc, loaded, workpiece, part, steps, names, writer),
    }
}

/// Why a run stops where it does: its stop, where its statement stands in the text, and the way on which it stopped. The names of the part's blocks, each of
/// which may be empty, are told with the blocks.
#[derive(Clone, Copy)]
pub struct Why<'a> {
    pub block_names: &'a [Vec<u8>],
}

impl<W: Write> Shows<W> for Why<'_> {
    ghost RunView = { λ s. why_view (map (λ name. name.items) s.block_names.now) };

    fn show(
        &self,
        alloc: Global,
        loaded: &Loaded<'_>,
        given: &Given,
        part: &PartData,
        steps: u64,
        writer: &mut W,
    ) -> Result<u8, RunFault> {
        let Ok(workpiece) = AnyPart::of(alloc, part) else {
            return Err(RunFault::NoMemory);
        };
        let Ok(names) = BlockNames::new(alloc, self.block_names) else {
            return Err(RunFault::NoMemory);
        };
        match tell(
            alloc, loaded, &workpiece, given, part, steps, &names, writer,
        ) {
            Ok(stop) => Ok(status_of(stop)),
            Err(fault) => Err(cut_short(fault)),
        }
    }
}
