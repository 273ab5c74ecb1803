//! The clearance of a run with several probes, as it is told: below each contact stands the backtrace of its statement.

use std::alloc::Global;
use vcm_items::Tables;
use vcm_num::NoMemory;
use vcm_part::PartData;
use vcm_probe_set::ProbeSet;
use vcm_set_clearance::{SetRun, SetText, Spot, set_text};
use vcm_set_views::{Fitted, set_backtraces};

/// What is told of: the workpiece with the names of its blocks, the probes, and the run, with what is told of ways that weren't tried.
#[derive(Clone, Copy)]
pub(crate) struct Telling<'a> {
    pub(crate) part: &'a PartData,
    pub(crate) block_names: &'a [Vec<u8>],
    pub(crate) set: &'a ProbeSet,
    pub(crate) run: &'a SetRun,
    pub(crate) untried: &'a [u8],
}

// The steps that are told at these places, each once, in their order.
fn steps_told(alloc: Global, spots: &[Spot]) -> Result<Vec<u64>, NoMemory> {
    let mut steps = Vec::new(alloc);
    for spot in spots {
        steps.push(spot.step)?;
    }
    steps.sort_unstable();
    steps.dedup();
    Ok(steps)
}

// What of these texts is that of a step.
fn text_of<'a>(steps: &[u64], texts: &'a [Vec<u8>], step: u64) -> &'a [u8] {
    match steps.binary_search(&step) {
        Ok(place) => match texts.get(place) {
            Some(text) => text.as_slice(),
            None => &[],
        },
        Err(_) => &[],
    }
}

// A text with those of these steps at these places.
fn joined(
    alloc: Global,
    text: &[u8],
    spots: &[Spot],
    steps: &[u64],
    texts: &[Vec<u8>],
) -> Result<Vec<u8>, NoMemory> {
    let mut all = Vec::new(alloc);
    let mut at = 0;
    for spot in spots {
        all.extend_from_slice(text.get(at..spot.at).unwrap_or(&[]))?;
        all.extend_from_slice(text_of(steps, texts, spot.step))?;
        at = spot.at;
    }
    all.extend_from_slice(text.get(at..).unwrap_or(&[]))?;
    Ok(all)
}

/// The text of a run with several probes, of a code from this text, or of an image, which has none.
///
/// Errors: want of memory.
pub(crate) fn set_clearance(
    alloc: Global,
    fitted: &Fitted<'_>,
    telling: Telling<'_>,
    tables: &Tables,
    text: Option<&[u8]>,
) -> Result<SetText, NoMemory> {
    let run = telling.run;
    let told = set_text(
        alloc,
        telling.set,
        telling.part,
        run,
        telling.untried,
        tables,
        telling.block_names,
    )?;
    if text.is_none() || told.spots.is_empty() {
        return Ok(told);
    }
    let steps = steps_told(alloc, &told.spots)?;
    let texts = set_backtraces(alloc, fitted, run.done, text, &steps)?;
    let all = joined(alloc, &told.text, &told.spots, &steps, &texts)?;
    Ok(SetText {
        text: all,
        spots: Vec::new(alloc),
        is_met: told.is_met,
    })
}
