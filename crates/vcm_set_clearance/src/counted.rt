//! What is reported of runs with several probes of a program that a text is put as.

ghost use Rattle.std.specs.Prelude.{◌≡◌, ◌<◌, length, map, IfOk, IfErr};
ghost use Rattle.vcm_turning.specs.Choosing.{tipped};
ghost use Rattle.vcm_turning.specs.Machine.{HasTurningLimits};
ghost use Rattle.vcm_untried.specs.Turned.{AreCountedTurned};
ghost use Rattle.vcm_set_clearance.specs.Report.{IsNotDoneAt};

use crate::parts::{SetFault, in_strips, parts_of};
use std::alloc::Global;
use vcm_loader::Loaded;
use vcm_motion::{AnyPart, Part};
use vcm_num::NoMemory;
use vcm_part::PartData;
use vcm_probe_set::{ProbeSet, why_unfit};
use vcm_remarks::NumberedRemark;
use vcm_turning::Turning;
use vcm_untried::{Counts, count_turns};

// What is reported of a run beside a workpiece, whose blocks are given too, and beside the workpieces with the tips of the probes, in their order.
fn count_with_probes<P: Part>(
    alloc: Global,
    loaded: &Loaded<'_>,
    set: &ProbeSet,
    part: &P,
    blocks: &PartData,
    parts: &[P],
    each: &[PartData],
    variable: usize,
    steps: u64,
    remarks: &[NumberedRemark],
) -> Result<Counts, NoMemory>
    requires tie { P.part part.now ≡ blocks.now }
    requires each { each.now ≡ map (λ p. tipped blocks.now p.tip) set.now.probes }
    requires ties { map P.part parts.now ≡ each.now }
    requires limits { HasTurningLimits blocks.now }
    requires variable { variable < length loaded.now.tables.variables }
    ensures { IfOk result (AreCountedTurned blocks.now set.now.probes variable loaded.now steps remarks.now) }
{
    let mut machine = Turning::new(alloc, loaded, set, part, blocks, parts, each, variable)?;
    count_turns(alloc, loaded, &mut machine, steps, remarks)
}

// The same beside the workpieces with the tips of the probes.
fn count_beside(
    alloc: Global,
    loaded: &Loaded<'_>,
    set: &ProbeSet,
    part: &PartData,
    each: &[PartData],
    variable: usize,
    steps: u64,
    remarks: &[NumberedRemark],
) -> Result<Counts, NoMemory>
    requires limits { HasTurningLimits part.now }
    requires each { each.now ≡ map (λ p. tipped part.now p.tip) set.now.probes }
    requires variable { variable < length loaded.now.tables.variables }
    ensures { IfOk result (AreCountedTurned part.now set.now.probes variable loaded.now steps remarks.now) }
{
    let parts = in_strips(alloc, each)?;
    let own = AnyPart::of(alloc, part)?;
    count_with_probes(
        alloc, loaded, set, &own, part, &parts, each, variable, steps, remarks,
    )
}

// The same beside a workpiece.
fn count_by(
    alloc: Global,
    loaded: &Loaded<'_>,
    set: &ProbeSet,
    part: &PartData,
    variable: usize,
    steps: u64,
    remarks: &[NumberedRemark],
) -> Result<Counts, NoMemory>
    requires limits { HasTurningLimits part.now }
    requires variable { variable < length loaded.now.tables.variables }
    ensures { IfOk result (AreCountedTurned part.now set.now.probes variable loaded.now steps remarks.now) }
{
    match parts_of(alloc, part, set.probes())? {
        None => Err(NoMemory),
        Some(each) => count_beside(alloc, loaded, set, part, &each, variable, steps, remarks),
    }
}

/// Runs a loaded code as `run_set_at` does, and counts how often the statement of each remark is carried out, and what is reported of it.
///
/// Errors: those of `run_set_at`.
pub fn count_set_at(
    alloc: Global,
    loaded: &Loaded<'_>,
    set: &ProbeSet,
    part: &PartData,
    variable: usize,
    steps: u64,
    remarks: &[NumberedRemark],
) -> Result<Counts, SetFault>
    ensures done { IfOk result (AreCountedTurned part.now set.now.probes variable loaded.now steps remarks.now) }
    ensures fault { IfErr result (IsNotDoneAt part.now set.now variable loaded.now) }
{
    if let Some(unfit) = why_unfit(part, set) {
        return Err(SetFault::Unfit(unfit));
    }
    if variable >= loaded.variable_count() {
        return Err(SetFault::NoVariable);
    }
    match count_by(alloc, loaded, set, part, variable, steps, remarks) {
        Ok(counts) => Ok(counts),
        Err(_) => Err(SetFault::NoMemory),
    }
}
