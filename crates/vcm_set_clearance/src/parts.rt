//! Runs with several probes beside the workpieces with their tips.

ghost use Rattle.std.specs.Prelude.{◌≡◌, ◌<◌, length, map, Some, None, IfOk, IfErr, IfSome};
ghost use Rattle.vcm_turning.specs.Choosing.{chooser, tipped};
ghost use Rattle.vcm_turning.specs.Machine.{HasTurningLimits};
ghost use Rattle.vcm_set_clearance.specs.Report.{IsSetRun, IsDone, IsNotDone, IsNotDoneAt};

use crate::gathering::{SetRun, run_with_probes};
use std::alloc::Global;
use vcm_loader::Loaded;
use vcm_motion::{AnyPart, Part};
use vcm_num::NoMemory;
use vcm_part::PartData;
use vcm_probe_set::{Probe, ProbeSet, Unfit, why_unfit};
use vcm_turning::chooser;

/// Why a run with several probes isn't done.
#[derive(Clone, Copy)]
pub enum SetFault {
    /// A growth of memory was refused, before the run or in it.
    NoMemory,
    /// The probes can't be tried beside the workpiece.
    Unfit(Unfit),
    /// The code has no INTGR variable of the name outside of macros.
    NoVariable,
}

// The workpiece with the tip of a probe; none where it may not have it.
fn part_of(alloc: Global, part: &PartData, probe: &Probe) -> Result<Option<PartData>, NoMemory>
    ensures { IfOk result (λ o. IfSome o (λ p. p ≡ tipped part.now probe.now.tip)) }
{
    match probe.tip() {
        None => part.with_tip(alloc, part.bounds().tip),
        Some(tip) => part.with_tip(alloc, tip),
    }
}

/// The workpieces with the tips of these probes, in their order; none where one may not have its tip.
///
/// Errors: want of memory.
pub fn parts_of(
    alloc: Global,
    part: &PartData,
    probes: &[Probe],
) -> Result<Option<Vec<PartData>>, NoMemory>
    ensures { IfOk result (λ o. IfSome o (λ v. v.items ≡ map (λ p. tipped part.now p.tip) probes.now)) }
{
    let mut parts = Vec::with_capacity(alloc, probes.len())?;
    for probe in probes {
        match part_of(alloc, part, probe)? {
            None => return Ok(None),
            Some(other) => parts.push(other)?,
        }
    }
    Ok(Some(parts))
}

/// The same with blocks in strips, where there are many.
///
/// Errors: want of memory.
pub fn in_strips<'a>(alloc: Global, each: &'a [PartData]) -> Result<Vec<AnyPart<'a>>, NoMemory>
    ensures { IfOk result (λ v. map ⟦<AnyPart<'a> as Part>⟧.part v.items ≡ each.now) }
{
    let mut parts = Vec::with_capacity(alloc, each.len())?;
    for part in each {
        parts.push(AnyPart::of(alloc, part)?)?;
    }
    Ok(parts)
}

/// The place of the variable by which the probes are chosen, if the code has it.
///
/// Errors: want of memory.
pub fn place_of(
    alloc: Global,
    loaded: &Loaded<'_>,
    set: &ProbeSet,
) -> Result<Option<usize>, NoMemory>
    ensures is { IfOk result (λ o. o ≡ chooser set.now.variable loaded.now.tables.variables) }
    ensures within { IfOk result (λ o. IfSome o (λ v. v < length loaded.now.tables.variables)) }
{
    let tables = loaded.tables(alloc)?;
    Ok(chooser(set.variable().as_bytes(), tables.variables()))
}

// A run with the variable of this place, beside the workpieces with the tips of the probes.
fn run_beside(
    alloc: Global,
    loaded: &Loaded<'_>,
    set: &ProbeSet,
    part: &PartData,
    each: &[PartData],
    variable: usize,
    steps: u64,
) -> Result<SetRun, NoMemory>
    requires limits { HasTurningLimits part.now }
    requires each { each.now ≡ map (λ p. tipped part.now p.tip) set.now.probes }
    requires variable { variable < length loaded.now.tables.variables }
    ensures { IfOk result (IsSetRun part.now set.now.probes variable loaded.now steps) }
{
    let parts = in_strips(alloc, each)?;
    let own = AnyPart::of(alloc, part)?;
    run_with_probes(
        alloc, loaded, set, &own, part, &parts, each, variable, steps,
    )
}

// A run with the variable of this place.
fn run_by(
    alloc: Global,
    loaded: &Loaded<'_>,
    set: &ProbeSet,
    part: &PartData,
    variable: usize,
    steps: u64,
) -> Result<SetRun, NoMemory>
    requires limits { HasTurningLimits part.now }
    requires variable { variable < length loaded.now.tables.variables }
    ensures { IfOk result (IsSetRun part.now set.now.probes variable loaded.now steps) }
{
    match parts_of(alloc, part, set.probes())? {
        None => Err(NoMemory),
        Some(each) => run_beside(alloc, loaded, set, part, &each, variable, steps),
    }
}

/// Runs a loaded code for at most so many steps with several probes beside a workpiece. The probe that is on at a motion is the one whose number the variable has that the
/// probes name: an INTGR variable outside of macros.
///
/// Errors: `Unfit` where the probes can't be tried beside the workpiece; else `NoVariable` where the code has no such variable; `NoMemory` for want of memory.
pub fn run_set(
    alloc: Global,
    loaded: &Loaded<'_>,
    set: &ProbeSet,
    part: &PartData,
    steps: u64,
) -> Result<SetRun, SetFault>
    ensures done { IfOk result (IsDone part.now set.now loaded.now steps) }
    ensures fault { IfErr result (IsNotDone part.now set.now loaded.now) }
{
    if let Some(unfit) = why_unfit(part, set) {
        return Err(SetFault::Unfit(unfit));
    }
    match place_of(alloc, loaded, set) {
        Err(_) => Err(SetFault::NoMemory),
        Ok(None) => Err(SetFault::NoVariable),
        Ok(Some(variable)) => match run_by(alloc, loaded, set, part, variable, steps) {
            Ok(run) => Ok(run),
            Err(_) => Err(SetFault::NoMemory),
        },
    }
}

/// The same where the probe that is on at a motion is the one whose number the variable of this place has.
///
/// Errors: `Unfit` where the probes can't be tried beside the workpiece; else `NoVariable` where the code has no variable at this place; `NoMemory` for want of memory.
pub fn run_set_at(
    alloc: Global,
    loaded: &Loaded<'_>,
    set: &ProbeSet,
    part: &PartData,
    variable: usize,
    steps: u64,
) -> Result<SetRun, SetFault>
    ensures done { IfOk result (IsSetRun part.now set.now.probes variable loaded.now steps) }
    ensures fault { IfErr result (IsNotDoneAt part.now set.now variable loaded.now) }
{
    if let Some(unfit) = why_unfit(part, set) {
        return Err(SetFault::Unfit(unfit));
    }
    if variable >= loaded.variable_count() {
        return Err(SetFault::NoVariable);
    }
    match run_by(alloc, loaded, set, part, variable, steps) {
        Ok(run) => Ok(run),
        Err(_) => Err(SetFault::NoMemory),
    }
}
