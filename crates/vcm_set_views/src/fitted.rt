//! What a run with several probes is made with.

ghost use Rattle.std.specs.Prelude.{◌≡◌, ◌<◌, length, map, Some, None, IfOk, IfErr};
ghost use Rattle.vcm_probe_set.specs.Parts.{why_unfit};
ghost use Rattle.vcm_turning.specs.Choosing.{tipped};
ghost use Rattle.vcm_turning.specs.Machine.{turner, HasTurningLimits};
ghost use Rattle.vcm_set_clearance.specs.Report.{IsNotDone};
ghost use Rattle.vcm_set_views.specs.Fit.{fit_of, IsFitted, IsUnfit};

use std::alloc::Global;
use std::marker::Model;
use vcm_loader::Loaded;
use vcm_num::NoMemory;
use vcm_part::PartData;
use vcm_probe_set::{ProbeSet, why_unfit};
use vcm_set_clearance::{SetFault, parts_of, place_of};

/// What a run with several probes is made with: the code, the probes, the workpiece of the part file, those with the tips of the probes, in their order, and the place
/// of the variable that chooses a probe. Contracts see it as a `Fit`.
#[derive(Drop)]
pub struct Fitted<'a> {
    pub(crate) loaded: &'a Loaded<'a>,
    pub(crate) set: &'a ProbeSet,
    pub(crate) part: &'a PartData,
    pub(crate) each: Vec<PartData>,
    pub(crate) variable: usize,
}

impl<'a> Model for Fitted<'a> {
    ghost use Rattle.std.specs.Prelude.{◌≡◌, ◌<◌, length, map};
    ghost use Rattle.vcm_turning.specs.Choosing.{tipped};
    ghost use Rattle.vcm_turning.specs.Machine.{HasTurningLimits};
    ghost use Rattle.vcm_set_views.specs.Fit.{Fit, fit_of};

    ghost Value = { Fit };

    ghost view = { λ f. fit_of f.part.now f.set.now f.loaded.now f.variable };

    ghost invariant = { λ f. HasTurningLimits f.part.now × (f.each.items ≡ map (λ p. tipped f.part.now p.tip) f.set.now.probes)
        × (f.variable < length f.loaded.now.tables.variables) };
}

// The same where the probes can be tried beside the workpiece.
fn fit_with<'a>(
    alloc: Global,
    loaded: &'a Loaded<'a>,
    set: &'a ProbeSet,
    part: &'a PartData,
    variable: usize,
) -> Result<Fitted<'a>, NoMemory>
    requires fits { why_unfit part.now set.now.probes ≡ None }
    requires variable { variable < length loaded.now.tables.variables }
    ensures { IfOk result (λ f. f ≡ fit_of part.now set.now loaded.now variable) }
{
    match parts_of(alloc, part, set.probes())? {
        None => Err(NoMemory),
        Some(each) => Ok(Fitted {
            loaded,
            set,
            part,
            each,
            variable,
        }),
    }
}

/// A loaded code with several probes beside a workpiece, one of which the variable of this place chooses.
///
/// Errors: `Unfit` where the probes can't be tried beside the workpiece; `NoMemory` for want of memory.
pub fn fit_at<'a>(
    alloc: Global,
    loaded: &'a Loaded<'a>,
    set: &'a ProbeSet,
    part: &'a PartData,
    variable: usize,
) -> Result<Fitted<'a>, SetFault>
    requires { variable < length loaded.now.tables.variables }
    ensures fit { IfOk result (λ f. f ≡ fit_of part.now set.now loaded.now variable) }
    ensures fault { IfErr result (IsUnfit part.now set.now) }
{
    match why_unfit(part, set) {
        Some(unfit) => Err(SetFault::Unfit(unfit)),
        None => match fit_with(alloc, loaded, set, part, variable) {
            Ok(fitted) => Ok(fitted),
            Err(_) => Err(SetFault::NoMemory),
        },
    }
}

/// The same with the variable that the probes name: an INTGR variable outside of macros.
///
/// Errors: `Unfit` where the probes can't be tried beside the workpiece; else `NoVariable` where the code has no such variable; `NoMemory` for want of memory.
pub fn fit<'a>(
    alloc: Global,
    loaded: &'a Loaded<'a>,
    set: &'a ProbeSet,
    part: &'a PartData,
) -> Result<Fitted<'a>, SetFault>
    ensures fit { IfOk result (IsFitted part.now set.now loaded.now) }
    ensures fault { IfErr result (IsNotDone part.now set.now loaded.now) }
{
    if let Some(unfit) = why_unfit(part, set) {
        return Err(SetFault::Unfit(unfit));
    }
    match place_of(alloc, loaded, set) {
        Err(_) => Err(SetFault::NoMemory),
        Ok(None) => Err(SetFault::NoVariable),
        Ok(Some(variable)) => match fit_with(alloc, loaded, set, part, variable) {
            Ok(fitted) => Ok(fitted),
            Err(_) => Err(SetFault::NoMemory),
        },
    }
}

impl Fitted<'_> {
    /// The place of the variable that chooses a probe.
    pub fn variable(&self) -> usize
        ensures is { result ≡ self.now.variable }
        ensures within { result < length self.now.code.tables.variables }
    {
        self.variable
    }
}
