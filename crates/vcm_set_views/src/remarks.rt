//! What is remarked of the measurements of a run with several probes.

ghost use Rattle.std.specs.Prelude.{◌≡◌, map, IfOk};
ghost use Rattle.vcm_turning.specs.Choosing.{tipped};
ghost use Rattle.vcm_meant.specs.Turned.{IsMeantTurned};

use crate::fitted::Fitted;
use std::alloc::Global;
use vcm_meant::{Remark, meant_turned};
use vcm_motion::{AnyPart, Part};
use vcm_num::NoMemory;
use vcm_set_clearance::in_strips;
use vcm_turning::Turning;

// What is remarked beside these workpieces, of which each may have its blocks in strips.
fn meant_beside<P: Part>(
    alloc: Global,
    fitted: &Fitted<'_>,
    own: &P,
    parts: &[P],
    steps: u64,
) -> Result<Vec<Remark>, NoMemory>
    requires tie { P.part own.now ≡ fitted.now.part }
    requires ties { map P.part parts.now ≡ map (λ p. tipped fitted.now.part p.tip) fitted.now.probes }
    ensures { IfOk result (λ rs. IsMeantTurned steps fitted.now.part fitted.now.probes fitted.now.variable fitted.now.code rs.items) }
{
    let Fitted {
        loaded,
        set,
        part,
        variable,
        ..
    } = *fitted;
    let each = fitted.each.as_slice();
    let machine = Turning::new(alloc, loaded, set, own, part, parts, each, variable)?;
    meant_turned(alloc, loaded, machine, part, steps)
}

/// What is remarked of a run for at most so many steps: measurements otherwise than they were declared, again or never, and loops without a round, in the order of the lines.
///
/// Errors: want of memory, before the run or in it.
pub fn set_meant(alloc: Global, fitted: &Fitted<'_>, steps: u64) -> Result<Vec<Remark>, NoMemory>
    ensures { IfOk result (λ rs. IsMeantTurned steps fitted.now.part fitted.now.probes fitted.now.variable fitted.now.code rs.items) }
{
    let parts = in_strips(alloc, &fitted.each)?;
    let own = AnyPart::of(alloc, fitted.part)?;
    meant_beside(alloc, fitted, &own, &parts, steps)
}
