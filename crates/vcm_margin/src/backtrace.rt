//! The backtrace of the statement at which a wider tip meets something else.

ghost use Rattle.std.specs.Prelude.{◌≡◌, ◌+◌, ◌<◌, IfOk};
ghost use Rattle.vcm_part.specs.Tip.{with_tip};
ghost use Rattle.vcm_margin.specs.Backtrace.{number_of, backtrace_if, backtrace_with, margin_backtrace};

use crate::difference::{Difference, Margin, Met, Seen};
use std::alloc::Global;
use vcm_backtrace::{Source, backtrace_at};
use vcm_loader::Loaded;
use vcm_motion::AnyPart;
use vcm_num::NoMemory;
use vcm_part::PartData;

// The number of the statement that is told of a difference, if one is.
fn number_of(what: Difference) -> Option<u32>
    ensures { result ≡ number_of what }
{
    match what {
        Difference::Stop(Some(place)) => Some(place.number),
        Difference::Stop(None) => None,
        Difference::Next(_) => None,
        Difference::Feature(_, _, place) => Some(place.number),
    }
}

// The backtrace of it, behind so many steps of a run beside a workpiece.
fn backtrace_beside(
    alloc: Global,
    loaded: &Loaded<'_>,
    source: &Option<Source<'_>>,
    part: &PartData,
    seen: Seen,
) -> Result<Vec<u8>, NoMemory>
    ensures { IfOk result (λ t. t.items ≡ backtrace_if source.now part.now loaded.now seen.steps (number_of seen.what)) }
{
    match number_of(seen.what) {
        None => Ok(Vec::new(alloc)),
        Some(number) => {
            let beside = AnyPart::of(alloc, part)?;
            backtrace_at(alloc, source, loaded, &beside, part, seen.steps, number)
        }
    }
}

// The same beside a workpiece with a tip of this half width.
fn backtrace_with_tip(
    alloc: Global,
    loaded: &Loaded<'_>,
    source: &Option<Source<'_>>,
    part: &PartData,
    tip: u32,
    seen: Seen,
) -> Result<Vec<u8>, NoMemory>
    ensures { IfOk result (λ t. t.items ≡ backtrace_if source.now (with_tip tip part.now) loaded.now seen.steps (number_of seen.what)) }
{
    match part.with_tip(alloc, tip)? {
        // A run that goes otherwise begins where the tip is clear at home.
        None => Err(NoMemory),
        Some(other) => backtrace_beside(alloc, loaded, source, &other, seen),
    }
}

/// The backtrace of the statement at which something is met with one micrometre more than this margin, in lines: by the source of the code, if there is one.
///
/// Errors: want of memory.
pub fn margin_backtrace(
    alloc: Global,
    loaded: &Loaded<'_>,
    source: &Option<Source<'_>>,
    part: &PartData,
    margin: Margin,
) -> Result<Vec<u8>, NoMemory>
    requires { margin.tip + 1 < 4294967296 }
    ensures { IfOk result (λ t. t.items ≡ margin_backtrace source.now part.now loaded.now margin) }
{
    match margin.met {
        None => Ok(Vec::new(alloc)),
        Some(Met::Home) => Ok(Vec::new(alloc)),
        Some(Met::Behind(seen)) => {
            backtrace_with_tip(alloc, loaded, source, part, margin.tip + 1, seen)
        }
    }
}
