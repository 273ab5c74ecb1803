//! The greatest half width of a tip with which a run goes as it does with the own one.

ghost use Rattle.std.specs.Prelude.{◌≡◌, IfOk, IfSome, IfNone};
ghost use Rattle.vcm_machine.specs.Running.{started};
ghost use Rattle.vcm_margin.specs.Alike.{GoAlike, DifferFirst};
ghost use Rattle.vcm_margin.specs.Margin.{GoesWith, IsMet, IsMargin};
ghost use Rattle.vcm_margin.specs.inner.Trails.{IsTrail};

use crate::comparing::compare;
use crate::difference::{Margin, Met, Seen};
use crate::own::{MOST_KEPT, Trail, kept};
use std::alloc::Global;
use vcm_loader::Loaded;
use vcm_machine::Machine;
use vcm_motion::{AnyPart, Part};
use vcm_num::{NoMemory, WIDEST_TIP};
use vcm_part::PartData;

// Where the run with the own tip, which is kept or else run once more, and a machine at the start of its code differ first in so many steps.
fn compare_own<P: Part, Q: Part>(
    alloc: Global,
    loaded: &Loaded<'_>,
    own: &P,
    trail: &Option<Trail>,
    other: &mut Machine<'_, Q>,
    steps: u64,
) -> Result<Option<Seen>, NoMemory>
    requires trail { IfSome trail.now (IsTrail (P.part own.now) loaded.now steps) }
    requires other { other.old ≡ started other.old.part loaded.now }
    ensures differ { IfOk result (λ d. IfSome d (DifferFirst (P.part own.now) other.old.part loaded.now steps)) }
    ensures alike { IfOk result (λ d. IfNone d (GoAlike (P.part own.now) other.old.part loaded.now steps)) }
{
    match trail {
        Some(trail) => {
            let mut replay = trail.replay();
            compare(alloc, loaded, &mut replay, other, steps)
        }
        None => {
            let mut machine = Machine::new(alloc, loaded, own)?;
            compare(alloc, loaded, &mut machine, other, steps)
        }
    }
}

// Where that run and the one beside another workpiece differ first in so many steps.
fn compare_beside<P: Part, Q: Part>(
    alloc: Global,
    loaded: &Loaded<'_>,
    own: &P,
    trail: &Option<Trail>,
    other: &Q,
    steps: u64,
) -> Result<Option<Seen>, NoMemory>
    requires { IfSome trail.now (IsTrail (P.part own.now) loaded.now steps) }
    ensures differ { IfOk result (λ d. IfSome d (DifferFirst (P.part own.now) (Q.part other.now) loaded.now steps)) }
    ensures alike { IfOk result (λ d. IfNone d (GoAlike (P.part own.now) (Q.part other.now) loaded.now steps)) }
{
    let mut machine = Machine::new(alloc, loaded, other)?;
    compare_own(alloc, loaded, own, trail, &mut machine, steps)
}

// What a run with a tip of this half width meets first that the run with the own one doesn't, in so many steps.
fn met<P: Part>(
    alloc: Global,
    loaded: &Loaded<'_>,
    own: &P,
    trail: &Option<Trail>,
    part: &PartData,
    steps: u64,
    tip: u32,
) -> Result<Option<Met>, NoMemory>
    requires own { P.part own.now ≡ part.now }
    requires trail { IfSome trail.now (IsTrail part.now loaded.now steps) }
    ensures met { IfOk result (λ d. IfSome d (IsMet part.now loaded.now steps tip)) }
    ensures alike { IfOk result (λ d. IfNone d (GoesWith part.now loaded.now steps tip)) }
{
    let Some(other) = part.with_tip(alloc, tip)? else {
        return Ok(Some(Met::Home));
    };
    let beside = AnyPart::of(alloc, &other)?;
    match compare_beside(alloc, loaded, own, trail, &beside, steps)? {
        Some(seen) => Ok(Some(Met::Behind(seen))),
        None => Ok(None),
    }
}

// The run with the own tip, where it is short enough to be kept.
fn own_trail<P: Part>(
    alloc: Global,
    loaded: &Loaded<'_>,
    own: &P,
    steps: u64,
) -> Result<Option<Trail>, NoMemory>
    ensures { IfOk result (λ t. IfSome t (IsTrail (P.part own.now) loaded.now steps)) }
{
    if steps > MOST_KEPT {
        return Ok(None);
    }
    Ok(Some(kept(alloc, loaded, own, steps)?))
}

// The margin beside a workpiece that means the same as the part, with the run with the own tip where it is kept.
fn margin_with<P: Part>(
    alloc: Global,
    loaded: &Loaded<'_>,
    own: &P,
    trail: &Option<Trail>,
    part: &PartData,
    steps: u64,
) -> Result<Margin, NoMemory>
    requires own { P.part own.now ≡ part.now }
    requires trail { IfSome trail.now (IsTrail part.now loaded.now steps) }
    ensures { IfOk result (IsMargin part.now loaded.now steps) }
{
    let mut tip = part.bounds().tip;
    let mut beyond = WIDEST_TIP + 1;
    let mut found = None;
    while beyond - tip > 1 {
        let between = tip + (beyond - tip) / 2;
        match met(alloc, loaded, own, trail, part, steps, between)? {
            Some(difference) => {
                beyond = between;
                found = Some(difference);
            }
            None => tip = between,
        }
    }
    Ok(Margin { tip, met: found })
}

// The margin beside a workpiece that means the same as the part.
fn margin_beside<P: Part>(
    alloc: Global,
    loaded: &Loaded<'_>,
    own: &P,
    part: &PartData,
    steps: u64,
) -> Result<Margin, NoMemory>
    requires { P.part own.now ≡ part.now }
    ensures { IfOk result (IsMargin part.now loaded.now steps) }
{
    let trail = own_trail(alloc, loaded, own, steps)?;
    margin_with(alloc, loaded, own, &trail, part, steps)
}

/// How wide the tip may be for a loaded code that runs for so many steps beside a workpiece: a half width from the own one to 50,000 micrometres with which
/// the run goes as with the own one, while with one micrometre more it doesn't; and what it meets then. Of a run that comes to the program's end it is the
/// greatest (`margins_are_greatest`). Two runs go alike where after each step both have the same stop and the same next statement, and the same measured
/// point behind a PTMEAS.
///
/// Errors: want of memory.
pub fn margin(
    alloc: Global,
    loaded: &Loaded<'_>,
    part: &PartData,
    steps: u64,
) -> Result<Margin, NoMemory>
    ensures { IfOk result (IsMargin part.now loaded.now steps) }
{
    let own = AnyPart::of(alloc, part)?;
    margin_beside(alloc, loaded, &own, part, steps)
}
