//! Running back: to the last step, before the one where a session stands, at which a run would have ended.

ghost use Rattle.std.specs.Prelude.{◌≡◌, ◌≤◌, ◌<◌, ◌+◌, ◌-◌, ◌^◌, suc, length, IfOk, All, Some, None};
ghost use Rattle.vcm_machine.specs.Running.{started};
ghost use Rattle.vcm_debug.specs.Debugging.{after};
ghost use Rattle.vcm_debug.specs.Halting.{last_end, ends_after};
ghost use Rattle.vcm_debug.specs.inner.Going.{begun};
ghost use Rattle.vcm_debug.specs.inner.Backwards.{ended, last_between, first_of};

use crate::checkpoints::Checkpoints;
use crate::forward::{has_watch, note, reason, values};
use std::alloc::Global;
use vcm_console::Reason;
use vcm_loader::Loaded;
use vcm_machine::Machine;
use vcm_motion::Part;
use vcm_num::NoMemory;

/// Where a run would have ended: after how many steps, and why.
#[derive(Clone, Copy)]
pub(crate) struct Ending {
    pub(crate) steps: u64,
    pub(crate) why: Reason,
}

// What was looked through: how many steps there are before it, and the last end of a run in it.
#[derive(Clone, Copy)]
struct Stretch {
    low: u64,
    found: Option<Ending>,
}

// The later of two ends of a run: the one after so many steps, if there is a reason there.
fn latest(found: Option<Ending>, steps: u64, why: Option<Reason>) -> Option<Ending>
    ensures { ended result ≡ first_of (elim why [ Some r ↦ Some (ends_after steps r) | None ↦ None ]) (ended found) }
{
    match why {
        Some(why) => Some(Ending { steps, why }),
        None => found,
    }
}

// The last of the next `most` steps of a machine, which has taken `low`, after which a run would have ended.
fn last_ending<'a, P: Part>(
    alloc: Global,
    machine: &mut Machine<'a, P>,
    breakpoints: &[bool],
    watches: &[bool],
    before: &mut Vec<i64>,
    low: u64,
    most: u64,
) -> Result<Option<Ending>, NoMemory>
    requires count { low + most < 2 ^ 64 }
    requires at { machine.old ≡ begun machine.old low }
    requires breakpoints { length breakpoints.now ≡ length machine.old.code.statements }
    requires watches { length watches.now ≡ length machine.old.code.tables.variables }
    requires before { length before.old.items ≡ length machine.old.code.tables.variables }
    requires few { length watches.now ≤ 4096 }
    ensures room { length before.new.items ≡ length machine.old.code.tables.variables }
    ensures found { IfOk result (λ f. ended f ≡ last_between breakpoints.now watches.now (begun machine.old 0) low most) }
{
    let noting = has_watch(watches);
    let mut found = None;
    let mut done = 0;
    while done < most {
        note(noting, before, values(machine));
        let Ok(()) = machine.step(alloc) else {
            return Err(NoMemory);
        };
        done += 1;
        let why = reason(machine, breakpoints, watches, noting, before);
        found = latest(found, low + done, why);
    }
    Ok(found)
}

// Looks through the steps before `high`, from the nearest copy of the machine on: those that end after fewer than `high` steps.
fn stretch_before<'a, P: Part>(
    alloc: Global,
    loaded: &'a Loaded<'a>,
    part: &'a P,
    checkpoints: &Checkpoints<'a, P>,
    breakpoints: &[bool],
    watches: &[bool],
    before: &mut Vec<i64>,
    high: u64,
) -> Result<Stretch, NoMemory>
    requires some { 1 < high }
    requires kept { All (λ c. c.machine ≡ after (P.part part.now) loaded.now c.count) checkpoints.now.kept.items }
    requires breakpoints { length breakpoints.now ≡ length loaded.now.statements }
    requires watches { length watches.now ≡ length loaded.now.tables.variables }
    requires before { length before.old.items ≡ length loaded.now.tables.variables }
    requires few { length watches.now ≤ 4096 }
    ensures room { length before.new.items ≡ length loaded.now.tables.variables }
    ensures low { IfOk result (λ s. s.low + 1 < high) }
    ensures found { IfOk result (λ s. ended s.found ≡ last_between breakpoints.now watches.now (after (P.part part.now) loaded.now 0) s.low (high - 1 - s.low)) }
{
    let mut from = match checkpoints.nearest(alloc, loaded, part, high - 2) {
        Ok(from) => from,
        Err(_) => return Err(NoMemory),
    };
    let low = from.count;
    let found = last_ending(
        alloc,
        &mut from.machine,
        breakpoints,
        watches,
        before,
        low,
        high - 1 - low,
    );
    drop(from);
    match found {
        Ok(found) => Ok(Stretch { low, found }),
        Err(_) => Err(NoMemory),
    }
}

// The last end of a run after fewer than `count` steps: a stretch at a time, the farthest first.
fn ending_before<'a, P: Part>(
    alloc: Global,
    loaded: &'a Loaded<'a>,
    part: &'a P,
    checkpoints: &Checkpoints<'a, P>,
    breakpoints: &[bool],
    watches: &[bool],
    before: &mut Vec<i64>,
    count: u64,
) -> Result<Option<Ending>, NoMemory>
    requires kept { All (λ c. c.machine ≡ after (P.part part.now) loaded.now c.count) checkpoints.now.kept.items }
    requires breakpoints { length breakpoints.now ≡ length loaded.now.statements }
    requires watches { length watches.now ≡ length loaded.now.tables.variables }
    requires before { length before.old.items ≡ length loaded.now.tables.variables }
    requires few { length watches.now ≤ 4096 }
    ensures room { length before.new.items ≡ length loaded.now.tables.variables }
    ensures found { IfOk result (λ f. ended f ≡ last_end breakpoints.now watches.now (started (P.part part.now) loaded.now) (count - 1)) }
{
    let mut high = count;
    while high > 1 {
        match stretch_before(
            alloc,
            loaded,
            part,
            checkpoints,
            breakpoints,
            watches,
            before,
            high,
        ) {
            Ok(stretch) => match stretch.found {
                Some(found) => return Ok(Some(found)),
                None => high = stretch.low + 1,
            },
            Err(_) => return Err(NoMemory),
        }
    }
    Ok(None)
}

/// The last end of a run of a code after fewer than `count` steps. Where memory is refused, and copies are kept, these are let go, and it is tried once more.
pub(crate) fn last_ending_before<'a, P: Part>(
    alloc: Global,
    loaded: &'a Loaded<'a>,
    part: &'a P,
    checkpoints: &mut Checkpoints<'a, P>,
    breakpoints: &[bool],
    watches: &[bool],
    before: &mut Vec<i64>,
    count: u64,
) -> Result<Option<Ending>, NoMemory>
    requires kept { All (λ c. c.machine ≡ after (P.part part.now) loaded.now c.count) checkpoints.old.kept.items }
    requires breakpoints { length breakpoints.now ≡ length loaded.now.statements }
    requires watches { length watches.now ≡ length loaded.now.tables.variables }
    requires before { length before.old.items ≡ length loaded.now.tables.variables }
    requires few { length watches.now ≤ 4096 }
    ensures kept { All (λ c. c.machine ≡ after (P.part part.now) loaded.now c.count) checkpoints.new.kept.items }
    ensures room { length before.new.items ≡ length loaded.now.tables.variables }
    ensures found { IfOk result (λ f. ended f ≡ last_end breakpoints.now watches.now (started (P.part part.now) loaded.now) (count - 1)) }
{
    match ending_before(
        alloc,
        loaded,
        part,
        checkpoints,
        breakpoints,
        watches,
        before,
        count,
    ) {
        Ok(found) => Ok(found),
        Err(refused) if checkpoints.kept.is_empty() => Err(refused),
        Err(_) => {
            checkpoints.clear();
            ending_before(
                alloc,
                loaded,
                part,
                checkpoints,
                breakpoints,
                watches,
                before,
                count,
            )
        }
    }
}
