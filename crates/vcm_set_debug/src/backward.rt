//! Going back: the run is made again from its start.

ghost use Rattle.std.specs.Prelude.{◌≡◌, ◌≤◌, ◌<◌, ◌-◌, ◌^◌, ℕ, true, length, IfOk, OnOk, Some, None};
ghost use Rattle.vcm_debug.specs.Halting.{ends_after};
ghost use Rattle.vcm_debug.specs.inner.Backwards.{first_of};
ghost use Rattle.vcm_set_debug.specs.Halting.{reason_behind, last_end};
ghost use Rattle.vcm_set_debug.specs.Reached.{behind, goes};
ghost use Rattle.vcm_set_debug.specs.inner.Going.{ended};

use crate::course::Course;
use crate::forward::{reason, values};
use std::alloc::Global;
use vcm_console::Reason;
use vcm_debug::{has_watch, note};
use vcm_motion::Part;
use vcm_num::NoMemory;

/// Where a run would have ended: after how many steps, and why.
#[derive(Clone, Copy)]
pub(crate) struct Ending {
    pub(crate) steps: u64,
    pub(crate) why: Reason,
}

// The later of two ends of a run: the one after so many steps, if there is a reason there.
fn latest(found: Option<Ending>, steps: u64, why: Option<Reason>) -> Option<Ending>
    ensures { ended result ≡ first_of (elim why [ Some r ↦ Some (ends_after steps r) | None ↦ None ]) (ended found) }
{
    match why {
        Some(why) => Some(Ending { steps, why }),
        None => found,
    }
}

// Takes so many steps of a run that stands at its start, where each is taken.
fn go_on<P: Part>(alloc: Global, course: &mut Course<'_, P>, count: u64) -> Result<(), NoMemory>
    requires start { course.old.count ≡ 0 }
    requires goes { (i : ℕ) → i < count → goes course.old i ≡ true }
    ensures { OnOk result (course.new ≡ behind course.old count) }
{
    let mut done = 0;
    while done < count {
        let Ok(()) = course.advance(alloc) else {
            return Err(NoMemory);
        };
        done += 1;
    }
    Ok(())
}

/// The run behind so many steps, which were all taken.
///
/// Errors: want of memory.
pub(crate) fn course_at<'a, P: Part>(
    alloc: Global,
    course: &Course<'a, P>,
    count: u64,
) -> Result<Course<'a, P>, NoMemory>
    requires { count ≤ course.now.count }
    ensures { IfOk result (λ c. c ≡ behind course.now count) }
{
    course.known_taken();
    let mut other = course.anew(alloc)?;
    match go_on(alloc, &mut other, count) {
        Ok(()) => Ok(other),
        Err(_) => {
            drop(other);
            Err(NoMemory)
        }
    }
}

// The last of the first so many steps of a run that stands at its start, where each is taken, behind which a run of the debugger would have ended.
fn look_through<P: Part>(
    alloc: Global,
    course: &mut Course<'_, P>,
    breakpoints: &[bool],
    watches: &[bool],
    before: &mut Vec<i64>,
    most: u64,
) -> Result<Option<Ending>, NoMemory>
    requires start { course.old.count ≡ 0 }
    requires goes { (i : ℕ) → i < most → goes course.old i ≡ true }
    requires breakpoints { length breakpoints.now ≡ length course.old.code.statements }
    requires watches { length watches.now ≡ length course.old.code.tables.variables }
    requires before { length before.old.items ≡ length course.old.code.tables.variables }
    requires few { length watches.now ≤ 4096 }
    ensures room { length before.new.items ≡ length course.old.code.tables.variables }
    ensures found { IfOk result (λ f. ended f ≡ last_end (reason_behind breakpoints.now watches.now course.old) most) }
{
    let noting = has_watch(watches);
    let mut found = None;
    let mut done = 0;
    while done < most {
        note(noting, before, values(course));
        let Ok(()) = course.advance(alloc) else {
            return Err(NoMemory);
        };
        done += 1;
        let why = reason(course, breakpoints, watches, noting, before);
        found = latest(found, done, why);
    }
    Ok(found)
}

/// The last step before the one where a run stands behind which a run of the debugger would have ended.
///
/// Errors: want of memory.
pub(crate) fn last_ending<P: Part>(
    alloc: Global,
    course: &Course<'_, P>,
    breakpoints: &[bool],
    watches: &[bool],
    before: &mut Vec<i64>,
) -> Result<Option<Ending>, NoMemory>
    requires breakpoints { length breakpoints.now ≡ length course.now.code.statements }
    requires watches { length watches.now ≡ length course.now.code.tables.variables }
    requires before { length before.old.items ≡ length course.now.code.tables.variables }
    requires few { length watches.now ≤ 4096 }
    ensures room { length before.new.items ≡ length course.now.code.tables.variables }
    ensures found { IfOk result (λ f. ended f ≡ last_end (reason_behind breakpoints.now watches.now course.now) (course.now.count - 1)) }
{
    course.known_taken();
    let most = course.count().saturating_sub(1);
    let mut other = match course.anew(alloc) {
        Ok(other) => other,
        Err(_) => return Err(NoMemory),
    };
    let found = look_through(alloc, &mut other, breakpoints, watches, before, most);
    drop(other);
    found
}
