//! Steps forward, and runs to the least step that ends them.

ghost use Rattle.std.specs.Prelude.{◌≡◌, ◌≤◌, ◌<◌, ◌+◌, ◌^◌, true, length};
ghost use Rattle.vcm_machine.specs.Running.{Running};
ghost use Rattle.vcm_debug.specs.Halting.{some_watched, reason};
ghost use Rattle.vcm_set_debug.specs.Halting.{lost_reason};
ghost use Rattle.vcm_set_debug.specs.Reached.{now, machine_at, lost, goes};
ghost use Rattle.vcm_set_debug.specs.inner.Going.{HasRun, HasStepped};

use crate::course::Course;
use std::alloc::Global;
use vcm_console::Reason;
use vcm_debug::{has_watch, note, watched_change};
use vcm_motion::Part;

/// The values of the variables.
pub(crate) fn values<'b, 'a, P: Part>(course: &'b Course<'a, P>) -> &'b [i64]
    ensures are { result.now ≡ (now course.now).state.world.variables }
    ensures count { length result.now ≡ length course.now.code.tables.variables }
{
    course.world().variables()
}

// Why a run of the debugger ends where a run stands that doesn't end without a probe there, one step behind a state in which the variables had these values, if it does.
// Where no variable is watched the values are of no account.
fn reason_held<P: Part>(
    course: &Course<'_, P>,
    breakpoints: &[bool],
    watches: &[bool],
    noting: bool,
    before: &[i64],
) -> Option<Reason>
    requires few { length watches.now ≤ 4096 }
    requires breakpoints { length breakpoints.now ≡ length course.now.code.statements }
    requires watches { length watches.now ≡ length course.now.code.tables.variables }
    requires before { length before.now ≡ length course.now.code.tables.variables }
    requires noting { noting ≡ some_watched watches.now }
    ensures { (s : Running) → (noting ≡ true → before.now ≡ s.state.world.variables)
        → result ≡ reason breakpoints.now watches.now s (machine_at course.now course.now.count) }
{
    if course.world().stop().is_some() {
        return Some(Reason::Stopped);
    }
    if breakpoints[course.next() as usize] {
        return Some(Reason::Break);
    }
    match watched_change(noting, watches, before, values(course)) {
        Some(variable) => Some(Reason::Watch(variable)),
        None => None,
    }
}

/// The same of any run: where it ends without a probe, that is the reason.
pub(crate) fn reason<P: Part>(
    course: &Course<'_, P>,
    breakpoints: &[bool],
    watches: &[bool],
    noting: bool,
    before: &[i64],
) -> Option<Reason>
    requires few { length watches.now ≤ 4096 }
    requires breakpoints { length breakpoints.now ≡ length course.now.code.statements }
    requires watches { length watches.now ≡ length course.now.code.tables.variables }
    requires before { length before.now ≡ length course.now.code.tables.variables }
    requires noting { noting ≡ some_watched watches.now }
    ensures { (s : Running) → (noting ≡ true → before.now ≡ s.state.world.variables)
        → result ≡ lost_reason (lost course.now course.now.count) (reason breakpoints.now watches.now s (machine_at course.now course.now.count)) }
{
    match course.lost() {
        Some(_) => Some(Reason::Stopped),
        None => reason_held(course, breakpoints, watches, noting, before),
    }
}

/// Runs to the least step of the next k that ends the run: after how many steps, and why. Where memory is refused, so many steps were done, and none of them ends it.
pub(crate) fn run_on<P: Part>(
    alloc: Global,
    course: &mut Course<'_, P>,
    breakpoints: &[bool],
    watches: &[bool],
    before: &mut Vec<i64>,
    k: u32,
) -> Result<(u32, Reason), u32>
    requires count { course.old.count + k < 2 ^ 64 }
    requires goes { goes course.old course.old.count ≡ true }
    requires breakpoints { length breakpoints.now ≡ length course.old.code.statements }
    requires watches { length watches.now ≡ length course.old.code.tables.variables }
    requires before { length before.old.items ≡ length course.old.code.tables.variables }
    requires few { length watches.now ≤ 4096 }
    ensures room { length before.new.items ≡ length course.old.code.tables.variables }
    ensures run { HasRun breakpoints.now watches.now k course.old course.new result }
{
    let noting = has_watch(watches);
    let mut done = 0;
    while done < k {
        note(noting, before, values(course));
        let Ok(()) = course.advance(alloc) else {
            return Err(done);
        };
        done += 1;
        if let Some(why) = reason(course, breakpoints, watches, noting, before) {
            return Ok((done, why));
        }
    }
    Ok((done, Reason::Count))
}

/// Takes k steps, or fewer, to the one behind which none is: how many. Where memory is refused, so many steps were done.
pub(crate) fn step_on<P: Part>(
    alloc: Global,
    course: &mut Course<'_, P>,
    k: u32,
) -> Result<u32, u32>
    requires { course.old.count + k < 2 ^ 64 }
    ensures { HasStepped k course.old course.new result }
{
    let mut done = 0;
    while done < k && course.goes() {
        let Ok(()) = course.advance(alloc) else {
            return Err(done);
        };
        done += 1;
    }
    Ok(done)
}
