//! Runs forward, to the least step that ends them.

ghost use Rattle.std.specs.Prelude.{◌≡◌, ◌≤◌, ◌<◌, ◌+◌, ◌^◌, true, ℤ, List, length, All};
ghost use Rattle.std.specs.Ordering.{int_eq};
ghost use Rattle.vcm_machine.specs.Running.{Running};
ghost use Rattle.vcm_debug.specs.Halting.{changed_from, some_watched, reason};
ghost use Rattle.vcm_debug.specs.inner.Going.{begun, HasRun, HasStepped};

use crate::checkpoints::Checkpoints;
use std::alloc::Global;
use vcm_console::Reason;
use vcm_machine::Machine;
use vcm_motion::Part;

// Whether two values are the same.
fn is_same(a: &i64, b: &i64) -> bool
    ensures { result ≡ int_eq a.now b.now }
{
    *a == *b
}

// The lowest-numbered variable that has a watch and whose value differs.
fn changed(watches: &[bool], before: &[i64], now: &[i64]) -> Option<u16>
    requires few { length watches.now ≤ 4096 }
    requires before { length watches.now ≡ length before.now }
    requires now { length watches.now ≡ length now.now }
    ensures { result ≡ changed_from 0 watches.now before.now now.now }
{
    for (index, watched) in watches.iter().enumerate() {
        if *watched && !is_same(&before[index], &now[index]) {
            return Some(index as u16);
        }
    }
    None
}

/// The lowest-numbered variable that has a watch and whose value differs, where the values before were noted only if a variable is watched.
pub fn watched_change(noting: bool, watches: &[bool], before: &[i64], now: &[i64]) -> Option<u16>
    requires few { length watches.now ≤ 4096 }
    requires before { length watches.now ≡ length before.now }
    requires now { length watches.now ≡ length now.now }
    requires noting { noting ≡ some_watched watches.now }
    ensures { (b : List ℤ) → (noting ≡ true → before.now ≡ b) → result ≡ changed_from 0 watches.now b now.now }
{
    if !noting {
        return None;
    }
    changed(watches, before, now)
}

// Why a run ends at the machine's state, one step after a state in which the variables had these values, if it does. Where no variable is watched
// the values are of no account.
pub(crate) fn reason<'a, P: Part>(
    machine: &Machine<'a, P>,
    breakpoints: &[bool],
    watches: &[bool],
    noting: bool,
    before: &[i64],
) -> Option<Reason>
    requires few { length watches.now ≤ 4096 }
    requires breakpoints { length breakpoints.now ≡ length machine.now.code.statements }
    requires watches { length watches.now ≡ length machine.now.code.tables.variables }
    requires before { length before.now ≡ length machine.now.code.tables.variables }
    requires noting { noting ≡ some_watched watches.now }
    ensures { (s : Running) → (noting ≡ true → before.now ≡ s.state.world.variables) → result ≡ reason breakpoints.now watches.now s machine.now }
{
    if machine.world().stop().is_some() {
        return Some(Reason::Stopped);
    }
    if breakpoints[machine.next() as usize] {
        return Some(Reason::Break);
    }
    match watched_change(noting, watches, before, values(machine)) {
        Some(variable) => Some(Reason::Watch(variable)),
        None => None,
    }
}

// The values of the variables.
pub(crate) fn values<'b, 'a, P: Part>(machine: &'b Machine<'a, P>) -> &'b [i64]
    ensures are { result.now ≡ machine.now.state.world.variables }
    ensures count { length result.now ≡ length machine.now.code.tables.variables }
{
    machine.world().variables()
}

/// Whether a variable is watched.
pub fn has_watch(watches: &[bool]) -> bool
    ensures { result ≡ some_watched watches.now }
{
    watches.iter().any(|watched| *watched)
}

/// Notes the values of the variables, if they are wanted.
pub fn note(noting: bool, before: &mut Vec<i64>, now: &[i64])
    requires { length before.old.items ≡ length now.now }
    ensures room { length before.new.items ≡ length before.old.items }
    ensures noted { noting ≡ true → before.new.items ≡ now.now }
{
    if noting {
        before.copy_from_slice(now);
    }
}

// Runs to the least step of the next k that ends the run: after how many steps, and why. Where memory is refused, so many steps were done, and
// none of them ends it. The machine has taken `count` steps before.
pub(crate) fn run_on<'a, P: Part>(
    alloc: Global,
    machine: &mut Machine<'a, P>,
    checkpoints: &mut Checkpoints<'a, P>,
    breakpoints: &[bool],
    watches: &[bool],
    before: &mut Vec<i64>,
    count: u64,
    k: u32,
) -> Result<(u32, Reason), u32>
    requires count { count + k < 2 ^ 64 }
    requires at { machine.old ≡ begun machine.old count }
    requires kept { All (λ c. c.machine ≡ begun machine.old c.count) checkpoints.old.kept.items }
    requires breakpoints { length breakpoints.now ≡ length machine.old.code.statements }
    requires watches { length watches.now ≡ length machine.old.code.tables.variables }
    requires before { length before.old.items ≡ length machine.old.code.tables.variables }
    requires few { length watches.now ≤ 4096 }
    ensures room { length before.new.items ≡ length machine.old.code.tables.variables }
    ensures run { HasRun breakpoints.now watches.now k machine.old machine.new result }
    ensures kept { All (λ c. c.machine ≡ begun machine.old c.count) checkpoints.new.kept.items }
{
    let noting = has_watch(watches);
    let mut done = 0;
    while done < k {
        note(noting, before, values(machine));
        let Ok(()) = checkpoints.step(alloc, machine) else {
            return Err(done);
        };
        done += 1;
        checkpoints.pass(alloc, machine, count + u64::from(done));
        if let Some(why) = reason(machine, breakpoints, watches, noting, before) {
            return Ok((done, why));
        }
    }
    Ok((done, Reason::Count))
}

// Takes k steps, or fewer, to the one that stops: how many. Where memory is refused, so many steps were done. The machine has taken `count` steps
// before.
pub(crate) fn step_on<'a, P: Part>(
    alloc: Global,
    machine: &mut Machine<'a, P>,
    checkpoints: &mut Checkpoints<'a, P>,
    count: u64,
    k: u32,
) -> Result<u32, u32>
    requires count { count + k < 2 ^ 64 }
    requires at { machine.old ≡ begun machine.old count }
    requires kept { All (λ c. c.machine ≡ begun machine.old c.count) checkpoints.old.kept.items }
    ensures steps { HasStepped k machine.old machine.new result }
    ensures kept { All (λ c. c.machine ≡ begun machine.old c.count) checkpoints.new.kept.items }
{
    let mut done = 0;
    while done < k && machine.world().stop().is_none() {
        let Ok(()) = checkpoints.step(alloc, machine) else {
            return Err(done);
        };
        done += 1;
        checkpoints.pass(alloc, machine, count + u64::from(done));
    }
    Ok(done)
}
