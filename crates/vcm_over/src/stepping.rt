//! Stepping by source lines.

ghost use Rattle.std.specs.Prelude.{◌≡◌, ◌<◌, ◌≤◌, ◌+◌, ◌^◌, IfOk, IfErr};
ghost use Rattle.vcm_over.specs.Over.{is_stopped, line_at, stepped, wanted_behind, is_done, over_from, IsOnWay};

use std::alloc::Global;
use vcm_debug::{Command, Count, Halted, Session};
use vcm_motion::Part;

/// The most steps of one command.
pub const MOST_STEPS: u32 = 1_000_000;

/// The source line of the next statement.
pub(crate) fn line_at<P: Part>(session: &Session<'_, P>) -> u32
    ensures { result ≡ line_at session.now }
{
    session.standing().line
}

// Whether a session stands at a stop.
fn is_stopped<P: Part>(session: &Session<'_, P>) -> bool
    ensures { result ≡ is_stopped session.now }
{
    session.standing().stop.is_some()
}

// One step further; at a stop it stays, and where memory is refused.
fn step<P: Part>(alloc: Global, session: &mut Session<'_, P>) -> Result<(), Halted>
    requires { session.old.count + 1 < 2 ^ 64 }
    ensures stepped { IfOk result (λ r. session.new ≡ stepped session.old) }
    ensures stays { IfErr result (λ h. session.new ≡ session.old) }
    ensures few { session.new.count ≤ session.old.count + 1 }
{
    let Ok(one) = Count::new(1) else {
        return Ok(());
    };
    session.command(alloc, &Command::Step(one))?;
    Ok(())
}

// Whether a session stands where it was wanted, or at a stop.
fn is_done<P: Part>(session: &Session<'_, P>, wanted: u32) -> bool
    ensures { result ≡ is_done wanted session.now }
{
    wanted == 0 || is_stopped(session)
}

// So many lines are wanted behind a step from one line to another.
fn wanted_behind(from: u32, to: u32, wanted: u32) -> u32
    ensures { result ≡ wanted_behind from to wanted }
{
    if to == from {
        wanted
    } else {
        wanted.saturating_sub(1)
    }
}

// One step further, and how many lines are wanted behind it.
fn advance<P: Part>(alloc: Global, session: &mut Session<'_, P>, wanted: u32) -> Result<u32, Halted>
    requires { session.old.count + 1 < 2 ^ 64 }
    ensures stepped { IfOk result (λ r. session.new ≡ stepped session.old) }
    ensures wanted { IfOk result (λ r. r ≡ wanted_behind (line_at session.old) (line_at (stepped session.old)) wanted) }
    ensures stays { IfErr result (λ h. session.new ≡ session.old) }
    ensures few { session.new.count ≤ session.old.count + 1 }
{
    let line = line_at(session);
    step(alloc, session)?;
    Ok(wanted_behind(line, line_at(session), wanted))
}

/// Steps until the next statement stands on another source line than the one before, so many times, or to a stop, but 1,000,000 steps at most.
///
/// # Errors
///
/// Want of memory; then the session stands behind the steps that were done.
pub fn over<P: Part>(alloc: Global, session: &mut Session<'_, P>, lines: u32) -> Result<(), Halted>
    requires { session.old.count + 1000000 < 2 ^ 64 }
    ensures over { IfOk result (λ r. session.new ≡ over_from MOST_STEPS lines session.old) }
    ensures on_way { IfErr result (λ h. IsOnWay lines session.old session.new) }
    ensures few { session.new.count ≤ session.old.count + 1000000 }
{
    let mut wanted = lines;
    let mut left = MOST_STEPS;
    'each: while left > 0 {
        if is_done(session, wanted) {
            return Ok(());
        }
        wanted = advance(alloc, session, wanted)?;
        left -= 1;
    }
    Ok(())
}
