//! Motions: which command of the debugger each is, and that this command is carried out.

ghost use Rattle.std.specs.Prelude.{◌≡◌, ◌<◌, ◌≤◌, ◌+◌, ◌^◌, ◌==◌, IfSome, Some, None, if◌then◌else◌};
ghost use Rattle.vcm_console.specs.Parsing.{steps_of};
ghost use Rattle.vcm_console.specs.declared.command.Command.TheVariants as c;
ghost use Rattle.vcm_debug.specs.Debugging.{now};
ghost use Rattle.vcm_dap.specs.Moving.{unless_stopped, beginning, command_of, Comes, GoesOver, goes_by_lines, IsMoved};

use crate::asking::Motion;
use crate::settings::Settings;
use std::alloc::Global;
use vcm_console::{Command, Count, Halted, Reply};
use vcm_debug::Session;
use vcm_motion::Part;
use vcm_over::over;

// The same count.
fn same(count: &Count) -> Option<Count>
    ensures { result ≡ Some count.now }
{
    match Count::new(u64::from(count.get())) {
        Ok(count) => Some(count),
        Err(_) => None,
    }
}

// So many steps on, with no stop on the way.
fn step_to_end(settings: &Settings<'_>) -> Option<Command>
    ensures is { result ≡ Some (c.Step settings.now.steps) }
    ensures few { IfSome result (λ w. steps_of w ≤ 1000000) }
{
    match same(&settings.steps) {
        Some(count) => Some(Command::Step(count)),
        None => None,
    }
}

// One step on, but at a stop.
fn step_once<P: Part>(session: &Session<'_, P>) -> Option<Command>
    ensures is { result ≡ unless_stopped (now session.now).world.stop (c.Step 1) }
    ensures few { IfSome result (λ w. steps_of w ≤ 1000000) }
{
    if session.world().stop().is_some() {
        return None;
    }
    match Count::new(1) {
        Ok(one) => Some(Command::Step(one)),
        Err(_) => None,
    }
}

// One step back, but at the start.
fn back_once<P: Part>(session: &Session<'_, P>) -> Option<Command>
    ensures is { result ≡ (if session.now.count == 0 then None else Some (c.Back 1)) }
    ensures few { IfSome result (λ w. steps_of w ≤ 1000000) }
{
    if session.standing().steps == 0 {
        return None;
    }
    match Count::new(1) {
        Ok(one) => Some(Command::Back(one)),
        Err(_) => None,
    }
}

// A run, but at a stop.
fn run_on<P: Part>(session: &Session<'_, P>, settings: &Settings<'_>) -> Option<Command>
    ensures is { result ≡ unless_stopped (now session.now).world.stop (c.Run settings.now.steps) }
    ensures few { IfSome result (λ w. steps_of w ≤ 1000000) }
{
    if session.world().stop().is_some() {
        return None;
    }
    match same(&settings.steps) {
        Some(count) => Some(Command::Run(count)),
        None => None,
    }
}

// The first motion. A run takes a step at least, and would pass a breakpoint at the next statement.
fn begin<P: Part>(session: &Session<'_, P>, settings: &Settings<'_>) -> Option<Command>
    ensures is { result ≡ beginning settings.now session.now }
    ensures few { IfSome result (λ w. steps_of w ≤ 1000000) }
{
    if settings.no_debug {
        return step_to_end(settings);
    }
    if settings.stop_on_entry || session.is_at_breakpoint() {
        return None;
    }
    run_on(session, settings)
}

// The command that a motion is; none where the session stays as it is.
fn command_for<P: Part>(
    session: &Session<'_, P>,
    settings: &Settings<'_>,
    motion: Motion,
) -> Option<Command>
    ensures is { result ≡ command_of settings.now session.now motion }
    ensures few { IfSome result (λ w. steps_of w ≤ 1000000) }
{
    match motion {
        Motion::Begin => begin(session, settings),
        Motion::Continue => run_on(session, settings),
        Motion::Step => step_once(session),
        Motion::StepOut => None,
        Motion::StepBack => back_once(session),
        Motion::Reverse => Some(Command::Reverse),
        Motion::Pause => None,
    }
}

// Carries the command out that a motion is: what the debugger answered, or nothing where the session stays as it is.
fn carry_out<P: Part>(
    alloc: Global,
    session: &mut Session<'_, P>,
    settings: &Settings<'_>,
    motion: Motion,
) -> Result<Option<Reply>, Halted>
    requires { session.old.count + 1000000 < 2 ^ 64 }
    ensures came { Comes session.old (command_of settings.now session.old motion) session.new result }
    ensures few { session.new.count ≤ session.old.count + 1000000 }
{
    match command_for(session, settings, motion) {
        None => Ok(None),
        Some(command) => match session.command(alloc, &command) {
            Ok(reply) => Ok(Some(reply)),
            Err(halted) => Err(halted),
        },
    }
}

// Steps to another source line, but at a stop.
fn go_over<P: Part>(alloc: Global, session: &mut Session<'_, P>) -> Result<Option<Reply>, Halted>
    requires { session.old.count + 1000000 < 2 ^ 64 }
    ensures goes { GoesOver session.old session.new }
    ensures few { session.new.count ≤ session.old.count + 1000000 }
{
    if session.world().stop().is_some() {
        return Ok(None);
    }
    match over(alloc, session, 1) {
        Ok(()) => Ok(Some(Reply::Stands(session.standing()))),
        Err(halted) => Err(halted),
    }
}

// Whether a motion goes by source lines.
fn goes_by_lines(settings: &Settings<'_>, motion: Motion) -> bool
    ensures { result ≡ goes_by_lines settings.now motion }
{
    match motion {
        Motion::Step => settings.whole.is_some(),
        _ => false,
    }
}

/// Carries a motion out: what the debugger answered, or nothing where the session stays as it is.
///
/// Errors: want of memory; then the session stands at the steps done.
pub(crate) fn go<P: Part>(
    alloc: Global,
    session: &mut Session<'_, P>,
    settings: &Settings<'_>,
    motion: Motion,
) -> Result<Option<Reply>, Halted>
    requires { session.old.count + 1000000 < 2 ^ 64 }
    ensures moved { IsMoved settings.now session.old motion session.new }
    ensures few { session.new.count ≤ session.old.count + 1000000 }
{
    if goes_by_lines(settings, motion) {
        go_over(alloc, session)
    } else {
        carry_out(alloc, session, settings, motion)
    }
}
