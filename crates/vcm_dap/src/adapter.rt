//! The adapter, once a program is launched.

ghost use Rattle.std.specs.Prelude.{◌≡◌, ◌∷◌, [], if◌then◌else◌, option_map, IfOk};
ghost use Rattle.vcm_dap.specs.declared.adapter.Served.TheVariants.{Done, Refused};
ghost use Rattle.vcm_dap.specs.Talking.{next_seq, Told};
ghost use Rattle.vcm_dap.specs.Telling.{is_continue, is_step_out, motion_answer, first_messages, Says, SaysSome};

use crate::answers::{evaluate, exception_info, scopes, stack_trace, variables};
use crate::asking::{Ask, Look, Motion, ask_of};
use crate::breakpoints::set_breakpoints;
use crate::fault::DapFault;
use crate::moving::go;
use crate::output::{tell_lines, tell_placed};
use crate::settings::Settings;
use crate::standing::{Then, finish, stand, tell_result, then_of};
use crate::talk::Talk;
use crate::watching::{set_watches, tell_watchable};
use std::io::Write;
use std::marker::Model;
use vcm_debug::Session;
use vcm_motion::Part;
use vcm_wire::Request;

/// How a request was served.
#[derive(Clone, Copy)]
pub enum Served {
    /// It was done.
    Done,
    /// It was refused.
    Refused,
    /// It was done, and the client wants nothing more.
    Over,
}

/// The adapter of a session: what the launch asked for, and how many output lines were told. Contracts see it as an `Adapting`.
#[derive(Drop)]
pub struct Adapter<'a, 's, P: Part> {
    session: Session<'a, P>,
    settings: Settings<'s>,
    told: usize,
}

impl<'a, 's, P: Part> Model for Adapter<'a, 's, P> {
    ghost use Rattle.vcm_dap.specs.Adapting.{Adapting};

    ghost Value = { Adapting };

    ghost view = { λ a. record { session = a.session; wanted = a.settings; told = a.told } };
}

// How a request was served that may be refused.
fn how_served(is_done: bool) -> Served
    ensures { result ≡ (if is_done then Done else Refused) }
{
    if is_done {
        Served::Done
    } else {
        Served::Refused
    }
}

impl<'a, 's, P: Part> Adapter<'a, 's, P> {
    ghost use Rattle.std.specs.Prelude.{◌≡◌, ◌<◌, ◌≤◌, ◌+◌, ◌^◌, max, length, drop, codes, IfOk};
    ghost use Rattle.json.specs.Value.{value_view};
    ghost use Rattle.vcm_debug.specs.Debugging.{now};
    ghost use Rattle.vcm_dap.specs.Asking.{ask_of};
    ghost use Rattle.vcm_dap.specs.Moving.{IsMoved};
    ghost use Rattle.vcm_dap.specs.Served.{IsServed};
    ghost use Rattle.vcm_dap.specs.Talking.{next_seq, event_front, ended, Told};
    ghost use Rattle.vcm_dap.specs.Telling.{first_messages, SaysThen, SaysSome, TellsText, ToldLines, ToldMotion, Tells};

    /// The adapter of a session of which nothing was told yet.
    pub fn new(session: Session<'a, P>, settings: Settings<'s>) -> Adapter<'a, 's, P>
        ensures { result ≡ record { session = session.entry; wanted = settings.entry; told = 0 } }
    {
        Adapter {
            session,
            settings,
            told: 0,
        }
    }

    /// Tells a line of the program that has no effect.
    ///
    /// Errors: see `DapFault`.
    pub fn notice<W: Write>(
        &self,
        talk: &mut Talk<W>,
        text: &[u8],
        line: u32,
    ) -> Result<(), DapFault>
        ensures { IfOk result (λ u. TellsText talk.old talk.new (codes "stderr") text.now) }
    {
        tell_placed(talk, &self.settings, "stderr", text, line)
    }

    /// Tells that the client may set its breakpoints.
    ///
    /// Errors: see `DapFault`.
    pub fn ready<W: Write>(&self, talk: &mut Talk<W>) -> Result<(), DapFault>
        ensures { Told talk.old talk.new (ended (event_front (next_seq talk.old.seq) (codes "initialized"))) result }
    {
        talk.tell("initialized")
    }

    /// Serves a request: answers it, does what it asks for, and tells what came of it. A motion is answered first.
    ///
    /// Errors: see `DapFault`. The adapter is to end then.
    pub fn serve<W: Write>(
        &mut self,
        talk: &mut Talk<W>,
        request: &Request<'_, '_>,
    ) -> Result<Served, DapFault>
        requires { self.old.session.count + 1000000 < 2 ^ 64 }
        ensures served { IfOk result (λ s. IsServed talk.old.is_from_0 self.old (value_view request.now.message.now) (ask_of request.now.command.now) s self.new) }
        ensures told { IfOk result (λ s. Tells talk.old talk.new request.now.seq request.now.command.now (ask_of request.now.command.now) self.old.told self.old.wanted.told self.new.session) }
        ensures few { self.new.session.count ≤ self.old.session.count + 1000000 }
    {
        match ask_of(request.command) {
            Ask::Move(motion) => {
                self.move_on(talk, request, motion)?;
                Ok(Served::Done)
            }
            Ask::Breakpoints => {
                set_breakpoints(talk, &mut self.session, &self.settings, request)?;
                Ok(Served::Done)
            }
            Ask::DataBreakpoints => {
                set_watches(talk, &mut self.session, request)?;
                Ok(Served::Done)
            }
            Ask::Show(look) => self.show(talk, request, look),
        }
    }

    // Serves a request that leaves the session as it is.
    fn show<W: Write>(
        &mut self,
        talk: &mut Talk<W>,
        request: &Request<'_, '_>,
        look: Look,
    ) -> Result<Served, DapFault>
        requires { self.old.session.count + 1000000 < 2 ^ 64 }
        ensures same { self.new ≡ self.old }
        ensures says { IfOk result (λ s. SaysSome talk.old talk.new) }
    {
        match look {
            Look::DataBreakpointInfo => {
                tell_watchable(talk, &mut self.session, request)?;
                Ok(Served::Done)
            }
            Look::StackTrace => {
                stack_trace(talk, &self.session, &self.settings, request)?;
                Ok(Served::Done)
            }
            Look::Variables => {
                let is_done = variables(talk, &self.session, &self.settings, request)?;
                Ok(how_served(is_done))
            }
            Look::Evaluate => Ok(how_served(evaluate(talk, &mut self.session, request)?)),
            Look::ExceptionInfo => Ok(how_served(exception_info(talk, &self.session, request)?)),
            _ => answer_alone(talk, request, look),
        }
    }

    // Serves a motion: it is answered, carried out, and then told.
    fn move_on<W: Write>(
        &mut self,
        talk: &mut Talk<W>,
        request: &Request<'_, '_>,
        motion: Motion,
    ) -> Result<(), DapFault>
        requires { self.old.session.count + 1000000 < 2 ^ 64 }
        ensures moved { IfOk result (λ u. IsMoved self.old.wanted self.old.session motion self.new.session) }
        ensures counted { IfOk result (λ u. self.new.told ≡ max self.old.told (length (now self.new.session).world.lines)) }
        ensures told { IfOk result (λ u. ToldMotion talk.old talk.new (first_messages talk.old.seq request.now.seq request.now.command.now motion) (drop self.old.told (now self.new.session).world.lines) self.old.wanted.told self.new.session) }
        ensures wanted { self.new.wanted ≡ self.old.wanted }
        ensures few { self.new.session.count ≤ self.old.session.count + 1000000 }
    {
        answer_motion(talk, request, motion)?;
        let came = go(talk.alloc(), &mut self.session, &self.settings, motion);
        let what = then_of(motion, &self.session, &self.settings, came);
        self.tell_output(talk)?;
        self.tell_then(talk, what)
    }

    // Tells what of a producer's text wasn't tried, if that is told.
    fn tell_untried<W: Write>(&self, talk: &mut Talk<W>) -> Result<(), DapFault>
        ensures { IfOk result (λ u. SaysThen self.now.wanted.told self.now.session talk.old talk.new) }
    {
        match told_at_end(&self.settings) {
            Some(text) if !text.is_empty() => talk.tell_text("stderr", text),
            _ => Ok(()),
        }
    }

    // Tells that the session ends, and what wasn't tried in it.
    fn tell_end<W: Write>(&self, talk: &mut Talk<W>) -> Result<(), DapFault>
        ensures { IfOk result (λ u. SaysThen self.now.wanted.told self.now.session talk.old talk.new) }
    {
        self.tell_untried(talk)?;
        finish(talk, &self.session, &self.settings)
    }

    // Tells the result of a run to the end, and that the session ends.
    fn tell_all<W: Write>(&self, talk: &mut Talk<W>) -> Result<(), DapFault>
        ensures { IfOk result (λ u. SaysThen self.now.wanted.told self.now.session talk.old talk.new) }
    {
        tell_result(talk, &self.session, &self.settings)?;
        self.tell_end(talk)
    }

    // Tells what comes behind a motion.
    fn tell_then<W: Write>(&self, talk: &mut Talk<W>, what: Then) -> Result<(), DapFault>
        ensures { IfOk result (λ u. SaysThen self.now.wanted.told self.now.session talk.old talk.new) }
    {
        match what {
            Then::Stands(why) => stand(talk, &self.session, &self.settings, why),
            Then::Result => self.tell_all(talk),
            Then::Ends => self.tell_end(talk),
        }
    }

    // Tells the output lines that weren't told.
    fn tell_output<W: Write>(&mut self, talk: &mut Talk<W>) -> Result<(), DapFault>
        ensures counted { IfOk result (λ u. self.new.told ≡ max self.old.told (length (now self.new.session).world.lines)) }
        ensures told { ToldLines talk.old talk.new (drop self.old.told (now self.new.session).world.lines) result }
        ensures session { self.new.session ≡ self.old.session }
        ensures wanted { self.new.wanted ≡ self.old.wanted }
    {
        let lines = self.session.world().lines().as_slice();
        let count = lines.len();
        if count <= self.told {
            return Ok(());
        }
        tell_lines(talk, lines.split_at(self.told).1)?;
        self.told = count;
        Ok(())
    }
}

// Serves a request that asks for nothing of the session.
fn answer_alone<W: Write>(
    talk: &mut Talk<W>,
    request: &Request<'_, '_>,
    look: Look,
) -> Result<Served, DapFault>
    ensures { IfOk result (λ s. SaysSome talk.old talk.new) }
{
    match look {
        Look::Initialize => Ok(how_served(talk.initialize(request)?)),
        Look::Launch => {
            talk.refuse(request, "a program is launched already")?;
            Ok(Served::Refused)
        }
        Look::Threads => {
            talk.threads(request)?;
            Ok(Served::Done)
        }
        Look::ExceptionBreakpoints => {
            talk.done(request)?;
            Ok(Served::Done)
        }
        Look::Scopes => {
            scopes(talk, request)?;
            Ok(Served::Done)
        }
        Look::Disconnect => {
            talk.done(request)?;
            Ok(Served::Over)
        }
        _ => {
            talk.refuse_unknown(request)?;
            Ok(Served::Refused)
        }
    }
}

// What of a producer's text is told at its end.
fn told_at_end<'s>(settings: &Settings<'s>) -> Option<&'s [u8]>
    ensures { option_map (λ t. t.now) result ≡ settings.now.told }
{
    match &settings.whole {
        Some(whole) => Some(whole.told),
        None => None,
    }
}

// Whether a motion runs on.
fn is_continue(motion: Motion) -> bool
    ensures { result ≡ is_continue motion }
{
    matches!(motion, Motion::Continue)
}

// Whether a motion is a step out.
fn is_step_out(motion: Motion) -> bool
    ensures { result ≡ is_step_out motion }
{
    matches!(motion, Motion::StepOut)
}

// Answers that a motion is done.
fn answer_moving<W: Write>(
    talk: &mut Talk<W>,
    request: &Request<'_, '_>,
    is_continue: bool,
) -> Result<(), DapFault>
    ensures { Told talk.old talk.new (motion_answer (next_seq talk.old.seq) request.now.seq request.now.command.now is_continue) result }
{
    if is_continue {
        talk.run_on(request)
    } else {
        talk.done(request)
    }
}

// Answers that a motion is done, before it is; and of a step out tells why nothing is.
fn answer_motion<W: Write>(
    talk: &mut Talk<W>,
    request: &Request<'_, '_>,
    motion: Motion,
) -> Result<(), DapFault>
    ensures { IfOk result (λ u. Says talk.old talk.new (first_messages talk.old.seq request.now.seq request.now.command.now motion)) }
{
    answer_moving(talk, request, is_continue(motion))?;
    if is_step_out(motion) {
        return talk.tell_text(
            "stderr",
            b"there are no calls to step out of: macros stand expanded\n",
        );
    }
    Ok(())
}
