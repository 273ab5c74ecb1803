//! A session of the debugger.

ghost use Rattle.std.specs.Prelude.{◌≡◌, ◌<◌, ◌≤◌, length, position, IfSome, IfOk, All};
ghost use Rattle.std.specs.Str.{bytes_eq};
ghost use Rattle.vcm_debug.specs.Debugging.{after};
ghost use Rattle.vcm_debug.specs.Session.{is_wanted};

use crate::breaking::flag_line;
use crate::checkpoints::Checkpoints;
use crate::finding::{feature_of, variable_of};
use std::alloc::Global;
use std::io::Write;
use std::marker::Model;
use vcm_console::{Command, Halted, Reply, Standing, VariableRef, write_halt, write_reply};
use vcm_items::Name;
use vcm_loader::Loaded;
use vcm_machine::Machine;
use vcm_motion::Part;
use vcm_num::{NoMemory, WriteFault};
use vcm_state::World;

/// A session on a code and a workpiece: a machine, how many steps it has taken, breakpoints and watches. Contracts see it as a `Debugging`.
#[derive(Drop)]
pub struct Session<'a, P: Part> {
    pub(crate) loaded: &'a Loaded<'a>,
    pub(crate) part: &'a P,
    pub(crate) machine: Machine<'a, P>,
    pub(crate) count: u64,
    pub(crate) breakpoints: Vec<bool>,
    pub(crate) watches: Vec<bool>,
    pub(crate) before: Vec<i64>,
    pub(crate) checkpoints: Checkpoints<'a, P>,
}

impl<'a, P: Part> Model for Session<'a, P> {
    ghost use Rattle.std.specs.Prelude.{◌≡◌, All};
    ghost use Rattle.vcm_debug.specs.Debugging.{Debugging, after};
    ghost use Rattle.vcm_debug.specs.inner.Going.{IsSession};

    ghost Value = { Debugging };

    ghost view = { λ s. record { part = P.part s.part.now; code = s.loaded.now; count = s.count; breakpoints = s.breakpoints.items; watches = s.watches.items } };

    ghost invariant = { λ s. IsSession (P.part s.part.now) s.loaded.now s.machine s.count s.breakpoints.items s.watches.items s.before.items
        × All (λ c. c.machine ≡ after (P.part s.part.now) s.loaded.now c.count) s.checkpoints.kept.items };
}

impl<'a, P: Part> Session<'a, P> {
    ghost use Rattle.std.specs.Prelude.{◌≡◌, ◌<◌, ◌≤◌, ◌+◌, ◌^◌, length, IfOk, nat_lt, slice_index_or, if◌then◌else◌, Some, None, false};
    ghost use Rattle.vcm_num.specs.Written.{Wrote};
    ghost use Rattle.vcm_console.specs.Replies.{ReplyFits, reply_text, halt_text};
    ghost use Rattle.vcm_console.specs.Parsing.{steps_of};
    ghost use Rattle.vcm_console.specs.declared.command.Command.TheVariants as c;
    ghost use Rattle.vcm_console.specs.declared.reply.Reply.TheVariants.{Listed};
    ghost use Rattle.vcm_debug.specs.Debugging.{opened, now};
    ghost use Rattle.vcm_debug.specs.Session.{Carries, standing, with_line};

    /// A session at the start of a code, without breakpoints and watches. All room for these is made here.
    ///
    /// Errors: want of memory.
    pub fn new(
        alloc: Global,
        loaded: &'a Loaded<'a>,
        part: &'a P,
    ) -> Result<Session<'a, P>, NoMemory>
        ensures { IfOk result (λ s. s ≡ opened (P.part part.now) loaded.now) }
    {
        let statements = loaded.statement_count();
        let variables = loaded.variable_count();
        let breakpoints = vec![in alloc; false; statements]?;
        let watches = vec![in alloc; false; variables]?;
        let before = vec![in alloc; 0; variables]?;
        let checkpoints = Checkpoints::new(alloc)?;
        let machine = Machine::new(alloc, loaded, part)?;
        Ok(Session {
            loaded,
            part,
            machine,
            count: 0,
            breakpoints,
            watches,
            before,
            checkpoints,
        })
    }

    /// Carries a command out. A refused command is a reply, and changes nothing.
    ///
    /// Errors: want of memory, in `Step`, `Run`, `Back` and `Reverse` alone. After `Step` and `Run` the session stands at the steps done, after
    /// the other two it is unchanged.
    pub fn command(&mut self, alloc: Global, command: &Command) -> Result<Reply, Halted>
        requires { self.old.count + steps_of command.now < 2 ^ 64 }
        ensures carried { Carries self.old command.now self.new result }
        ensures few { self.new.count ≤ self.old.count + steps_of command.now }
        ensures fits { IfOk result (ReplyFits self.new.code (now self.new).world.lines) }
    {
        match command {
            Command::Break(n) => Ok(self.set_break(*n)),
            Command::Clear(n) => Ok(self.clear_break(*n)),
            Command::Line(line) => Ok(self.find_line(*line)),
            Command::Step(k) => self.step(alloc, k.get()),
            Command::Run(k) => self.run(alloc, k.get()),
            Command::Watch(wanted) => Ok(self.watch(wanted)),
            Command::Unwatch(wanted) => Ok(self.unwatch(wanted)),
            Command::Where => Ok(Reply::Stands(self.standing())),
            Command::Show(wanted) => Ok(self.show(wanted)),
            Command::Feat(name) => Ok(self.feat(name)),
            Command::List(number) => Ok(self.list(*number)),
            Command::Out(k) => Ok(self.out(k.get())),
            Command::Back(k) => self.back(alloc, k.get()),
            Command::Reverse => self.reverse(alloc),
            Command::Quit => Ok(Reply::Bye),
        }
    }

    /// Writes the text of a reply.
    ///
    /// Errors: the writer failed, or took no byte; then it has taken a front of the text.
    pub fn write_reply<W: Write>(&self, reply: &Reply, writer: &mut W) -> Result<(), WriteFault>
        requires { ReplyFits self.now.code (now self.now).world.lines reply.now }
        ensures { Wrote (W.contents writer.old) (W.contents writer.new) (reply_text self.now.code (now self.now).world.lines reply.now) result }
    {
        let world = self.machine.world();
        write_reply(self.loaded, world.tables(), world.lines(), *reply, writer)
    }

    /// Writes that memory was refused, and where it stands.
    pub fn write_halted<W: Write>(&self, writer: &mut W) -> Result<(), WriteFault>
        ensures { Wrote (W.contents writer.old) (W.contents writer.new) (halt_text self.now.code.tables (standing self.now.code self.now.count (now self.now))) result }
    {
        write_halt(self.machine.world().tables(), self.standing(), writer)
    }

    /// The code that it speaks of.
    pub fn loaded(&self) -> &'a Loaded<'a>
        ensures { result.now ≡ self.now.code }
    {
        self.loaded
    }

    /// The state that it shows, with the tables of its names.
    pub fn world(&self) -> &World
        ensures state { result.now.state ≡ (now self.now).world }
        ensures tables { result.now.tables ≡ self.now.code.tables }
    {
        self.machine.world()
    }

    /// Whether the next statement has a breakpoint.
    pub fn is_at_breakpoint(&self) -> bool
        ensures { result ≡ slice_index_or self.now.breakpoints (now self.now).next false }
    {
        self.has_break(self.next() as usize)
    }

    /// Whether the statement of this number has a breakpoint.
    pub fn has_break(&self, number: usize) -> bool
        ensures { result ≡ slice_index_or self.now.breakpoints number false }
    {
        match self.breakpoints.get(number) {
            Some(flag) => *flag,
            None => false,
        }
    }

    /// Writes the listing line of the next statement.
    ///
    /// Errors: the writer failed, or took no byte; then it has taken a front of the line.
    pub fn write_next<W: Write>(&self, writer: &mut W) -> Result<(), WriteFault>
        ensures { Wrote (W.contents writer.old) (W.contents writer.new) (reply_text self.now.code (now self.now).world.lines (Listed (now self.now).next)) result }
    {
        self.write_reply(&Reply::Listed(self.next()), writer)
    }

    /// Gives each statement of a source line a breakpoint, or none; a macro's line has one in each expansion.
    pub fn set_line(&mut self, line: u64, is_set: bool)
        ensures { self.new ≡ with_line self.old line is_set }
    {
        flag_line(self.loaded, line, is_set, &mut self.breakpoints);
    }

    /// The number of the next statement.
    pub(crate) fn next(&self) -> u32
        ensures is { result ≡ (now self.now).next }
        ensures within { result < length self.now.code.statements }
    {
        self.machine.next()
    }

    /// Where it stands.
    pub fn standing(&self) -> Standing
        ensures { result ≡ standing self.now.code self.now.count (now self.now) }
    {
        let next = self.next();
        Standing {
            steps: self.count,
            next,
            line: self.loaded.line(next as usize),
            stop: self.machine.world().stop(),
        }
    }

    /// The statement of this number, if there is one.
    pub(crate) fn statement(&self, number: u64) -> Option<u32>
        ensures { result ≡ (if nat_lt number (length self.now.code.statements) then Some number else None) }
    {
        if number < self.loaded.statement_count() as u64 {
            Some(number as u32)
        } else {
            None
        }
    }

    /// The lowest variable of this name.
    pub(crate) fn variable(&self, wanted: &VariableRef) -> Option<u16>
        ensures place { result ≡ position (is_wanted wanted.now) self.now.code.tables.variables }
        ensures within { IfSome result (λ i. i < length self.now.code.tables.variables) }
    {
        variable_of(self.machine.world().tables(), wanted)
    }

    /// The lowest feature of this name.
    pub(crate) fn feature(&self, name: &Name) -> Option<u16>
        ensures place { result ≡ position (λ x. bytes_eq x name.now) self.now.code.tables.features }
        ensures within { IfSome result (λ i. i < length self.now.code.tables.features) }
    {
        feature_of(self.machine.world().tables(), name)
    }
}
