//! What a session does on each command.

ghost use Rattle.std.specs.Prelude.{◌≡◌, ◌<◌, ◌≤◌, IfOk};
ghost use Rattle.vcm_debug.specs.Session.{recorded};

use crate::checkpoints::machine_at_last;
use crate::finding::{recorded, statement_on};
use crate::forward::{run_on, step_on, values};
use crate::reversing::{Ending, last_ending_before};
use crate::session::Session;
use std::alloc::Global;
use vcm_console::{CommandRefusal, Halted, Reason, Reply, VariableRef};
use vcm_items::Name;
use vcm_machine::Machine;
use vcm_motion::Part;
use vcm_num::NoMemory;

impl<'a, P: Part> Session<'a, P> {
    ghost use Rattle.std.specs.Prelude.{◌≡◌, ◌<◌, ◌≤◌, ◌+◌, ◌-◌, ◌^◌, IfOk, OnOk, OnErr, Some, None};
    ghost use Rattle.vcm_console.specs.Replies.{ReplyFits};
    ghost use Rattle.vcm_console.specs.declared.command.Command.TheVariants as c;
    ghost use Rattle.vcm_debug.specs.Debugging.{after, now};
    ghost use Rattle.vcm_debug.specs.Session.{Carries, answer, at_count, standing};
    ghost use Rattle.vcm_machine.specs.Running.{started};
    ghost use Rattle.vcm_debug.specs.Halting.{last_end};
    ghost use Rattle.vcm_debug.specs.inner.Backwards.{ended};

    /// Sets a breakpoint.
    pub(crate) fn set_break(&mut self, number: u64) -> Reply
        ensures is { record { reply = result; session = self.new } ≡ answer self.old (c.Break number) }
        ensures same { self.new.count ≡ self.old.count }
        ensures fits { ReplyFits self.new.code (now self.new).world.lines result }
    {
        match self.statement(number) {
            Some(n) => {
                self.breakpoints[n as usize] = true;
                Reply::Set(n)
            }
            None => Reply::Refused(CommandRefusal::NoSuchStatement),
        }
    }

    /// Takes a breakpoint away.
    pub(crate) fn clear_break(&mut self, number: u64) -> Reply
        ensures is { record { reply = result; session = self.new } ≡ answer self.old (c.Clear number) }
        ensures same { self.new.count ≡ self.old.count }
        ensures fits { ReplyFits self.new.code (now self.new).world.lines result }
    {
        match self.statement(number) {
            Some(n) => {
                self.breakpoints[n as usize] = false;
                Reply::Cleared(n)
            }
            None => Reply::Refused(CommandRefusal::NoSuchStatement),
        }
    }

    /// The lowest statement of a source line.
    pub(crate) fn find_line(&self, line: u64) -> Reply
        ensures is { record { reply = result; session = self.now } ≡ answer self.now (c.Line line) }
        ensures fits { ReplyFits self.now.code (now self.now).world.lines result }
    {
        match statement_on(self.loaded, line) {
            Some(n) => Reply::Found(line, n),
            None => Reply::Refused(CommandRefusal::NoSuchStatement),
        }
    }

    /// Watches a variable.
    pub(crate) fn watch(&mut self, wanted: &VariableRef) -> Reply
        ensures is { record { reply = result; session = self.new } ≡ answer self.old (c.Watch wanted.now) }
        ensures same { self.new.count ≡ self.old.count }
        ensures fits { ReplyFits self.new.code (now self.new).world.lines result }
    {
        match self.variable(wanted) {
            Some(v) => {
                self.watches[v as usize] = true;
                Reply::Watched(v)
            }
            None => Reply::Refused(CommandRefusal::NoSuchName),
        }
    }

    /// No longer watches a variable.
    pub(crate) fn unwatch(&mut self, wanted: &VariableRef) -> Reply
        ensures is { record { reply = result; session = self.new } ≡ answer self.old (c.Unwatch wanted.now) }
        ensures same { self.new.count ≡ self.old.count }
        ensures fits { ReplyFits self.new.code (now self.new).world.lines result }
    {
        match self.variable(wanted) {
            Some(v) => {
                self.watches[v as usize] = false;
                Reply::Unwatched(v)
            }
            None => Reply::Refused(CommandRefusal::NoSuchName),
        }
    }

    /// The value of a variable.
    pub(crate) fn show(&self, wanted: &VariableRef) -> Reply
        ensures is { record { reply = result; session = self.now } ≡ answer self.now (c.Show wanted.now) }
        ensures fits { ReplyFits self.now.code (now self.now).world.lines result }
    {
        match self.variable(wanted) {
            Some(v) => Reply::Value(v, values(&self.machine)[v as usize]),
            None => Reply::Refused(CommandRefusal::NoSuchName),
        }
    }

    /// A feature, nominal and actual.
    pub(crate) fn feat(&self, name: &Name) -> Reply
        ensures is { record { reply = result; session = self.now } ≡ answer self.now (c.Feat name.now) }
        ensures fits { ReplyFits self.now.code (now self.now).world.lines result }
    {
        let world = self.machine.world();
        match self.feature(name) {
            Some(f) => Reply::Features(
                f,
                recorded(world.nominal(), f),
                recorded(world.actual(), f),
            ),
            None => Reply::Refused(CommandRefusal::NoSuchName),
        }
    }

    /// The listing line of a statement, or of the next one.
    pub(crate) fn list(&self, number: Option<u64>) -> Reply
        ensures is { record { reply = result; session = self.now } ≡ answer self.now (c.List number) }
        ensures fits { ReplyFits self.now.code (now self.now).world.lines result }
    {
        match number {
            Some(number) => match self.statement(number) {
                Some(n) => Reply::Listed(n),
                None => Reply::Refused(CommandRefusal::NoSuchStatement),
            },
            None => Reply::Listed(self.next()),
        }
    }

    /// Takes steps.
    pub(crate) fn step(&mut self, alloc: Global, k: u32) -> Result<Reply, Halted>
        requires { self.old.count + k < 2 ^ 64 }
        ensures carried { Carries self.old (c.Step k) self.new result }
        ensures few { self.new.count ≤ self.old.count + k }
        ensures fits { IfOk result (ReplyFits self.new.code (now self.new).world.lines) }
    {
        match step_on(
            alloc,
            &mut self.machine,
            &mut self.checkpoints,
            self.count,
            k,
        ) {
            Ok(done) => {
                self.count += u64::from(done);
                Ok(Reply::Stands(self.standing()))
            }
            Err(done) => {
                self.count += u64::from(done);
                Err(Halted {
                    done: u64::from(done),
                })
            }
        }
    }

    /// Runs to the least step that ends the run.
    pub(crate) fn run(&mut self, alloc: Global, k: u32) -> Result<Reply, Halted>
        requires { self.old.count + k < 2 ^ 64 }
        ensures carried { Carries self.old (c.Run k) self.new result }
        ensures few { self.new.count ≤ self.old.count + k }
        ensures fits { IfOk result (ReplyFits self.new.code (now self.new).world.lines) }
    {
        if self.machine.world().stop().is_some() {
            return Ok(Reply::Ran(Reason::Stopped, self.standing()));
        }
        match run_on(
            alloc,
            &mut self.machine,
            &mut self.checkpoints,
            &self.breakpoints,
            &self.watches,
            &mut self.before,
            self.count,
            k,
        ) {
            Ok((done, why)) => {
                self.count += u64::from(done);
                Ok(Reply::Ran(why, self.standing()))
            }
            Err(done) => {
                self.count += u64::from(done);
                Err(Halted {
                    done: u64::from(done),
                })
            }
        }
    }

    /// Goes back. Where memory is refused, all is as it was.
    pub(crate) fn back(&mut self, alloc: Global, k: u32) -> Result<Reply, Halted>
        ensures carried { Carries self.old (c.Back k) self.new result }
        ensures few { self.new.count ≤ self.old.count }
        ensures fits { IfOk result (ReplyFits self.new.code (now self.new).world.lines) }
    {
        if u64::from(k) > self.count {
            return Ok(Reply::Refused(CommandRefusal::BeforeStart));
        }
        match self.go_to(alloc, self.count - u64::from(k)) {
            Ok(()) => Ok(Reply::Stands(self.standing())),
            Err(_) => Err(Halted { done: 0 }),
        }
    }

    /// Goes back to the last step before this one at which a run would have ended, or to the start. Where memory is refused, all is as it was.
    pub(crate) fn reverse(&mut self, alloc: Global) -> Result<Reply, Halted>
        ensures carried { Carries self.old c.Reverse self.new result }
        ensures few { self.new.count ≤ self.old.count }
        ensures fits { IfOk result (ReplyFits self.new.code (now self.new).world.lines) }
    {
        match self.last_ending(alloc) {
            Ok(Some(ending)) => match self.go_to(alloc, ending.steps) {
                Ok(()) => Ok(Reply::Ran(ending.why, self.standing())),
                Err(_) => Err(Halted { done: 0 }),
            },
            Ok(None) => match self.go_to(alloc, 0) {
                Ok(()) => Ok(Reply::Stands(self.standing())),
                Err(_) => Err(Halted { done: 0 }),
            },
            Err(_) => Err(Halted { done: 0 }),
        }
    }

    // The last end of a run before this step.
    fn last_ending(&mut self, alloc: Global) -> Result<Option<Ending>, NoMemory>
        ensures same { self.new ≡ self.old }
        ensures found { IfOk result (λ f. ended f ≡ last_end self.old.breakpoints self.old.watches (started self.old.part self.old.code) (self.old.count - 1)) }
    {
        last_ending_before(
            alloc,
            self.loaded,
            self.part,
            &mut self.checkpoints,
            &self.breakpoints,
            &self.watches,
            &mut self.before,
            self.count,
        )
    }

    // Goes to so many steps. Where memory is refused, all is as it was.
    fn go_to(&mut self, alloc: Global, count: u64) -> Result<(), NoMemory>
        ensures gone { OnOk result (self.new ≡ at_count self.old count) }
        ensures stays { OnErr result (self.new ≡ self.old) }
    {
        match machine_at_last(alloc, self.loaded, self.part, &mut self.checkpoints, count) {
            Ok(machine) => {
                self.stand_at(machine, count);
                Ok(())
            }
            Err(refused) => Err(refused),
        }
    }

    // Goes on with a machine that has taken so many steps.
    fn stand_at(&mut self, machine: Machine<'a, P>, count: u64)
        requires { machine ≡ after self.old.part self.old.code count }
        ensures { self.new ≡ at_count self.old count }
    {
        self.machine = machine;
        self.count = count;
    }

    /// The last output lines.
    pub(crate) fn out(&self, k: u32) -> Reply
        ensures is { record { reply = result; session = self.now } ≡ answer self.now (c.Out k) }
        ensures fits { ReplyFits self.now.code (now self.now).world.lines result }
    {
        let lines = self.machine.world().lines().len();
        Reply::Lines(lines, lines.min(k as usize))
    }
}
