//! What a session does on each command.

use crate::backward::{Ending, course_at, last_ending};
use crate::course::Course;
use crate::forward::{run_on, step_on, values};
use crate::session::SetSession;
use std::alloc::Global;
use vcm_console::{CommandRefusal, Halted, Reason, Reply, VariableRef};
use vcm_debug::{recorded, statement_on};
use vcm_items::Name;
use vcm_motion::Part;
use vcm_num::NoMemory;

impl<'a, P: Part> SetSession<'a, P> {
    ghost use Rattle.std.specs.Prelude.{◌≡◌, ◌<◌, ◌≤◌, ◌+◌, ◌-◌, ◌^◌, IfOk, OnOk, OnErr};
    ghost use Rattle.vcm_console.specs.Replies.{ReplyFits};
    ghost use Rattle.vcm_console.specs.declared.command.Command.TheVariants as c;
    ghost use Rattle.vcm_set_debug.specs.Halting.{reason_behind, last_end};
    ghost use Rattle.vcm_set_debug.specs.Session.{Carries, answer, at_count, world};
    ghost use Rattle.vcm_set_debug.specs.inner.Going.{ended};

    /// Sets a breakpoint.
    pub(crate) fn set_break(&mut self, number: u64) -> Reply
        ensures is { record { reply = result; session = self.new } ≡ answer self.old (c.Break number) }
        ensures same { self.new.run.count ≡ self.old.run.count }
        ensures fits { ReplyFits self.new.run.code (world self.new).lines result }
    {
        match self.statement(number) {
            Some(n) => {
                self.breakpoints[n as usize] = true;
                Reply::Set(n)
            }
            None => Reply::Refused(CommandRefusal::NoSuchStatement),
        }
    }

    /// Takes a breakpoint away.
    pub(crate) fn clear_break(&mut self, number: u64) -> Reply
        ensures is { record { reply = result; session = self.new } ≡ answer self.old (c.Clear number) }
        ensures same { self.new.run.count ≡ self.old.run.count }
        ensures fits { ReplyFits self.new.run.code (world self.new).lines result }
    {
        match self.statement(number) {
            Some(n) => {
                self.breakpoints[n as usize] = false;
                Reply::Cleared(n)
            }
            None => Reply::Refused(CommandRefusal::NoSuchStatement),
        }
    }

    /// The lowest statement of a source line.
    pub(crate) fn find_line(&self, line: u64) -> Reply
        ensures is { record { reply = result; session = self.now } ≡ answer self.now (c.Line line) }
        ensures fits { ReplyFits self.now.run.code (world self.now).lines result }
    {
        match statement_on(self.course.loaded(), line) {
            Some(n) => Reply::Found(line, n),
            None => Reply::Refused(CommandRefusal::NoSuchStatement),
        }
    }

    /// Watches a variable.
    pub(crate) fn watch(&mut self, wanted: &VariableRef) -> Reply
        ensures is { record { reply = result; session = self.new } ≡ answer self.old (c.Watch wanted.now) }
        ensures same { self.new.run.count ≡ self.old.run.count }
        ensures fits { ReplyFits self.new.run.code (world self.new).lines result }
    {
        match self.variable(wanted) {
            Some(v) => {
                self.watches[v as usize] = true;
                Reply::Watched(v)
            }
            None => Reply::Refused(CommandRefusal::NoSuchName),
        }
    }

    /// No longer watches a variable.
    pub(crate) fn unwatch(&mut self, wanted: &VariableRef) -> Reply
        ensures is { record { reply = result; session = self.new } ≡ answer self.old (c.Unwatch wanted.now) }
        ensures same { self.new.run.count ≡ self.old.run.count }
        ensures fits { ReplyFits self.new.run.code (world self.new).lines result }
    {
        match self.variable(wanted) {
            Some(v) => {
                self.watches[v as usize] = false;
                Reply::Unwatched(v)
            }
            None => Reply::Refused(CommandRefusal::NoSuchName),
        }
    }

    /// The value of a variable.
    pub(crate) fn show(&self, wanted: &VariableRef) -> Reply
        ensures is { record { reply = result; session = self.now } ≡ answer self.now (c.Show wanted.now) }
        ensures fits { ReplyFits self.now.run.code (world self.now).lines result }
    {
        match self.variable(wanted) {
            Some(v) => Reply::Value(v, values(&self.course)[v as usize]),
            None => Reply::Refused(CommandRefusal::NoSuchName),
        }
    }

    /// A feature, nominal and actual.
    pub(crate) fn feat(&self, name: &Name) -> Reply
        ensures is { record { reply = result; session = self.now } ≡ answer self.now (c.Feat name.now) }
        ensures fits { ReplyFits self.now.run.code (world self.now).lines result }
    {
        let world = self.course.world();
        match self.feature(name) {
            Some(f) => Reply::Features(
                f,
                recorded(world.nominal(), f),
                recorded(world.actual(), f),
            ),
            None => Reply::Refused(CommandRefusal::NoSuchName),
        }
    }

    /// The listing line of a statement, or of the next one.
    pub(crate) fn list(&self, number: Option<u64>) -> Reply
        ensures is { record { reply = result; session = self.now } ≡ answer self.now (c.List number) }
        ensures fits { ReplyFits self.now.run.code (world self.now).lines result }
    {
        match number {
            Some(number) => match self.statement(number) {
                Some(n) => Reply::Listed(n),
                None => Reply::Refused(CommandRefusal::NoSuchStatement),
            },
            None => Reply::Listed(self.next()),
        }
    }

    /// Takes steps.
    pub(crate) fn step(&mut self, alloc: Global, k: u32) -> Result<Reply, Halted>
        requires { self.old.run.count + k < 2 ^ 64 }
        ensures carried { Carries self.old (c.Step k) self.new result }
        ensures few { self.new.run.count ≤ self.old.run.count + k }
        ensures fits { IfOk result (ReplyFits self.new.run.code (world self.new).lines) }
    {
        match step_on(alloc, &mut self.course, k) {
            Ok(_) => Ok(Reply::Stands(self.standing())),
            Err(done) => Err(Halted {
                done: u64::from(done),
            }),
        }
    }

    /// Runs to the least step that ends the run.
    pub(crate) fn run(&mut self, alloc: Global, k: u32) -> Result<Reply, Halted>
        requires { self.old.run.count + k < 2 ^ 64 }
        ensures carried { Carries self.old (c.Run k) self.new result }
        ensures few { self.new.run.count ≤ self.old.run.count + k }
        ensures fits { IfOk result (ReplyFits self.new.run.code (world self.new).lines) }
    {
        if !self.course.goes() {
            return Ok(Reply::Ran(Reason::Stopped, self.standing()));
        }
        match run_on(
            alloc,
            &mut self.course,
            &self.breakpoints,
            &self.watches,
            &mut self.before,
            k,
        ) {
            Ok((_, why)) => Ok(Reply::Ran(why, self.standing())),
            Err(done) => Err(Halted {
                done: u64::from(done),
            }),
        }
    }

    /// Goes back. Where memory is refused, all is as it was.
    pub(crate) fn back(&mut self, alloc: Global, k: u32) -> Result<Reply, Halted>
        ensures carried { Carries self.old (c.Back k) self.new result }
        ensures few { self.new.run.count ≤ self.old.run.count }
        ensures fits { IfOk result (ReplyFits self.new.run.code (world self.new).lines) }
    {
        let count = self.course.count();
        if u64::from(k) > count {
            return Ok(Reply::Refused(CommandRefusal::BeforeStart));
        }
        match self.go_to(alloc, count - u64::from(k)) {
            Ok(()) => Ok(Reply::Stands(self.standing())),
            Err(_) => Err(Halted { done: 0 }),
        }
    }

    /// Goes back to the last step before this one at which a run would have ended, or to the start. Where memory is refused, all is as it was.
    pub(crate) fn reverse(&mut self, alloc: Global) -> Result<Reply, Halted>
        ensures carried { Carries self.old c.Reverse self.new result }
        ensures few { self.new.run.count ≤ self.old.run.count }
        ensures fits { IfOk result (ReplyFits self.new.run.code (world self.new).lines) }
    {
        match self.last_ending(alloc) {
            Ok(Some(ending)) => match self.go_to(alloc, ending.steps) {
                Ok(()) => Ok(Reply::Ran(ending.why, self.standing())),
                Err(_) => Err(Halted { done: 0 }),
            },
            Ok(None) => match self.go_to(alloc, 0) {
                Ok(()) => Ok(Reply::Stands(self.standing())),
                Err(_) => Err(Halted { done: 0 }),
            },
            Err(_) => Err(Halted { done: 0 }),
        }
    }

    // The last end of a run before this step.
    fn last_ending(&mut self, alloc: Global) -> Result<Option<Ending>, NoMemory>
        ensures same { self.new ≡ self.old }
        ensures found { IfOk result (λ f. ended f ≡ last_end (reason_behind self.old.breakpoints self.old.watches self.old.run) (self.old.run.count - 1)) }
    {
        last_ending(
            alloc,
            &self.course,
            &self.breakpoints,
            &self.watches,
            &mut self.before,
        )
    }

    // Goes to so many steps, of those that were taken. Where memory is refused, all is as it was.
    fn go_to(&mut self, alloc: Global, count: u64) -> Result<(), NoMemory>
        requires { count ≤ self.old.run.count }
        ensures gone { OnOk result (self.new ≡ at_count self.old count) }
        ensures stays { OnErr result (self.new ≡ self.old) }
    {
        match course_at(alloc, &self.course, count) {
            Ok(course) => {
                self.stand_at(course);
                Ok(())
            }
            Err(refused) => Err(refused),
        }
    }

    // Goes on with this run of the same code.
    fn stand_at(&mut self, course: Course<'a, P>)
        requires { course.code ≡ self.old.run.code }
        ensures { self.new ≡ record (self.old) { run = course.entry } }
    {
        self.course = course;
    }

    /// The last output lines.
    pub(crate) fn out(&self, k: u32) -> Reply
        ensures is { record { reply = result; session = self.now } ≡ answer self.now (c.Out k) }
        ensures fits { ReplyFits self.now.run.code (world self.now).lines result }
    {
        let lines = self.course.world().lines().len();
        Reply::Lines(lines, lines.min(k as usize))
    }
}
