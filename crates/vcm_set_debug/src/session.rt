//! A session of the debugger with several probes.

ghost use Rattle.std.specs.Prelude.{◌≡◌, ◌<◌, length, position, map, IfSome, IfOk};
ghost use Rattle.std.specs.Str.{bytes_eq};
ghost use Rattle.vcm_debug.specs.Session.{is_wanted};

use crate::course::Course;
use std::alloc::Global;
use std::marker::Model;
use vcm_console::{Command, Halted, Reply, Standing, VariableRef};
use vcm_debug::{feature_of, variable_of};
use vcm_items::Name;
use vcm_loader::Loaded;
use vcm_motion::Part;
use vcm_num::NoMemory;
use vcm_part::PartData;
use vcm_probe_set::ProbeSet;

/// A session on a code, a workpiece and several probes: a machine that turns its head, how many steps it has taken, breakpoints and watches. Contracts see it as a
/// `TurnedDebugging`.
#[derive(Drop)]
pub struct SetSession<'a, P: Part> {
    pub(crate) course: Course<'a, P>,
    pub(crate) breakpoints: Vec<bool>,
    pub(crate) watches: Vec<bool>,
    pub(crate) before: Vec<i64>,
}

impl<'a, P: Part> Model for SetSession<'a, P> {
    ghost use Rattle.vcm_set_debug.specs.Session.{TurnedDebugging};
    ghost use Rattle.vcm_set_debug.specs.inner.Going.{HasRoom};

    ghost Value = { TurnedDebugging };

    ghost view = { λ s. record { run = s.course; breakpoints = s.breakpoints.items; watches = s.watches.items } };

    ghost invariant = { λ s. HasRoom s.course s.breakpoints.items s.watches.items s.before.items };
}

impl<'a, P: Part> SetSession<'a, P> {
    ghost use Rattle.std.specs.Prelude.{◌≡◌, ◌<◌, ◌≤◌, ◌+◌, ◌^◌, length, map, IfOk, nat_lt, if◌then◌else◌, Some, None};
    ghost use Rattle.vcm_console.specs.Replies.{ReplyFits};
    ghost use Rattle.vcm_console.specs.Parsing.{steps_of};
    ghost use Rattle.vcm_debug.specs.Session.{standing};
    ghost use Rattle.vcm_turning.specs.Choosing.{tipped};
    ghost use Rattle.vcm_turning.specs.Machine.{HasTurningLimits};
    ghost use Rattle.vcm_set_debug.specs.Reached.{now};
    ghost use Rattle.vcm_set_debug.specs.Session.{opened, world, Carries};

    /// A session at the start of a code with several probes, of which the variable of this place chooses one, without breakpoints and watches. Besides the workpiece of the
    /// part file and its blocks it has those of each probe, in their order. All room for breakpoints and watches is made here.
    ///
    /// Errors: want of memory.
    pub fn new(
        alloc: Global,
        loaded: &'a Loaded<'a>,
        set: &'a ProbeSet,
        own: &'a P,
        blocks: &'a PartData,
        parts: &'a [P],
        each: &'a [PartData],
        variable: usize,
    ) -> Result<SetSession<'a, P>, NoMemory>
        requires tie { P.part own.now ≡ blocks.now }
        requires each { each.now ≡ map (λ p. tipped blocks.now p.tip) set.now.probes }
        requires ties { map P.part parts.now ≡ each.now }
        requires limits { HasTurningLimits blocks.now }
        requires variable { variable < length loaded.now.tables.variables }
        ensures { IfOk result (λ s. s ≡ opened blocks.now set.now.probes variable loaded.now) }
    {
        let statements = loaded.statement_count();
        let variables = loaded.variable_count();
        let breakpoints = vec![in alloc; false; statements]?;
        let watches = vec![in alloc; false; variables]?;
        let before = vec![in alloc; 0; variables]?;
        let course = Course::new(alloc, loaded, set, own, blocks, parts, each, variable)?;
        Ok(SetSession {
            course,
            breakpoints,
            watches,
            before,
        })
    }

    /// Carries a command out. A refused command is a reply, and changes nothing. Going back makes the run again from its start.
    ///
    /// Errors: want of memory, in `Step`, `Run`, `Back` and `Reverse` alone. After `Step` and `Run` the session stands at the steps done, after
    /// the other two it is unchanged.
    pub fn command(&mut self, alloc: Global, command: &Command) -> Result<Reply, Halted>
        requires { self.old.run.count + steps_of command.now < 2 ^ 64 }
        ensures carried { Carries self.old command.now self.new result }
        ensures few { self.new.run.count ≤ self.old.run.count + steps_of command.now }
        ensures fits { IfOk result (ReplyFits self.new.run.code (world self.new).lines) }
    {
        match command {
            Command::Break(n) => Ok(self.set_break(*n)),
            Command::Clear(n) => Ok(self.clear_break(*n)),
            Command::Line(line) => Ok(self.find_line(*line)),
            Command::Step(k) => self.step(alloc, k.get()),
            Command::Run(k) => self.run(alloc, k.get()),
            Command::Watch(wanted) => Ok(self.watch(wanted)),
            Command::Unwatch(wanted) => Ok(self.unwatch(wanted)),
            Command::Where => Ok(Reply::Stands(self.standing())),
            Command::Show(wanted) => Ok(self.show(wanted)),
            Command::Feat(name) => Ok(self.feat(name)),
            Command::List(number) => Ok(self.list(*number)),
            Command::Out(k) => Ok(self.out(k.get())),
            Command::Back(k) => self.back(alloc, k.get()),
            Command::Reverse => self.reverse(alloc),
            Command::Quit => Ok(Reply::Bye),
        }
    }

    /// The number of the next statement.
    pub(crate) fn next(&self) -> u32
        ensures is { result ≡ (now self.now.run).state.next }
        ensures within { result < length self.now.run.code.statements }
    {
        self.course.next()
    }

    /// Where it stands.
    pub fn standing(&self) -> Standing
        ensures { result ≡ standing self.now.run.code self.now.run.count (now self.now.run).state }
    {
        let next = self.next();
        Standing {
            steps: self.course.count(),
            next,
            line: self.course.loaded().line(next as usize),
            stop: self.course.world().stop(),
        }
    }

    /// The statement of this number, if there is one.
    pub(crate) fn statement(&self, number: u64) -> Option<u32>
        ensures { result ≡ (if nat_lt number (length self.now.run.code.statements) then Some number else None) }
    {
        if number < self.course.loaded().statement_count() as u64 {
            Some(number as u32)
        } else {
            None
        }
    }

    /// The lowest variable of this name.
    pub(crate) fn variable(&self, wanted: &VariableRef) -> Option<u16>
        ensures place { result ≡ position (is_wanted wanted.now) self.now.run.code.tables.variables }
        ensures within { IfSome result (λ i. i < length self.now.run.code.tables.variables) }
    {
        variable_of(self.course.world().tables(), wanted)
    }

    /// The lowest feature of this name.
    pub(crate) fn feature(&self, name: &Name) -> Option<u16>
        ensures place { result ≡ position (λ x. bytes_eq x name.now) self.now.run.code.tables.features }
        ensures within { IfSome result (λ i. i < length self.now.run.code.tables.features) }
    {
        feature_of(self.course.world().tables(), name)
    }
}
