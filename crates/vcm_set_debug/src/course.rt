//! How far a run with several probes has come.

ghost use Rattle.std.specs.Prelude.{◌≡◌, length, map};
ghost use Rattle.vcm_turning.specs.Choosing.{tipped};
ghost use Rattle.vcm_turning.specs.Machine.{HasTurningLimits};

use std::alloc::Global;
use std::marker::Model;
use vcm_loader::Loaded;
use vcm_motion::Part;
use vcm_num::NoMemory;
use vcm_part::PartData;
use vcm_probe_set::{Probe, ProbeSet};
use vcm_state::World;
use vcm_turning::{NoProbe, Turning, probe_on};

/// A machine that turns its head, all that another one is begun with, and how many steps it has taken. Contracts see it as a `Reached`.
#[derive(Drop)]
pub(crate) struct Course<'a, P: Part> {
    loaded: &'a Loaded<'a>,
    set: &'a ProbeSet,
    own: &'a P,
    blocks: &'a PartData,
    parts: &'a [P],
    each: &'a [PartData],
    variable: usize,
    machine: Turning<'a, P>,
    count: u64,
}

impl<'a, P: Part> Model for Course<'a, P> {
    ghost use Rattle.std.specs.Prelude.{◌≡◌, ◌<◌, length, map};
    ghost use Rattle.vcm_turning.specs.Choosing.{tipped};
    ghost use Rattle.vcm_turning.specs.Machine.{HasTurningLimits};
    ghost use Rattle.vcm_set_debug.specs.Reached.{Reached};
    ghost use Rattle.vcm_set_debug.specs.inner.Going.{HasReached};

    ghost Value = { Reached };

    ghost view = { λ c. record { part = c.blocks.now; probes = c.set.now.probes; variable = c.variable; code = c.loaded.now; count = c.count } };

    ghost invariant = { λ c. HasReached (record { part = c.blocks.now; probes = c.set.now.probes; variable = c.variable; code = c.loaded.now; count = c.count }) c.machine
        × (P.part c.own.now ≡ c.blocks.now) × (c.each.now ≡ map (λ p. tipped c.blocks.now p.tip) c.set.now.probes) × (map P.part c.parts.now ≡ c.each.now)
        × HasTurningLimits c.blocks.now × (c.variable < length c.loaded.now.tables.variables) };
}

impl<'a, P: Part> Course<'a, P> {
    ghost use Rattle.std.specs.Prelude.{◌≡◌, ◌<◌, ◌+◌, ◌^◌, ℕ, true, length, map, option_map, IfOk, OnOk, OnErr};
    ghost use Rattle.vcm_machine.specs.Running.{WantsMemory};
    ghost use Rattle.vcm_turning.specs.Choosing.{tipped, probe_on};
    ghost use Rattle.vcm_turning.specs.Machine.{HasTurningLimits};
    ghost use Rattle.vcm_set_debug.specs.Reached.{at_start, behind, now, machine_at, lost, goes};

    /// A run at its start.
    ///
    /// Errors: want of memory.
    pub(crate) fn new(
        alloc: Global,
        loaded: &'a Loaded<'a>,
        set: &'a ProbeSet,
        own: &'a P,
        blocks: &'a PartData,
        parts: &'a [P],
        each: &'a [PartData],
        variable: usize,
    ) -> Result<Course<'a, P>, NoMemory>
        requires tie { P.part own.now ≡ blocks.now }
        requires each { each.now ≡ map (λ p. tipped blocks.now p.tip) set.now.probes }
        requires ties { map P.part parts.now ≡ each.now }
        requires limits { HasTurningLimits blocks.now }
        requires variable { variable < length loaded.now.tables.variables }
        ensures { IfOk result (λ c. c ≡ at_start blocks.now set.now.probes variable loaded.now) }
    {
        let machine = Turning::new(alloc, loaded, set, own, blocks, parts, each, variable)?;
        Ok(Course {
            loaded,
            set,
            own,
            blocks,
            parts,
            each,
            variable,
            machine,
            count: 0,
        })
    }

    /// The same run at its start.
    ///
    /// Errors: want of memory.
    pub(crate) fn anew(&self, alloc: Global) -> Result<Course<'a, P>, NoMemory>
        ensures { IfOk result (λ c. c ≡ behind self.now 0) }
    {
        Course::new(
            alloc,
            self.loaded,
            self.set,
            self.own,
            self.blocks,
            self.parts,
            self.each,
            self.variable,
        )
    }

    /// How many steps were taken.
    pub(crate) fn count(&self) -> u64
        ensures { result ≡ self.now.count }
    {
        self.count
    }

    /// The code.
    pub(crate) fn loaded(&self) -> &'a Loaded<'a>
        ensures { result.now ≡ self.now.code }
    {
        self.loaded
    }

    /// The state of the machine, with the tables of its names.
    pub(crate) fn world(&self) -> &World
        ensures state { result.now.state ≡ (now self.now).state.world }
        ensures tables { result.now.tables ≡ self.now.code.tables }
    {
        self.machine.world()
    }

    /// The number of the next statement.
    pub(crate) fn next(&self) -> u32
        ensures is { result ≡ (now self.now).state.next }
        ensures within { result < length self.now.code.statements }
    {
        self.machine.next()
    }

    /// The probe that is on, if one is.
    pub(crate) fn probe(&self) -> Option<&Probe>
        ensures { option_map (λ p. p.now) result ≡ probe_on self.now.probes (now self.now).on }
    {
        probe_on(self.set.probes(), self.machine.on())
    }

    /// Why the run ends here without a probe, if it does.
    pub(crate) fn lost(&self) -> Option<NoProbe>
        ensures { result ≡ lost self.now self.now.count }
    {
        if self.machine.world().stop().is_some() {
            return None;
        }
        let statement = self.loaded.statement(self.machine.next() as usize);
        self.machine.lost(&statement)
    }

    /// Whether another step is taken.
    pub(crate) fn goes(&self) -> bool
        ensures { result ≡ goes self.now self.now.count }
    {
        self.world().stop().is_none() && self.lost().is_none()
    }

    /// It tells that each step so far was taken.
    pub(crate) fn known_taken(&self)
        ensures { (i : ℕ) → i < self.now.count → goes self.now i ≡ true }
    {
        // The field is looked at for what is known of the whole.
        let _ = &self.count;
    }

    /// Another step.
    ///
    /// Errors: want of memory. All is then as it was.
    pub(crate) fn advance(&mut self, alloc: Global) -> Result<(), NoMemory>
        requires few { self.old.count + 1 < 2 ^ 64 }
        requires goes { goes self.old self.old.count ≡ true }
        ensures ok { OnOk result (self.new ≡ behind self.old (self.old.count + 1)) }
        ensures err { OnErr result ((self.new ≡ self.old) × WantsMemory (machine_at self.old self.old.count)) }
    {
        // It is called for what it tells of the number: that there is such a statement.
        let _next = self.machine.next();
        match self.machine.step(alloc) {
            Ok(_) => {
                self.count += 1;
                Ok(())
            }
            Err(refused) => Err(refused),
        }
    }
}
