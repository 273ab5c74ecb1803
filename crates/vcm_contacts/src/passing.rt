//! A machine that goes on behind contacts.

use crate::contact::{Contact, Lead};
use crate::leading::lead;
use std::alloc::Global;
use std::marker::Model;
use vcm_code::Pair;
use vcm_items::BoundedStack;
use vcm_loader::Loaded;
use vcm_machine::carry_out;
use vcm_motion::Part;
use vcm_num::NoMemory;
use vcm_part::PartData;
use vcm_spec::{Hit, MovePhase, Stop};
use vcm_state::{Halt, World};

/// A machine that carries out the code of a loaded image beside a workpiece, whose blocks are given too, and goes on behind each contact. The probe need not
/// be at rest. Contracts see it as a `Running`.
#[derive(Drop)]
pub(crate) struct Passing<'a, P: Part> {
    loaded: &'a Loaded<'a>,
    part: &'a P,
    blocks: &'a PartData,
    world: World,
    next: u32,
    pairs: [Pair; 32],
    stack: BoundedStack<i64>,
}

impl<'a, P: Part> Model for Passing<'a, P> {
    ghost use Rattle.std.specs.Prelude.{◌≡◌, ◌<◌, length};
    ghost use Rattle.vcm_code.specs.CodeTable.{code_state};
    ghost use Rattle.vcm_machine.specs.Running.{Running};
    ghost use Rattle.vcm_machine.specs.inner.Runnable.{IsRunnable};

    ghost Value = { Running };

    ghost view = { λ m. record { part = m.blocks.now; code = m.loaded.now; state = code_state m.world.state m.next m.pairs } };

    ghost invariant = { λ m. (P.part m.part.now ≡ m.blocks.now) × (m.world.tables ≡ m.loaded.now.tables) × IsRunnable m.loaded.now × (m.next < length m.loaded.now.statements) };
}

impl<'a, P: Part> Passing<'a, P> {
    ghost use Rattle.std.specs.Prelude.{◌≡◌, ◌<◌, None, Some, IfOk, OnErr, length, slice_get};
    ghost use Rattle.vcm_spec.specs.declared.stop.Stop.TheVariants.{Collision};
    ghost use Rattle.vcm_code.specs.Code.{CodeStatement};
    ghost use Rattle.vcm_machine.specs.Running.{started, WantsMemory};
    ghost use Rattle.vcm_contacts.specs.Leading.{lead};
    ghost use Rattle.vcm_contacts.specs.inner.Standing.{HasMet, IsStopping, IsLed, contact_at, led_on, halted};

    /// A machine at the start of a code.
    ///
    /// Errors: want of memory.
    pub(crate) fn new(
        alloc: Global,
        loaded: &'a Loaded<'a>,
        part: &'a P,
        blocks: &'a PartData,
    ) -> Result<Passing<'a, P>, NoMemory>
        requires { P.part part.now ≡ blocks.now }
        ensures { IfOk result (λ m. m ≡ started blocks.now loaded.now) }
    {
        loaded.known_valid();
        let tables = loaded.tables(alloc)?;
        let world = World::opening(alloc, tables, part.bounds().home)?;
        let pair = Pair {
            limit: 0,
            increment: 0,
        };
        Ok(Passing {
            loaded,
            part,
            blocks,
            world,
            next: 0,
            pairs: [pair; 32],
            stack: BoundedStack::new(),
        })
    }

    /// The state of the machine, with the tables of its names.
    pub(crate) fn world(&self) -> &World
        ensures state { result.now.state ≡ self.now.state.world }
        ensures tables { result.now.tables ≡ self.now.code.tables }
    {
        &self.world
    }

    /// The number of the next statement.
    pub(crate) fn next(&self) -> u32
        ensures is { result ≡ self.now.state.next }
        ensures within { result < length self.now.code.statements }
    {
        self.next
    }

    // The run stops at the next statement.
    fn halt(&mut self, stop: Stop)
        ensures { (s : CodeStatement) × (slice_get self.old.code.statements self.old.state.next ≡ Some s) × (self.new ≡ halted self.old s stop) }
    {
        let line = self.loaded.line(self.next as usize);
        self.world.set_stop(stop, self.next, line);
    }

    // The next statement met a block: how the run goes on.
    fn pass(&mut self, phase: MovePhase, hit: Hit) -> Contact
        requires { (s : CodeStatement) × IsStopping self.old (Collision phase hit) s }
        ensures { (s : CodeStatement) × (slice_get self.old.code.statements self.old.state.next ≡ Some s) × (result ≡ contact_at self.old phase hit s)
            × (self.new ≡ led_on self.old s (lead self.old.part self.old.state.world s.op phase hit)) }
    {
        // It is called for what it tells of the place: that it is near.
        let _at = self.world.near_position();
        let number = self.next;
        let statement = self.loaded.statement(number as usize);
        match lead(self.part, self.blocks, &self.world, &statement, phase, hit) {
            Lead::On(at) => {
                self.world.put(at);
                self.next += 1;
            }
            Lead::Again(at) => self.world.put(at),
            Lead::Back(at, feature, measured) => {
                self.world.put(at);
                self.world.set_actual(feature, measured);
                self.next += 1;
            }
            Lead::Stops(stop) => self.halt(stop),
        }
        Contact {
            phase,
            hit,
            number,
            line: statement.line,
        }
    }

    // The next statement has a stop: a contact is told, and passed.
    fn meet(&mut self, stop: Stop) -> Option<Contact>
        requires { (s : CodeStatement) × IsStopping self.old stop s }
        ensures { (s : CodeStatement) × (slice_get self.old.code.statements self.old.state.next ≡ Some s) × IsLed self.old s stop result self.new }
    {
        match stop {
            Stop::Collision(phase, hit) => Some(self.pass(phase, hit)),
            other => {
                self.halt(other);
                None
            }
        }
    }

    /// One step, where there is no stop: the contact behind which it goes on, if there is one.
    ///
    /// Errors: want of memory, at a statement that makes an output line and would not stop. The machine is then as it was.
    pub(crate) fn step(&mut self, alloc: Global) -> Result<Option<Contact>, NoMemory>
        requires { self.old.state.world.stop ≡ None }
        ensures ok { IfOk result (λ met. HasMet self.old met self.new) }
        ensures err { OnErr result ((self.new ≡ self.old) × WantsMemory self.old) }
    {
        let loaded = self.loaded;
        let (word, operands) = loaded.operands(self.next as usize);
        match carry_out(
            alloc,
            &mut self.stack,
            self.part,
            &mut self.world,
            &mut self.pairs,
            self.next,
            word,
            operands,
        ) {
            Ok(next) => {
                self.next = next;
                Ok(None)
            }
            Err(Halt::Stop(stop)) => Ok(self.meet(stop)),
            Err(Halt::NoMemory) => Err(NoMemory),
        }
    }
}
