//! The machine.

use crate::ran::{End, Ran};
use crate::stepping::carry_out;
use std::alloc::Global;
use std::marker::Model;
use vcm_code::Pair;
use vcm_items::BoundedStack;
use vcm_loader::Loaded;
use vcm_motion::Part;
use vcm_num::NoMemory;
use vcm_spec::StopPlace;
use vcm_state::{Halt, World};

/// A machine that carries out the code of a loaded image beside a workpiece. Each step reads its statement from the bytes of the image as it carries
/// it out. Contracts see it as a `Running`.
#[derive(Drop)]
pub struct Machine<'a, P: Part> {
    loaded: &'a Loaded<'a>,
    part: &'a P,
    world: World,
    next: u32,
    pairs: [Pair; 32],
    stack: BoundedStack<i64>,
}

impl<'a, P: Part> Model for Machine<'a, P> {
    ghost use Rattle.std.specs.Prelude.{◌≡◌, ◌<◌, length};
    ghost use Rattle.vcm_code.specs.CodeTable.{code_state};
    ghost use Rattle.vcm_machine.specs.Running.{Running};
    ghost use Rattle.vcm_machine.specs.inner.Runnable.{IsRunnable};
    ghost use Rattle.vcm_spec.specs.Rests.{Rests};

    ghost Value = { Running };

    ghost view = { λ m. record { part = P.part m.part.now; code = m.loaded.now; state = code_state m.world.state m.next m.pairs } };

    ghost invariant = { λ m. (m.world.tables ≡ m.loaded.now.tables) × IsRunnable m.loaded.now × (m.next < length m.loaded.now.statements) × Rests (P.part m.part.now) m.world.state };
}

impl<'a, P: Part> Machine<'a, P> {
    ghost use Rattle.std.specs.Prelude.{◌≡◌, ◌<◌, length, None, IfOk, OnOk, OnErr};
    ghost use Rattle.vcm_machine.specs.Running.{started, later, WantsMemory, HasRun};
    ghost use Rattle.vcm_spec.specs.Rests.{Rests};

    /// A machine at the start of a code.
    ///
    /// Errors: want of memory.
    pub fn new(
        alloc: Global,
        loaded: &'a Loaded<'a>,
        part: &'a P,
    ) -> Result<Machine<'a, P>, NoMemory>
        ensures { IfOk result (λ m. m ≡ started (P.part part.now) loaded.now) }
    {
        loaded.known_valid();
        let tables = loaded.tables(alloc)?;
        let world = World::opening(alloc, tables, part.bounds().home)?;
        let pair = Pair {
            limit: 0,
            increment: 0,
        };
        Ok(Machine {
            loaded,
            part,
            world,
            next: 0,
            pairs: [pair; 32],
            stack: BoundedStack::new(),
        })
    }

    /// A machine that stands where this one does, with what its loops keep.
    ///
    /// Errors: want of memory.
    pub fn copy(&self, alloc: Global) -> Result<Machine<'a, P>, NoMemory>
        ensures { IfOk result (λ m. m ≡ self.now) }
    {
        let world = self.world.copy(alloc)?;
        Ok(Machine {
            loaded: self.loaded,
            part: self.part,
            world,
            next: self.next,
            pairs: self.pairs,
            stack: BoundedStack::new(),
        })
    }

    /// The number of the next statement: at a stop that of the statement which stopped.
    pub fn next(&self) -> u32
        ensures is { result ≡ self.now.state.next }
        ensures within { result < length self.now.code.statements }
    {
        self.next
    }

    /// The state of the machine, with the tables of its names.
    pub fn world(&self) -> &World
        ensures state { result.now.state ≡ self.now.state.world }
        ensures tables { result.now.tables ≡ self.now.code.tables }
        ensures rests { Rests self.now.part self.now.state.world }
    {
        &self.world
    }

    /// The state of the machine, alone.
    pub fn into_world(self) -> World
        ensures state { result.state ≡ self.entry.state.world }
        ensures tables { result.tables ≡ self.entry.code.tables }
        ensures rests { Rests self.entry.part result.state }
    {
        let Machine { world, .. } = self;
        world
    }

    /// One step. At a stop nothing is done.
    ///
    /// Errors: want of memory, at a statement that makes an output line and would not stop. The machine is then as it was.
    pub fn step(&mut self, alloc: Global) -> Result<(), NoMemory>
        ensures ok { OnOk result (self.new ≡ later 1 self.old) }
        ensures err { OnErr result ((self.new ≡ self.old) × WantsMemory self.old) }
    {
        match self.world.stop() {
            Some(_) => Ok(()),
            None => self.go_on(alloc),
        }
    }

    // One step where there is no stop.
    #[inline(always)]
    fn go_on(&mut self, alloc: Global) -> Result<(), NoMemory>
        requires { self.old.state.world.stop ≡ None }
        ensures ok { OnOk result (self.new ≡ later 1 self.old) }
        ensures err { OnErr result ((self.new ≡ self.old) × WantsMemory self.old) }
    {
        let loaded = self.loaded;
        let (word, operands) = loaded.operands(self.next as usize);
        match carry_out(
            alloc,
            &mut self.stack,
            self.part,
            &mut self.world,
            &mut self.pairs,
            self.next,
            word,
            operands,
        ) {
            Ok(next) => {
                self.next = next;
                Ok(())
            }
            Err(Halt::Stop(stop)) => {
                let line = loaded.line(self.next as usize);
                self.world.set_stop(stop, self.next, line);
                Ok(())
            }
            Err(Halt::NoMemory) => Err(NoMemory),
        }
    }

    // The stop, if there is one.
    fn stop(&self) -> Option<StopPlace>
        ensures { result ≡ self.now.state.world.stop }
    {
        self.world.stop()
    }

    /// At most n steps: how many were done, the one that stopped included, and how the run ended. After want of memory the machine stands behind
    /// the steps that were done, and the call may be repeated.
    pub fn run(&mut self, alloc: Global, n: u64) -> Ran
        ensures { HasRun n self.old self.new result }
    {
        let mut done = 0;
        while done < n {
            match self.stop() {
                Some(_) => {
                    let end = End::Stopped;
                    return Ran { done, end };
                }
                None => match self.go_on(alloc) {
                    Ok(()) => done += 1,
                    Err(_) => {
                        let end = End::NoMemory;
                        return Ran { done, end };
                    }
                },
            }
        }
        match self.stop() {
            Some(_) => {
                let end = End::Stopped;
                Ran { done, end }
            }
            None => {
                let end = End::Count;
                Ran { done, end }
            }
        }
    }
}
