//! A machine that turns its head between steps.

ghost use Rattle.std.specs.Prelude.{◌≡◌, ◌&&◌, not};
ghost use Rattle.vcm_turning.specs.Choosing.{is_held};
ghost use Rattle.vcm_turning.specs.Turning.{is_motion};

use crate::choosing::{is_held, place_with, probe_on, put_at};
use crate::ended::NoProbe;
use crate::turn::Turn;
use std::alloc::Global;
use std::marker::Model;
use vcm_code::Pair;
use vcm_fields::BorrowedStatement;
use vcm_items::BoundedStack;
use vcm_loader::Loaded;
use vcm_machine::carry_out;
use vcm_motion::Part;
use vcm_num::{NoMemory, Point};
use vcm_part::PartData;
use vcm_probe_set::{Probe, ProbeSet};
use vcm_spec::{Feature, Stop};
use vcm_state::{Halt, World};
use vcm_way::{Task, look};

/// A machine that carries out the code of a loaded image with several probes: beside the workpiece with the tip of the probe that is on, and turning its head
/// behind a step where the variable chooses another one. Besides the workpiece of the part file and its blocks it has those of each probe, in their order. The probe
/// need not be at rest. Contracts see it as a `Turner`.
#[derive(Drop)]
pub struct Turning<'a, P: Part> {
    loaded: &'a Loaded<'a>,
    set: &'a ProbeSet,
    part: &'a P,
    blocks: &'a PartData,
    parts: &'a [P],
    each: &'a [PartData],
    variable: usize,
    world: World,
    next: u32,
    on: Option<usize>,
    pairs: [Pair; 32],
    stack: BoundedStack<i64>,
}

impl<'a, P: Part> Model for Turning<'a, P> {
    ghost use Rattle.std.specs.Prelude.{◌≡◌, ◌<◌, length, map, IfSome};
    ghost use Rattle.vcm_code.specs.CodeTable.{code_state};
    ghost use Rattle.vcm_machine.specs.inner.Runnable.{IsRunnable};
    ghost use Rattle.vcm_turning.specs.Choosing.{probe_on, tipped};
    ghost use Rattle.vcm_probe_set.specs.Probes.{IsProbe};
    ghost use Rattle.vcm_turning.specs.Machine.{Turner, HasTurningLimits, HangsNear};

    ghost Value = { Turner };

    ghost view = { λ m. record {
      part = m.blocks.now;
      probes = m.set.now.probes;
      variable = m.variable;
      code = m.loaded.now;
      state = code_state m.world.state m.next m.pairs;
      on = m.on;
    } };

    ghost invariant = { λ m. (P.part m.part.now ≡ m.blocks.now) × (m.each.now ≡ map (λ p. tipped m.blocks.now p.tip) m.set.now.probes)
        × (map P.part m.parts.now ≡ m.each.now) × HasTurningLimits m.blocks.now × (m.world.tables ≡ m.loaded.now.tables) × IsRunnable m.loaded.now
        × (m.next < length m.loaded.now.statements) × (m.variable < length m.loaded.now.tables.variables) × IfSome m.on (λ i. i < length m.set.now.probes)
        × IfSome (probe_on m.set.now.probes m.on) IsProbe × HangsNear (probe_on m.set.now.probes m.on) m.world.state.position };
}

// Whether a task moves the probe.
fn is_motion(task: Task) -> bool
    ensures { result ≡ is_motion task }
{
    match task {
        Task::Nowhere => false,
        Task::Straight(_) => true,
        Task::Measure(_) => true,
    }
}

// Whether a task moves the probe, and the chosen one isn't on.
fn is_missed(task: Task, probes: &[Probe], on: Option<usize>, value: i64) -> bool
    ensures { result ≡ (is_motion task && not (is_held probes.now on value)) }
{
    is_motion(task) && !is_held(probes, on, value)
}

impl<'a, P: Part> Turning<'a, P> {
    ghost use Rattle.std.specs.Prelude.{◌≡◌, ◌<◌, None, true, false, length, map, IfOk, IfSome, OnErr, MatchOption};
    ghost use Rattle.vcm_num.specs.Point.{coordinate};
    ghost use Rattle.vcm_spec.specs.Workpiece.{is_within};
    ghost use Rattle.vcm_code.specs.Code.{CodeStatement};
    ghost use Rattle.vcm_code.specs.Valid.{IsLast};
    ghost use Rattle.vcm_machine.specs.Running.{WantsMemory};
    ghost use Rattle.vcm_turning.specs.Choosing.{value_of, probe_on, put_at, tipped, part_by};
    ghost use Rattle.vcm_turning.specs.Turning.{is_lost};
    ghost use Rattle.vcm_turning.specs.Machine.{turner, turned_of, carrier, StandsAt, HasTurningLimits, HangsNear, HasGone, HasTurned, halted, with_probe, placed, with_actual, skipped};

    /// A machine at the start of a code, with no probe on. The variable is that of this place.
    ///
    /// Errors: want of memory.
    pub fn new(
        alloc: Global,
        loaded: &'a Loaded<'a>,
        set: &'a ProbeSet,
        part: &'a P,
        blocks: &'a PartData,
        parts: &'a [P],
        each: &'a [PartData],
        variable: usize,
    ) -> Result<Turning<'a, P>, NoMemory>
        requires tie { P.part part.now ≡ blocks.now }
        requires each { each.now ≡ map (λ p. tipped blocks.now p.tip) set.now.probes }
        requires ties { map P.part parts.now ≡ each.now }
        requires limits { HasTurningLimits blocks.now }
        requires variable { variable < length loaded.now.tables.variables }
        ensures { IfOk result (λ m. m ≡ turner blocks.now set.now.probes variable loaded.now) }
    {
        loaded.known_valid();
        let tables = loaded.tables(alloc)?;
        let world = World::opening(alloc, tables, part.bounds().home)?;
        let pair = Pair {
            limit: 0,
            increment: 0,
        };
        Ok(Turning {
            loaded,
            set,
            part,
            blocks,
            parts,
            each,
            variable,
            world,
            next: 0,
            on: None,
            pairs: [pair; 32],
            stack: BoundedStack::new(),
        })
    }

    /// The number of the next statement.
    pub fn next(&self) -> u32
        ensures is { result ≡ self.now.state.next }
        ensures within { result < length self.now.code.statements }
    {
        self.next
    }

    /// The state of the machine, with the tables of its names.
    pub fn world(&self) -> &World
        ensures state { result.now.state ≡ self.now.state.world }
        ensures tables { result.now.tables ≡ self.now.code.tables }
        ensures hangs { HangsNear (probe_on self.now.probes self.now.on) self.now.state.world.position }
    {
        &self.world
    }

    /// The state of the machine, alone.
    pub fn into_world(self) -> World
        ensures state { result.state ≡ self.entry.state.world }
        ensures tables { result.tables ≡ self.entry.code.tables }
    {
        let Turning { world, .. } = self;
        world
    }

    /// The place of the probe that is on, if one is.
    pub fn on(&self) -> Option<usize>
        ensures is { result ≡ self.now.on }
        ensures there { IfSome self.now.on (λ i. i < length self.now.probes) }
    {
        self.on
    }

    /// The workpiece with the tip of the probe that is on.
    pub fn part(&self) -> &'a P
        ensures { P.part result.now ≡ part_by self.now.part self.now.probes self.now.on }
    {
        match self.on {
            None => self.part,
            Some(place) => &self.parts[place],
        }
    }

    /// The same with its blocks.
    pub fn blocks(&self) -> &'a PartData
        ensures { result.now ≡ part_by self.now.part self.now.probes self.now.on }
    {
        match self.on {
            None => self.blocks,
            Some(place) => &self.each[place],
        }
    }

    // The value of the variable that chooses.
    fn value(&self) -> i64
        ensures { result ≡ value_of self.now.state.world self.now.variable }
    {
        self.world.variables()[self.variable]
    }

    /// Why the run ends before the next statement, if it does: that moves, and the chosen probe isn't on.
    pub fn lost(&self, statement: &BorrowedStatement<'_>) -> Option<NoProbe>
        requires { StandsAt self.now statement.now }
        ensures { MatchOption result (is_lost self.now.part.bounds.home self.now.probes self.now.variable (turned_of self.now) statement.now.op ≡ false)
            (λ e. (is_lost self.now.part.bounds.home self.now.probes self.now.variable (turned_of self.now) statement.now.op ≡ true)
            × (e ≡ record { value = value_of self.now.state.world self.now.variable; number = self.now.state.next; line = statement.now.line })) }
    {
        // It is called for what it tells of the place: that it is near.
        let _at = self.world.near_position();
        let before = look(&self.world, self.blocks.bounds().home, statement);
        let value = self.value();
        if is_missed(before.task, self.set.probes(), self.on, value) {
            Some(NoProbe {
                value,
                number: self.next,
                line: statement.line,
            })
        } else {
            None
        }
    }

    /// The run stops at the next statement.
    pub fn halt(&mut self, stop: Stop) -> Turn
        ensures turn { result ≡ record { stood = self.old.state.world.position; put = None } }
        ensures halted { (s : CodeStatement) × StandsAt self.old s × (self.new ≡ halted self.old s stop) }
    {
        let stood = self.world.position();
        let line = self.loaded.line(self.next as usize);
        self.world.set_stop(stop, self.next, line);
        Turn { stood, put: None }
    }

    /// The chosen probe is put on, unless it is on.
    pub fn turn(&mut self) -> Turn
        ensures turn { result ≡ record { stood = self.old.state.world.position; put = put_at self.old.probes self.old.on (value_of self.old.state.world self.old.variable) } }
        ensures behind { self.new ≡ with_probe self.old result.put }
    {
        let stood = self.world.near_position();
        let value = self.value();
        let probes = self.set.probes();
        match put_at(probes, self.on, value) {
            None => Turn { stood, put: None },
            Some(place) => {
                let at = place_with(stood, probe_on(probes, self.on), &probes[place]);
                self.world.put(at);
                self.on = Some(place);
                Turn {
                    stood,
                    put: Some(place),
                }
            }
        }
    }

    /// The centre of the tip is put at a point within the limits, without a move.
    pub fn stand(&mut self, at: Point)
        requires { is_within self.old.part.bounds (coordinate at) ≡ true }
        ensures { self.new ≡ placed self.old at }
    {
        self.world.put(at);
    }

    /// A feature, given by its index, is measured: it is then at a point of part coordinates, with a direction.
    pub fn set_actual(&mut self, feature: u16, measured: Feature)
        requires { feature < length self.old.code.tables.features }
        ensures { self.new ≡ with_actual self.old feature measured }
    {
        self.world.set_actual(feature, measured);
    }

    /// The statement behind the next one comes next instead of it.
    pub fn skip(&mut self)
        requires { (s : CodeStatement) × StandsAt self.old s × (IsLast s.op → ⊥) }
        ensures { self.new ≡ skipped self.old }
    {
        self.next += 1;
    }

    /// Carries out the next statement with the probe that is on, where there is no stop. It answers the statement's stop, if it has one; the machine is then as it was.
    ///
    /// Errors: want of memory, at a statement that makes an output line and would not stop. The machine is then as it was.
    pub fn go(&mut self, alloc: Global) -> Result<Option<Stop>, NoMemory>
        requires { self.old.state.world.stop ≡ None }
        ensures ok { IfOk result (λ stop. HasGone self.old stop self.new) }
        ensures err { OnErr result ((self.new ≡ self.old) × WantsMemory (carrier self.old.part self.old.probes self.old.code (turned_of self.old))) }
    {
        let loaded = self.loaded;
        let part = self.part();
        let (word, operands) = loaded.operands(self.next as usize);
        match carry_out(
            alloc,
            &mut self.stack,
            part,
            &mut self.world,
            &mut self.pairs,
            self.next,
            word,
            operands,
        ) {
            Ok(next) => {
                self.next = next;
                Ok(None)
            }
            Err(Halt::Stop(stop)) => Ok(Some(stop)),
            Err(Halt::NoMemory) => Err(NoMemory),
        }
    }

    /// One step, where there is no stop and the statement isn't lost.
    ///
    /// Errors: want of memory, at a statement that makes an output line and would not stop. The machine is then as it was.
    pub fn step(&mut self, alloc: Global) -> Result<Turn, NoMemory>
        requires { self.old.state.world.stop ≡ None }
        ensures ok { IfOk result (λ turn. HasTurned self.old turn self.new) }
        ensures err { OnErr result ((self.new ≡ self.old) × WantsMemory (carrier self.old.part self.old.probes self.old.code (turned_of self.old))) }
    {
        match self.go(alloc) {
            Ok(None) => Ok(self.turn()),
            Ok(Some(stop)) => Ok(self.halt(stop)),
            Err(fault) => Err(fault),
        }
    }
}
