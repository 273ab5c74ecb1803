//! The ways of a run that turns its head, and its changes, gathered step by step.

ghost use Rattle.std.specs.Prelude.{◌≡◌, refl, ◌<◌, ◌∷◌, [], map, length, Some, IfOk, IfSome, OnOk, IsTrue};
ghost use Rattle.std.specs.List.{AllByRecursion};
ghost use Rattle.vcm_num.specs.Point.{is_near};
ghost use Rattle.vcm_code.specs.Valid.{IsValid};
ghost use Rattle.vcm_way.specs.Gone.{PlacedWay, placed_at, ways_in};
ghost use Rattle.vcm_way.specs.Seen.{IsNearWay};
ghost use Rattle.vcm_way.specs.Steps.{IsBefore, TaskEnds};
ghost use Rattle.vcm_clearance.specs.Contacts.{IsPlaced};
ghost use Rattle.vcm_turning.specs.Choosing.{probe_on, tipped, part_by};
ghost use Rattle.vcm_turning.specs.Machine.{HasTurningLimits, HangsNear};
ghost use Rattle.vcm_set_clearance.specs.Events.{goes, AreEvents, ways_with, change_with, pivot_at};
ghost use Rattle.vcm_set_clearance.specs.Report.{IsSetRun};
ghost use Rattle.vcm_set_clearance.specs.inner.Gathering.{HasAdded, HasGathered, ways_done};
ghost use Rattle.std.proofs.Common.{sym, subst};
ghost use Rattle.std.proofs.lemmas.List.{append-nil};

use crate::event::{Change, Event, ProbeWay};
use std::alloc::Global;
use vcm_fields::BorrowedStatement;
use vcm_loader::Loaded;
use vcm_marks::{Mark, Moment};
use vcm_motion::Part;
use vcm_num::{NoMemory, Point};
use vcm_part::PartData;
use vcm_probe_set::{Probe, ProbeSet};
use vcm_spec::{Stop, StopPlace};
use vcm_state::World;
use vcm_turning::{Ended, FollowsTurns, Turn, Turning, follow_turns};
use vcm_way::{Before, Gone, first_way, look, marks_of_step, reason};

/// A run with several probes: what happened in it, in order, how many steps were done, how it ended, and the stop that it came to, if it did.
#[derive(Drop)]
pub struct SetRun {
    pub events: Vec<Event>,
    pub done: u64,
    pub end: Ended,
    pub stop: Option<StopPlace>,
}

/// What was gathered so far, and whether the next way is the first, or the first behind a change.
#[derive(Drop)]
struct Gathered {
    events: Vec<Event>,
    is_first: bool,
}

/// What gathers: the workpiece of the part file, the probes, and the workpieces with their tips.
#[derive(Clone, Copy)]
struct Gatherer<'a, P: Part> {
    blocks: &'a PartData,
    probes: &'a [Probe],
    parts: &'a [P],
    each: &'a [PartData],
}

// Adds a way.
fn add_way(probe: usize, place: Moment, gone: Gone, to: &mut Gathered) -> Result<(), NoMemory>
    ensures { OnOk result ((p : PlacedWay) → IsPlaced place gone p → HasAdded to.old.is_first to.old.events.items to.new.events.items to.new.is_first
        (goes (record { way = p; probe = probe; is_first = to.old.is_first }) ∷ [])) }
{
    let is_first = to.is_first;
    to.events.push(Event::Way(ProbeWay {
        place,
        gone,
        probe,
        is_first,
    }))?;
    to.is_first = false;
    Ok(())
}

// Adds the ways among the marks of a step that was taken with the probe of this place.
fn add_ways(
    blocks: &PartData,
    probe: usize,
    place: Moment,
    marks: &[Mark],
    to: &mut Gathered,
) -> Result<(), NoMemory>
    requires { AllByRecursion IsNearWay (ways_in blocks.now marks.now) }
    ensures { OnOk result (HasAdded to.old.is_first to.old.events.items to.new.events.items to.new.is_first
        (ways_with probe to.old.is_first (placed_at place (ways_in blocks.now marks.now)))) }
{
    match marks.split_first() {
        None => Ok(()),
        Some((_, behind)) => match first_way(blocks, marks) {
            None => add_ways(blocks, probe, place, behind, to),
            Some(gone) => match add_way(probe, place, gone, to) {
                Ok(()) => add_ways(blocks, probe, place, behind, to),
                Err(fault) => Err(fault),
            },
        },
    }
}

// Where the pivot of a probe lies, the centre of its tip standing at a point.
fn pivot_at(at: Point, probe: &Probe) -> Point
    requires at { IsTrue (is_near at) }
    requires hangs { HangsNear (Some probe.now) at }
    ensures is { result ≡ pivot_at at probe.now }
    ensures near { IsTrue (is_near result) }
{
    let Point([x, y, z]) = at;
    let Point([a, b, c]) = probe.pivot();
    Point([x + a, y + b, z + c])
}

// Adds the change of the probe behind a step, if there is one.
fn add_turn(
    probes: &[Probe],
    place: Moment,
    from: Option<usize>,
    turn: Turn,
    stands: Point,
    to: &mut Gathered,
) -> Result<(), NoMemory>
    requires near { IsTrue (is_near stands) }
    requires there { IfSome turn.put (λ i. i < length probes.now) }
    requires hangs { IfSome turn.put (λ i. HangsNear (probe_on probes.now (Some i)) stands) }
    ensures { OnOk result (HasAdded to.old.is_first to.old.events.items to.new.events.items to.new.is_first (change_with probes.now place from turn.stood stands turn.put)) }
{
    match turn.put {
        None => Ok(()),
        Some(put) => {
            let pivot = pivot_at(stands, &probes[put]);
            to.events.push(Event::Turn(Change {
                place,
                from,
                to: put,
                stood: turn.stood,
                stands,
                pivot,
            }))?;
            to.is_first = true;
            Ok(())
        }
    }
}

impl<'a, P: Part> Gatherer<'a, P> {
    // Adds the ways of a step with the probe of this place on, if one is.
    fn add_step(
        &self,
        before: &Before,
        place: Moment,
        on: Option<usize>,
        stop: Option<Stop>,
        to: &mut Gathered,
    ) -> Result<(), NoMemory>
        requires each { self.now.each.now ≡ map (λ p. tipped self.now.blocks.now p.tip) self.now.probes.now }
        requires ties { map P.part self.now.parts.now ≡ self.now.each.now }
        requires there { IfSome on (λ i. i < length self.now.probes.now) }
        requires near { IsTrue (is_near before.now.position) }
        requires ends { TaskEnds (part_by self.now.blocks.now self.now.probes.now on) before.now.position before.now.settings before.now.task stop }
        ensures { OnOk result (HasAdded to.old.is_first to.old.events.items to.new.events.items to.new.is_first
            (ways_done self.now.blocks.now self.now.probes.now to.old.is_first place before.now stop on)) }
    {
        match on {
            None => Ok(()),
            Some(on) => {
                let blocks = &self.each[on];
                // It is called for what it tells of the limits: that they are valid.
                let _bounds = blocks.bounds();
                let marks = marks_of_step(&self.parts[on], blocks, before, stop);
                add_ways(blocks, on, place, marks.as_slice(), to)
            }
        }
    }
}

impl<P: Part> FollowsTurns<Gathered> for Gatherer<'_, P> {
    type Before = Before;

    type Fault = NoMemory;

    ghost Fits = { λ s part ps c. (s.each.now ≡ map (λ p. tipped s.blocks.now p.tip) s.probes.now) × (map P.part s.parts.now ≡ s.each.now) × (part ≡ s.blocks.now)
        × (ps ≡ s.probes.now) × IsValid c };

    ghost Looked = { λ s b w on statement. IsBefore s.blocks.now.bounds.home w statement b };

    ghost Has = { λ s tables from to ss. HasGathered s.blocks.now s.probes.now from.is_first from.events.items to.events.items to.is_first ss };

    ghost Broke = { λ s tables from to ss p f. Unit {0} };

    ghost nothing = { λ s tables x. (refl, λ hs h. subst (AreEvents x.events.items) (sym (append-nil hs)) h) };

    fn look(&self, world: &World, _on: Option<usize>, statement: &BorrowedStatement<'_>) -> Before {
        look(world, self.blocks.bounds().home, statement)
    }

    fn see(
        &self,
        before: Before,
        count: u64,
        number: u32,
        on: Option<usize>,
        statement: &BorrowedStatement<'_>,
        world: &World,
        _next: u32,
        turn: Turn,
        to: &mut Gathered,
    ) -> Result<(), NoMemory> {
        let place = Moment {
            step: count,
            number,
            line: statement.line,
        };
        let stands = world.near_position();
        match self.add_step(&before, place, on, reason(world.stop()), to) {
            Ok(()) => add_turn(self.probes, place, on, turn, stands, to),
            Err(fault) => Err(fault),
        }
    }
}

/// Runs a loaded code for at most so many steps with several probes, one of which the variable of this place chooses, beside a workpiece, whose blocks are given too, and
/// beside the workpieces with the tips of the probes, in their order. It answers what happened in the run.
///
/// Errors: want of memory, before the run or in it.
pub(crate) fn run_with_probes<P: Part>(
    alloc: Global,
    loaded: &Loaded<'_>,
    set: &ProbeSet,
    part: &P,
    blocks: &PartData,
    parts: &[P],
    each: &[PartData],
    variable: usize,
    steps: u64,
) -> Result<SetRun, NoMemory>
    requires tie { P.part part.now ≡ blocks.now }
    requires each { each.now ≡ map (λ p. tipped blocks.now p.tip) set.now.probes }
    requires ties { map P.part parts.now ≡ each.now }
    requires limits { HasTurningLimits blocks.now }
    requires variable { variable < length loaded.now.tables.variables }
    ensures { IfOk result (IsSetRun blocks.now set.now.probes variable loaded.now steps) }
{
    loaded.known_valid();
    let mut machine = Turning::new(alloc, loaded, set, part, blocks, parts, each, variable)?;
    let gatherer = Gatherer {
        blocks,
        probes: set.probes(),
        parts,
        each,
    };
    let mut gathered = Gathered {
        events: Vec::new(alloc),
        is_first: true,
    };
    let ran = follow_turns(alloc, loaded, &mut machine, steps, &gatherer, &mut gathered)?;
    match ran.end {
        Ended::NoMemory => Err(NoMemory),
        end => Ok(SetRun {
            events: gathered.events,
            done: ran.done,
            end,
            stop: machine.world().stop(),
        }),
    }
}
