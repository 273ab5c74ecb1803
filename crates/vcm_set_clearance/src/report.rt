//! What a run with several probes came to: the rooms of all bodies, and what is counted.

use crate::event::{Change, Event, ProbeWay};
use crate::gathering::SetRun;
use crate::rooms::{is_turn, room_of, swing_room};
use std::alloc::Global;
use vcm_boxes::ShortName;
use vcm_clearance::Room;
use vcm_num::{NoMemory, Point};
use vcm_part::PartData;
use vcm_probe_set::{Body, ProbeSet};
use vcm_spec::Block3;

/// The rooms of bodies, in their order.
#[derive(Drop)]
pub(crate) struct Rooms {
    pub(crate) rooms: Vec<Room>,
}

/// How many ways went by a probe, and the rooms of its bodies.
#[derive(Drop)]
pub(crate) struct ProbeRooms {
    pub(crate) ways: u64,
    pub(crate) rooms: Rooms,
}

/// What a run came to: the rooms of each probe, and those of the swing; how many ways there were, how many changes, at how many of them the head turned, and at how many
/// ends of ways the pivot lies beyond its limits.
#[derive(Drop)]
pub(crate) struct Report {
    pub(crate) probes: Vec<ProbeRooms>,
    pub(crate) swing: Rooms,
    pub(crate) ways: u64,
    pub(crate) changes: u64,
    pub(crate) turns: u64,
    pub(crate) beyond: u64,
}

// How many ways by the probe of this place are among these events.
fn count_ways(probe: usize, events: &[Event]) -> u64 {
    let mut count: u64 = 0;
    for event in events {
        if let Event::Way(way) = event {
            if way.probe == probe {
                count = count.saturating_add(1);
            }
        }
    }
    count
}

// The rooms of the bodies of the probe of this place.
fn rooms_of(
    alloc: Global,
    blocks: &PartData,
    bodies: &[Body],
    probe: usize,
    events: &[Event],
) -> Result<Rooms, NoMemory> {
    let mut rooms = Vec::new(alloc);
    for body in bodies {
        rooms.push(room_of(blocks, body, probe, events))?;
    }
    Ok(Rooms { rooms })
}

// Those of the swing.
fn rooms_of_swing(
    alloc: Global,
    blocks: &PartData,
    set: &ProbeSet,
    events: &[Event],
) -> Result<Rooms, NoMemory> {
    let mut rooms = Vec::new(alloc);
    for body in set.swing() {
        rooms.push(swing_room(blocks, set.probes(), body, events))?;
    }
    Ok(Rooms { rooms })
}

// Whether a coordinate lies between limits.
fn is_between(low: Point, at: Point, high: Point) -> bool {
    (0..3).all(|axis| low.0[axis] <= at.0[axis] && at.0[axis] <= high.0[axis])
}

/// The place of the pivot at the end of a way, where it lies beyond its limits.
pub(crate) fn beyond_at(set: &ProbeSet, travel: &Block3, way: &ProbeWay) -> Option<Point> {
    let probe = set.probes().get(way.probe)?;
    let Point([x, y, z]) = way.gone.way.to;
    let Point([a, b, c]) = probe.pivot();
    let at = Point([
        x.saturating_add(a),
        y.saturating_add(b),
        z.saturating_add(c),
    ]);
    if is_between(travel.low, at, travel.high) {
        None
    } else {
        Some(at)
    }
}

// One event more.
fn count_event(set: &ProbeSet, travel: &Option<Block3>, event: &Event, report: &mut Report) {
    match event {
        Event::Way(way) => {
            report.ways = report.ways.saturating_add(1);
            if let Some(travel) = travel {
                if beyond_at(set, travel, way).is_some() {
                    report.beyond = report.beyond.saturating_add(1);
                }
            }
        }
        Event::Turn(change) => {
            if change.from.is_some() {
                report.changes = report.changes.saturating_add(1);
            }
            if is_turn(set.probes(), change) {
                report.turns = report.turns.saturating_add(1);
            }
        }
    }
}

/// What a run with these probes came to, beside a workpiece.
///
/// Errors: want of memory.
pub(crate) fn report_of(
    alloc: Global,
    set: &ProbeSet,
    blocks: &PartData,
    run: &SetRun,
) -> Result<Report, NoMemory> {
    let events = run.events.as_slice();
    let mut probes = Vec::new(alloc);
    for (place, probe) in set.probes().iter().enumerate() {
        probes.push(ProbeRooms {
            ways: count_ways(place, events),
            rooms: rooms_of(alloc, blocks, probe.bodies(), place, events)?,
        })?;
    }
    let mut report = Report {
        probes,
        swing: rooms_of_swing(alloc, blocks, set, events)?,
        ways: 0,
        changes: 0,
        turns: 0,
        beyond: 0,
    };
    let travel = set.travel();
    for event in events {
        count_event(set, &travel, event, &mut report);
    }
    Ok(report)
}

// Whether a body is met.
fn is_some_met(rooms: &Rooms) -> bool {
    rooms.rooms.iter().any(|room| matches!(room, Room::Met(_)))
}

impl Report {
    /// Whether a body of a probe or of the swing meets a block, or the pivot lies beyond its limits.
    pub(crate) fn is_met(&self) -> bool {
        self.beyond > 0
            || is_some_met(&self.swing)
            || self.probes.iter().any(|probe| is_some_met(&probe.rooms))
    }
}
