//! How much room is left round the bodies of a probe on its ways, and round those of the swing where the head turns.

ghost use Rattle.std.specs.Prelude.{◌≡◌, List, [], ◌∷◌, ◌++◌, true, Some};
ghost use Rattle.std.specs.List.{AllByRecursion};
ghost use Rattle.vcm_carried.specs.Carried.{IsBox};
ghost use Rattle.vcm_way.specs.Gone.{PlacedWay};
ghost use Rattle.vcm_clearance.specs.Contacts.{IsPlaced, told_on};
ghost use Rattle.vcm_clearance.specs.Rooms.{IsRoom};
ghost use Rattle.vcm_turning.specs.Choosing.{probe_on};
ghost use Rattle.vcm_set_clearance.specs.Events.{Happening, WayBy, ChangeAt, IsWayBy, IsChangeAt, IsEvent, AreEvents, ways_by};
ghost use Rattle.vcm_set_clearance.specs.Swings.{turns_between, standing, standings};

use crate::event::{Change, Event, ProbeWay};
use vcm_carried::{Fraction, Way};
use vcm_clearance::{Room, Told, next_room, told_on};
use vcm_marks::Going;
use vcm_num::MOST_ROOM;
use vcm_part::PartData;
use vcm_probe_set::{Body, Probe, is_one_pose};
use vcm_spec::Block3;
use vcm_turning::probe_on;
use vcm_way::Gone;

// The room round a body of the probe of this place behind one more event.
fn next_of(blocks: &PartData, body: &[Block3], probe: usize, room: Room, event: &Event) -> Room
    requires { AllByRecursion (IsBox 10000000) body.now }
    ensures { (ws : List PlacedWay) (h : Happening) → IsEvent event.now h → IsRoom blocks.now.blocks body.now ws room
        → IsRoom blocks.now.blocks body.now (ws ++ ways_by probe (h ∷ [])) result }
{
    match event {
        Event::Way(way) => {
            if way.probe == probe {
                next_room(blocks, body, room, way.place, &way.gone)
            } else {
                room
            }
        }
        Event::Turn(_) => room,
    }
}

/// The room round a body of the probe of this place on the ways by it.
pub fn room_of(blocks: &PartData, body: &Body, probe: usize, events: &[Event]) -> Room
    ensures { (hs : List Happening) → AreEvents events.now hs → IsRoom blocks.now.blocks body.now.blocks (ways_by probe hs) result }
{
    let body = body.blocks();
    let mut room = Room::Clear(MOST_ROOM, None);
    for event in events {
        room = next_of(blocks, body, probe, room, event);
    }
    room
}

/// Whether the head turns at a change: it isn't the first choice, and the two probes don't hang in one pose.
pub fn is_turn(probes: &[Probe], change: &Change) -> bool
    ensures { result ≡ turns_between (probe_on probes.now change.now.from) (probe_on probes.now (Some change.now.to)) }
{
    match probe_on(probes, change.from) {
        None => false,
        Some(old) => match probe_on(probes, Some(change.to)) {
            None => false,
            Some(new) => !is_one_pose(old, new),
        },
    }
}

/// The way of the swing at a change: from the pivot to itself.
pub fn standing(change: &Change) -> Gone
    ensures { (c : ChangeAt) → IsChangeAt change.now c → IsPlaced change.now.place result (standing c) }
{
    let way = Way {
        from: change.pivot,
        to: change.pivot,
        gone: Fraction::whole(),
    };
    Gone {
        going: Going::Rest,
        way,
    }
}

// The room round a body of the swing behind one more event.
fn next_swing(
    blocks: &PartData,
    probes: &[Probe],
    body: &[Block3],
    room: Room,
    event: &Event,
) -> Room
    requires { AllByRecursion (IsBox 10000000) body.now }
    ensures { (ws : List PlacedWay) (h : Happening) → IsEvent event.now h → IsRoom blocks.now.blocks body.now ws room
        → IsRoom blocks.now.blocks body.now (ws ++ standings probes.now (h ∷ [])) result }
{
    match event {
        Event::Way(_) => room,
        Event::Turn(change) => {
            if is_turn(probes, change) {
                next_room(blocks, body, room, change.place, &standing(change))
            } else {
                room
            }
        }
    }
}

/// The room round a body of the swing at each change where the head turns; its boxes are counted from the pivot.
pub fn swing_room(blocks: &PartData, probes: &[Probe], body: &Body, events: &[Event]) -> Room
    ensures { (hs : List Happening) → AreEvents events.now hs → IsRoom blocks.now.blocks body.now.blocks (standings probes.now hs) result }
{
    let body = body.blocks();
    let mut room = Room::Clear(MOST_ROOM, None);
    for event in events {
        room = next_swing(blocks, probes, body, room, event);
    }
    room
}

/// What is told of a body on one of its ways, its room on all of them being given: the first contact, where the way is the first or the first behind a change, and
/// else the first with a block that no box of the body meets at the start of it. Of a body that is met on no way nothing is told.
pub fn told_of(blocks: &PartData, body: &Body, room: Room, way: &ProbeWay) -> Option<Told>
    ensures { (ws : List PlacedWay) (w : WayBy) (vs : List PlacedWay) → IsWayBy way.now w → IsRoom blocks.now.blocks body.now.blocks (ws ++ w.way ∷ vs) room
        → result ≡ told_on blocks.now.blocks w.is_first body.now.blocks w.way }
{
    let body = body.blocks();
    told_on(blocks, body, room, way.place, &way.gone, way.is_first)
}

/// What is told of a body of the swing at a change where the head turns, its room at all of them being given.
pub fn told_at_turn(blocks: &PartData, body: &Body, room: Room, change: &Change) -> Option<Told>
    ensures { (ws : List PlacedWay) (c : ChangeAt) (vs : List PlacedWay) → IsChangeAt change.now c → IsRoom blocks.now.blocks body.now.blocks (ws ++ standing c ∷ vs) room
        → result ≡ told_on blocks.now.blocks true body.now.blocks (standing c) }
{
    let body = body.blocks();
    told_on(blocks, body, room, change.place, &standing(change), true)
}
