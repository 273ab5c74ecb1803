//! How far out an approach point may lie, for the way to it to be free of a block.

ghost use Rattle.std.specs.Prelude.{◌≡◌, ◌≤◌, IsTrue, is_none};
ghost use Rattle.vcm_num.specs.Point.{coordinate, is_near};
ghost use Rattle.vcm_spec.specs.FirstContact.{entry};
ghost use Rattle.vcm_spec.specs.Workpiece.{grown, is_block};
ghost use Rattle.vcm_cause.specs.Approach.{aim_with, is_free_way, is_free_with, raised, climbed, free_approach};

use vcm_carried::tip_entry;
use vcm_num::{Axis, Point};
use vcm_spec::Block3;

/// The way to an approach point: from where, to which point, and how far that lies from the nominal place in which direction.
#[derive(Clone, Copy)]
pub struct ApproachWay {
    pub from: Point,
    pub aim: Point,
    pub toward: Axis,
    pub distance: u32,
}

/// The steps by which the greatest distance is found; together they are more than the greatest that may be set.
pub const STEPS: [u32; 20] = [
    524_288, 262_144, 131_072, 65_536, 32_768, 16_384, 8_192, 4_096, 2_048, 1_024, 512, 256, 128,
    64, 32, 16, 8, 4, 2, 1,
];

// Whether the tip meets a block nowhere on the way between two points near 0.
fn is_unmet(tip: u32, block: &Block3, from: Point, to: Point) -> bool
    requires block { IsTrue (is_block block.now) }
    requires tip { tip ≤ 50000 }
    requires from { IsTrue (is_near from) }
    requires to { IsTrue (is_near to) }
    ensures { result ≡ is_none (entry (coordinate from) (coordinate to) (grown tip block.now)) }
{
    match tip_entry(block, tip, from, to) {
        Some(_) => false,
        None => true,
    }
}

// The same between any two points: farther out it counts as met.
fn is_free_way(tip: u32, block: &Block3, from: Point, to: Point) -> bool
    requires block { IsTrue (is_block block.now) }
    requires tip { tip ≤ 50000 }
    ensures { result ≡ is_free_way tip block.now from to }
{
    if !from.is_near() {
        return false;
    }
    if !to.is_near() {
        return false;
    }
    is_unmet(tip, block, from, to)
}

// The approach point at another distance, not above the one that is set.
fn aim_with(way: ApproachWay, distance: u32) -> Point
    requires { IsTrue (is_near way.aim) }
    ensures { result ≡ aim_with way distance }
{
    way.aim.moved(way.toward.opposite(), way.distance.saturating_sub(distance))
}

// Whether the way to it is free of a block.
fn is_free_with(tip: u32, block: &Block3, way: ApproachWay, distance: u32) -> bool
    requires block { IsTrue (is_block block.now) }
    requires tip { tip ≤ 50000 }
    ensures { result ≡ is_free_with tip block.now way distance }
{
    if !way.aim.is_near() {
        return false;
    }
    is_free_way(tip, block, way.from, aim_with(way, distance))
}

// A distance, or a greater one by a step, if that is below the one that is set and the way is free with it.
fn raised(tip: u32, block: &Block3, way: ApproachWay, low: u32, step: u32) -> u32
    requires block { IsTrue (is_block block.now) }
    requires tip { tip ≤ 50000 }
    ensures { result ≡ raised tip block.now way low step }
{
    if u64::from(low) + u64::from(step) >= u64::from(way.distance) {
        return low;
    }
    let next = low + step;
    if is_free_with(tip, block, way, next) {
        next
    } else {
        low
    }
}

// The greatest distance with which the way is free, from one with which it is, by these steps.
fn climbed(tip: u32, block: &Block3, way: ApproachWay, steps: &[u32]) -> u32
    requires block { IsTrue (is_block block.now) }
    requires tip { tip ≤ 50000 }
    ensures { result ≡ climbed tip block.now way 1 steps.now }
{
    let mut low = 1;
    for step in steps {
        low = raised(tip, block, way, low, *step);
    }
    low
}

/// The greatest distance of an approach point, below the one that is set, with which the way to it doesn't meet a block, in micrometres; none where it meets it with each.
pub fn free_approach(tip: u32, block: &Block3, way: ApproachWay) -> Option<u32>
    requires block { IsTrue (is_block block.now) }
    requires tip { tip ≤ 50000 }
    ensures { result ≡ free_approach tip block.now way }
{
    if way.distance <= 1 {
        return None;
    }
    if is_free_with(tip, block, way, 1) {
        Some(climbed(tip, block, way, &STEPS))
    } else {
        None
    }
}
