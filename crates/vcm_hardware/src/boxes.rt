//! The boxes of a probe.

ghost use Rattle.std.specs.Prelude.{◌≡◌, ◌≤◌, ◌*◌, ◌+◌, pos, ◌+ℤ◌, ◌-ℤ◌, length, unsigned_abs};
ghost use Rattle.std.specs.Int.{int_div_euclid};
ghost use Rattle.vcm_hardware.specs.Intervals.{floor_one, ceil_one};
ghost use Rattle.std.specs.Option.{option_to_list};
ghost use Rattle.vcm_hardware.specs.Boxes.{turning_of, tip_of, part_boxes, parts_count, box_count, ball_box, centre, head_box, rounded, pivot};
ghost use Rattle.vcm_hardware.specs.Slabs.{cylinder_boxes, seen_from, slabs_of};
ghost use Rattle.vcm_hardware.specs.inner.Sizes.{AreFar, AreSlabs};

use crate::angle::{Spot, Turning, steps_in, turned, turning_by};
use crate::cylinder::{Slabs, seen_from, slab_of, slabs_of};
use crate::description::{Ball, Choice, Cylinder, Hardware, Place, StillBox};
use crate::interval::{ceil_one, floor_one, radius_of};
use vcm_num::Point;
use vcm_spec::Block3;

/// The head turned as a probe has it.
pub fn turning_of(turn: i32, choice: &Choice) -> Turning
    ensures { result ≡ turning_of turn choice.now }
{
    turning_by(steps_in(choice.a), steps_in(choice.b) + steps_in(turn))
}

/// The place of a probe's tip.
pub fn tip_of(balls: &[Ball], choice: &Choice) -> Place
    ensures { result ≡ tip_of balls.now choice.now }
{
    match balls.get(choice.tip) {
        Some(ball) => ball.at,
        None => Place { x: 0, y: 0, z: 0 },
    }
}

/// The slabs of a part.
pub fn part_slabs(turning: &Turning, tip: Place, part: &Cylinder) -> Slabs
    ensures value { result ≡ slabs_of (seen_from turning.now part.now tip) }
    ensures small { AreSlabs result }
{
    slabs_of(&seen_from(turning, part, tip))
}

// How many boxes this is.
fn room_count(block: Option<Block3>) -> u128
    ensures value { result ≡ length (option_to_list block) }
    ensures small { result ≤ 1 }
{
    match block {
        Some(_) => 1,
        None => 0,
    }
}

// How many slabs have room.
fn slabs_count(slabs: &Slabs) -> u128
    requires { AreSlabs slabs.now }
    ensures value { result ≡ length (cylinder_boxes slabs.now) }
    ensures small { result ≤ 12000000000000000000001 }
{
    let mut count = 0;
    for index in 0..slabs.count {
        count += room_count(slab_of(slabs, index));
    }
    count
}

// How many boxes the parts have.
fn parts_count(turning: &Turning, tip: Place, parts: &[Cylinder]) -> u128
    requires { length parts.now ≤ 32 }
    ensures value { result ≡ parts_count turning.now tip parts.now }
    ensures small { result ≤ 32 * 12000000000000000000001 }
{
    let mut count = 0;
    for part in parts {
        count += slabs_count(&part_slabs(turning, tip, part));
    }
    count
}

/// How many boxes a probe has.
pub fn box_count(hardware: &Hardware, choice: &Choice) -> u128
    ensures { result ≡ box_count hardware.now choice.now }
{
    let balls = hardware.balls();
    let turning = turning_of(hardware.turn(), choice);
    parts_count(&turning, tip_of(balls, choice), hardware.parts())
        + (balls.len() as u128).saturating_sub(1)
        + hardware.heads().len() as u128
}

// A lower end of a ball, and an upper one.
fn ball_low(low: i128, radius: i128) -> i64
    requires low { unsigned_abs low ≤ 27670116110564327424 }
    requires radius { unsigned_abs radius ≤ 1073741825 }
    ensures { result ≡ floor_one low -ℤ radius }
{
    (floor_one(low) - radius) as i64
}

fn ball_high(high: i128, radius: i128) -> i64
    requires high { unsigned_abs high ≤ 27670116110564327424 }
    requires radius { unsigned_abs radius ≤ 1073741825 }
    ensures { result ≡ ceil_one high +ℤ radius }
{
    (ceil_one(high) + radius) as i64
}

/// A cube that holds a ball seen from the tip.
pub fn ball_box(turning: &Turning, tip: Place, ball: &Ball) -> Block3
    ensures { result ≡ ball_box turning.now tip ball.now }
{
    let at = turned(turning, ball.at, tip);
    let radius = radius_of(ball.diameter);
    Block3 {
        low: Point([
            ball_low(at.x.low, radius),
            ball_low(at.y.low, radius),
            ball_low(at.z.low, radius),
        ]),
        high: Point([
            ball_high(at.x.high, radius),
            ball_high(at.y.high, radius),
            ball_high(at.z.high, radius),
        ]),
    }
}

/// The turning centre seen from the tip.
pub fn centre(turning: &Turning, tip: Place) -> Spot
    ensures value { result ≡ centre turning.now tip }
    ensures far { AreFar result }
{
    turned(turning, Place { x: 0, y: 0, z: 0 }, tip)
}

// A lower end of a box that stands still, and an upper one.
fn head_low(low: i128, by: i32) -> i64
    requires { unsigned_abs low ≤ 27670116110564327424 }
    ensures { result ≡ floor_one low +ℤ by }
{
    (floor_one(low) + i128::from(by)) as i64
}

fn head_high(high: i128, by: i32) -> i64
    requires { unsigned_abs high ≤ 27670116110564327424 }
    ensures { result ≡ ceil_one high +ℤ by }
{
    (ceil_one(high) + i128::from(by)) as i64
}

/// A box that stands still, seen from the tip.
pub fn head_box(centre: &Spot, still: &StillBox) -> Block3
    requires { AreFar centre.now }
    ensures { result ≡ head_box centre.now still.now }
{
    Block3 {
        low: Point([
            head_low(centre.x.low, still.low.x),
            head_low(centre.y.low, still.low.y),
            head_low(centre.z.low, still.low.z),
        ]),
        high: Point([
            head_high(centre.x.high, still.high.x),
            head_high(centre.y.high, still.high.y),
            head_high(centre.z.high, still.high.z),
        ]),
    }
}

// Half a number of ten-millionths as a whole number, down.
fn floor_half(z: i128) -> i128
    ensures value { result ≡ int_div_euclid z (pos 20000000) }
    ensures small { unsigned_abs result * 20000000 ≤ unsigned_abs z + 19999999 }
{
    z.div_euclid(20_000_000)
}

// The middle of an interval, to the nearest whole number.
fn rounded(low: i128, high: i128) -> i64
    requires low { unsigned_abs low ≤ 27670116110564327424 }
    requires high { unsigned_abs high ≤ 27670116110564327424 }
    ensures { result ≡ rounded low high }
{
    floor_half(low + high + 10_000_000) as i64
}

/// The turning centre to the nearest micrometre.
pub fn pivot(centre: &Spot) -> Point
    requires { AreFar centre.now }
    ensures { result ≡ pivot centre.now }
{
    Point([
        rounded(centre.x.low, centre.x.high),
        rounded(centre.y.low, centre.y.high),
        rounded(centre.z.low, centre.z.high),
    ])
}
