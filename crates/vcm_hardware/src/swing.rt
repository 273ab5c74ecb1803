//! Boxes that hold all that turns, in each pose and between.

ghost use Rattle.std.specs.Prelude.{◌≡◌, ◌≤◌, ◌<◌, pos, ◌+ℤ◌, ◌-ℤ◌, ◌*ℤ◌, unsigned_abs, ◌+◌};
ghost use Rattle.std.specs.Int.{int_min, int_max};
ghost use Rattle.vcm_hardware.specs.Intervals.{size, root_up};
ghost use Rattle.vcm_hardware.specs.Swings.{diagonal, farther, reach_along, cylinder_reach, ball_reach, farther_of, no_reach, cylinders_reach, balls_reach, whole_reach, raised, swing_by, swing_cut, swing_half, swing_between, swing_slab};
ghost use Rattle.vcm_hardware.specs.inner.Sizes.{IsUnit, IsReached, IsSwing};

use crate::angle::{Along, cosine};
use crate::cylinder::axis_between;
use crate::description::{Ball, Cylinder, Hardware};
use crate::interval::{Ratio, ceil_one, radius_of, root_up, share, square};
use vcm_num::Point;
use vcm_spec::Block3;

/// How far something reaches: from the turning centre, from the z axis, up and down.
#[derive(Clone, Copy)]
pub struct Reach {
    pub far: i128,
    pub wide: i128,
    pub high: i128,
    pub low: i128,
}

// The absolute value of a coordinate.
fn size(z: i32) -> i128
    ensures value { result ≡ size z }
    ensures small { unsigned_abs result ≤ 2147483648 }
{
    i128::from(z).max(-i128::from(z))
}

// The greater of two absolute values.
fn farther(a: i32, b: i32) -> i128
    ensures value { result ≡ farther a b }
    ensures small { unsigned_abs result ≤ 2147483648 }
{
    size(a).max(size(b))
}

// The root of a sum of three squares, up.
fn distance(x: i128, y: i128, z: i128) -> i128
    requires x { unsigned_abs x ≤ 2147483648 }
    requires y { unsigned_abs y ≤ 2147483648 }
    requires z { unsigned_abs z ≤ 2147483648 }
    ensures value { result ≡ root_up (x *ℤ x +ℤ y *ℤ y +ℤ z *ℤ z) }
    ensures small { unsigned_abs result ≤ unsigned_abs x + unsigned_abs y + unsigned_abs z }
{
    root_up(square(x) + square(y) + square(z))
}

// The diagonal between two sides, up.
fn diagonal(a: i128, b: i128) -> i128
    requires a { unsigned_abs a ≤ 8589934592 }
    requires b { unsigned_abs b ≤ 8589934592 }
    ensures value { result ≡ diagonal a b }
    ensures small { unsigned_abs result ≤ unsigned_abs a + unsigned_abs b }
{
    root_up(square(a) + square(b))
}

// The higher and the lower of two coordinates.
fn higher(a: i32, b: i32) -> i128
    ensures value { result ≡ int_max a b }
    ensures small { unsigned_abs result ≤ 2147483648 }
{
    i128::from(a).max(i128::from(b))
}

fn lower(a: i32, b: i32) -> i128
    ensures value { result ≡ int_min a b }
    ensures small { unsigned_abs result ≤ 2147483648 }
{
    i128::from(a).min(i128::from(b))
}

// How far a cylinder of this radius reaches that runs along x.
fn reach_across(radius: i128, x: i128, y: i128, z: i128, top: i128, bottom: i128) -> Reach
    requires radius { unsigned_abs radius ≤ 1073741825 }
    requires x { unsigned_abs x ≤ 2147483648 }
    requires y { unsigned_abs y ≤ 2147483648 }
    requires z { unsigned_abs z ≤ 2147483648 }
    requires top { unsigned_abs top ≤ 2147483648 }
    requires bottom { unsigned_abs bottom ≤ 2147483648 }
    ensures value { result ≡ reach_along Along.X radius x y z top bottom }
    ensures small { IsReached result }
{
    Reach {
        far: diagonal(x, diagonal(y, z) + radius),
        wide: diagonal(x, y + radius),
        high: top + radius,
        low: bottom - radius,
    }
}

// One that runs along z.
fn reach_up(radius: i128, x: i128, y: i128, z: i128, top: i128, bottom: i128) -> Reach
    requires radius { unsigned_abs radius ≤ 1073741825 }
    requires x { unsigned_abs x ≤ 2147483648 }
    requires y { unsigned_abs y ≤ 2147483648 }
    requires z { unsigned_abs z ≤ 2147483648 }
    requires top { unsigned_abs top ≤ 2147483648 }
    requires bottom { unsigned_abs bottom ≤ 2147483648 }
    ensures value { result ≡ reach_along Along.Z radius x y z top bottom }
    ensures small { IsReached result }
{
    let aside = diagonal(x, y) + radius;
    Reach {
        far: diagonal(z, aside),
        wide: aside,
        high: top,
        low: bottom,
    }
}

// How far a cylinder of this radius reaches.
fn reach_along(
    axis: Along,
    radius: i128,
    x: i128,
    y: i128,
    z: i128,
    top: i128,
    bottom: i128,
) -> Reach
    requires radius { unsigned_abs radius ≤ 1073741825 }
    requires x { unsigned_abs x ≤ 2147483648 }
    requires y { unsigned_abs y ≤ 2147483648 }
    requires z { unsigned_abs z ≤ 2147483648 }
    requires top { unsigned_abs top ≤ 2147483648 }
    requires bottom { unsigned_abs bottom ≤ 2147483648 }
    ensures value { result ≡ reach_along axis radius x y z top bottom }
    ensures small { IsReached result }
{
    match axis {
        Along::X => reach_across(radius, x, y, z, top, bottom),
        Along::Y => reach_across(radius, y, x, z, top, bottom),
        Along::Z => reach_up(radius, x, y, z, top, bottom),
    }
}

// How far a cylinder reaches.
fn cylinder_reach(part: &Cylinder) -> Reach
    ensures value { result ≡ cylinder_reach part.now }
    ensures small { IsReached result }
{
    let from = part.from;
    let to = part.to;
    reach_along(
        axis_between(from, to),
        radius_of(part.diameter),
        farther(from.x, to.x),
        farther(from.y, to.y),
        farther(from.z, to.z),
        higher(from.z, to.z),
        lower(from.z, to.z),
    )
}

// How far a ball reaches.
fn ball_reach(ball: &Ball) -> Reach
    ensures value { result ≡ ball_reach ball.now }
    ensures small { IsReached result }
{
    let radius = radius_of(ball.diameter);
    let x = i128::from(ball.at.x);
    let y = i128::from(ball.at.y);
    let z = i128::from(ball.at.z);
    Reach {
        far: distance(x, y, z) + radius,
        wide: diagonal(x, y) + radius,
        high: z + radius,
        low: z - radius,
    }
}

// The farther of two, each way.
fn farther_of(a: Reach, b: Reach) -> Reach
    requires a { IsReached a }
    requires b { IsReached b }
    ensures value { result ≡ farther_of a b }
    ensures small { IsReached result }
{
    Reach {
        far: a.far.max(b.far),
        wide: a.wide.max(b.wide),
        high: a.high.max(b.high),
        low: a.low.min(b.low),
    }
}

// How far all these cylinders reach.
fn cylinders_reach(parts: &[Cylinder]) -> Reach
    ensures value { result ≡ cylinders_reach no_reach parts.now }
    ensures small { IsReached result }
{
    let mut all = Reach {
        far: 0,
        wide: 0,
        high: 0,
        low: 0,
    };
    for part in parts {
        all = farther_of(all, cylinder_reach(part));
    }
    all
}

// How far all these balls reach, and what was found before.
fn balls_reach(before: Reach, balls: &[Ball]) -> Reach
    requires { IsReached before }
    ensures value { result ≡ balls_reach before balls.now }
    ensures small { IsReached result }
{
    let mut all = before;
    for ball in balls {
        all = farther_of(all, ball_reach(ball));
    }
    all
}

/// How far all that turns reaches.
pub fn whole_reach(hardware: &Hardware) -> Reach
    ensures value { result ≡ whole_reach hardware.now.parts hardware.now.balls }
    ensures small { IsReached result }
{
    balls_reach(cylinders_reach(hardware.parts()), hardware.balls())
}

/// A swing: the radius of a ball about the turning centre, and how far up what turns may come in it.
#[derive(Clone, Copy)]
pub struct Swing {
    pub radius: i128,
    pub top: i128,
}

// What a height comes to by a cosine, in ten-millionths.
#[tactic(auto, using(crate::proofs::Floors::risen_fits, crate::proofs::Floors::risen_small))]
fn risen(cosine: Ratio, low: i128) -> i128
    requires cosine { IsUnit cosine }
    requires low { unsigned_abs low ≤ 17179869184 }
    ensures value { result ≡ cosine.low *ℤ low }
    ensures small { unsigned_abs result ≤ 171798691840000000 }
{
    i128::from(cosine.low) * low
}

// How much what hangs below comes up where A is turned by more than a quarter turn.
fn raised(steps: i32, low: i128) -> i128
    requires { unsigned_abs low ≤ 17179869184 }
    ensures value { result ≡ raised steps low }
    ensures small { unsigned_abs result ≤ 17179869185 }
{
    if 12 < steps {
        ceil_one(risen(cosine(steps), low))
    } else {
        0
    }
}

/// The swing of what reaches so far, A being turned by at most so many steps.
pub fn swing_by(all: Reach, steps: i32) -> Swing
    requires { IsReached all }
    ensures value { result ≡ swing_by all steps }
    ensures small { IsSwing result }
{
    Swing {
        radius: all.far,
        top: all.far.min(all.wide + all.high + raised(steps, all.low)),
    }
}

// Where a slab begins.
fn swing_cut(swing: Swing, index: u32) -> i128
    requires small { IsSwing swing }
    requires index { index ≤ 16 }
    ensures value { result ≡ swing_cut swing (pos index) }
    ensures small { unsigned_abs result ≤ 6000000000000 }
{
    share(swing.top + swing.radius, 16, u128::from(index)) - swing.radius
}

// The other side of a right angle, up.
fn leg(radius: i128, least: i128) -> i128
    requires radius { unsigned_abs radius ≤ 17179869184 }
    requires least { unsigned_abs least ≤ 6000000000000 }
    ensures value { result ≡ root_up (radius *ℤ radius -ℤ least *ℤ least) }
    ensures small { unsigned_abs result ≤ 17179869184 }
{
    root_up(square(radius) - square(least))
}

// Half of the square that holds the ball between two heights.
fn swing_half(radius: i128, z: i128, y: i128) -> i64
    requires radius { unsigned_abs radius ≤ 17179869184 }
    requires z { unsigned_abs z ≤ 6000000000000 }
    requires y { unsigned_abs y ≤ 6000000000000 }
    ensures value { result ≡ swing_half radius z y }
    ensures small { unsigned_abs result ≤ 17179869184 }
{
    let least = z.max(-y).max(0);
    leg(radius, least) as i64
}

// The box between two heights.
fn swing_between(radius: i128, z: i128, y: i128) -> Block3
    requires radius { unsigned_abs radius ≤ 17179869184 }
    requires z { unsigned_abs z ≤ 6000000000000 }
    requires y { unsigned_abs y ≤ 6000000000000 }
    ensures { result ≡ swing_between radius z y }
{
    let half = swing_half(radius, z, y);
    Block3 {
        low: Point([-half, -half, z as i64]),
        high: Point([half, half, y as i64]),
    }
}

/// A slab of the swing, of sixteen.
pub fn swing_slab(swing: Swing, index: u32) -> Block3
    requires small { IsSwing swing }
    requires index { index < 16 }
    ensures { result ≡ swing_slab swing (pos index) }
{
    swing_between(
        swing.radius,
        swing_cut(swing, index),
        swing_cut(swing, index + 1),
    )
}
