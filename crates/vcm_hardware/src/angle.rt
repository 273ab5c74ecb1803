//! How the head is turned.

ghost use Rattle.std.specs.Prelude.{◌≡◌, ◌≤◌, ◌-ℤ◌, ◌≤ℤ◌, pos, negsuc, unsigned_abs, int_div};
ghost use Rattle.vcm_hardware.specs.Turned.{quarter_cosine, cosine, sine, towards, coordinate_on, column, turning_by, row, turned};
ghost use Rattle.vcm_hardware.specs.inner.Sizes.{IsUnit, IsFar, AreFar};

use crate::description::Place;
use crate::interval::{Interval, Ratio, negative, product, scaled, sum_of};

// A whole turn has so many steps of 7.5 degrees.
const WHOLE: i32 = 48;

// The cosines of 0 to 12 steps.
const COSINES: [Ratio; 13] = [
    Ratio {
        low: 10_000_000,
        high: 10_000_000,
    },
    Ratio {
        low: 9_914_448,
        high: 9_914_449,
    },
    Ratio {
        low: 9_659_258,
        high: 9_659_259,
    },
    Ratio {
        low: 9_238_795,
        high: 9_238_796,
    },
    Ratio {
        low: 8_660_254,
        high: 8_660_255,
    },
    Ratio {
        low: 7_933_533,
        high: 7_933_534,
    },
    Ratio {
        low: 7_071_067,
        high: 7_071_068,
    },
    Ratio {
        low: 6_087_614,
        high: 6_087_615,
    },
    Ratio {
        low: 5_000_000,
        high: 5_000_001,
    },
    Ratio {
        low: 3_826_834,
        high: 3_826_835,
    },
    Ratio {
        low: 2_588_190,
        high: 2_588_191,
    },
    Ratio {
        low: 1_305_261,
        high: 1_305_262,
    },
    Ratio { low: 0, high: 0 },
];

/// How many steps of 7.5 degrees an angle has, in thousandths of a degree.
#[tactic(auto, using(crate::proofs::Quotients::steps_fit, crate::proofs::Quotients::steps_small))]
pub fn steps_in(angle: i32) -> i32
    ensures value { result ≡ int_div angle (pos 7500) }
    ensures small { unsigned_abs result ≤ 286331 }
{
    angle / 7500
}

// The cosine of so many steps, up to a quarter turn.
fn quarter_cosine(steps: i32) -> Ratio
    requires low { pos 0 ≤ℤ steps }
    requires high { steps ≤ℤ pos 12 }
    ensures value { result ≡ quarter_cosine (unsigned_abs steps) }
    ensures unit { IsUnit result }
{
    COSINES[steps as usize]
}

/// The cosine of so many steps of 7.5 degrees.
pub fn cosine(steps: i32) -> Ratio
    ensures value { result ≡ cosine steps }
    ensures unit { IsUnit result }
{
    let rest = steps.rem_euclid(WHOLE);
    if rest <= 12 {
        quarter_cosine(rest)
    } else if rest <= 24 {
        negative(quarter_cosine(24 - rest))
    } else if rest <= 36 {
        negative(quarter_cosine(rest - 24))
    } else {
        quarter_cosine(48 - rest)
    }
}

// The sine.
fn sine(steps: i32) -> Ratio
    requires { unsigned_abs steps ≤ 1000000 }
    ensures value { result ≡ sine steps }
    ensures unit { IsUnit result }
{
    cosine(12 - steps)
}

/// An axis.
#[derive(Clone, Copy)]
pub enum Along {
    X,
    Y,
    Z,
}

/// What a direction lies between, axis by axis.
#[derive(Clone, Copy)]
pub struct Direction {
    pub x: Ratio,
    pub y: Ratio,
    pub z: Ratio,
}

/// A direction on an axis.
pub fn towards(direction: &Direction, axis: Along) -> Ratio
    ensures { result ≡ towards direction.now axis }
{
    match axis {
        Along::X => direction.x,
        Along::Y => direction.y,
        Along::Z => direction.z,
    }
}

/// What a place lies between, axis by axis, in ten-millionths of micrometres.
#[derive(Clone, Copy)]
pub struct Spot {
    pub x: Interval,
    pub y: Interval,
    pub z: Interval,
}

/// A place on an axis.
pub fn coordinate_on(spot: &Spot, axis: Along) -> Interval
    requires { AreFar spot.now }
    ensures value { result ≡ coordinate_on spot.now axis }
    ensures far { IsFar result }
{
    match axis {
        Along::X => spot.x,
        Along::Y => spot.y,
        Along::Z => spot.z,
    }
}

/// Where the three axes of what hangs on the head point to once it is turned.
#[derive(Clone, Copy)]
pub struct Turning {
    pub x: Direction,
    pub y: Direction,
    pub z: Direction,
}

/// Where one axis does.
pub fn column(turning: &Turning, axis: Along) -> Direction
    ensures { result ≡ column turning.now axis }
{
    match axis {
        Along::X => turning.x,
        Along::Y => turning.y,
        Along::Z => turning.z,
    }
}

/// Where the axes point to, A and B being turned by so many steps of 7.5 degrees.
pub fn turning_by(a: i32, b: i32) -> Turning
    requires a { unsigned_abs a ≤ 1000000 }
    requires b { unsigned_abs b ≤ 1000000 }
    ensures { result ≡ turning_by a b }
{
    let cos_a = cosine(a);
    let sin_a = sine(a);
    let cos_b = cosine(b);
    let sin_b = sine(b);
    Turning {
        x: Direction {
            x: cos_b,
            y: sin_b,
            z: Ratio { low: 0, high: 0 },
        },
        y: Direction {
            x: negative(product(sin_b, cos_a)),
            y: product(cos_b, cos_a),
            z: negative(sin_a),
        },
        z: Direction {
            x: negative(product(sin_b, sin_a)),
            y: product(cos_b, sin_a),
            z: cos_a,
        },
    }
}

// A row of the axes times the way from one place to another.
fn row(x: Ratio, y: Ratio, z: Ratio, from: Place, to: Place) -> Interval
    ensures value { result ≡ row x y z (to.x -ℤ from.x) (to.y -ℤ from.y) (to.z -ℤ from.z) }
    ensures far { IsFar result }
{
    sum_of(
        scaled(from.x, to.x, x),
        scaled(from.y, to.y, y),
        scaled(from.z, to.z, z),
    )
}

/// Where a place lies once the head is turned, seen from the place of the tip.
pub fn turned(turning: &Turning, at: Place, tip: Place) -> Spot
    ensures value { result ≡ turned turning.now at tip }
    ensures far { AreFar result }
{
    Spot {
        x: row(turning.x.x, turning.y.x, turning.z.x, tip, at),
        y: row(turning.x.y, turning.y.y, turning.z.y, tip, at),
        z: row(turning.x.z, turning.y.z, turning.z.z, tip, at),
    }
}
