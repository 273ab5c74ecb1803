//! How far a measured point lies from its nominal place. Nothing here takes memory.

ghost use Rattle.std.specs.Prelude.{◌≡◌, ◌*◌, ◌+◌, ◌≤◌, ◌<◌, ◌^◌, IfSome};
ghost use Rattle.vcm_num.specs.Number.{checked};
ghost use Rattle.vcm_trace.specs.Deviations.{is_same_axis, is_same_place, origin_of, is_same_origin, is_turned_alike, is_same_frame, comparable, gap, length_of, off_by, told_deviation, root_down, first_beside, second_beside, size_of, apart, within_bits, across, beside};
ghost use Rattle.vcm_spec.specs.Outcome.{Answers};

use vcm_frame::Frame;
use vcm_num::{Axis, Fault, Point, sub};
use vcm_spec::{Feature, Stop};

/// Whether two directions are the same.
pub fn is_same_axis(a: Axis, b: Axis) -> bool
    ensures { result ≡ is_same_axis a b }
{
    a.component(0) == b.component(0)
        && a.component(1) == b.component(1)
        && a.component(2) == b.component(2)
}

// Whether two places are the same.
fn is_same_place(p: Point, q: Point) -> bool
    ensures { result ≡ is_same_place p q }
{
    p.0[0] == q.0[0] && p.0[1] == q.0[1] && p.0[2] == q.0[2]
}

// Where the origin of a frame lies on the machine.
fn origin_of(frame: Frame) -> Result<Point, Stop>
    ensures { Answers (origin_of frame) result }
{
    frame.apply(Point::new(0, 0, 0))
}

// Whether two frames have the same origin.
fn is_same_origin(f: Frame, g: Frame) -> bool
    ensures { result ≡ is_same_origin (origin_of f) (origin_of g) }
{
    match origin_of(f) {
        Ok(p) => match origin_of(g) {
            Ok(q) => is_same_place(p, q),
            Err(_) => false,
        },
        Err(_) => false,
    }
}

// Whether X, Y and Z of two frames go along the same axes of the machine.
fn is_turned_alike(f: Frame, g: Frame) -> bool
    ensures { result ≡ is_turned_alike f g }
{
    is_same_axis(f.direction(Axis::PlusX), g.direction(Axis::PlusX))
        && is_same_axis(f.direction(Axis::PlusY), g.direction(Axis::PlusY))
        && is_same_axis(f.direction(Axis::PlusZ), g.direction(Axis::PlusZ))
}

/// Whether two frames are the same: their origin and their axes.
pub fn is_same_frame(f: Frame, g: Frame) -> bool
    ensures { result ≡ is_same_frame f g }
{
    is_same_origin(f, g) && is_turned_alike(f, g)
}

/// The declared feature, where it was declared in the current frame.
pub fn comparable(
    declared: Option<Frame>,
    current: Frame,
    nominal: Option<Feature>,
) -> Option<Feature>
    ensures { result ≡ comparable declared current nominal }
{
    match declared {
        Some(declared) => if is_same_frame(declared, current) {
            nominal
        } else {
            None
        },
        None => None,
    }
}

// How far an actual place lies from a nominal one along a direction.
fn gap(nominal: Point, actual: Point, toward: Axis) -> Result<i64, Fault>
    ensures { result ≡ checked (gap nominal actual toward) }
{
    let axis = toward.index();
    let is = actual.0[axis];
    let wanted = nominal.0[axis];
    if toward.is_forward() {
        sub(is, wanted)
    } else {
        sub(wanted, is)
    }
}

// A length, if it has 64 bits.
fn length_of(length: Result<i64, Fault>) -> Option<i64>
    ensures { result ≡ length_of length }
{
    match length {
        Ok(length) => Some(length),
        Err(_) => None,
    }
}

/// How far a measured point lies off a declared one along its direction.
pub(crate) fn off_by(nominal: Option<Feature>, actual: Feature) -> Option<i64>
    ensures { result ≡ off_by nominal actual }
{
    match nominal {
        Some(nominal) => length_of(gap(nominal.at, actual.at, actual.toward)),
        None => None,
    }
}

/// The deviation of a measured point, where it can be told: of a feature that was declared in the frame of its measurement.
pub fn told_deviation(
    declared: Option<Frame>,
    current: Frame,
    nominal: Option<Feature>,
    actual: Feature,
) -> Option<i64>
    ensures { result ≡ told_deviation declared current nominal actual }
{
    off_by(comparable(declared, current, nominal), actual)
}

/// The root of a number, down.
pub fn root_down(n: u128) -> u128
    ensures { result ≡ root_down n }
{
    n.isqrt()
}

// How long a length is, either way, if it has 64 bits.
fn size_of(length: Result<i64, Fault>) -> Option<u64>
    ensures is { result ≡ size_of length }
    ensures small { IfSome result (λ n. n ≤ 2 ^ 63) }
{
    match length {
        Ok(length) => Some(length.unsigned_abs()),
        Err(_) => None,
    }
}

/// How far two places are from each other along an axis, either way, if that has 64 bits.
pub fn apart(p: Point, q: Point, axis: usize) -> Option<u64>
    requires { axis < 3 }
    ensures is { result ≡ apart p q axis }
    ensures small { IfSome result (λ n. n ≤ 2 ^ 63) }
{
    size_of(sub(q.0[axis], p.0[axis]))
}

/// A length that has 64 bits.
pub fn within_bits(length: u128) -> Option<i64>
    ensures { result ≡ within_bits length }
{
    match i64::try_from(length) {
        Ok(length) => Some(length),
        Err(_) => None,
    }
}

// The sum of the squares of two lengths.
fn squares(a: u64, b: u64) -> u128
    requires a { a ≤ 2 ^ 63 }
    requires b { b ≤ 2 ^ 63 }
    ensures { result ≡ a * a + b * b }
{
    u128::from(a) * u128::from(a) + u128::from(b) * u128::from(b)
}

// How long the way is that goes so far along one axis and so far along another.
fn across(first: Option<u64>, second: Option<u64>) -> Option<i64>
    requires first { IfSome first (λ n. n ≤ 2 ^ 63) }
    requires second { IfSome second (λ n. n ≤ 2 ^ 63) }
    ensures { result ≡ across first second }
{
    match first {
        Some(first) => match second {
            Some(second) => within_bits(root_down(squares(first, second))),
            None => None,
        },
        None => None,
    }
}

// The two axes beside a direction.
fn first_beside(toward: Axis) -> usize
    ensures is { result ≡ first_beside toward }
    ensures below { result < 3 }
{
    if toward.index() == 0 { 1 } else { 0 }
}

fn second_beside(toward: Axis) -> usize
    ensures is { result ≡ second_beside toward }
    ensures below { result < 3 }
{
    if toward.index() == 2 { 1 } else { 2 }
}

/// How far a measured point lies beside the line through a declared one along its direction.
pub(crate) fn beside(nominal: Option<Feature>, actual: Feature) -> Option<i64>
    ensures { result ≡ beside nominal actual }
{
    match nominal {
        Some(nominal) => {
            let first = apart(nominal.at, actual.at, first_beside(actual.toward));
            let second = apart(nominal.at, actual.at, second_beside(actual.toward));
            across(first, second)
        }
        None => None,
    }
}
