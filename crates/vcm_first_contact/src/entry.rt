//! The fraction of a way at which a point enters a block, exact.

ghost use Rattle.std.specs.Prelude.{◌≡◌, ◌<◌, ◌≤◌, pos, ◌*ℤ◌, ◌-ℤ◌, option_map};
ghost use Rattle.vcm_num.specs.Point.{coordinate};
ghost use Rattle.vcm_spec.specs.FirstContact.{is_not_after, meets, entry};
ghost use Rattle.vcm_first_contact.specs.inner.Shares.{shared, IsShort, IsProduct, IsPlace, IsSmall, IsNearPass, IsSpreadFace, place_on, between_on, reached_on, lesser_in, least_on};

use vcm_num::Point;
use vcm_spec::Block3;

/// A fraction of a way.
#[derive(Clone, Copy)]
pub(crate) struct Share {
    pub(crate) num: u64,
    pub(crate) den: u64,
}

/// A way of a point, and a block.
#[derive(Clone, Copy)]
pub(crate) struct Pass {
    pub(crate) from: Point,
    pub(crate) to: Point,
    pub(crate) block: Block3,
}

/// Whether a fraction is not after another one.
pub(crate) fn is_not_after(one: Share, other: Share) -> bool
    ensures { result ≡ is_not_after (shared one) (shared other) }
{
    u128::from(one.num) * u128::from(other.den) <= u128::from(other.num) * u128::from(one.den)
}

// A number times a length.
fn product(count: u64, length: i128) -> i128
    requires count { count ≤ 2010000000 }
    requires length { IsShort length }
    ensures is { result ≡ pos count *ℤ length }
    ensures small { IsProduct result }
{
    i128::from(count) * length
}

// A number times the coordinate of this axis.
fn scaled(count: u64, corner: Point, axis: usize) -> i128
    requires axis { axis < 3 }
    requires count { count ≤ 2010000000 }
    requires corner { IsShort (coordinate corner axis) }
    ensures is { result ≡ pos count *ℤ coordinate corner axis }
    ensures small { IsProduct result }
{
    product(count, i128::from(corner.0[axis]))
}

// A number times the length of a way on this axis.
fn scaled_run(count: u64, from: Point, to: Point, axis: usize) -> i128
    requires axis { axis < 3 }
    requires count { count ≤ 2010000000 }
    requires run { IsShort (coordinate to axis -ℤ coordinate from axis) }
    ensures is { result ≡ pos count *ℤ (coordinate to axis -ℤ coordinate from axis) }
    ensures small { IsProduct result }
{
    product(count, i128::from(to.0[axis]) - i128::from(from.0[axis]))
}

// Where on this axis the point is at a fraction, in parts of a micrometre.
fn place_at(pass: &Pass, at: Share, axis: usize) -> i128
    requires axis { axis < 3 }
    requires small { IsSmall pass.now at }
    ensures is { result ≡ place_on pass.now axis (shared at) }
    ensures small { IsPlace result }
{
    scaled(at.den, pass.from, axis) + scaled_run(at.num, pass.from, pass.to, axis)
}

// Whether on this axis the point lies between the faces of the block at a fraction.
fn is_between(pass: &Pass, at: Share, axis: usize) -> bool
    requires axis { axis < 3 }
    requires small { IsSmall pass.now at }
    ensures { result ≡ between_on pass.now axis (shared at) }
{
    let place = place_at(pass, at, axis);
    scaled(at.den, pass.block.low, axis) <= place && place <= scaled(at.den, pass.block.high, axis)
}

// Whether it lies in the block at a fraction.
fn meets(pass: &Pass, at: Share) -> bool
    requires { IsSmall pass.now at }
    ensures { result ≡ meets (coordinate pass.now.from) (coordinate pass.now.to) pass.now.block (shared at) }
{
    0 < at.den
        && at.num <= at.den
        && is_between(pass, at, 0)
        && is_between(pass, at, 1)
        && is_between(pass, at, 2)
}

// The lesser of a fraction, if the point lies in the block there, and another one, if there is one.
fn lesser(pass: &Pass, at: Share, other: Option<Share>) -> Option<Share>
    requires { IsSmall pass.now at }
    ensures { option_map shared result ≡ lesser_in pass.now (shared at) (option_map shared other) }
{
    if !meets(pass, at) {
        return other;
    }
    match other {
        None => Some(at),
        Some(other) => {
            if is_not_after(at, other) {
                Some(at)
            } else {
                Some(other)
            }
        }
    }
}

// The fraction of the way on which the coordinate of this axis reaches a face.
fn reached(pass: &Pass, corner: Point, axis: usize) -> Share
    requires axis { axis < 3 }
    requires pass { IsNearPass pass.now }
    requires face { IsSpreadFace (coordinate corner axis) }
    ensures is { shared result ≡ reached_on pass.now (coordinate corner axis) axis }
    ensures small { IsSmall pass.now result }
{
    Share {
        num: corner.0[axis].abs_diff(pass.from.0[axis]),
        den: pass.to.0[axis].abs_diff(pass.from.0[axis]),
    }
}

// The least fraction of another one, if there is one, and those at which it reaches the faces of this axis.
fn on_axis(pass: &Pass, axis: usize, other: Option<Share>) -> Option<Share>
    requires axis { axis < 3 }
    requires pass { IsNearPass pass.now }
    ensures { option_map shared result ≡ least_on pass.now axis (option_map shared other) }
{
    let high = reached(pass, pass.block.high, axis);
    let low = reached(pass, pass.block.low, axis);
    lesser(pass, low, lesser(pass, high, other))
}

/// The least fraction of a way at which a point lies in a block; none where it doesn't.
pub(crate) fn entry(pass: &Pass) -> Option<Share>
    requires { IsNearPass pass.now }
    ensures { option_map shared result ≡ entry (coordinate pass.now.from) (coordinate pass.now.to) pass.now.block }
{
    let start = Share { num: 0, den: 1 };
    let last = on_axis(pass, 2, None);
    let second = on_axis(pass, 1, last);
    lesser(pass, start, on_axis(pass, 0, second))
}
