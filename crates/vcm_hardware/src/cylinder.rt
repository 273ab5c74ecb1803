//! Boxes that hold a slanted cylinder.

ghost use Rattle.std.specs.Prelude.{◌≡◌, ◌≤◌, ◌<◌, ◌*◌, ◌+◌, ℕ, pos, ◌≤ℤ◌, ◌+ℤ◌, ◌-ℤ◌, ◌*ℤ◌, neg_ℤ, int_le, ◌&&◌, if◌then◌else◌, unsigned_abs, IfSome};
ghost use Rattle.std.specs.Int.{int_div_euclid};
ghost use Rattle.vcm_hardware.specs.Intervals.{size};
ghost use Rattle.vcm_hardware.specs.Slabs.{axis_between, seen_from, main_axis, half_width, hull, one, range_on, outward, slope_width, planes_of, nearest, quotient, planes, planes_back, side_on, aside, over_up, slab_count, slabs_of, cut_at, leans, both, between, with_room, reach, block_of, slab_of};
ghost use Rattle.vcm_hardware.specs.inner.Sizes.{IsWithin, IsFar, AreFar, AreSeen, IsShort, IsSlope, IsLeaning, IsSide, AreSlabs};

use crate::angle::{Along, Direction, Spot, Turning, column, coordinate_on, towards, turned};
use crate::description::{Cylinder, Place};
use crate::interval::{
    Interval, ceil_one, floor_one, greatest_size, half_up, least_size, less, middle, quotient_down,
    root_up, share, spread, square, wide,
};
use vcm_num::Point;
use vcm_spec::Block3;

/// The square of 1, in ten-millionths of ten-millionths.
const ONE: i128 = 100_000_000_000_000;

/// A cylinder as it is seen from the tip: its direction, its ends, its diameter, and how far a box of it may run on.
#[derive(Clone, Copy)]
pub struct Seen {
    pub direction: Direction,
    pub from: Spot,
    pub to: Spot,
    pub diameter: i32,
    pub step: i32,
}

/// The axis that a part runs along before the head is turned.
pub fn axis_between(from: Place, to: Place) -> Along
    ensures { result ≡ axis_between from to }
{
    if from.x != to.x {
        Along::X
    } else if from.y != to.y {
        Along::Y
    } else {
        Along::Z
    }
}

/// A part seen from the tip.
pub fn seen_from(turning: &Turning, part: &Cylinder, tip: Place) -> Seen
    ensures value { result ≡ seen_from turning.now part.now tip }
    ensures far { AreSeen result }
{
    Seen {
        direction: column(turning, axis_between(part.from, part.to)),
        from: turned(turning, part.from, tip),
        to: turned(turning, part.to, tip),
        diameter: part.diameter,
        step: part.step,
    }
}

// An absolute value.
fn size(z: i128) -> i128
    requires { unsigned_abs z ≤ 2147483648 }
    ensures { result ≡ size z }
{
    z.max(-z)
}

// Whether the first one of three numbers is the greatest.
fn is_greatest(x: i128, y: i128, z: i128) -> bool
    ensures { result ≡ (int_le y x && int_le z x) }
{
    y <= x && z <= x
}

// The axis of the greatest of three numbers, the first one of equals.
fn greatest_axis(x: i128, y: i128, z: i128) -> Along
    ensures { result ≡ (if int_le y x && int_le z x then Along.X else if int_le z y then Along.Y else Along.Z) }
{
    if is_greatest(x, y, z) {
        Along::X
    } else if z <= y {
        Along::Y
    } else {
        Along::Z
    }
}

// The axis along which a direction runs farthest, the first one of equals.
fn main_axis(direction: &Direction) -> Along
    ensures { result ≡ main_axis direction.now }
{
    let x = size(middle(direction.x));
    let y = size(middle(direction.y));
    let z = size(middle(direction.z));
    greatest_axis(x, y, z)
}

// Half the diameter times the root of a square, up.
fn half_width(diameter: i32, square: i128) -> i128
    ensures value { result ≡ half_width diameter square }
    ensures small { unsigned_abs result ≤ 39614081257132168796771975168 }
    ensures least { square ≤ℤ pos 100000000000000 → unsigned_abs result ≤ 21474836480000000 }
{
    half_up(spread(diameter, root_up(square)))
}

// From the least of two lower ends to the greatest of two upper ones, both moved out.
fn hull(p: Interval, q: Interval, out: i128) -> Interval
    requires p { IsWithin 80000000000000000000000000000 p }
    requires q { IsWithin 80000000000000000000000000000 q }
    requires out { unsigned_abs out ≤ 39614081257132168796771975168 }
    ensures value { result ≡ hull p q out }
    ensures small { (n : ℕ) (m : ℕ) → IsWithin n p → IsWithin n q → unsigned_abs out ≤ m → IsWithin (n + m) result }
{
    Interval {
        low: p.low.min(q.low) - out,
        high: p.high.max(q.high) + out,
    }
}

// The square under the root of a range.
fn range_square(least: i128) -> i128
    requires { unsigned_abs least ≤ 2147483648 }
    ensures value { result ≡ one -ℤ least *ℤ least }
    ensures small { result ≤ℤ pos 100000000000000 }
{
    ONE - square(least)
}

// The range of a cylinder on an axis.
fn range_on(seen: &Seen, axis: Along) -> Interval
    requires { AreSeen seen.now }
    ensures value { result ≡ range_on seen.now axis }
    ensures small { IsWithin 27691590947044327424 result }
{
    let least = least_size(wide(towards(&seen.direction, axis)));
    let out = half_width(seen.diameter, range_square(least));
    hull(
        coordinate_on(&seen.from, axis),
        coordinate_on(&seen.to, axis),
        out,
    )
}

/// A range in whole micrometres.
#[derive(Clone, Copy)]
pub struct Range {
    pub low: i64,
    pub high: i64,
}

// A range in whole micrometres, outward.
fn outward(x: Interval) -> Range
    requires { IsWithin 27691590947044327424 x }
    ensures value { result ≡ outward x }
    ensures short { IsShort result }
{
    Range {
        low: floor_one(x.low) as i64,
        high: ceil_one(x.high) as i64,
    }
}

/// A cylinder between two planes that lean along its main axis.
#[derive(Clone, Copy)]
pub struct Leaning {
    pub slope: i128,
    pub low: i128,
    pub high: i128,
}

// The square under the root of a slope.
fn slope_square(slope: i128, least: i128) -> i128
    requires slope { IsSlope slope }
    requires least { unsigned_abs least ≤ 4611686020574871767 }
    ensures { result ≡ pos 100000000000000 +ℤ slope *ℤ slope -ℤ least *ℤ least }
{
    ONE + square(slope) - square(least)
}

// How far a cylinder of a slope stands out of its axis.
fn slope_width(seen: &Seen, main: Along, axis: Along, slope: i128) -> i128
    requires { IsSlope slope }
    ensures value { result ≡ slope_width seen.now main axis slope }
    ensures small { unsigned_abs result ≤ 39614081257132168796771975168 }
{
    let along = less(
        slope,
        wide(towards(&seen.direction, axis)),
        wide(towards(&seen.direction, main)),
    );
    half_width(seen.diameter, slope_square(slope, least_size(along)))
}

// Between which planes of a slope it lies.
fn planes_of(seen: &Seen, main: Along, axis: Along, slope: i128) -> Leaning
    requires far { AreSeen seen.now }
    requires slope { IsSlope slope }
    ensures value { result ≡ planes_of seen.now main axis slope }
    ensures small { IsLeaning result }
{
    let from = less(
        slope,
        coordinate_on(&seen.from, axis),
        coordinate_on(&seen.from, main),
    );
    let to = less(
        slope,
        coordinate_on(&seen.to, axis),
        coordinate_on(&seen.to, main),
    );
    let hull = hull(from, to, slope_width(seen, main, axis, slope));
    Leaning {
        slope,
        low: hull.low,
        high: hull.high,
    }
}

// One number over another that is above 0, to the nearest, halves up.
fn nearest(over: i128, under: i128) -> i128
    requires over { unsigned_abs over ≤ 2147483648 }
    requires under { pos 1 ≤ℤ under }
    requires few { under ≤ℤ pos 2147483648 }
    ensures value { result ≡ nearest over under }
    ensures slope { IsSlope result }
{
    quotient_down(20_000_000 * over + under, 2 * under)
}

// The same over any number; none over 0.
fn quotient(over: i128, under: i128) -> Option<i128>
    requires over { unsigned_abs over ≤ 2147483648 }
    requires under { unsigned_abs under ≤ 2147483648 }
    ensures value { result ≡ quotient over under }
    ensures slope { IfSome result (λ z. IsSlope z) }
{
    if under == 0 {
        return None;
    }
    if under < 0 {
        return Some(nearest(-over, -under));
    }
    Some(nearest(over, under))
}

// The planes of a slope, if there is one.
fn planes(seen: &Seen, main: Along, axis: Along, slope: Option<i128>) -> Option<Leaning>
    requires far { AreSeen seen.now }
    requires slope { IfSome slope (λ z. IsSlope z) }
    ensures value { result ≡ planes seen.now main axis slope }
    ensures small { IfSome result (λ l. IsLeaning l) }
{
    match slope {
        None => None,
        Some(slope) => Some(planes_of(seen, main, axis, slope)),
    }
}

// Those of the one back.
fn planes_back(seen: &Seen, main: Along, axis: Along, slope: Option<i128>) -> Option<Leaning>
    requires far { AreSeen seen.now }
    requires slope { IfSome slope (λ z. IsSlope z) }
    ensures value { result ≡ planes_back seen.now main axis slope }
    ensures small { IfSome result (λ l. IsLeaning l) }
{
    match slope {
        None => None,
        Some(slope) => Some(planes_of(seen, main, axis, -slope)),
    }
}

/// How far a cylinder reaches on an axis: its range, and the planes along it and square to it.
#[derive(Clone, Copy)]
pub struct Side {
    pub range: Range,
    pub first: Option<Leaning>,
    pub second: Option<Leaning>,
}

fn side_on(seen: &Seen, main: Along, axis: Along) -> Side
    requires { AreSeen seen.now }
    ensures value { result ≡ side_on seen.now main axis }
    ensures small { IsSide result }
{
    let own = middle(towards(&seen.direction, axis));
    let other = middle(towards(&seen.direction, main));
    Side {
        range: outward(range_on(seen, axis)),
        first: planes(seen, main, axis, quotient(own, other)),
        second: planes_back(seen, main, axis, quotient(other, own)),
    }
}

/// A cylinder that is cut along its main axis.
#[derive(Clone, Copy)]
pub struct Slabs {
    pub main: Along,
    pub range: Range,
    pub count: u128,
    pub x: Side,
    pub y: Side,
    pub z: Side,
}

// The greatest absolute value on the two other axes.
fn aside(direction: &Direction, main: Along) -> i128
    ensures value { result ≡ aside direction.now main }
    ensures small { unsigned_abs result ≤ 2147483648 }
{
    let x = greatest_size(wide(direction.x));
    let y = greatest_size(wide(direction.y));
    let z = greatest_size(wide(direction.z));
    match main {
        Along::X => y.max(z),
        Along::Y => x.max(z),
        Along::Z => x.max(y),
    }
}

// One number over another, up, at least 1.
fn over_up(over: i128, under: i128) -> u128
    requires over { unsigned_abs over ≤ 12000000000000000000000 }
    requires under { pos 1 ≤ℤ under }
    ensures value { result ≡ over_up over under }
    ensures least { 1 ≤ result }
    ensures small { result ≤ 12000000000000000000001 }
{
    (-quotient_down(-over, under)).max(1) as u128
}

// How far what is so long runs aside.
#[tactic(auto, using(crate::proofs::Floors::aside_fits, crate::proofs::Floors::aside_small))]
fn run_aside(length: i128, aside: i128) -> i128
    requires length { unsigned_abs length ≤ 5538318189412 }
    requires aside { unsigned_abs aside ≤ 2147483648 }
    ensures value { result ≡ length *ℤ aside }
    ensures small { unsigned_abs result ≤ 12000000000000000000000 }
{
    length * aside
}

// How long a range is.
fn length_of(range: Range) -> i128
    requires { IsShort range }
    ensures value { result ≡ range.high -ℤ range.low }
    ensures small { unsigned_abs result ≤ 5538318189412 }
{
    i128::from(range.high) - i128::from(range.low)
}

// Into how many slabs it is cut.
fn slab_count(seen: &Seen, main: Along, range: Range) -> u128
    requires { IsShort range }
    ensures value { result ≡ slab_count seen.now main range }
    ensures least { 1 ≤ result }
    ensures small { result ≤ 12000000000000000000001 }
{
    let surely = least_size(wide(towards(&seen.direction, main)));
    let under = spread(seen.step, surely).max(1);
    over_up(
        run_aside(length_of(range), aside(&seen.direction, main)),
        under,
    )
}

/// The slabs of a cylinder.
pub fn slabs_of(seen: &Seen) -> Slabs
    requires { AreSeen seen.now }
    ensures value { result ≡ slabs_of seen.now }
    ensures small { AreSlabs result }
{
    let main = main_axis(&seen.direction);
    let range = outward(range_on(seen, main));
    Slabs {
        main,
        range,
        count: slab_count(seen, main, range),
        x: side_on(seen, main, Along::X),
        y: side_on(seen, main, Along::Y),
        z: side_on(seen, main, Along::Z),
    }
}

// Where a slab begins.
fn cut_at(range: Range, count: u128, index: u128) -> i64
    requires range { IsShort range }
    requires some { 1 ≤ count }
    requires few { count ≤ 12000000000000000000001 }
    requires index { index ≤ count }
    ensures { result ≡ cut_at range count index }
{
    (i128::from(range.low) + share(length_of(range), count, index)) as i64
}

// A slope times a place.
#[tactic(auto, using(crate::proofs::Leans::lean_fits))]
fn lean_times(slope: i128, z: i64) -> i128
    requires { IsSlope slope }
    ensures value { result ≡ slope *ℤ z }
    ensures small { unsigned_abs result ≤ 198070406285660853207231912694775808 }
{
    slope * i128::from(z)
}

// What the planes of a slope leave between the ends of a slab, outward.
fn leans(leaning: Leaning, z: Range) -> Interval
    requires { IsLeaning leaning }
    ensures { result ≡ leans leaning z }
{
    let a = lean_times(leaning.slope, z.low);
    let b = lean_times(leaning.slope, z.high);
    Interval {
        low: floor_one(leaning.low + a.min(b)),
        high: ceil_one(leaning.high + a.max(b)),
    }
}

// What is in both.
fn both(a: Interval, b: Interval) -> Interval
    ensures value { result ≡ both a b }
    ensures low { a.low ≤ℤ result.low }
    ensures high { result.high ≤ℤ a.high }
{
    Interval {
        low: a.low.max(b.low),
        high: a.high.min(b.high),
    }
}

// What the planes leave of a range.
fn between(range: Interval, leaning: Option<Leaning>, z: Range) -> Interval
    requires { IfSome leaning (λ l. IsLeaning l) }
    ensures value { result ≡ between range leaning z }
    ensures low { range.low ≤ℤ result.low }
    ensures high { result.high ≤ℤ range.high }
{
    match leaning {
        None => range,
        Some(leaning) => both(range, leans(leaning, z)),
    }
}

// How far a cylinder reaches on an axis between the ends of a slab.
fn reach(side: &Side, z: Range) -> Option<Range>
    requires { IsSide side.now }
    ensures { result ≡ reach side.now z }
{
    let range = Interval {
        low: i128::from(side.range.low),
        high: i128::from(side.range.high),
    };
    let all = between(between(range, side.first, z), side.second, z);
    if all.high < all.low {
        return None;
    }
    Some(Range {
        low: all.low as i64,
        high: all.high as i64,
    })
}

// The box of three ranges, if there are three.
fn block_of(x: Option<Range>, y: Option<Range>, z: Option<Range>) -> Option<Block3>
    ensures { result ≡ block_of x y z }
{
    let x = x?;
    let y = y?;
    let z = z?;
    Some(Block3 {
        low: Point([x.low, y.low, z.low]),
        high: Point([x.high, y.high, z.high]),
    })
}

/// The box of a slab, if there is room in it.
pub fn slab_of(slabs: &Slabs, index: u128) -> Option<Block3>
    requires small { AreSlabs slabs.now }
    requires index { index < slabs.now.count }
    ensures { result ≡ slab_of slabs.now index }
{
    let z = Range {
        low: cut_at(slabs.range, slabs.count, index),
        high: cut_at(slabs.range, slabs.count, index + 1),
    };
    match slabs.main {
        Along::X => block_of(Some(z), reach(&slabs.y, z), reach(&slabs.z, z)),
        Along::Y => block_of(reach(&slabs.x, z), Some(z), reach(&slabs.z, z)),
        Along::Z => block_of(reach(&slabs.x, z), reach(&slabs.y, z), Some(z)),
    }
}
