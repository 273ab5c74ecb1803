//! Where a way is free of a block.

ghost use Rattle.std.specs.Prelude.{◌≡◌, ◌-ℤ◌};
ghost use Rattle.vcm_cause.specs.Free.{edge_below, edge_above, edge, shift, offered, nearer, over, beside};

use vcm_num::{Point, add, sub};
use vcm_spec::{Block3, Bounds};

/// A side of a block, seen from above.
#[derive(Clone, Copy)]
pub enum Side {
    LowX,
    HighX,
    LowY,
    HighY,
}

/// A side of a block, and the coordinate of the tip's centre, in micrometres, at which and past which the tip doesn't meet the block.
#[derive(Clone, Copy)]
pub struct FreeSide {
    pub side: Side,
    pub at: i64,
}

// How far below a face the centre of the tip is to stay: half the width of the tip and one micrometre more. None where that is beyond the limit.
fn edge_below(face: i64, tip: u32, limit: i64) -> Option<i64>
    ensures { result ≡ edge_below face tip limit }
{
    match sub(face, i64::from(tip) + 1) {
        Ok(at) => { if limit <= at { Some(at) } else { None } }
        Err(_) => None,
    }
}

// How far above a face.
fn edge_above(face: i64, tip: u32, limit: i64) -> Option<i64>
    ensures { result ≡ edge_above face tip limit }
{
    match add(face, i64::from(tip) + 1) {
        Ok(at) => { if at <= limit { Some(at) } else { None } }
        Err(_) => None,
    }
}

// The coordinate from which on the tip is free of a block on a side.
fn edge(bounds: &Bounds, block: &Block3, side: Side) -> Option<i64>
    ensures { result ≡ edge bounds.now block.now side }
{
    let Point([low_x, low_y, _]) = block.low;
    let Point([high_x, high_y, _]) = block.high;
    let Point([least_x, least_y, _]) = bounds.low;
    let Point([most_x, most_y, _]) = bounds.high;
    match side {
        Side::LowX => edge_below(low_x, bounds.tip, least_x),
        Side::HighX => edge_above(high_x, bounds.tip, most_x),
        Side::LowY => edge_below(low_y, bounds.tip, least_y),
        Side::HighY => edge_above(high_y, bounds.tip, most_y),
    }
}

// How far one coordinate lies above another.
fn apart(upper: i64, lower: i64) -> i128
    ensures { result ≡ upper -ℤ lower }
{
    i128::from(upper) - i128::from(lower)
}

// How far a way has to be shifted to lie past an edge, in micrometres.
fn shift(from: Point, to: Point, past: FreeSide) -> i128
    ensures { result ≡ shift from to past }
{
    let Point([from_x, from_y, _]) = from;
    let Point([to_x, to_y, _]) = to;
    match past.side {
        Side::LowX => apart(from_x.max(to_x), past.at),
        Side::HighX => apart(past.at, from_x.min(to_x)),
        Side::LowY => apart(from_y.max(to_y), past.at),
        Side::HighY => apart(past.at, from_y.min(to_y)),
    }
}

// A side, if it lies within the limits.
fn offered(bounds: &Bounds, block: &Block3, side: Side) -> Option<FreeSide>
    ensures { result ≡ offered bounds.now block.now side }
{
    match edge(bounds, block, side) {
        Some(at) => Some(FreeSide { side, at }),
        None => None,
    }
}

// That side of two to which a way has the less far; of those equally far the first.
fn nearer(
    from: Point,
    to: Point,
    one: Option<FreeSide>,
    other: Option<FreeSide>,
) -> Option<FreeSide>
    ensures { result ≡ nearer from to one other }
{
    match one {
        None => other,
        Some(one) => match other {
            None => Some(one),
            Some(other) => {
                if shift(from, to, one) <= shift(from, to, other) {
                    Some(one)
                } else {
                    Some(other)
                }
            }
        },
    }
}

/// The height of the tip's centre, in micrometres, at which and over which the tip doesn't meet a block; none where that is beyond the limits.
pub fn over(bounds: &Bounds, block: &Block3) -> Option<i64>
    ensures { result ≡ over bounds.now block.now }
{
    let Point([_, _, high]) = block.high;
    let Point([_, _, most]) = bounds.high;
    edge_above(high, bounds.tip, most)
}

/// The side of a block to which a way has to be shifted the least far, of those that lie within the limits.
pub fn beside(bounds: &Bounds, block: &Block3, from: Point, to: Point) -> Option<FreeSide>
    ensures { result ≡ beside bounds.now block.now from to }
{
    let last = offered(bounds, block, Side::HighY);
    let third = nearer(from, to, offered(bounds, block, Side::LowY), last);
    let second = nearer(from, to, offered(bounds, block, Side::HighX), third);
    nearer(from, to, offered(bounds, block, Side::LowX), second)
}
