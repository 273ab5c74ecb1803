//! Directions that keep triangles and ranges apart.

ghost use Rattle.std.specs.Prelude.{◌≡◌, ◌*ℤ◌, ◌≤◌, IsTrue, unsigned_abs};
ghost use Rattle.vcm_covering.specs.Parting.{along, farther, reach};
ghost use Rattle.vcm_boxing.specs.Ranges.{facet_corners, highs, lows, numbers, points_to_open, points_to_open_on, IsMissed};

use crate::facet::Facet;
use crate::range::{Range, Stretch};

// A number of a direction times a coordinate.
fn product(n: i64, x: i32) -> i128
    ensures value { result ≡ n *ℤ x }
    ensures small { unsigned_abs result ≤ 19807040628566084398385987584 }
{
    i128::from(n) * i128::from(x)
}

// How far a place lies along a direction.
fn along(n: &[i64; 3], x: &[i32; 3]) -> i128
    ensures { result ≡ along (numbers n.now) (numbers x.now) }
{
    product(n[0], x[0]) + product(n[1], x[1]) + product(n[2], x[2])
}

// How far a stretch reaches along a direction.
fn farther(n: i64, stretch: &Stretch) -> i128
    ensures value { result ≡ farther n stretch.now.low stretch.now.high }
    ensures small { unsigned_abs result ≤ 19807040628566084398385987584 }
{
    let low = product(n, stretch.low);
    let high = product(n, stretch.high);
    if high < low { low } else { high }
}

// How far a range reaches along a direction.
fn reach(n: &[i64; 3], range: &Range) -> i128
    ensures { result ≡ reach (numbers n.now) (lows range.now) (highs range.now) }
{
    farther(n[0], &range.0[0]) + farther(n[1], &range.0[1]) + farther(n[2], &range.0[2])
}

// Whether the end of a stretch to which a direction points is open.
fn points_to_open_on(n: i64, stretch: &Stretch) -> bool
    ensures { result ≡ points_to_open_on n stretch.now }
{
    0 < n && stretch.open_high || n < 0 && stretch.open_low
}

// Whether an end of a range to which a direction points is open.
fn points_to_open(n: &[i64; 3], range: &Range) -> bool
    ensures { result ≡ points_to_open (numbers n.now) range.now }
{
    points_to_open_on(n[0], &range.0[0])
        || points_to_open_on(n[1], &range.0[1])
        || points_to_open_on(n[2], &range.0[2])
}

// Whether the range lies before all corners of the triangle along a direction.
fn is_before(n: &[i64; 3], facet: &Facet, range: &Range) -> bool
    ensures { IsTrue result → IsMissed (facet_corners facet.now) range.now }
{
    let far = reach(n, range);
    let a = along(n, &facet.a);
    let b = along(n, &facet.b);
    let c = along(n, &facet.c);
    if far < a && far < b && far < c {
        return true;
    }
    if far > a || far > b || far > c {
        return false;
    }
    points_to_open(n, range)
}

// Whether a direction or the one back keeps the triangle off the range.
fn is_apart(n: [i64; 3], facet: &Facet, range: &Range) -> bool
    ensures { IsTrue result → IsMissed (facet_corners facet.now) range.now }
{
    let back = [
        0i64.wrapping_sub(n[0]),
        0i64.wrapping_sub(n[1]),
        0i64.wrapping_sub(n[2]),
    ];
    is_before(&n, facet, range) || is_before(&back, facet, range)
}

// The way from one corner to another.
fn edge(from: &[i32; 3], to: &[i32; 3]) -> [i64; 3] {
    [
        i64::from(to[0]).wrapping_sub(i64::from(from[0])),
        i64::from(to[1]).wrapping_sub(i64::from(from[1])),
        i64::from(to[2]).wrapping_sub(i64::from(from[2])),
    ]
}

// A coordinate of the product of two ways.
fn crossed(a: i64, b: i64, c: i64, d: i64) -> i64 {
    a.wrapping_mul(b).wrapping_sub(c.wrapping_mul(d))
}

/// The normal of a triangle, whose length is twice the area.
pub fn normal(facet: &Facet) -> [i64; 3] {
    let u = edge(&facet.a, &facet.b);
    let v = edge(&facet.a, &facet.c);
    [
        crossed(u[1], v[2], u[2], v[1]),
        crossed(u[2], v[0], u[0], v[2]),
        crossed(u[0], v[1], u[1], v[0]),
    ]
}

// Whether a direction square to an edge and to an axis keeps the triangle off the range.
fn edge_parts(edge: [i64; 3], facet: &Facet, range: &Range) -> bool
    ensures { IsTrue result → IsMissed (facet_corners facet.now) range.now }
{
    let [x, y, z] = edge;
    is_apart([y, 0i64.wrapping_sub(x), 0], facet, range)
        || is_apart([0, z, 0i64.wrapping_sub(y)], facet, range)
        || is_apart([0i64.wrapping_sub(z), 0, x], facet, range)
}

/// Whether no point of a triangle lies in a range; the answer no may be wrong.
pub fn is_missed(facet: &Facet, range: &Range) -> bool
    ensures { IsTrue result → IsMissed (facet_corners facet.now) range.now }
{
    edge_parts(edge(&facet.a, &facet.b), facet, range)
        || edge_parts(edge(&facet.b, &facet.c), facet, range)
        || edge_parts(edge(&facet.c, &facet.a), facet, range)
        || is_apart(normal(facet), facet, range)
}
