//! The box of a model, and the limits of a first look.

ghost use Rattle.std.specs.Prelude.{◌≡◌, IsTrue};
ghost use Rattle.vcm_num.specs.Point.{is_near};
ghost use Rattle.vcm_blocks.specs.Adding.{lesser, greater, with_triangle, box_of, bounds_round};

use vcm_mesh::Triangle;
use vcm_num::Point;
use vcm_spec::{Block3, Bounds};

// On each axis the lesser of two coordinates.
fn lesser(first: Point, second: Point) -> Point
    ensures { result ≡ lesser first second }
{
    let Point([a, b, c]) = first;
    let Point([d, e, f]) = second;
    Point([a.min(d), b.min(e), c.min(f)])
}

// The greater.
fn greater(first: Point, second: Point) -> Point
    ensures { result ≡ greater first second }
{
    let Point([a, b, c]) = first;
    let Point([d, e, f]) = second;
    Point([a.max(d), b.max(e), c.max(f)])
}

// The least box that holds a box and a triangle.
#[tactic(auto, unfolding(crate::specs::Adding::with_triangle))]
fn with_triangle(around: Block3, triangle: &Triangle) -> Block3
    ensures { result ≡ with_triangle around triangle.now }
{
    Block3 {
        low: lesser(
            lesser(lesser(around.low, triangle.a), triangle.b),
            triangle.c,
        ),
        high: greater(
            greater(greater(around.high, triangle.a), triangle.b),
            triangle.c,
        ),
    }
}

/// The box of a model: the least one that holds its triangles.
pub(crate) fn box_of(triangles: &[Triangle]) -> Block3
    ensures { result ≡ box_of triangles.now }
{
    let Some((first, _)) = triangles.split_first() else {
        return Block3 {
            low: Point([0, 0, 0]),
            high: Point([0, 0, 0]),
        };
    };
    let mut around = Block3 {
        low: first.a,
        high: first.a,
    };
    for triangle in triangles {
        around = with_triangle(around, triangle);
    }
    around
}

/// The limits of a first look at a model.
pub(crate) fn bounds_round(around: &Block3) -> Bounds
    requires low { IsTrue (is_near around.now.low) }
    requires high { IsTrue (is_near around.now.high) }
    ensures { result ≡ bounds_round around.now }
{
    let Point([a, b, c]) = around.low;
    let Point([d, e, f]) = around.high;
    Bounds {
        low: Point([a - 100_000, b - 100_000, c]),
        high: Point([d + 100_000, e + 100_000, f + 200_000]),
        home: Point([a, b, f + 100_000]),
        tip: 0,
    }
}

/// How long a box is along each axis.
pub(crate) fn sizes(around: &Block3) -> [i64; 3] {
    let Point([a, b, c]) = around.low;
    let Point([d, e, f]) = around.high;
    [
        d.saturating_sub(a),
        e.saturating_sub(b),
        f.saturating_sub(c),
    ]
}
