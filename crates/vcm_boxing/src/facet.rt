//! Triangles whose coordinates are small numbers.

ghost use Rattle.std.specs.Prelude.{◌≡◌, ℕ, ℤ, IfSome};
ghost use Rattle.vcm_covering.specs.Parting.{IsPoint};
ghost use Rattle.vcm_boxing.specs.Ranges.{facet_corners, IsIn};
ghost use Rattle.vcm_boxing.specs.Facets.{IsFacetOf, IsSpan};

use crate::range::{Range, Stretch};
use vcm_mesh::Triangle;
use vcm_num::Point;

/// The corners of a triangle, in micrometres.
#[derive(Clone, Copy)]
pub struct Facet {
    pub a: [i32; 3],
    pub b: [i32; 3],
    pub c: [i32; 3],
}

// The coordinates of a point, if they are small.
fn small(point: &Point) -> Option<[i32; 3]>
    ensures { IfSome result (λ xs. xs ≡ point.now.0) }
{
    let Point([x, y, z]) = *point;
    let Ok(x) = i32::try_from(x) else {
        return None;
    };
    let Ok(y) = i32::try_from(y) else {
        return None;
    };
    let Ok(z) = i32::try_from(z) else {
        return None;
    };
    Some([x, y, z])
}

/// The triangle, if its coordinates are small.
pub fn facet_of(triangle: &Triangle) -> Option<Facet>
    ensures { IfSome result (λ facet. IsFacetOf facet triangle.now) }
{
    let a = small(&triangle.a)?;
    let b = small(&triangle.b)?;
    let c = small(&triangle.c)?;
    Some(Facet { a, b, c })
}

// The closed stretch from the least of three coordinates to the greatest.
fn span(a: i32, b: i32, c: i32) -> Stretch
    ensures { IsSpan a b c result }
{
    let low = if a < b { a } else { b };
    let high = if a < b { b } else { a };
    Stretch {
        low: if c < low { c } else { low },
        high: if high < c { c } else { high },
        open_low: false,
        open_high: false,
    }
}

/// The least closed range in which a triangle lies.
pub fn facet_range(facet: &Facet) -> Range
    ensures { (s : ℕ) (x : ℕ → ℤ) → IsPoint (facet_corners facet.now) s x → IsIn result s x }
{
    Range([
        span(facet.a[0], facet.b[0], facet.c[0]),
        span(facet.a[1], facet.b[1], facet.c[1]),
        span(facet.a[2], facet.b[2], facet.c[2]),
    ])
}
