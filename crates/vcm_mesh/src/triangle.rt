//! Triangles.

use vcm_num::Point;

/// A triangle: its corners in micrometres of machine coordinates.
#[derive(Clone, Copy, PartialEq, Eq)]
pub struct Triangle {
    pub a: Point,
    pub b: Point,
    pub c: Point,
}
