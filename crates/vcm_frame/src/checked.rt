//! Exact coordinates.

ghost use Rattle.std.specs.Prelude.{◌≡◌, ℕ, ℤ, ◌+ℤ◌, ◌-ℤ◌};
ghost use Rattle.vcm_num.specs.Number.{checked};
ghost use Rattle.vcm_num.specs.Point.{coordinate};
ghost use Rattle.vcm_spec.specs.Outcome.{Answers, point_at};
ghost use Rattle.vcm_frame.specs.inner.Rows.{unit_row, dot};

use vcm_num::{Axis, Fault, Point, add, sub};
use vcm_spec::Stop;

/// A row times a point, and a number more: in micrometres.
///
/// Errors: `Overflow`.
pub(crate) fn row_of(row: Axis, at: Point, more: i64) -> Result<i64, Fault>
    ensures { result ≡ checked (dot (unit_row row) (coordinate at) +ℤ more) }
{
    let Point([x, y, z]) = at;
    match row {
        Axis::PlusX => add(x, more),
        Axis::MinusX => sub(more, x),
        Axis::PlusY => add(y, more),
        Axis::MinusY => sub(more, y),
        Axis::PlusZ => add(z, more),
        Axis::MinusZ => sub(more, z),
    }
}

/// A row times the way from one point to another, in micrometres.
///
/// Errors: `Overflow`.
pub(crate) fn row_between(row: Axis, from: Point, to: Point) -> Result<i64, Fault>
    ensures { result ≡ checked (dot (unit_row row) (λ k. coordinate to k -ℤ coordinate from k)) }
{
    let Point([a, b, c]) = from;
    let Point([x, y, z]) = to;
    match row {
        Axis::PlusX => sub(x, a),
        Axis::MinusX => sub(a, x),
        Axis::PlusY => sub(y, b),
        Axis::MinusY => sub(b, y),
        Axis::PlusZ => sub(z, c),
        Axis::MinusZ => sub(c, z),
    }
}

/// The point of three coordinates, if there are all three.
///
/// Errors: `Overflow` where one of them is missing.
pub(crate) fn point_from(
    x: Result<i64, Fault>,
    y: Result<i64, Fault>,
    z: Result<i64, Fault>,
) -> Result<Point, Stop>
    ensures { (h : ℕ → ℤ) → x ≡ checked (h 0) → y ≡ checked (h 1) → z ≡ checked (h 2) → Answers (point_at h) result }
{
    let (Ok(x), Ok(y), Ok(z)) = (x, y, z) else {
        return Err(Stop::Overflow);
    };
    Ok(Point::new(x, y, z))
}
