//! Where points are drawn: a coordinate is at most a kilometre from 0.

ghost use Rattle.std.specs.Prelude.{◌≡◌, IsTrue};
ghost use Rattle.vcm_num.specs.Point.{IsNear, is_near};
ghost use Rattle.vcm_picture.specs.Drawn.{drawn, drawn_at};

use vcm_num::Point;

/// The farthest coordinate that is drawn, in micrometres: a kilometre.
const FARTHEST: i64 = 1_000_000_000;

// A coordinate as it is drawn.
fn drawn(coordinate: i64) -> i64
    ensures coordinate { result ≡ drawn coordinate }
    ensures near { IsNear result }
{
    (-FARTHEST).max(coordinate.min(FARTHEST))
}

/// Where a point is drawn.
pub(crate) fn drawn_at(at: Point) -> Point
    ensures point { result ≡ drawn_at at }
    ensures near { IsTrue (is_near result) }
{
    let Point([x, y, z]) = at;
    Point::new(drawn(x), drawn(y), drawn(z))
}
