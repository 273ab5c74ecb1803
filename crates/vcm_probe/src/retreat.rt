//! The way back from a touch.

ghost use Rattle.std.specs.Prelude.{◌≡◌, ◌≤◌, IsTrue, IfOk};
ghost use Rattle.vcm_num.specs.Axis.{along};
ghost use Rattle.vcm_num.specs.Point.{coordinate, is_near};
ghost use Rattle.vcm_spec.specs.Workpiece.{is_blocked};
ghost use Rattle.vcm_spec.specs.FirstContact.{later_contact};
ghost use Rattle.vcm_spec.specs.Outcome.{Answers, point_of};
ghost use Rattle.vcm_probe.specs.inner.Retreats.{retreat};

use crate::reach::moved;
use vcm_motion::Part;
use vcm_num::{Axis, Point};
use vcm_part::is_within;
use vcm_spec::{Hit, MovePhase, Stop, Touch};

// The first contact on the way back, its start left out. Faces lie at whole distances, so the first face from one step on tells it.
fn retract_hit<P: Part>(part: &P, at: Point, toward: Axis, length: u32) -> Option<Hit>
    requires start { IsTrue (is_near at) }
    requires end { IsTrue (is_near (point_of (along (coordinate at) toward length))) }
    requires free { ¬ IsTrue (is_blocked (P.part part.now) (along (coordinate at) toward 1)) }
    requires least { 1 ≤ length }
    requires most { length ≤ 1000000 }
    ensures { result ≡ later_contact (P.part part.now) (coordinate at) (along (coordinate at) toward length) }
{
    let next = moved(at, toward, 1);
    let face = part.first_face(next, toward, length - 1)?;
    Some(Hit {
        block: face.block,
        permille: 1000 * (face.distance + 1) / length,
    })
}

/// Goes back from a touch, where the centre of the tip is, one step from which the tip meets no block.
pub(crate) fn retreat<P: Part>(
    part: &P,
    centre: Point,
    toward: Axis,
    length: u32,
) -> Result<Touch, Stop>
    requires start { IsTrue (is_near centre) }
    requires free { ¬ IsTrue (is_blocked (P.part part.now) (along (coordinate centre) toward 1)) }
    requires least { 1 ≤ length }
    requires most { length ≤ 1000000 }
    ensures answer { Answers (retreat (P.part part.now) centre toward length) result }
    ensures near { IfOk result (λ t. IsTrue (is_near t.retract)) }
{
    let retract = moved(centre, toward, length);
    if !is_within(&part.bounds(), retract) {
        return Err(Stop::Travel(MovePhase::Retract));
    }
    match retract_hit(part, centre, toward, length) {
        Some(hit) => Err(Stop::Collision(MovePhase::Retract, hit)),
        None => Ok(Touch {
            at: moved(centre, toward.opposite(), part.bounds().tip),
            retract,
        }),
    }
}
