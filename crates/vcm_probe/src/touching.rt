//! Touches.

ghost use Rattle.std.specs.Prelude.{IsTrue, IfOk, OnOk};
ghost use Rattle.vcm_num.specs.Point.{coordinate, is_near};
ghost use Rattle.vcm_spec.specs.declared.words.MovePhase.TheVariants.{Approach};
ghost use Rattle.vcm_spec.specs.FirstTouch.{free_move, touch};
ghost use Rattle.vcm_spec.specs.Outcome.{Answers};

use crate::ProbeStop;
use crate::aiming::aims_of;
use crate::reach::moved;
use crate::retreat::retreat;
use crate::settings::Settings;
use vcm_motion::{Part, contact_of};
use vcm_num::{Axis, Point};
use vcm_part::is_within;
use vcm_spec::{MovePhase, Stop, Touch};

// A straight move to the approach point, within the limits and without contact on the way.
fn approach_freely<P: Part>(part: &P, from: Point, to: Point) -> Result<(), Stop>
    requires { IsTrue (is_near from) }
    ensures answer { Answers (free_move Approach (P.part part.now) (coordinate from) (coordinate to)) result }
    ensures near { OnOk result (IsTrue (is_near to)) }
{
    if !is_within(&part.bounds(), to) {
        return Err(Stop::Travel(MovePhase::Approach));
    }
    match contact_of(part, from, to) {
        Some(hit) => Err(Stop::Collision(MovePhase::Approach, hit)),
        None => Ok(()),
    }
}

/// Touches the workpiece at a nominal point, and goes back. From `from`, which is at most 1,000,000,000 micrometres from 0 on each axis, the centre
/// of the tip moves to the approach point, which lies in the direction `toward` from the nominal point, at the approach length and half the width of
/// the tip, then down by the approach length and the greater of the search length and the depth, to the first point at which the tip meets a block, and
/// back `toward` by the retract length. The touched point is the middle of the tip's face where it meets the block. Lengths and coordinates are in
/// micrometres.
///
/// Errors, the first of these that applies: `Overflow` where a coordinate of the approach point or of the end of the search doesn't fit 64 bits;
/// `Travel(Approach)` where the approach point is beyond the limits; `Collision(Approach, ..)` where the straight move there meets a block;
/// `Travel(Search)` where the end of the search is beyond the limits; `Missed` where the tip meets no block in the search;
/// `Travel(Retract)` where the retract point is beyond the limits; `Collision(Retract, ..)` where the way back meets a block after its start.
pub fn touch<P: Part>(
    part: &P,
    from: Point,
    nominal: Point,
    toward: Axis,
    settings: Settings,
) -> Result<Touch, ProbeStop>
    requires { IsTrue (is_near from) }
    ensures answer { Answers (touch (P.part part.now) settings (coordinate from) (coordinate nominal) toward) result }
    ensures near { IfOk result (λ t. IsTrue (is_near t.retract)) }
{
    let back = toward.opposite();
    let bounds = part.bounds();
    let length = settings.descent();
    let Some(aims) = aims_of(part, nominal, toward, settings) else {
        return Err(ProbeStop::Overflow);
    };
    approach_freely(part, from, aims.approach)?;
    if !is_within(&bounds, aims.end) {
        return Err(ProbeStop::Travel(MovePhase::Search));
    }
    let Some(face) = part.first_face(aims.approach, back, length) else {
        return Err(ProbeStop::Missed);
    };
    let centre = moved(aims.approach, back, face.distance);
    retreat(part, centre, toward, settings.retract())
}
