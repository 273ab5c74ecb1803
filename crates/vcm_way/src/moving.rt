//! The marks of GOTO and GOHOME.

ghost use Rattle.std.specs.Prelude.{◌≡◌, IsTrue};
ghost use Rattle.vcm_num.specs.Point.{coordinate, is_near};
ghost use Rattle.vcm_spec.specs.declared.words.MovePhase.TheVariants.{Move};
ghost use Rattle.vcm_spec.specs.FirstTouch.{free_move};
ghost use Rattle.vcm_way.specs.Marks.{marks_of_move};
ghost use Rattle.vcm_way.specs.Steps.{EndsAs, listed};

use crate::place::{falls_short, goes, meets_block};
use crate::step::StepMarks;
use vcm_marks::Going;
use vcm_num::Point;
use vcm_part::PartData;
use vcm_spec::{MovePhase, Stop};

/// The marks of a straight move, whose statement had this stop.
pub(crate) fn marks_of_move(
    part: &PartData,
    from: Point,
    to: Point,
    stop: Option<Stop>,
) -> StepMarks
    requires from { IsTrue (is_near from) }
    requires ends { EndsAs (free_move Move part.now (coordinate from) (coordinate to)) stop }
    ensures { listed result ≡ marks_of_move part.now from to stop }
{
    let bounds = part.bounds();
    match stop {
        None => StepMarks::One([goes(Going::Move, from, to)]),
        Some(Stop::Collision(MovePhase::Move, hit)) => {
            StepMarks::Three(meets_block(part, Going::Move, from, to, hit.block))
        }
        Some(Stop::Travel(MovePhase::Move)) => StepMarks::One([falls_short(&bounds, from, to)]),
        Some(_) => StepMarks::Zero,
    }
}
