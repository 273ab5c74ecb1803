//! The marks of PTMEAS.

ghost use Rattle.std.specs.Prelude.{◌≡◌, ℕ, ℤ, ◌∷◌, IsTrue, unwrap_or};
ghost use Rattle.vcm_num.specs.Axis.{along, opposite};
ghost use Rattle.vcm_num.specs.Point.{coordinate, is_near};
ghost use Rattle.vcm_spec.specs.Touch.{centre_of, down_of};
ghost use Rattle.vcm_spec.specs.FirstTouch.{first_inside, touch};
ghost use Rattle.vcm_spec.specs.Outcome.{point_of};
ghost use Rattle.vcm_probe.specs.Aims.{AreAimed};
ghost use Rattle.vcm_marks.specs.declared.mark.Going.TheVariants as goings;
ghost use Rattle.vcm_way.specs.Marks.{touching, marks_of_touch, goes, touches};
ghost use Rattle.vcm_way.specs.Steps.{EndsAs, listed};
ghost use Rattle.vcm_way.specs.inner.Endings.{HasTouched, IsNearAtHit, behind, distance_of};

use crate::place::{falls_short, goes, meets_block};
use crate::step::StepMarks;
use crate::task::Measuring;
use vcm_marks::{Going, Mark, Touched};
use vcm_motion::{Face, Part};
use vcm_num::{Axis, Point};
use vcm_part::PartData;
use vcm_probe::{Aims, Settings, aims_of, moved};
use vcm_spec::{MovePhase, Stop};

// The distance of a face; 0, where there is none.
fn distance_of(face: Option<Face>) -> u32
    ensures { result ≡ distance_of face }
{
    match face {
        Some(face) => face.distance,
        None => 0,
    }
}

// Where the centre of the tip stands as it touches; the approach point, where it does not.
fn touch_point<P: Part>(part: &P, settings: Settings, toward: Axis, aims: Aims) -> Point
    requires { IsTrue (is_near aims.approach) }
    ensures is { (centre : ℕ → ℤ) → AreAimed settings centre toward aims.approach aims.end
        → result ≡ point_of (down_of settings centre toward (unwrap_or (first_inside (P.part part.now) settings centre toward) 0)) }
    ensures near { (centre : ℕ → ℤ) → AreAimed settings centre toward aims.approach aims.end → IsTrue (is_near aims.end) → IsTrue (is_near result) }
{
    let back = toward.opposite();
    let face = part.first_face(aims.approach, back, settings.descent());
    moved(aims.approach, back, distance_of(face))
}

// The marks of a measurement that touches with the centre of the tip at a point, its statement having this stop.
fn marks_round(
    part: &PartData,
    from: Point,
    approach: Point,
    touch: Point,
    retract: Point,
    measuring: Measuring,
    stop: Option<Stop>,
) -> StepMarks
    requires touch { IsTrue (is_near touch) }
    requires retract { IsNearAtHit retract stop }
    ensures { listed result ≡ goes goings.Approach from approach ∷ goes goings.Search approach touch
        ∷ touches (point_of (along (coordinate touch) (opposite measuring.toward) part.now.bounds.tip)) measuring.feature ∷ behind part.now touch retract stop }
{
    let bounds = part.bounds();
    let to = goes(Going::Approach, from, approach);
    let down = goes(Going::Search, approach, touch);
    let at = moved(touch, measuring.toward.opposite(), bounds.tip);
    let touched = Mark::Touches(Touched {
        at,
        feature: measuring.feature,
    });
    match stop {
        None => StepMarks::Four([to, down, touched, goes(Going::Retract, touch, retract)]),
        Some(Stop::Travel(MovePhase::Retract)) => {
            StepMarks::Four([to, down, touched, falls_short(&bounds, touch, retract)])
        }
        Some(Stop::Collision(MovePhase::Retract, hit)) => {
            let [gone, left, met] = meets_block(part, Going::Retract, touch, retract, hit.block);
            StepMarks::Six([to, down, touched, gone, left, met])
        }
        Some(_) => StepMarks::Three([to, down, touched]),
    }
}

// The marks of a measurement that has touched.
fn marks_of_touched<P: Part>(
    part: &P,
    blocks: &PartData,
    settings: Settings,
    from: Point,
    measuring: Measuring,
    aims: Aims,
    stop: Option<Stop>,
) -> StepMarks
    requires tie { P.part part.now ≡ blocks.now }
    requires from { IsTrue (is_near from) }
    requires aims { AreAimed settings (centre_of blocks.now (coordinate measuring.nominal) measuring.toward) measuring.toward aims.approach aims.end }
    requires ends { EndsAs (touch blocks.now settings (coordinate from) (coordinate measuring.nominal) measuring.toward) stop }
    requires touched { HasTouched stop }
    ensures { listed result ≡ marks_of_touch blocks.now from
        (touching blocks.now settings (centre_of blocks.now (coordinate measuring.nominal) measuring.toward) measuring.toward measuring.feature) stop }
{
    // It is called for what it tells of the limits: that they are valid.
    let _bounds = blocks.bounds();
    let toward = measuring.toward;
    let touch = touch_point(part, settings, toward, aims);
    let retract = moved(touch, toward, settings.retract());
    marks_round(blocks, from, aims.approach, touch, retract, measuring, stop)
}

/// The marks of a measurement, whose statement had this stop.
pub(crate) fn marks_of_touch<P: Part>(
    part: &P,
    blocks: &PartData,
    settings: Settings,
    from: Point,
    measuring: Measuring,
    stop: Option<Stop>,
) -> StepMarks
    requires tie { P.part part.now ≡ blocks.now }
    requires from { IsTrue (is_near from) }
    requires ends { EndsAs (touch blocks.now settings (coordinate from) (coordinate measuring.nominal) measuring.toward) stop }
    ensures { listed result ≡ marks_of_touch blocks.now from
        (touching blocks.now settings (centre_of blocks.now (coordinate measuring.nominal) measuring.toward) measuring.toward measuring.feature) stop }
{
    let bounds = blocks.bounds();
    let Some(aims) = aims_of(part, measuring.nominal, measuring.toward, settings) else {
        return StepMarks::Zero;
    };
    let to = goes(Going::Approach, from, aims.approach);
    match stop {
        None => marks_of_touched(part, blocks, settings, from, measuring, aims, stop),
        Some(Stop::Travel(MovePhase::Approach)) => {
            StepMarks::One([falls_short(&bounds, from, aims.approach)])
        }
        Some(Stop::Collision(MovePhase::Approach, hit)) => StepMarks::Three(meets_block(
            blocks,
            Going::Approach,
            from,
            aims.approach,
            hit.block,
        )),
        Some(Stop::Travel(MovePhase::Search)) => {
            StepMarks::Two([to, falls_short(&bounds, aims.approach, aims.end)])
        }
        Some(Stop::Missed) => StepMarks::Two([to, goes(Going::Search, aims.approach, aims.end)]),
        Some(Stop::Travel(MovePhase::Retract)) => {
            marks_of_touched(part, blocks, settings, from, measuring, aims, stop)
        }
        Some(Stop::Collision(MovePhase::Retract, _)) => {
            marks_of_touched(part, blocks, settings, from, measuring, aims, stop)
        }
        Some(_) => StepMarks::Zero,
    }
}
