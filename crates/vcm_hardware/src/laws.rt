//! Laws of the definitions, each the contract of a function without a body.

ghost use Rattle.vcm_hardware.specs.Holding.{PartsAreHeld, BallsAreHeld, StillBoxesAreHeld, PivotsAreNear};
ghost use Rattle.vcm_hardware.specs.SwingHolding.{AnglesGiveTurns, SwingHoldsWhatTurns};

/// Each point of a part lies in one of the part's boxes, however its head is turned.
pub fn parts_are_held()
    ensures { PartsAreHeld }
{}

/// Each point of a ball lies in the ball's cube, however its head is turned.
pub fn balls_are_held()
    ensures { BallsAreHeld }
{}

/// Each point of a box that stands still lies, seen from the tip, in the box that is written for it.
pub fn still_boxes_are_held()
    ensures { StillBoxesAreHeld }
{}

/// The pivot of a probe is on each axis at most a micrometre from the turning centre, seen from the tip.
pub fn pivots_are_near()
    ensures { PivotsAreNear }
{}

/// Where A and B are angles whose cosines and sines lie where the table has those of so many steps, the head is turned by so many steps.
pub fn angles_give_turns()
    ensures { AnglesGiveTurns }
{}

/// Each point of a part or a ball lies in one of the boxes of the swing, at each A up to the greatest one of the probes, to either side, and at each B.
pub fn swing_holds_what_turns()
    ensures { SwingHoldsWhatTurns }
{}
