//! Laws of ways past a block, each a clause of a function without a body.

ghost use Rattle.vcm_first_contact.specs.Laws.{OverIsFreeOfBoxes, BesideIsFreeOfBoxes};

/// A box that is fixed to the tip is free of a block on a straight way of the tip's centre where both of its ends lie at the height that is told over it, or above; and where
/// both lie at the edge of the side that is told, or past it.
pub fn free_boxes_are_free()
    ensures over { OverIsFreeOfBoxes }
    ensures beside { BesideIsFreeOfBoxes }
{}
