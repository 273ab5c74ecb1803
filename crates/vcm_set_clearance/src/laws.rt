//! Laws of the definitions, each the contract of a function without a body.

ghost use Rattle.vcm_set_clearance.specs.Laws.{ClearSwingsStandClear};

/// Where the room round a body of the swing is told as clear, no place of the body, its sides moved out by so much, lies in a block or on a face of one, at any
/// change at which the head turns.
pub fn clear_swings_stand_clear()
    ensures { ClearSwingsStandClear }
{}
