//! Laws of the definitions, each the contract of a function without a body.

ghost use Rattle.vcm_cover.specs.Hollows.{FreeWaysAreFree};
ghost use Rattle.vcm_cover.specs.Samples.{CornerOfSlope, RoomIsHollow};

/// No place of a straight way that keeps off each block lies in a block.
pub fn free_ways_are_free()
    ensures { FreeWaysAreFree }
{}

/// Worked examples.
pub fn cover_examples()
    ensures room_is_hollow { RoomIsHollow }
    ensures corner_of_slope { CornerOfSlope }
{}
