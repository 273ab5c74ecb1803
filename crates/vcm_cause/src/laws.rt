//! Laws of ways past a block, each a clause of a function without a body.

ghost use Rattle.vcm_cause.specs.Laws.{OverIsFree, BesideIsFree};

/// A straight way is free of a block where both of its ends lie at the height that is told over it, or above; and where both lie at the edge of the side that is
/// told, or past it.
pub fn free_is_free()
    ensures over { OverIsFree }
    ensures beside { BesideIsFree }
{}
