//! Laws of the definitions, each the contract of a function without a body.

ghost use Rattle.vcm_meant.specs.Laws.{NoneTwice, InOrder};

/// No two remarks of a run are of one kind, one line and one feature.
pub fn none_is_told_twice()
    ensures { NoneTwice }
{}

/// The remarks of a run stand in the order of their lines.
pub fn remarks_are_in_order()
    ensures { InOrder }
{}
