//! Laws of sheets, each the contract of a function without a body.

ghost use Rattle.vcm_sheet.specs.Laws.{NumbersAreApart, NumbersStandThere, PointsHaveNumbers, NumbersAreCounted};

/// No two numbers of a view overlap, and none overlaps what was taken before; each lies in the width of the view.
pub fn numbers_are_apart()
    ensures { NumbersAreApart }
{}

/// Each number of a view stands at the place of its point.
pub fn numbers_stand_there()
    ensures { NumbersStandThere }
{}

/// Each touched point of a way has a number, once; in the order of the run these are 1, 2, 3 and so on.
pub fn points_are_numbered()
    ensures once { PointsHaveNumbers }
    ensures counted { NumbersAreCounted }
{}
