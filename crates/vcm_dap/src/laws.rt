//! Laws of the definitions, each the contract of a function without a body.

ghost use Rattle.vcm_dap.specs.Laws.{LinesAreOne, LinesSettle, LinesArePrinted};

/// The items of a request ask for one list of lines.
pub fn lines_are_one()
    ensures { LinesAreOne }
{}

/// A breakpoint comes to stand on the least line, not above the one that is asked for, that a statement begins on; and nowhere only where there is no such line.
pub fn lines_settle()
    ensures { LinesSettle }
{}

/// However output lines are cut into pieces, the texts of the events that tell them are, put together, what `vcm run` prints of these lines.
pub fn lines_are_printed()
    ensures { LinesArePrinted }
{}
