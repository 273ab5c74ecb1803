//! Laws of what is reported, each a clause of a function without a body.

ghost use Rattle.vcm_untried.specs.Laws.{RunsAreShort, EachStepIsTold, LinesTellAllSteps, GroupsAreSums, SpansAreLines, AllIsTried, RowsAreInOrder, GroupsAreInOrder, CountsAgree};

/// Whatever is asked for, rows report it as often as there are steps that do; and a run has no more steps than it is asked for, so that all that is said here of fewer than
/// 2^64 steps is said of each run.
pub fn each_step_is_told()
    ensures told { EachStepIsTold }
    ensures short { RunsAreShort }
{}

/// The numbers of motions in all lines are together that of the steps that weren't tried; each line has the sum of its rows; and the counts of the statements that aren't
/// tried are together as many, where no two remarks are on one statement.
pub fn lines_tell_all_steps()
    ensures steps { LinesTellAllSteps }
    ensures sums { GroupsAreSums }
    ensures counts { CountsAgree }
{}

/// The lines in a line are those of its rows, each once, in their order.
pub fn spans_are_lines()
    ensures { SpansAreLines }
{}

/// All was tried where each step was, and only there.
pub fn all_is_tried()
    ensures { AllIsTried }
{}

/// Rows stand in the order of their lines, and no two report the same of the same line; there is one line for each cause and each line since which it is so, and the
/// lines are in order.
pub fn told_is_in_order()
    ensures rows { RowsAreInOrder }
    ensures groups { GroupsAreInOrder }
{}
