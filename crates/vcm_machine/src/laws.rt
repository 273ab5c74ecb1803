//! Laws of runs, each the contract of a function without a body.

ghost use Rattle.vcm_machine.specs.Laws.{RunIsOne, RunsFollow, RunsAddUp};
ghost use Rattle.vcm_machine.specs.RestsAlways.{RestsAlways, ProgramsRest};

/// Runs of the same number of steps from one state come to one state after as many steps and end alike, unless memory is refused.
pub fn run_is_one()
    ensures { RunIsOne }
{}

/// Runs one after another, each where the one before was cut short by its number of steps or by want of memory, are one run.
pub fn runs_follow()
    ensures { RunsFollow }
{}

/// Steps in two goes are the steps in one.
pub fn runs_add_up()
    ensures { RunsAddUp }
{}

/// In every state of a code table the centre of the tip is within the limits, and the tip meets no block.
pub fn the_probe_rests()
    ensures { RestsAlways }
{}

/// In every state that the statement table shows of a program it is so too.
pub fn the_probe_rests_in_programs()
    ensures { ProgramsRest }
{}
