//! Laws of runs that turn the head, each the contract of a function without a body.

ghost use Rattle.vcm_turning.specs.Laws.{PivotStays, NothingMovesWithout, EachWayByItsProbe, FirstStepsAreTheRun, WaysJoin};

/// Where the head turns, the pivot stays.
pub fn pivot_stays()
    ensures { PivotStays }
{}

/// In the state before each step that moves the probe, the variable has the number of the probe that is on; and so it has before each step that adds to the way,
/// whose marks are those beside the workpiece with its tip.
pub fn nothing_moves_without()
    ensures steps { NothingMovesWithout }
    ensures ways { EachWayByItsProbe }
{}

/// As long as each step is taken with the tip of the part file and leaves the centre of the tip where it stood, as all do before the head first turns, the state is
/// that of the run, or the run has ended without a probe.
pub fn first_steps_are_the_run()
    ensures { FirstStepsAreTheRun }
{}

/// Each step begins where the one before it left the centre of the tip, and behind a change where the pivot is kept.
pub fn ways_join()
    ensures { WaysJoin }
{}
