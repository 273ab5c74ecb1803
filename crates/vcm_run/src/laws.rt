//! Laws of runs, each the contract of a function without a body.

ghost use Rattle.vcm_run.specs.Laws.{CallsShowTheProgram, SummariesRest, SummariesAreOne, ImageRunsAreOne, BuildsAreOne, RefusedIsNotBuilt, RefusedIsNotRun, RefusedImageIsNotRun, RefusedAtOneLine, ImageRefusalsAreOne};

/// The calls by which a program is run, one by one: what was accepted, assembled, written, loaded and run, at once or in several runs, shows the program.
pub fn calls_show_the_program()
    ensures { CallsShowTheProgram }
{}

/// In what a run of a text shows the centre of the tip is within the limits, and the tip meets no block.
pub fn summaries_rest()
    ensures { SummariesRest }
{}

/// Runs of one text beside one workpiece, for as many steps, show the same, unless memory is refused.
pub fn summaries_are_one()
    ensures { SummariesAreOne }
{}

/// Runs of one image beside one workpiece, for as many steps, show the same, unless memory is refused.
pub fn image_runs_are_one()
    ensures { ImageRunsAreOne }
{}

/// A text has one image and one list of notices.
pub fn builds_are_one()
    ensures { BuildsAreOne }
{}

/// What is refused for another cause than memory is not built and not run.
pub fn refused_is_not_run()
    ensures built { RefusedIsNotBuilt }
    ensures run { RefusedIsNotRun }
    ensures image { RefusedImageIsNotRun }
{}

/// Refusals of one text for other causes than memory are told at one line; those of one image are one.
pub fn refusals_are_one()
    ensures text { RefusedAtOneLine }
    ensures image { ImageRefusalsAreOne }
{}
