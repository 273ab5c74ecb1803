//! Laws of the definitions, each the contract of a function without a body.

ghost use Rattle.vcm_set_debug.specs.Laws.{FirstStepsAreDebugged};

/// As long as each step was taken with the tip of the part file and left the centre of the tip where it stood, as all do before the head first turns, a session shows the
/// state that one without probes shows.
pub fn first_steps_are_debugged()
    ensures { FirstStepsAreDebugged }
{}
