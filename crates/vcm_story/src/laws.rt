//! The laws of stories, the contracts of functions without a body.

ghost use Rattle.vcm_story.specs.Laws.{StoriesAreClear, TextsAreRead, StoriesTellSteps, StoriesTellTraces};

/// No byte of a story is `<`, and each is a line feed or printable: so nothing in a story ends the element that it stands in.
pub fn stories_are_clear()
    ensures { StoriesAreClear }
{}

/// A spelled text can be read again.
pub fn texts_are_read()
    ensures { TextsAreRead }
{}

/// The lines of a story that begin with a digit are the lines of the trace: those of the steps that are shown, and, where all are, the whole trace.
pub fn stories_tell_traces()
    ensures steps { StoriesTellSteps }
    ensures traces { StoriesTellTraces }
{}
