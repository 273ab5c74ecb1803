//! Laws of the definitions, each the contract of a function without a body.

ghost use Rattle.vcm_judge.specs.Laws.{EachIsCounted, NothingIsHidden};

/// Each program is counted once.
pub fn each_program_is_counted()
    ensures { EachIsCounted }
{}

/// Where one program didn't fare well, the exit status of all says so.
pub fn no_fault_is_hidden()
    ensures { NothingIsHidden }
{}
