//! A law of backtraces, the contract of a function without a body.

ghost use Rattle.vcm_backtrace.specs.Laws.{BacktracesAreToldAlong};

/// What is told behind so many steps of a run is what is told at each of its steps, as it is taken.
pub fn backtraces_are_told_along()
    ensures { BacktracesAreToldAlong }
{}
