//! Laws of runs with several probes, each the contract of a function without a body.

ghost use Rattle.vcm_set_views.specs.Laws.{RemarksAreOne, RunsTakeOneCount};

/// A run takes so many steps and no others, and so it comes to one stop.
pub fn runs_take_one_count()
    ensures { RunsTakeOneCount }
{}

/// What is remarked of a run is one list.
pub fn remarks_are_one()
    ensures { RemarksAreOne }
{}
