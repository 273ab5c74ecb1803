//! Laws of the definitions, each the contract of a function without a body.

ghost use Rattle.vcm_summary.specs.Laws.{OneSummary};

/// A run comes to one thing.
pub fn summaries_are_one()
    ensures { OneSummary }
{}
