//! The law of views, the contract of a function without a body.

ghost use Rattle.vcm_views.specs.Laws.{ViewsAreOne};

/// Two views of one input, neither of which want of memory or a failed device cut short, are one: they have the same status and notices, or tell the same
/// cause, and the same bytes were written. Of two sheets of one code, in a run of as many steps, both say the same.
pub fn views_are_one()
    ensures { ViewsAreOne }
{}
