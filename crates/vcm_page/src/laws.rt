//! The law of pages, the contract of a function without a body.

ghost use Rattle.vcm_page.specs.Views.{PagesAreOne};

/// Two pages of one input, neither of which want of memory or a failed device cut short, are one: they have the same status and notices, or tell the same
/// cause, and the same bytes were written.
pub fn pages_are_one()
    ensures { PagesAreOne }
{}
