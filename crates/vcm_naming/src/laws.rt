//! The law of names, the contract of a function without a body.

ghost use Rattle.vcm_naming.specs.Laws.{NothingIsAdded};

/// Without names a text is the lines that it is made of.
pub fn nothing_is_added()
    ensures { NothingIsAdded }
{}
