//! Laws of the definitions, each the contract of a function without a body.

ghost use Rattle.vcm_compared.specs.Laws.{OthersStay};

/// A text that declares no variable of texts, and has no CASE of texts, stays the same.
pub fn others_stay()
    ensures { OthersStay }
{}
