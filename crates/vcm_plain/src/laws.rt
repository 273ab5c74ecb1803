//! Laws of the definitions, each the contract of a function without a body.

ghost use Rattle.vcm_plain.specs.Laws.{CoarseFieldsStay};

/// A field in which no word of a function stands before a parenthesis, and no more than three digits behind a point, stays as it is written.
pub fn coarse_fields_stay()
    ensures { CoarseFieldsStay }
{}
