//! Laws of the definitions, each the contract of a function without a body.

ghost use Rattle.vcm_functions.specs.Laws.{OtherExpressionsStay};

/// An expression in which no word of a function stands before a parenthesis stays as it is written.
pub fn other_expressions_stay()
    ensures { OtherExpressionsStay }
{}
