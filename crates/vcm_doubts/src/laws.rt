//! Laws of the definitions, each the contract of a function without a body.

ghost use Rattle.vcm_doubts.specs.Laws.{FittingArgumentsSuit};

/// An argument that fits a parameter of a macro is what has to be given for it, and so is what becomes of it in an expansion.
pub fn fitting_arguments_suit()
    ensures { FittingArgumentsSuit }
{}
