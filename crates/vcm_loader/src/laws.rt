//! Laws of loading, each the contract of a function without a body.

ghost use Rattle.vcm_loader.specs.Laws.{ValidCodesHaveNoRefusal, RefusalsAreOne, WrittenIsLoaded};

/// Nothing is refused of a valid code.
pub fn valid_codes_have_no_refusal()
    ensures { ValidCodesHaveNoRefusal }
{}

/// The definitions say one refusal of a code, if any.
pub fn refusals_are_one()
    ensures { RefusalsAreOne }
{}

/// An image of a valid code that is written and loaded is that code.
pub fn written_is_loaded()
    ensures { WrittenIsLoaded }
{}
