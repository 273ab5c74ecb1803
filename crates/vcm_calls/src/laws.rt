//! The law of CALLs, the contract of a function without a body.

ghost use Rattle.vcm_calls.specs.Carried.{CarriesOutTheWalk};

/// The CALLs that are told are those that the expansion of macros carries out, in their order, each with its line and how deep it is nested.
pub fn carries_out_the_walk()
    ensures { CarriesOutTheWalk }
{}
