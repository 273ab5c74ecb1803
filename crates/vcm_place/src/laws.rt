//! Laws of the definitions, each the contract of a function without a body.

ghost use Rattle.vcm_place.specs.Laws.{OneAnswer};
ghost use Rattle.vcm_place.specs.Samples.{OneStays, OneLeaves, HomeIsMet};

/// A workpiece has one answer at a place, which isn't want of memory.
pub fn places_give_one_answer()
    ensures { OneAnswer }
{}

/// Worked examples.
pub fn place_examples()
    ensures one_stays { OneStays }
    ensures one_leaves { OneLeaves }
    ensures home_is_met { HomeIsMet }
{}
