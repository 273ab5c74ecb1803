//! Laws of the definitions, each the contract of a function without a body.

ghost use Rattle.vcm_diagnosis.specs.Laws.{NearIsNearest, OthersAreFar};

/// A name that is told as near may stand there, and is the nearest of those that may, within a third of the missing one's length; where none is told, there is none.
pub fn near_names_are_nearest()
    ensures nearest { NearIsNearest }
    ensures others { OthersAreFar }
{}
