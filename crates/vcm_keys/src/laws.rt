//! Laws of the definitions, each the contract of a function without a body.

ghost use Rattle.vcm_keys.specs.Laws.{ToldAreUnused, UnusedAreTold};

/// What is told of a part file's keys is unused, and what is unused is told.
pub fn unused_keys_are_told()
    ensures sound { ToldAreUnused }
    ensures complete { UnusedAreTold }
{}
