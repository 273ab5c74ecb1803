//! Laws of the definitions, each the contract of a function without a body.

ghost use Rattle.vcm_clearance.specs.Laws.{RoomsAreOne, WhatIsMetIsTold};

/// A body has one room in a run.
pub fn rooms_are_one()
    ensures { RoomsAreOne }
{}

/// Of a body that meets a block on a way of a run a contact is told: each way begins where the one before it ended. So where none is told, there is no contact.
pub fn what_is_met_is_told()
    ensures { WhatIsMetIsTold }
{}
