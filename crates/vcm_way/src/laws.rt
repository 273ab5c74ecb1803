//! The laws of ways, each the contract of a function without a body.

ghost use Rattle.vcm_way.specs.Laws.{WaysAreOne, WaysHangTogether, WaysAreClear, ContactsEndWays};

/// Runs of one code for as many steps have one way, and come to one state, unless memory is refused.
pub fn ways_are_one()
    ensures { WaysAreOne }
{}

/// The pieces of a way hang together: the first begins at home, each further one where the one before it ends, and the last ends where the probe is at
/// the end of the run, unless the run stops in a motion.
pub fn ways_hang_together()
    ensures { WaysHangTogether }
{}

/// Beside a valid workpiece the marks of a way are what they show: on a piece that is gone as far as its aim the tip meets no block; a search goes down
/// an axis to the first point at which the tip meets one, and the touched point is the middle of its face there; and a contact is where the tip, on its
/// way to the aim, first meets the block with its number.
pub fn ways_are_clear()
    ensures { WaysAreClear }
{}

/// A way that was gone up to a contact ends where the mark of the contact stands: at the exact fraction of it that was gone, cut off to whole micrometres
/// towards its start.
pub fn contacts_end_ways()
    ensures { ContactsEndWays }
{}
