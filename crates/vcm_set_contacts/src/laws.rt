//! Laws of contacts with several probes, each a clause of a function without a body.

ghost use Rattle.vcm_set_contacts.specs.Laws.{FirstContactStopsTheTurning};

/// The first contact that is told is the stop of the run that turns its head; and where none is told, the run is as it ever is: its state, the probe that is on, and why it
/// has ended without one.
pub fn first_contact_stops_the_turning()
    ensures { FirstContactStopsTheTurning }
{}
