//! Laws of contacts, each a clause of a function without a body.

ghost use Rattle.vcm_contacts.specs.Laws.{FirstContactIsTheStop, FoundAreTheContacts};

/// The first contact that is told is the stop of the run; and where none is told, the run is as it ever is.
pub fn first_contact_is_the_stop()
    ensures { FirstContactIsTheStop }
{}

/// The contacts that are told, each with the backtrace of its statement, are those behind which the run goes on.
pub fn found_are_the_contacts()
    ensures { FoundAreTheContacts }
{}
