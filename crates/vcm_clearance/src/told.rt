//! Contacts on the ways of a run.

use vcm_carried::Contact;
use vcm_marks::Going;

/// A contact of a body with a block: how the way was gone on which it is, the step, counted from 1, the number and the source line of the step's statement, and the contact.
#[derive(Clone, Copy)]
pub struct Told {
    pub going: Going,
    pub step: u64,
    pub number: u32,
    pub line: u32,
    pub contact: Contact,
}
