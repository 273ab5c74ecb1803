//! All contacts of a run with several probes in one go: behind each the motion that met a block is taken as done, and behind each step the head may turn, so that the run
//! goes on with the probe that is chosen. What stands behind the first contact is a guess. Lengths are whole micrometres.
#![tactic(auto)]

mod collecting;
mod found;
pub mod laws;
mod passing;

pub use collecting::collect_set_contacts;
pub use found::{Lost, PassedEnd, SetContacts};
