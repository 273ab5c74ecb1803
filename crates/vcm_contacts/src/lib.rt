//! All contacts of a run in one go: behind each the motion that met a block is taken as done, and the run goes on. With each the backtrace of its statement is told. What stands behind the first contact is a guess.
//! Lengths are whole micrometres.
#![tactic(auto)]

mod collecting;
mod contact;
pub mod laws;
mod leading;
mod noting;
mod passing;
mod writing;

pub use collecting::{Contacts, collect_contacts};
pub use contact::{Contact, FoundContact, Lead};
pub use leading::lead;
pub use noting::{Notes, no_notes, note_step};
pub use writing::{write_contacts, write_count, write_each};
