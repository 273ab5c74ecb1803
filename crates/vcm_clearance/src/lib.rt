//! The clearance of a probe in a run: which blocks the boxes that are fixed to its tip meet on the ways of the run, and how much room is left round those that meet none. What
//! is tried on a way is a body, a list of boxes tried as one: each box of a probe file is a body of its own.
//! Lengths are whole micrometres.
#![tactic(auto)]

mod clearing;
mod following;
mod here;
pub mod laws;
mod printing;
mod room;
mod rooms;
mod told;
mod trying;

pub use clearing::{Cleared, clearance};
pub use printing::write_contact_line;
pub use room::Room;
pub use rooms::{next_room, told_on};
pub use told::Told;
