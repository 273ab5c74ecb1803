//! The clearance of several probes in a run that turns its head: which blocks the bodies of each probe meet on the ways by it, how much room is left round those that
//! meet none, and what the swing meets where the head turns. Lengths are whole micrometres.
#![tactic(auto)]

mod chooser;
mod counted;
mod event;
mod gathering;
pub mod laws;
mod parts;
mod report;
mod rooms;
mod writing;

pub use chooser::whole_chooser;
pub use counted::count_set_at;
pub use event::{Change, Event, ProbeWay};
pub use gathering::SetRun;
pub use parts::{SetFault, in_strips, parts_of, place_of, run_set, run_set_at};
pub use rooms::{is_turn, room_of, standing, swing_room, told_at_turn, told_of};
pub use writing::{SetText, Spot, set_text};
