//! Runs that turn the head: between two steps another probe may be put on, so that the tip stands elsewhere while the pivot of the head stays. Which one is on
//! a variable of the program says. Lengths are whole micrometres.
#![tactic(auto)]

mod choosing;
mod ended;
mod following;
pub mod laws;
mod turn;
mod turning;

pub use choosing::{chooser, is_held, place_of, probe_on, turned_point};
pub use ended::{Ended, NoProbe, Ran};
pub use following::{FollowsTurns, follow_turns};
pub use turn::Turn;
pub use turning::Turning;
