//! The first contact of a box of the probe in a run, and what mends it: the backtrace of its statement, the way, the block that is met, and where the box is free of it.
#![tactic(auto)]

mod entry;
mod finding;
mod first;
pub mod laws;
mod lines;
mod spread;
mod telling;

pub use finding::find_first;
pub use first::FirstContact;
pub use telling::{FirstTold, tell_first};
