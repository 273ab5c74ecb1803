//! Part coordinates: turns, which are counted in quarters, and frames, which are turns with an origin. Lengths are whole micrometres. Nothing here
//! takes memory.
#![tactic(auto)]

mod checked;
mod frame;
pub mod laws;
mod quarter;
mod turn;

pub use frame::Frame;
pub use turn::Turn;
