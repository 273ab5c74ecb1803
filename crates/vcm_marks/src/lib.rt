//! The marks of a way, apart from the run that makes them.
#![tactic(auto)]

mod mark;

pub use mark::{Contact, Going, Leg, Mark, Moment, PlacedMark, Touched};
