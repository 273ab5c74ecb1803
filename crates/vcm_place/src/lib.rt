//! A workpiece off its place: its blocks are moved, but those of the fixture. Lengths are whole micrometres.
#![tactic(auto)]

pub mod laws;
mod placing;

pub use placing::place_part;
