//! Boxes that are fixed to the tip of the probe, and the files that describe them. Lengths are whole micrometres.
#![tactic(auto)]

mod boxes;
mod fault;
mod label;
pub mod laws;
mod reading;

pub use boxes::{Boxes, ProbeBox};
pub use fault::{BoxKey, BoxesFault, Refusal};
pub use label::ShortName;
pub use reading::read_boxes;
