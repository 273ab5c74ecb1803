//! What hangs on the head of a machine, and the probe files that come of it. Lengths are whole micrometres.
#![tactic(auto)]

mod angle;
mod boxes;
mod cylinder;
mod description;
mod fault;
mod interval;
pub mod laws;
mod pieces;
mod reading;
mod swing;
mod word;
mod writing;

pub use description::{Ball, Choice, Cylinder, Description, Hardware, Place, StillBox};
pub use fault::{HardwareFault, HardwareKey, Refusal, Where, write_refusal};
pub use reading::read_hardware;
pub use word::Word;
pub use writing::write_probe_file;
