//! Several probes, one of which a program chooses at a time, and the files that describe them. Lengths are whole micrometres.
#![tactic(auto)]

mod body;
mod boxes;
mod fault;
mod fitting;
pub mod laws;
mod name;
mod place;
mod probe;
mod reading;
mod set;
mod tables;

pub use body::Body;
pub use fault::{ProbeSetFault, Refusal};
pub use fitting::{Unfit, why_unfit};
pub use name::ProbeName;
pub use place::{BoxOwner, Key, Place};
pub use probe::Probe;
pub use reading::{is_of_several, read_probes};
pub use set::{ProbeSet, is_one_pose};
