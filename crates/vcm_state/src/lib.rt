//! The state of the machine, and what each simple statement does to it.
#![tactic(auto)]

mod copying;
mod framing;
mod indexed;
mod measuring;
mod printed;
mod reporting;
mod stop;
mod world;

pub use stop::Halt;
pub use vcm_spec::{Missing, MovePhase, Stop, StopPlace};
pub use world::World;
