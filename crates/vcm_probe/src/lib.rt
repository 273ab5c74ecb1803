//! Touches of a workpiece by a probe, and the settings that say how the probe moves. Lengths are whole micrometres. Nothing here takes memory.
#![tactic(auto)]

mod aiming;
mod reach;
mod retreat;
mod settings;
mod touching;

pub use aiming::{Aims, aims_of};
pub use reach::{moved, reached};
pub use settings::Settings;
pub use touching::touch;
pub use vcm_motion::{Axis, Part, Point};
pub use vcm_spec::{Setting, Stop as ProbeStop, Touch};
