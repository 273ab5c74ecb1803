//! The commands that try several probes, and those of producers' texts as they stand, on the standard devices and files.
#![tactic(auto)]

mod set_clearances;
mod set_debug;
mod set_pages;
mod set_views;
mod several;
mod whole;
mod whole_several;

pub use several::{probe_named, show_probed};
pub use whole::show_whole;
