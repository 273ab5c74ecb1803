//! Workpieces, and the part files that describe them. Lengths are whole micrometres.
#![tactic(auto)]

mod data;
mod fault;
mod inside;
pub mod laws;
mod reading;

pub use data::PartData;
pub use fault::{PartCode, PartFault};
pub use inside::{is_below, is_in, is_met, is_some_met, is_within};
pub use reading::read_part;
pub use vcm_num::Point;
pub use vcm_spec::{Block3, Bounds};
