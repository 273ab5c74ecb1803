//! Straight moves among the blocks of a workpiece: what a machine asks of a workpiece, and the answers, exact on fractions of the move. Lengths
//! are whole micrometres. Only strips take memory, when they are built.
#![tactic(auto)]

mod any_part;
mod area;
mod axis;
mod blocks;
mod entered;
mod face;
mod fraction;
mod hit;
pub mod laws;
mod layout;
mod listed;
mod part;
mod place;
mod query;
mod strips;

pub use any_part::AnyPart;
pub use blocks::Blocks;
pub use face::Face;
pub use part::Part;
pub use place::entry_point;
pub use query::contact_of;
pub use strips::Strips;
pub use vcm_num::{Axis, NoMemory, Point};
pub use vcm_part::{Block3, Bounds, PartData};
pub use vcm_spec::Hit;
