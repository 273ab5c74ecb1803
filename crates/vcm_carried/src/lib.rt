//! Boxes that are fixed to the tip of the probe, and where on a straight way of the tip's centre they first meet a block: exact, on fractions of the
//! way. Lengths are whole micrometres. Nothing here takes memory.
#![tactic(auto)]

mod area;
mod axis;
mod body;
mod contact;
mod crossing;
mod entered;
mod fraction;
mod hull;
pub mod laws;
mod meeting;
mod place;
mod tip;
mod way;
mod wider;

pub use body::first_met_by;
pub use contact::Contact;
pub use fraction::Fraction;
pub use meeting::first_met;
pub use tip::tip_entry;
pub use vcm_num::Point;
pub use vcm_spec::{Block3, Hit};
pub use way::Way;
