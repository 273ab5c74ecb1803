//! Views of runs: the trace, the measured points, the margin of the tip, the clearance of the probe, its first contact, the picture, why a run stops, all its contacts, and its
//! result with the values of variables.
#![tactic(auto)]

mod clearances;
mod contacts;
mod first_contacts;
pub mod laws;
mod margins;
mod pictures;
mod readings;
mod reasons;
mod sheets;
mod sources;
mod traces;
mod unfinished;
mod untried;
mod values;

pub use clearances::Clearance;
pub use contacts::AllContacts;
pub use first_contacts::FirstContacts;
pub use margins::TipMargin;
pub use pictures::Picture;
pub use reasons::Why;
pub use sheets::{SheetView, Titles};
pub use traces::{Points, Trace};
pub use untried::{Untried, all_tried};
pub use values::Values;
