//! What is told of a producer's text, and the text that it is adapted to.
#![tactic(auto)]

mod adapting;
mod faults;
mod groups;
pub mod laws;
mod listing;
mod reading;
mod report;
mod surveying;
mod touching;
mod words;

pub use adapting::{Adaptation, adapt, adapted_text};
pub use faults::{Told, faults_in, faults_of};
pub use reading::{Reading, read_text};
pub use surveying::{Findings, Shape, survey};
pub use vcm_rules::{GivenFrame, Options, Position, Stand, Turn};
pub use words::fault_words;
