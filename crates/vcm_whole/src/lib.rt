//! A producer's text as it stands: the image of the program that it is put as, and the remarks on its statements.
#![tactic(auto)]

mod frames;
pub mod laws;
mod losses;
mod readings;
mod whole;

pub use frames::FrameLine;
pub use readings::Readings;
pub use whole::{Facts, Whole, build_whole, count_put};
