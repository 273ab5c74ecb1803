//! The text that a producer's text is adapted to, line by line.
#![tactic(auto)]

mod adapting;
mod edit;
pub mod laws;

pub use adapting::{adapted, put_line};
pub use edit::{Edit, NewLine};
