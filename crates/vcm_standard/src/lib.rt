//! The words of the standard: what becomes of their statements, and why.
#![tactic(auto)]

mod reason;
mod words;

pub use reason::Reason;
pub use words::{WordClass, class_of};
