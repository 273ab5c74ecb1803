//! Which texts are programs: all phases of acceptance, one behind the other.
#![tactic(auto)]

mod builder;
mod cases;
pub mod laws;
mod measuring;
mod phases;
mod program;
mod resolving;
mod selection;
mod statements;
mod taking;

pub use phases::{accept, accept_placed, accept_statements, statements_of};
pub use program::noted;
pub use vcm_program::{Accepted, Noticed};
