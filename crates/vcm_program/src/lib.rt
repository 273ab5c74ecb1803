//! Accepted programs: the structured program of a text, the tables of its names, its notices.
#![tactic(auto)]

mod accepted;
mod tables;
mod titles;

pub use accepted::{Accepted, Listing, Noticed};
pub use titles::Titles;
pub use vcm_nodes::{Action, Block, Label, Node};
