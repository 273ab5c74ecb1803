//! Functions in expressions of producers' texts, of which the language has none: calls by literals are written as their values, and absolute values in relations are opened.
#![tactic(auto)]

mod calls;
mod cosines;
mod folding;
pub mod laws;
mod literals;
mod relations;
mod values;
mod words;

pub use cosines::{cosine, part_of};
pub use folding::{folded, has_function};
