//! What of a producer's text is read in two ways: names that differ in case alone, arguments that are handed over by name or by value, parameters in quotes outside labels, variables that macros share,
//! words that may split a block, calls and jumps to what stands nowhere. Statements that hang on it are put as something that isn't known.
#![tactic(auto)]

mod doubts;
pub mod laws;
mod loose;
mod macros;
mod names;
mod reach;
mod readings;
mod respelled;
mod settling;
mod spellings;
mod splitting;

pub use readings::{borrowed_lines, compared_lines};
pub use settling::settle;
