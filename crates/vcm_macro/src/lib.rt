//! Macros: the order of a program's statements, and the expansion of its calls.
#![tactic(auto)]

mod blocks;
mod defining;
mod definition;
mod expanding;
mod expansion;
mod fitting;
mod kept;
pub mod laws;
mod order;
mod parameters;
mod placed;
mod staying;
mod text;

pub use placed::Placed;
pub use text::expand;
