//! Which CALLs a statement of an expanded program comes from, and the lines of a text.
#![tactic(auto)]

mod called;
mod chain;
mod expanding;
pub mod laws;
mod lines;
mod macros;

pub use called::Called;
pub use chain::{Calls, calls_of, chain_of, depth_at};
pub use lines::source_line;
pub use macros::macro_called;
