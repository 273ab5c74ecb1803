//! The backtrace of a statement of a run: the CALLs that it comes from, by the text of its program, and the rounds of the loops round it.
#![tactic(auto)]

mod calls;
pub mod laws;
mod loops;
mod source;
mod standing;
mod telling;

pub use calls::{CallFields, write_source_line};
pub use source::{Source, source_of};
pub use standing::{Kept, Standing};
pub use telling::{backtrace_at, backtrace_of, write_backtrace, write_sourced};
