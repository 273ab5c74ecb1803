//! The debugger at a terminal: a prompt, short words, source lines, in front of a session, whose replies are as ever; and sessions on producers' texts, which have two
//! words more.
#![tactic(auto)]

mod answering;
mod opening;
mod places;
mod talking;
mod whole;
mod words;

pub use opening::{debug_by_hand, debug_whole};
pub use talking::Prompts;
