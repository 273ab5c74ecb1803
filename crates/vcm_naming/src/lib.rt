//! The names of the blocks of a part in a text that tells of blocks by their numbers: each once, directly below the first line that names its block.
#![tactic(auto)]

mod block_names;
mod end;
pub mod laws;

pub use block_names::BlockNames;
pub use end::{block_at_end, stop_block};
