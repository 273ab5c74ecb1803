//! The stop of a run in a planner's words: its line, where the statement stands in the text, the way on which it stopped, and where a way past the block is free.
#![tactic(auto)]

mod approaches;
mod causes;
mod framed;
mod hints;
mod stops;
mod telling;

pub use causes::{write_between, write_block_line, write_free, write_way};
pub use stops::{write_where, write_why};
pub use telling::{why_image, why_text};
