//! The story of a run: rows of printable text that tell the workpiece, the program, the state at the first step that is shown, and what each step
//! did. Nothing is held but the machine.
#![tactic(auto)]

mod following;
pub mod laws;
mod state_rows;
mod step_rows;
mod story;

pub use following::write_passage;
pub use story::{ShownText, StoryFault, write_opening, write_start, write_story};
