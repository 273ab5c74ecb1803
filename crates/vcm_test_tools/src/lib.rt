//! What several crates of tests use: texts of parts and programs, an image, programs that are loaded beside a block, and calls under little memory.
#![tactic(auto)]

mod loaded;
mod scarce;
mod sweep;
mod texts;

pub use loaded::{beside_block, image_of};
pub use scarce::Scarce;
pub use sweep::{Told, answer, each_line_is_refused, is_refused, refusal, refusals};
pub use texts::{BOUNDS, FORTY, MOVE, ONE_BLOCK, THREE, changed, joined, program_of};
