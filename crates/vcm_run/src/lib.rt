//! Runs of programs and images beside a workpiece, and the printed result of a run.
#![tactic(auto)]

mod image;
pub mod laws;
mod output;
mod program;
mod run;

pub use image::{run_image, run_noticed};
pub use output::write_result;
pub use program::{Built, build_image, build_placed, build_statements, run_text};
pub use run::{Refusal, Summary};
pub use vcm_machine::{End, Ran};
