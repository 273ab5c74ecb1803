//! Statements: which words spell them, and which rule words break that spell none.
#![tactic(auto)]

mod control;
mod figures;
mod forms;
mod heads;
pub mod laws;
mod macros;
mod majors;
mod measuring;
mod named;
mod offsets;
mod opening;
mod parse;
mod places;

pub use parse::parse_statement;
pub use vcm_forms::Statement;
pub use vcm_num::Axis;
pub use vcm_spec::{FeatureWord, FrameAxis, Quarters, Setting, Source};
