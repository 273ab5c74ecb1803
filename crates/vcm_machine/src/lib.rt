//! A machine that carries out the code of a loaded image.
#![tactic(auto)]

mod acting;
mod framing;
pub mod laws;
mod looping;
mod machine;
mod measuring;
mod ran;
mod reporting;
mod selecting;
mod stepping;

pub use machine::Machine;
pub use ran::{End, Ran};
pub use stepping::carry_out;
