//! What an editor's launch opens, and the debug adapter from its first request to its last one.
#![tactic(auto)]

mod files;
mod launching;
mod opening;
mod serving;
mod whole;

pub use files::{PartFile, Untaken, part_of};
pub use opening::{Opened, Opens, Unopened};
pub use serving::serve_dap;
