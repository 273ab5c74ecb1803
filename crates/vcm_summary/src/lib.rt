//! What a run comes to: how it ended, how many points were measured, and which of them lies farthest off. Lengths are whole micrometres.
#![tactic(auto)]

mod findings;
pub mod laws;
mod summary;

pub use findings::{Deviation, Findings};
pub use summary::{Summary, summarize};
