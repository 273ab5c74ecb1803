//! The steps of a run, each handed to a follower as it is taken.
#![tactic(auto)]

mod fault;
mod following;

pub use fault::Unfinished;
pub use following::{Follows, follow_run};
