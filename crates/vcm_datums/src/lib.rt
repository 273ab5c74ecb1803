//! Datums of a producer's text that are points of its features, and the frames that it makes by them.
#![tactic(auto)]

mod dating;
mod datums;
mod origins;

pub use dating::date;
