//! What is wrong with a text whose lines and statements can be read: all faults of its order, its macros, its names, kinds and blocks and its jumps, and what each of them is
//! about.
#![tactic(auto)]

mod about;
mod blocks;
mod declaring;
mod doubts;
mod edits;
mod judging;
mod kinds;
pub mod laws;
mod listing;
mod names;
mod near;
mod order;
mod placed;
mod repairs;
mod standing;
mod telling;
mod told;
mod words;
mod written;

pub use about::{About, Block, Misfit, Near, Sort, Word};
pub use judging::{Diagnosis, Findings, faults_in, refusal_about, refusal_words};
pub use listing::all_told;
pub use telling::about_words;
