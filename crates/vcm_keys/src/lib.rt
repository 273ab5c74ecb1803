//! The keys of a part file, with the lines that they stand on, and those of them that nothing uses.
#![tactic(auto)]

mod keys;
pub mod laws;
mod place;
mod placing;
mod statement;
mod unused;

pub use keys::{block_fixtures, block_names, unused_keys};
pub use place::KeyPlace;
pub use placing::{block_lines, line_of, open_line, places_of};
