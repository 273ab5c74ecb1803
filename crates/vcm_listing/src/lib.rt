//! Listings of codes, written and read: bytes and code are one grammar.
#![tactic(auto)]

mod growing;
pub mod laws;
mod lines;
mod reading;

pub use reading::read_listing;
pub use vcm_print::{print, write_statement};
pub use vcm_words::{ListCode, ListFault};
