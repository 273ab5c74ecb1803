//! The writing of listings: a statement's line, which takes no memory, and the whole listing of a valid image.
#![tactic(auto)]

mod branches;
mod items;
mod names;
mod printing;
mod statement;
mod tables;
mod words;
mod writer;

pub use printing::print;
pub use statement::write_statement;
pub use tables::setting;
pub use words::word;
