//! The words and lines of listings, read in place: cuts, numbers, items, expressions, the places of operands, statements and rows. They take no
//! memory.
#![tactic(auto)]

mod braces;
mod fault;
mod items;
mod kinds;
mod names;
mod numbers;
mod places;
mod row;
pub mod rows;
mod slices;
mod statements;
mod words;

pub use braces::BranchWords;
pub use fault::{ListCode, ListFault};
pub use row::{Heading, Row};
pub use rows::BorrowedRow;
pub use slices::{ItemWords, TextWords};
pub use statements::{BorrowedOp, BorrowedStatement};
pub use words::cut;
