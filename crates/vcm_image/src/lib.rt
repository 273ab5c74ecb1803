//! The image of a code: its bytes, written and read.
#![tactic(auto)]

mod bytes;
mod copying;
mod counts;
mod fitting;
pub mod laws;
mod opening;
mod operands;
mod reading;
mod scanned;
mod writing;

pub use counts::Counts;
pub use fitting::fits;
pub use opening::{Opening, open};
pub use reading::read;
pub use scanned::Scanned;
pub use vcm_fields::{
    BorrowedOp, BorrowedStatement, BorrowedVariable, ImageFault, ItemSlice, TextSlice,
};
pub use writing::write;
