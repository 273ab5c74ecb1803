//! Valid codes: images that are read where they lie, and codes in memory that are judged.
#![tactic(auto)]

mod judging;
pub mod laws;
mod loaded;
mod loading;
mod places;
mod valid;
mod walking;

pub use loaded::Loaded;
pub use loading::load;
pub use valid::is_valid;
pub use vcm_fields::{
    BorrowedOp, BorrowedStatement, BorrowedVariable, BranchSlice, ImageFault, ItemSlice, TextSlice,
};
pub use walking::{items_value, value_at};
