//! Blocks that cover a triangle mesh and leave no hollow. Lengths are whole micrometres.
#![tactic(auto)]

mod asked;
mod cutting;
mod held;
pub mod laws;
mod making;
mod region;
mod regions;
mod space;

pub use asked::{Asked, Cover};
pub use making::{cover, leans};
pub use vcm_boxing::{CoverFault, NearPoint};
