//! What is remarked of the measurements of a run: features that are measured otherwise than they were declared, again or never, and loops without a round. Lengths are
//! whole micrometres.
#![tactic(auto)]

mod following;
pub mod laws;
mod measuring;
mod noted;
mod ordering;
mod remark;
mod seen;
mod turning;

pub use following::meant;
pub use remark::{Remark, What};
pub use turning::meant_turned;
