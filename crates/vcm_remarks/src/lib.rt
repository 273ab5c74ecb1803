//! Nothing but types: what is said of the statements that a whole program is put as, and which variables carry what is known of the machine.
#![tactic(auto)]

mod remark;

pub use remark::{Cause, NumberedRemark, Remark};
