//! How wide the tip of the probe may be, for a run to go as it does.
#![tactic(auto)]

mod backtrace;
mod comparing;
mod difference;
pub mod laws;
mod own;
mod printing;
mod same;
mod widening;

pub use backtrace::margin_backtrace;
pub use difference::{Difference, Margin, Met, Seen, StatementPlace};
pub use printing::write_margin;
pub use widening::margin;
