//! What is told of a run with several probes, one of which a program chooses at a time: its result, its trace, its measured points, why it ended where it did, all
//! its contacts, and its story; and sessions of the debugger on it. Boxes and swing of the probes aren't tried here.
#![tactic(auto)]

mod backtraces;
mod beside;
mod contacts;
mod debugging;
mod drawn;
mod ends;
mod fitted;
mod following;
pub mod laws;
mod reasons;
mod remarks;
mod result;
mod rows;
mod running;
mod story;

pub use backtraces::set_backtraces;
pub use contacts::{ContactsTold, set_contacts};
pub use debugging::{SetServeFault, debug_set};
pub use drawn::set_picture;
pub use ends::{SetEnd, SetTold};
pub use fitted::{Fitted, fit, fit_at};
pub use following::SeesSteps;
pub use reasons::{set_why, write_wanted};
pub use remarks::set_meant;
pub use result::set_result;
pub use rows::{set_points, set_trace};
pub use running::{Ending, run_seen};
pub use story::set_story;
pub use vcm_set_debug::write_no_probe;
