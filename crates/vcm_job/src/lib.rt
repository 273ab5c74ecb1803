//! Checks, jobs, runs of inputs, images of programs and of listings, listings, and sessions of the debugger: inputs read whole, and the result
//! written.
#![tactic(auto)]

mod building;
mod checking;
mod cutting;
mod debugging;
mod fault;
mod given;
mod inputs;
pub mod laws;
mod listing;
mod parts;
mod reading;
mod running;
mod views;

pub use building::build;
pub use checking::check;
pub use debugging::debug;
pub use fault::{
    AsmFault, BuildFault, CheckFault, DebugFault, Fault, InputRefusal, JobFault, PartFileFault,
    PrintFault, RunFault, SessionFault, session_fault,
};
pub use given::{Given, given_of, is_image};
pub use inputs::run;
pub use listing::{asm, list};
pub use parts::part_from;
pub use reading::{ReadFault, read_all};
pub use running::{Done, is_halted, job, status_of};
pub use views::{Shows, show, show_given, view_of};
