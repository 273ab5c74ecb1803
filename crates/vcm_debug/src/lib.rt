//! The debugger: a session steps a machine forwards and back, with breakpoints and watches.
#![tactic(auto)]

mod breaking;
mod checkpoints;
mod commands;
mod finding;
mod forward;
pub mod laws;
mod reversing;
mod serving;
mod session;

pub use finding::{feature_of, recorded, statement_on, variable_of};
pub use forward::{has_watch, note, watched_change};
pub use serving::{bye, content, flush, is_bye, serve};
pub use session::Session;
pub use vcm_console::{
    Command, CommandRefusal, Count, Halted, Reason, Reply, ServeFault, Standing, VariableRef,
    parse_command,
};
