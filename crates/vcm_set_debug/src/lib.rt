//! The debugger with several probes, one of which a program chooses at a time: a session steps a machine that turns its head forwards and back, with breakpoints and
//! watches. It keeps no copies of the machine: going back runs again from the start.
#![tactic(auto)]

mod backward;
mod commands;
mod course;
mod forward;
pub mod laws;
mod serving;
mod session;
mod telling;

pub use serving::serve_set;
pub use session::SetSession;
pub use telling::write_no_probe;
