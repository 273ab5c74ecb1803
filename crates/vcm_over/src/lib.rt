//! Sessions of the debugger on producers' texts: stepping by source lines, and what is known where a session stands.
#![tactic(auto)]

mod known;
mod stepping;

pub use known::{FIRST_IMPLICIT, known_here};
pub use stepping::over;
