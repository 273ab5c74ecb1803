//! A debug adapter over a session of the debugger: what it does and answers once a program is launched. It knows nothing of files.
#![tactic(auto)]

mod adapter;
mod answers;
mod asking;
mod breaking;
mod breakpoints;
mod evaluating;
mod fault;
mod fronts;
pub mod laws;
mod looking;
mod moving;
mod output;
mod rows;
mod settings;
mod showing;
mod standing;
mod talk;
mod watching;

pub use adapter::{Adapter, Served};
pub use asking::{Ask, Look, Motion, ask_of};
pub use fault::DapFault;
pub use settings::{Settings, Untried, WholeText};
pub use talk::Talk;
