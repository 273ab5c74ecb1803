//! The console of the debugger: lines of input as commands, and replies as text. Nothing here takes memory.
#![tactic(auto)]

mod command;
pub mod laws;
mod line;
mod parsing;
mod reading;
mod replies;
mod reply;

pub use command::{Command, Count, VariableRef};
pub use line::{InputLine, RawLine};
pub use parsing::parse_command;
pub use reading::{next_byte, read_line};
pub use replies::{write_halt, write_reply, write_variable, write_variable_value};
pub use reply::{CommandRefusal, Halted, Reason, Reply, ServeFault, Standing};
