//! Names, the tables of a program's names, and expressions as postfix items: their kinds and values.
#![tactic(auto)]

mod bounded_stack;
mod name;
pub mod operators;
mod postfix;
mod tables;
mod tower;
mod variable;
mod variable_name;

pub use bounded_stack::BoundedStack;
pub use name::{Name, is_name};
pub use postfix::{carried_out, eval_postfix, postfix_kind, step_kind, step_value};
pub use tables::Tables;
pub use tower::{Tower, step_tower};
pub use variable::Variable;
pub use variable_name::{VariableName, is_variable_name};
