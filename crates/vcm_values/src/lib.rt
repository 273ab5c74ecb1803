//! Values of variables, asked for by their names, as text.
#![tactic(auto)]

mod naming;
mod values;

pub use naming::variable_named;
pub use values::write_values;
