//! Substitution on trees: what a statement of a macro says in one expansion of it.
#![tactic(auto)]

mod bindings;
mod putting;
mod small;

pub use bindings::{Bindings, variable_of};
pub use putting::put_form;
pub use small::are_small;
