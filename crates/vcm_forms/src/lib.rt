//! What statements are, apart from how they are read.
#![tactic(auto)]

mod operator_text;
mod statement;

pub use operator_text::OperatorText;
pub use statement::{
    Argument, Coordinates, Form, Notice, Offset, Parameter, Rounds, Statement, Target,
};
