//! What stands before the fields of a producer's statement: its label or variable and its major word, and the table of words: what becomes of the statements that go
//! by each.
#![tactic(auto)]

mod heads;
mod rows;

pub use heads::{
    Mark, assigned_at, first_field, label_at, major_at, past, past_word, run_at, title_at,
};
pub use rows::{Row, own_behind, row_in, row_of_statement};
