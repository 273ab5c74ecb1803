//! What is told of part files and of notices: a workpiece as it was read, the keys that nothing uses, the second line of a refusal, all notices in one line.
#![tactic(auto)]

mod keys;
mod millimetres;
mod refusal;
mod summary;
mod workpiece;

pub use keys::unused_text;
pub use refusal::{is_program, second_line};
pub use summary::summary_line;
pub use workpiece::part_text;
