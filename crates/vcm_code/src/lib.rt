//! The statement code of a program: tables of names and numbered statements, what one step of it does, and when it is valid.
#![tactic(auto)]

mod branch;
mod code;
mod copying;
mod op;
mod pair;
mod version;
mod word;

pub use branch::Branch;
pub use code::Code;
pub use copying::{Branches, Expression, OutputLine};
pub use op::{CodeStatement, Op, OwnedOp, OwnedSimple, OwnedStatement};
pub use pair::Pair;
pub use version::{Version, has_selection, version_for};
pub use word::{Word, has_word, word_rows, word_with};
