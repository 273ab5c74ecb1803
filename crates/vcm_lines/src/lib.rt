//! Cuts a program's text into statements: comments, blanks and empty lines fall away, lines that end in a dollar are joined with the next,
//! and each statement is cut into words.
#![tactic(auto)]

mod clean;
mod dotted;
mod fault;
pub mod laws;
mod lines;
mod logical;
mod phrase;
mod words;

pub use clean::upper;
pub use dotted::{DottedWord, dotted_word};
pub use fault::{FaultCode, SourceFault, bad_syntax};
pub use lines::logical_lines;
pub use logical::{Logical, LogicalLines, OwnedBytes, Word, WordKind, Words};
pub use phrase::{Cutter, Phrase, Token};
