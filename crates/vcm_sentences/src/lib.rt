//! The statements of any text, behind faults too, and what their parts are.
#![tactic(auto)]

mod cleaning;
mod decimals;
mod gathering;
pub mod laws;
mod parts;
mod sentences;
mod table;
mod words;

pub use cleaning::trimmed;
pub use decimals::{Decimal, has_fine_digits, micrometres, read_decimal};
pub use gathering::sentences_of;
pub use parts::{Parts, enclosed, fields_of, has_function, is_name_byte, parts_of, piece};
pub use sentences::{Owner, Sentence, Sentences, fault_of};
pub use table::Table;
pub use words::MajorWord;
