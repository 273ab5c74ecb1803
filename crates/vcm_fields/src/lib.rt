//! The fields of an image: numbers, names, texts, expressions, statements and variables as bytes. They are read in place and take no memory.
//! A reader of a statement is inlined where it is called, so that no value is made that the caller leaves alone.
#![tactic(auto)]

mod branches;
mod fault;
mod field;
mod fields;
mod items;
mod reading;
mod slices;
mod standing;
mod statements;
mod tags;
mod texts;
mod variables;

pub use branches::BranchSlice;
pub use fault::ImageFault;
pub use field::{BorrowedField, Field, OwnedField, fields_of};
pub use fields::{byte_below, known_long, known_short, known_signed, long, short};
pub use items::{Tag, known_item};
pub use reading::{ReadOp, Reading, operands};
pub use slices::{ItemSlice, TextSlice};
pub use standing::{known, known_text};
pub use statements::{BorrowedOp, BorrowedStatement, pair, statement};
pub use tags::{axis, direction, known_word, part, quarters, setting, source, turn};
pub use texts::name;
pub use variables::{BorrowedVariable, variable};
