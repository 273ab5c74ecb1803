//! A producer's text with its lengths as whole micrometres: numbers with more digits are rounded, those of a text in another unit are converted; in expressions they are
//! written as quotients.
#![tactic(auto)]

mod fine;
pub mod laws;
mod lone;
mod plain;
mod unit;

pub use lone::millionths_of;
pub use plain::{Kind, Mode, Place, plain_text};
pub use unit::{Lengths, Unit, lengths_of};
