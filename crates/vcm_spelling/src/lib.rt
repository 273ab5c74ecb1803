//! Names, numbers and places of producers' statements in a spelling that the subset has.
#![tactic(auto)]

mod exponents;
mod labels;
mod naming;
mod numbers;
mod places;
mod touching;
mod values;

pub use exponents::spelled_out;
pub use labels::Named;
pub use naming::{Naming, Renaming};
pub use numbers::{Rounding, joined, rounded};
pub use places::{
    Direction, approach, direction_in, direction_of, in_millimetres, is_along, offsets,
    put_coordinate,
};
pub use values::{WordsIn, words_in};
