//! Part files whose blocks cover the triangle mesh of a model. Lengths are whole micrometres.
#![tactic(auto)]

mod adding;
mod edges;
mod extent;
mod fault;
pub mod laws;
mod options;
mod points;
mod series;
mod texts;
mod told;
mod volume;
mod words;
mod writing;

pub use fault::{BlocksFault, ModelRefusal, Refusal};
pub use options::{BlocksOptions, LengthDone, Tells};
pub use words::{
    file_name, length_word, millimetres, model_name, most_word, name_word, shift_word, turn_word,
    unit_word,
};
pub use writing::{Written, write_blocks};
