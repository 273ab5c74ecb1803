//! What stands before a run: blocks of models, probe files of descriptions, surveys and adaptations of producers' texts, and explanations of what vcm
//! prints, on the standard devices and files.
#![tactic(auto)]

mod blocks;
mod blocks_words;
mod explaining;
mod hardware;
mod producing;
mod telling;

pub use blocks::blocks_file;
pub use explaining::explain;
pub use hardware::probe_file;
pub use producing::{adapt_file, survey_file};
pub use telling::tell_bytes;
