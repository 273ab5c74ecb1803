//! The commands of vcm: which of them carries out what a command line asks for. They stand in `vcm_devices`, `vcm_prepare`, `vcm_whole_runs`,
//! `vcm_set_commands` and `vcm_trials`.
#![tactic(auto)]

mod program;

pub use program::{status, words_to_explain};
pub use vcm_devices::{Request, Terminals, lines_of, matches_of, paper_given};
