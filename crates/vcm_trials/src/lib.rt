//! Trials of several texts or places, and of texts that an editor opens: checks, judging, workpieces off their place and the debug adapter, on the
//! standard devices and files.
#![tactic(auto)]

mod checks;
mod dap;
mod judge;
mod judged;
mod off_place;
mod whole_launch;

pub use checks::check_programs;
pub use dap::serve_editor;
pub use judge::judge_programs;
pub use off_place::show_places;
