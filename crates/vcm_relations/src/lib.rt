//! Public functions whose contracts are relations, each called once under its own clauses: those that more than one answer may meet, and the commands that have one. The wrong calls in `must-fail/` are refused by
//! these clauses alone, and where a clause becomes weaker the call here is no longer proved. `docs/PROVED.md` says why each is a relation.
#![tactic(auto)]

mod answers;
mod margins;
mod models;
mod sessions;

pub use answers::{
    called_asm, called_build, called_check, called_job, called_list, called_part_from,
    called_read_all, called_run, called_view,
};
pub use margins::called_margin;
pub use models::{called_blocks, called_cover};
pub use sessions::{called_debug, called_serve};
