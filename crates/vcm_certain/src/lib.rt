//! Which producers' texts are read in one way, and lose nothing: they are put as they are written, statement by statement.
#![tactic(auto)]

mod certain;
mod gives;
mod sure;

pub use certain::is_certain;
