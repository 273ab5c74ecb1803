//! What each statement of a producer's text says, as statements of the language: what it does that is followed, what it may do that isn't, and what is followed again.
//! Each is looked at by itself.
#![tactic(auto)]

mod adding;
mod cases;
mod named;
mod places;
mod polar;
mod said;
mod settings;
mod wanted;

pub use said::{first_refusal, say_all};
