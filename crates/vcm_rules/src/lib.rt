//! What becomes of each statement of a producer's text.
#![tactic(auto)]

mod calls;
mod control;
mod expressions;
mod frames;
mod given;
mod losing;
mod measuring;
mod moving;
mod pages;
mod points;
mod settings;
mod spelled;
mod view;
mod walking;

pub use pages::{Caution, Surveyed};
pub use vcm_classes::{Class, GivenFrame, Options, Position, Row, Stand, Turn};
pub use vcm_spelling::Renaming;
pub use walking::surveyed;
