//! The page of a run: fixed texts, and between them the story of the run.
#![tactic(auto)]

pub mod laws;
mod pages;
mod views;

pub use pages::Texts;
pub use views::Page;
