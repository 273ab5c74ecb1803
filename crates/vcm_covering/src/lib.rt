//! What it means that blocks cover a model, and what follows from it: definitions and laws alone.
#![tactic(auto)]

pub mod laws;
