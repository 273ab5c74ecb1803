//! The assembler: from accepted programs to their statement code.
#![tactic(auto)]

mod assembling;
mod emit;
mod emitted;
mod marking;
mod numbers;

pub use assembling::assemble;
