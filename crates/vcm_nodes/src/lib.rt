//! The structured program in memory: its nodes and blocks, how many statements it has, and whether its jumps reach their labels.
#![tactic(auto)]

mod counting;
mod jumps;
mod labels;
mod node;

pub use counting::{count, count_cases};
pub use jumps::check_jumps;
pub use labels::Labels;
pub use node::{Action, Block, Cases, Label, Node};
