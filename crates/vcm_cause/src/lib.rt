//! Why a run stopped where it did: what its last step adds to the way of the probe, where a way past the block that was met is free of it, and how many
//! rounds each loop has begun. Lengths are whole micrometres.
#![tactic(auto)]

mod ahead;
mod approach;
mod cause;
mod framed;
pub mod laws;
mod rounds;
mod sides;
mod watching;

pub use ahead::{Ahead, block_ahead, free_length};
pub use approach::{ApproachWay, free_approach};
pub use cause::{Cause, Obstacle, cause_of};
pub use framed::framed_behind;
pub use rounds::{MOST_LOOPS, Rounds, count_round, round_of};
pub use sides::{FreeSide, Side, beside, over};
pub use watching::{Progress, Watched, before_steps, watch};
