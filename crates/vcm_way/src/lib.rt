//! The way of the probe in a run, as marks: the pieces that it goes, the points that it touches, and where it meets a block. Each step adds
//! what its statement and its stop say. And the straight ways that were gone, read off the marks, exact up to a contact. Lengths are whole micrometres.
#![tactic(auto)]

mod following;
mod gone;
pub mod laws;
mod limits;
mod moving;
mod place;
mod step;
mod task;
mod touching;
mod way;

pub use following::{Followed, MOST_PIECES, follow};
pub use gone::{Gone, first_way};
pub use step::{Before, StepMarks, look, marks_of_step, reason};
pub use task::{Measuring, Task};
pub use vcm_machine::{End, Ran};
pub use vcm_num::{NoMemory, Point};
pub use way::Way;
