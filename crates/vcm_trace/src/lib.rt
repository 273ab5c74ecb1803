//! What tells a run row by row, and two that do: the trace, a line of fields with commas between them for each step, and the measured points. Nothing is
//! held but the machine and the frames in which features were declared.
#![tactic(auto)]

mod calls;
mod deviations;
mod fields;
mod framed;
mod lines;
mod points;
mod rows;
mod told;
mod tracing;

pub use calls::TellsCalls;
pub use deviations::{apart, comparable, is_same_axis, root_down, told_deviation, within_bits};
pub use fields::write_front;
pub use framed::{Frames, frame_of, keep_frame, no_frames};
pub use lines::{write_open, write_step};
pub use points::feature_at;
pub use rows::{WritesRows, write_rows};
pub use told::{Told, told_of};
pub use tracing::{PointRows, TraceRows};
