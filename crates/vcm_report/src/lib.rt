//! Output lines, each in memory of its own; stops, output lines and features as text, which takes no memory.
#![tactic(auto)]

mod features;
mod lines;
mod names;
mod output_line;
mod output_lines;
mod places;
mod stops;

pub use features::{write_feature, write_feature_words};
pub use lines::{write_last_lines, write_lines};
pub use names::name_at;
pub use output_line::Line;
pub use output_lines::Lines;
pub use places::{write_point, write_position, write_steps};
pub use stops::{phase_text, write_end_line, write_no_stop, write_stop_line};
