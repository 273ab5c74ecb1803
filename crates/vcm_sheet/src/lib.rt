//! A sheet of a run, as SVG: the three views with millimetres at their frames, with the numbers of the touched points, and with a heading and tables, so
//! that it can be filed.
#![tactic(auto)]

mod block;
mod frames;
mod heading;
mod laws;
mod legend;
mod lines;
mod names;
mod numbers;
mod paper;
mod places;
mod points;
mod readings;
mod rows;
mod sheet;
mod sight;
mod subject;
mod ticks;
mod views;

pub use laws::{numbers_are_apart, numbers_stand_there, points_are_numbered};
pub use legend::{Used, used_in};
pub use lines::{ALL_LINES, Lines, draws_end, has_line, marks_on};
pub use numbers::{Numbered, numbers_of};
pub use paper::Paper;
pub use points::{Pointed, all_points, points_on};
pub use readings::{Reading, reading_of};
pub use sheet::write_sheet;
pub use subject::Sheet;
pub use vcm_picture::PictureFault;
