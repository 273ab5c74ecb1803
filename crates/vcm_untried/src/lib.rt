//! What of a whole program that is put as statements wasn't tried in a run: how often the statement of each remark is carried out, what wasn't tried for which
//! cause, and the lines that report it; and at which steps, which ways begin elsewhere, and what is known behind each.
#![tactic(auto)]

mod about;
mod causes;
mod counting;
mod elsewhere;
mod frames;
mod groups;
mod known;
pub mod laws;
mod lines;
mod marking;
mod points;
mod rows;
mod spans;
mod telling;
mod turned;
mod ways;

pub use about::About;
pub use counting::{Counts, count_remarks};
pub use elsewhere::{Seen, Standing, standing_of};
pub use frames::NamedFrame;
pub use groups::Group;
pub use known::Known;
pub use lines::{about_words, untried_text, was_all_tried, way_text};
pub use marking::{Knowing, Marked, Marking, mark_remarks};
pub use points::point_before;
pub use rows::Row;
pub use spans::Span;
pub use telling::Told;
pub use turned::count_turns;
pub use ways::{behind_ways, untried_motions};
