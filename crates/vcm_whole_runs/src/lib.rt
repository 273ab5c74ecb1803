//! Producers' texts that are run as they stand: what the command line says of them, how they are put as programs, and the views of their runs.
#![tactic(auto)]

mod choices;
mod probes_given;
mod whole_debug;
mod whole_pages;
mod whole_points;
mod whole_put;
mod whole_reading;
mod whole_views;

pub use choices::{choices_of, says_of_whole};
pub use whole_debug::debug_running;
pub use whole_pages::{place_of, print_page};
pub use whole_put::{
    Built, NOT_ALL_TRIED, frames_named, put_whole, status_of_unused, unused_name, whole_from,
    whole_with,
};
pub use whole_reading::{Selecting, put_reading, tell_reading};
pub use whole_views::{
    Beside, NAMES, Report, Running, around_view, names_shown, places_of, print_asked, print_plain,
    report_of,
};
