//! What is said of many programs that are tried in one go: a line for each, counts, CSV, a report for continuous integration, and a page to be filed. Lengths are
//! whole micrometres.
#![tactic(auto)]

mod counts;
mod csv;
mod digest;
mod junit;
pub mod laws;
mod lines;
mod outcome;
mod page;
mod text;
mod verdict;

pub use counts::{Counts, count_outcomes, status_of_outcomes};
pub use csv::{csv_heading, csv_row};
pub use digest::digest_of;
pub use junit::junit_report;
pub use lines::{counts_line, verdict_line};
pub use outcome::Outcome;
pub use page::report_page;
pub use verdict::{Clearing, Measured, Ran, Verdict};
