//! What opens producers' texts for a launch.

use vcm_dap::Untried;
use vcm_job::Given;
use vcm_part::PartData;

/// A producer's text that is opened as it stands.
#[derive(Drop)]
pub struct Opened {
    /// The image of what it is put as.
    pub given: Given,
    /// What is told of it behind the launch: lines with line feeds.
    pub notices: Vec<u8>,
    /// What its run doesn't try, in the order of the steps.
    pub untried: Vec<Untried>,
    /// The words for that.
    pub words: Vec<Vec<u8>>,
    /// What is told of it where the session ends: lines with line feeds.
    pub told: Vec<u8>,
    /// The exit status of a run that comes to its end.
    pub status: u8,
}

/// Why a producer's text isn't opened.
#[derive(Drop)]
pub enum Unopened {
    /// It is refused, and this is told.
    Refused(String),
    NoMemory,
}

/// Opens producers' texts.
pub trait Opens {
    /// Opens the text that a command line of `vcm debug` names, beside a workpiece. What isn't tried is that of a run of so many steps at most.
    ///
    /// Errors: see `Unopened`.
    fn open(&self, words: &[String], part: &PartData, steps: u64) -> Result<Opened, Unopened>;
}
