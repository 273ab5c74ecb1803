//! What differs first in a run with another tip.

use vcm_num::Point;
use vcm_spec::{Feature, StopPlace};

/// A statement's number, and its source line.
#[derive(Clone, Copy)]
pub struct StatementPlace {
    pub number: u32,
    pub line: u32,
}

/// In what a run with another tip differs from the run with the own tip.
#[derive(Clone, Copy)]
pub enum Difference {
    /// It stops where the other run doesn't stop so, or doesn't stop: its stop.
    Stop(Option<StopPlace>),
    /// Another statement is next.
    Next(u32),
    /// Another point is measured for the feature of this index, or none, by the PTMEAS at a place.
    Feature(u16, Option<Feature>, StatementPlace),
}

/// Where it differs first: in what, behind how many steps, and where the probe then is in the run with the other tip, in micrometres of machine coordinates.
#[derive(Clone, Copy)]
pub struct Seen {
    pub what: Difference,
    pub steps: u64,
    pub position: Point,
}

/// What is met with another tip.
#[derive(Clone, Copy)]
pub enum Met {
    /// The tip meets a block at home.
    Home,
    /// The run differs.
    Behind(Seen),
}

/// How wide the tip may be.
#[derive(Clone, Copy)]
pub struct Margin {
    /// The half width of the tip, in micrometres.
    pub tip: u32,
    /// What is met with one micrometre more; none where there is no wider tip.
    pub met: Option<Met>,
}
