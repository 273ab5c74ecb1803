//! What is said of a program.

use crate::outcome::Outcome;

/// A measured point that lies off, by so many micrometres, of this feature, touched on this source line.
#[derive(Drop)]
pub struct Measured {
    pub size: u64,
    pub feature: String,
    pub line: u32,
}

/// How the boxes of a probe go in a run: so many of them meet a block, or all have this room round them in micrometres, where one of them has a room that is known.
#[derive(Clone, Copy)]
pub enum Clearing {
    Met(u64),
    Clear(u64),
    Unknown,
}

/// What a run came to: its steps, how many points were measured and which of them lies farthest off, the greatest half width of the tip with which it goes so, its
/// clearance, and how many motions weren't tried.
#[derive(Drop)]
pub struct Ran {
    pub steps: u64,
    pub points: u64,
    pub greatest: Option<Measured>,
    pub margin: Option<u32>,
    pub clearing: Option<Clearing>,
    pub untried: u64,
    pub remarks: u64,
}

/// What is said of a program: its name and that of its part file, how it fared and by what words, how many statements it has and how many notices there are of it, what
/// its run came to, and the digests of its text and of its part file.
#[derive(Drop)]
pub struct Verdict {
    pub program: String,
    pub part: String,
    pub outcome: Outcome,
    pub words: String,
    pub statements: Option<u64>,
    pub notices: u64,
    pub ran: Option<Ran>,
    pub program_digest: String,
    pub part_digest: String,
}
