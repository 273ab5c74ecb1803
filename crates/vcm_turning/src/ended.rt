//! How a run that turns its head ends.

/// Why a run ends before a step: the probe that is on hasn't the number that the variable has, and the statement with this number and source line moves.
#[derive(Clone, Copy)]
pub struct NoProbe {
    pub value: i64,
    pub number: u32,
    pub line: u32,
}

/// How a run that turns its head ended.
#[derive(Clone, Copy)]
pub enum Ended {
    /// All steps that were asked for were done, and it has not stopped.
    Count,
    /// It has stopped.
    Stopped,
    /// It ended before a step, since the probe that is chosen isn't on.
    Lost(NoProbe),
    /// Memory was refused to a statement that makes an output line.
    NoMemory,
}

/// How many steps were done, and how the run ended.
#[derive(Clone, Copy)]
pub struct Ran {
    pub done: u64,
    pub end: Ended,
}
