//! What a command answers, in plain numbers; names go by their indexes.

use vcm_spec::{Feature, StopPlace};

/// Why a run ended.
#[derive(Clone, Copy)]
pub enum Reason {
    /// The machine has stopped.
    Stopped,
    /// The next statement has a breakpoint.
    Break,
    /// The value of this watched variable differs from the one a step earlier; of several the lowest-numbered.
    Watch(u16),
    /// All steps that were asked for were taken.
    Count,
}

/// Where a session stands: how many steps were taken, the next statement and its source line, and the stop if there is one.
#[derive(Clone, Copy)]
pub struct Standing {
    pub steps: u64,
    pub next: u32,
    pub line: u32,
    pub stop: Option<StopPlace>,
}

/// Why a command isn't carried out.
#[derive(Clone, Copy)]
pub enum CommandRefusal {
    UnknownCommand,
    NoSuchName,
    NoSuchStatement,
    CountOutOfRange,
    BeforeStart,
}

/// What a command answers.
#[derive(Clone, Copy)]
pub enum Reply {
    /// A breakpoint is set at this statement.
    Set(u32),
    /// This statement has no breakpoint.
    Cleared(u32),
    /// The lowest statement of a source line: the line, and the statement.
    Found(u64, u32),
    /// Where the session stands.
    Stands(Standing),
    /// Why a run ended, and where the session stands.
    Ran(Reason, Standing),
    /// This variable is watched.
    Watched(u16),
    /// This variable isn't watched.
    Unwatched(u16),
    /// A variable and its value.
    Value(u16, i64),
    /// A feature, nominal and actual.
    Features(u16, Option<Feature>, Option<Feature>),
    /// The listing line of this statement.
    Listed(u32),
    /// How many output lines there are, and how many of the last are shown.
    Lines(usize, usize),
    /// The session ends.
    Bye,
    /// The command isn't carried out, and nothing has changed.
    Refused(CommandRefusal),
}

/// A growth of memory was refused in a command, after so many of its steps.
#[derive(Clone, Copy)]
pub struct Halted {
    pub done: u64,
}

/// Why the debugger no longer serves.
#[derive(Clone, Copy, PartialEq, Eq)]
pub enum ServeFault {
    /// The reader failed.
    Read,
    /// The writer failed, or took no byte.
    Write,
    /// There are more than 10,000 lines or 1,048,576 bytes.
    TooMuch,
}
