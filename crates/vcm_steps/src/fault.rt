//! Why what is told of a run breaks off.

/// Why what is told of a run isn't written to its end.
#[derive(Clone, Copy, PartialEq, Eq)]
pub enum Unfinished {
    /// A growth of memory was refused before the run, or for what is told of it.
    NoMemory,
    /// A growth of memory was refused to an output line, after so many steps.
    Memory { done: u64 },
    /// The writer failed, or took no byte, after so many steps.
    Write { done: u64 },
}
