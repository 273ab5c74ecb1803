//! Why the adapter ends.

use std::alloc::{AllocError, AllocFailed};
use vcm_num::{NoMemory, WriteFault};

/// Why the adapter ends.
#[derive(Clone, Copy)]
pub enum DapFault {
    /// The writer failed, or took no byte.
    Write,
    /// A growth of memory was refused where a message is made. Nothing of it is written.
    NoMemory,
}

impl From<AllocError> for DapFault {
    fn from(_error: AllocError) -> DapFault {
        DapFault::NoMemory
    }
}

impl<T: Drop> From<AllocFailed<T>> for DapFault {
    fn from(_error: AllocFailed<T>) -> DapFault {
        DapFault::NoMemory
    }
}

impl From<NoMemory> for DapFault {
    fn from(_error: NoMemory) -> DapFault {
        DapFault::NoMemory
    }
}

// What is written here is written to memory.
impl From<WriteFault> for DapFault {
    fn from(_error: WriteFault) -> DapFault {
        DapFault::NoMemory
    }
}
