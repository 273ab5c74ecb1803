//! Why a part file is refused.

ghost use Rattle.std.specs.Prelude.{◌≡◌};
ghost use Rattle.vcm_part.specs.declared.fault.NotRead.TheVariants.{Memory};

use std::alloc::{AllocError, AllocFailed};

/// The kind of a refusal.
#[derive(Clone, Copy, PartialEq, Eq)]
pub enum PartCode {
    /// A growth of memory was refused.
    NoMemory,
    /// The bytes are no UTF-8, or no TOML.
    NotToml,
    /// A key is absent, or its value isn't what it has to be: three whole numbers, for `tip` one, for `block` an array of tables, or for `fixture` of a block
    /// true or false.
    BadKey,
    /// A coordinate is more than 1,000,000,000 micrometres from 0, or `tip` is outside 0 to 50,000.
    OutOfRange,
    /// A coordinate of a low corner is above that of its high corner.
    LowAboveHigh,
    /// There are more than 4,096 blocks.
    TooManyBlocks,
    /// Home is outside the limits, or the tip meets a block there.
    HomeNotClear,
}

/// A refusal of a part file. `block` is the number of the block whose `low` or `high` is at fault, otherwise 0.
#[derive(Clone, Copy, PartialEq, Eq)]
pub struct PartFault {
    pub code: PartCode,
    pub block: u32,
}

/// Why a file isn't read.
#[derive(Clone, Copy)]
pub(crate) enum NotRead {
    Memory,
    Fault(PartFault),
}

impl From<AllocError> for NotRead {
    ghost from_gives = { λ _ end. end ≡ Memory };

    fn from(_: AllocError) -> NotRead {
        NotRead::Memory
    }
}

impl<T: Drop> From<AllocFailed<T>> for NotRead {
    ghost from_gives = { λ _ end. end ≡ Memory };

    fn from(_: AllocFailed<T>) -> NotRead {
        NotRead::Memory
    }
}
