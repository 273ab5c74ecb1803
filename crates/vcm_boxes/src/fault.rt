//! Why a probe file is refused.

ghost use Rattle.std.specs.Prelude.{◌≡◌, codes};
ghost use Rattle.vcm_boxes.specs.declared.fault.BoxesFault.TheVariants.{NoMemory};
ghost use Rattle.vcm_boxes.specs.Keys.{key_word};

use crate::label::ShortName;
use std::alloc::{AllocError, AllocFailed};

/// A key of a box in a probe file.
#[derive(Clone, Copy)]
pub enum BoxKey {
    Name,
    Low,
    High,
}

impl BoxKey {
    /// The word that it is spelled as.
    pub fn word(self) -> &'static str
        ensures { result.now ≡ key_word self }
    {
        match self {
            BoxKey::Name => "name",
            BoxKey::Low => "low",
            BoxKey::High => "high",
        }
    }
}

/// A refusal of a probe file. Boxes are counted from 1; a key that isn't known is told where it is a label of at most 32 bytes.
#[derive(Drop)]
pub enum Refusal {
    /// The bytes are no UTF-8, or no TOML.
    NotToml,
    /// Another key than `box` stands there.
    UnknownKey(Option<ShortName>),
    /// `box` is absent, is no array of tables, or is empty.
    NoBoxes,
    /// There are more than 16 boxes.
    TooManyBoxes,
    /// A box has another key than `name`, `low` and `high`.
    UnknownBoxKey(u32, Option<ShortName>),
    /// A key of a box is absent, or its value isn't what it has to be: a label of at most 16 bytes, or three whole numbers.
    BadKey(u32, BoxKey),
    /// A coordinate of a corner is more than 10,000,000 micrometres from 0.
    OutOfRange(u32, BoxKey),
    /// A coordinate of a low corner is above that of its high corner.
    LowAboveHigh(u32),
    /// A box above has the same name.
    DuplicateName(u32),
}

/// Why a probe file isn't read.
#[derive(Drop)]
pub enum BoxesFault {
    /// A growth of memory was refused.
    NoMemory,
    /// The file is refused.
    Refused(Refusal),
}

impl From<AllocError> for BoxesFault {
    ghost from_gives = { λ _ end. end ≡ NoMemory };

    fn from(_: AllocError) -> BoxesFault {
        BoxesFault::NoMemory
    }
}

impl<T: Drop> From<AllocFailed<T>> for BoxesFault {
    ghost from_gives = { λ _ end. end ≡ NoMemory };

    fn from(_: AllocFailed<T>) -> BoxesFault {
        BoxesFault::NoMemory
    }
}
