//! Why bytes are no image of a valid code.

ghost use Rattle.std.specs.Prelude.{◌≡◌};
ghost use Rattle.vcm_fields.specs.declared.fault.ImageFault.TheVariants.{NoMemory as Wanting};

use std::alloc::{AllocError, AllocFailed};
use vcm_num::NoMemory;

/// Why bytes are no image of a valid code.
#[derive(Clone, Copy, PartialEq, Eq)]
pub enum ImageFault {
    /// A growth of memory was refused: nothing is said of the bytes.
    NoMemory,
    /// The first four bytes are not `VCMI`.
    BadMagic,
    /// The bytes of a field are missing.
    Short,
    /// The version is neither 1 nor 2.
    BadVersion,
    /// A field is out of its range.
    BadField,
    /// Bytes are left over behind the last field.
    Trailing,
    /// The index of a variable, feature or frame is not below the number of them.
    BadIndex,
    /// A target is not the number of a statement.
    BadTarget,
    /// An expression or a variable has not the kind that its place wants, or an expression needs more than 32 places of a stack.
    BadOperand,
    /// There is no statement, or the last one is not ENDFIL.
    RunsOff,
}

impl From<AllocError> for ImageFault {
    ghost from_gives = { λ _ e. e ≡ Wanting };

    fn from(_: AllocError) -> ImageFault {
        ImageFault::NoMemory
    }
}

impl<T: Drop> From<AllocFailed<T>> for ImageFault {
    ghost from_gives = { λ _ e. e ≡ Wanting };

    fn from(_: AllocFailed<T>) -> ImageFault {
        ImageFault::NoMemory
    }
}

impl From<NoMemory> for ImageFault {
    ghost from_gives = { λ _ e. e ≡ Wanting };

    fn from(_: NoMemory) -> ImageFault {
        ImageFault::NoMemory
    }
}
