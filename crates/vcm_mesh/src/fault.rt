//! Why a mesh file is refused.

ghost use Rattle.std.specs.Prelude.{◌≡◌};
ghost use Rattle.vcm_mesh.specs.declared.fault.MeshFault.TheVariants.{NoMemory};

use std::alloc::{AllocError, AllocFailed};

/// Why a coordinate isn't read.
#[derive(Clone, Copy, PartialEq, Eq)]
pub enum Misread {
    /// It is no number, or an infinite one.
    NotANumber,
    /// It is too far from 0.
    TooFar,
}

/// A refusal of a mesh file. Triangles and lines are counted from 1.
#[derive(Clone, Copy, PartialEq, Eq)]
pub enum Refusal {
    /// The file is no text that begins with `solid`, and is shorter than the head of a binary file.
    NotStl,
    /// The file is no text, and a binary file of so many triangles hasn't so many bytes.
    BadLength(u32, u64),
    /// A line of a text says what isn't expected there, or the text ends there within a solid.
    BadText(u32),
    /// A coordinate of a triangle is no number.
    NoNumber(u32),
    /// A coordinate of a triangle is more than 1,000,000,000 micrometres from 0 on the machine.
    OutOfRange(u32),
    /// The file has no triangle.
    NoTriangles,
    /// It has more than 1,000,000.
    TooManyTriangles,
    /// A text has more than 50,000,084 bytes.
    TooLong,
}

/// Why a mesh isn't read.
#[derive(Clone, Copy, PartialEq, Eq)]
pub enum MeshFault {
    /// A growth of memory was refused.
    NoMemory,
    /// The file is refused.
    Refused(Refusal),
}

impl From<AllocError> for MeshFault {
    ghost from_gives = { λ _ end. end ≡ NoMemory };

    fn from(_: AllocError) -> MeshFault {
        MeshFault::NoMemory
    }
}

impl<T: Drop> From<AllocFailed<T>> for MeshFault {
    ghost from_gives = { λ _ end. end ≡ NoMemory };

    fn from(_: AllocFailed<T>) -> MeshFault {
        MeshFault::NoMemory
    }
}
