//! Why no part file is written.

ghost use Rattle.std.specs.Prelude.{◌≡◌};
ghost use Rattle.vcm_blocks.specs.declared.fault.Halt.TheVariants.{Memory};

use crate::told::Millimetres;
use std::alloc::{AllocError, AllocFailed};
use std::fmt::{Display, Formatter, Result, Write};
use vcm_mesh::Refusal as MeshRefusal;
use vcm_num::NoMemory;
use vcm_part::PartFault;

/// A refusal that is neither the part file's nor the model's. Lengths are micrometres, lines are counted from 1.
#[derive(Clone, Copy)]
pub enum Refusal {
    /// There would be more blocks than may be, at this length; where no length was asked for, at this one and at each finer one of the series.
    TooManyBlocks(u32),
    /// The grid has more than 268,435,456 elements at this length.
    TooFine(u32),
    /// The text, read as a part file, isn't the part with these blocks after its own.
    NotAdded,
    /// Home lies in a block of the model, or the tip meets one there.
    HomeInModel,
    /// A line of the file of points is no row of them.
    NoPoints(u32),
    /// A triangle isn't covered.
    NotCovered,
}

/// Why no part file is written.
#[derive(Clone, Copy)]
pub enum BlocksFault {
    /// A growth of memory was refused.
    NoMemory,
    /// The part file that the blocks are added to is refused.
    Part(PartFault),
    /// The model is refused.
    Model(MeshRefusal),
    /// Something else is.
    Refused(Refusal),
}

/// Why a step after the reading of part and model isn't done.
#[derive(Clone, Copy)]
pub enum Halt {
    Memory,
    Refused(Refusal),
}

impl From<AllocError> for Halt {
    ghost from_gives = { λ _ end. end ≡ Memory };

    fn from(_: AllocError) -> Halt {
        Halt::Memory
    }
}

impl<T: Drop> From<AllocFailed<T>> for Halt {
    ghost from_gives = { λ _ end. end ≡ Memory };

    fn from(_: AllocFailed<T>) -> Halt {
        Halt::Memory
    }
}

impl From<NoMemory> for Halt {
    ghost from_gives = { λ _ end. end ≡ Memory };

    fn from(_: NoMemory) -> Halt {
        Halt::Memory
    }
}

// A refusal of a model, as it is told.
fn write_mesh_refusal<W: Write>(refusal: MeshRefusal, out: &mut Formatter<W>) -> Result {
    match refusal {
        MeshRefusal::NotStl => out.write_str("M01 NotStl"),
        MeshRefusal::BadLength(count, have) => {
            let want = u64::from(count).saturating_mul(50).saturating_add(84);
            write!(
                out,
                "M02 BadLength {count} triangles take {want} bytes, the file has {have}"
            )
        }
        MeshRefusal::BadText(line) => write!(out, "M03 BadText line {line}"),
        MeshRefusal::NoNumber(number) => write!(out, "M04 NoNumber triangle {number}"),
        MeshRefusal::OutOfRange(number) => write!(out, "M05 OutOfRange triangle {number}"),
        MeshRefusal::NoTriangles => out.write_str("M06 NoTriangles"),
        MeshRefusal::TooManyTriangles => out.write_str("M07 TooManyTriangles"),
        MeshRefusal::TooLong => out.write_str("input too long"),
    }
}

/// A refusal as it is told: its code, its name, and where.
impl Display for Refusal {
    fn fmt<W: Write>(&self, out: &mut Formatter<W>) -> Result {
        match *self {
            Refusal::TooManyBlocks(within) => {
                let within = Millimetres::of(within);
                write!(out, "M08 TooManyBlocks within {within}")
            }
            Refusal::TooFine(within) => {
                let within = Millimetres::of(within);
                write!(out, "M09 TooFine within {within}")
            }
            Refusal::NotAdded => out.write_str("M10 NotAdded"),
            Refusal::HomeInModel => out.write_str("P06 HomeNotClear"),
            Refusal::NoPoints(line) => write!(out, "M11 NoPoints line {line}"),
            Refusal::NotCovered => out.write_str("M12 NotCovered"),
        }
    }
}

/// A refusal of a model as it is told.
#[derive(Clone, Copy)]
pub struct ModelRefusal(pub MeshRefusal);

impl Display for ModelRefusal {
    fn fmt<W: Write>(&self, out: &mut Formatter<W>) -> Result {
        write_mesh_refusal(self.0, out)
    }
}
