//! A text that is read again.

ghost use Rattle.std.specs.Prelude.{◌≡◌, ◌++◌, true, Ok, OnOk};
ghost use Rattle.vcm_part.specs.PartFile.{part_of};
ghost use Rattle.vcm_blocks.specs.inner.Steps.{workpiece};

use crate::fault::{Halt, Refusal};
use std::alloc::Global;
use vcm_part::{PartCode, PartData, read_part};
use vcm_spec::{Block3, Bounds};

// Whether blocks are these and then those.
fn are_joined(all: &[Block3], own: &[Block3], more: &[Block3]) -> bool
    ensures { result ≡ true → all.now ≡ own.now ++ more.now }
{
    if all.len() < own.len() {
        return false;
    }
    let (front, behind) = all.split_at(own.len());
    front == own && behind == more
}

// Whether a workpiece has these bounds, and these blocks and then those.
fn is_workpiece(read: &PartData, bounds: &Bounds, own: &[Block3], more: &[Block3]) -> bool
    ensures { result ≡ true → read.now ≡ workpiece bounds.now (own.now ++ more.now) }
{
    read.bounds() == *bounds && are_joined(read.blocks(), own, more)
}

// The refusal of a text that was written.
fn refused(code: PartCode) -> Halt {
    match code {
        PartCode::NoMemory => Halt::Memory,
        PartCode::HomeNotClear => Halt::Refused(Refusal::HomeInModel),
        _ => Halt::Refused(Refusal::NotAdded),
    }
}

/// Reads a text again: it has to give the workpiece with these bounds and with these blocks and then those.
///
/// # Errors
///
/// It gives another one, or none; want of memory.
pub(crate) fn read_again(
    alloc: Global,
    text: &str,
    bounds: &Bounds,
    own: &[Block3],
    more: &[Block3],
) -> Result<(), Halt>
    ensures { OnOk result (part_of text.now ≡ Ok (workpiece bounds.now (own.now ++ more.now))) }
{
    match read_part(alloc, text.as_bytes()) {
        Ok(read) => {
            if is_workpiece(&read, bounds, own, more) {
                Ok(())
            } else {
                Err(Halt::Refused(Refusal::NotAdded))
            }
        }
        Err(fault) => Err(refused(fault.code)),
    }
}
