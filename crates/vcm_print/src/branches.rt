//! The writing of the branches of a SELECT.

ghost use Rattle.std.specs.Prelude.{◌++◌};
ghost use Rattle.vcm_num.specs.Written.{Wrote};
ghost use Rattle.vcm_words.specs.Branches.{branch_text};
ghost use Rattle.vcm_print.specs.inner.Written.{branches_bytes, more_branches};

use itoa::Buffer;
use std::io::Write;
use vcm_code::Branch;
use vcm_fields::BranchSlice;
use vcm_num::{WriteFault, int_text, write_all, write_pieces};

// Writes a branch behind what stands in front of it: its value and its target.
fn write_branch<W: Write>(front: &[u8], branch: Branch, writer: &mut W) -> Result<(), WriteFault>
    ensures { Wrote (W.contents writer.old) (W.contents writer.new) (front.now ++ branch_text branch) result }
{
    let value = int_text(branch.value);
    let mut buffer = Buffer::new();
    let target = buffer.format(branch.target).as_bytes();
    write_pieces(writer, &[front, value.as_slice(), b"@", target])
}

// Writes the branches behind the first one, with a blank in front of each.
fn write_more<W: Write>(branches: &BranchSlice<'_>, writer: &mut W) -> Result<(), WriteFault>
    ensures { Wrote (W.contents writer.old) (W.contents writer.new) (more_branches branches.now) result }
{
    let mut rest = branches.again();
    while let Some((branch, after)) = rest.split_first() {
        write_branch(b" ", branch, writer)?;
        rest = after;
    }
    Ok(())
}

/// Writes the branches of a SELECT with a blank in front of them: ` {1@3 3@6}`, or ` {}` without branches.
///
/// # Errors
///
/// The writer failed, or took no byte; then it has taken a front of these bytes that is not all.
pub(crate) fn write_branches<W: Write>(
    branches: &BranchSlice<'_>,
    writer: &mut W,
) -> Result<(), WriteFault>
    ensures { Wrote (W.contents writer.old) (W.contents writer.new) (branches_bytes branches.now) result }
{
    match branches.split_first() {
        None => write_all(writer, b" {}"),
        Some((branch, rest)) => {
            write_branch(b" {", branch, writer)?;
            write_more(&rest, writer)?;
            write_all(writer, b"}")
        }
    }
}
