//! The rows of the workpiece. Nothing here takes memory.

ghost use Rattle.std.specs.Prelude.{◌≡◌};
ghost use Rattle.vcm_num.specs.Written.{Wrote};
ghost use Rattle.vcm_rows.specs.Opening.{block_row, tip_row, bounds_rows, part_rows};

use crate::rows::{Rows, write_point_row, write_points_row, write_rows};
use itoa::Buffer;
use std::io::Write;
use vcm_num::{WriteFault, write_pieces};
use vcm_part::PartData;
use vcm_spec::{Block3, Bounds};

// The rows of blocks.
#[derive(Clone, Copy)]
struct BlockRows;

impl<W: Write> Rows<Block3, W> for BlockRows {
    ghost row_of = { λ s block. block_row block };

    fn write_row(&self, block: &Block3, writer: &mut W) -> Result<(), WriteFault> {
        write_points_row(b"B ", block.low, block.high, writer)
    }
}

// Writes half the width of the tip.
fn write_tip<W: Write>(tip: u32, writer: &mut W) -> Result<(), WriteFault>
    ensures { Wrote (W.contents writer.old) (W.contents writer.new) (tip_row tip) result }
{
    let mut digits = Buffer::new();
    write_pieces(writer, &[b"T ", digits.format(tip).as_bytes(), b"\n"])
}

// Writes the limits, home and the tip.
fn write_bounds<W: Write>(bounds: &Bounds, writer: &mut W) -> Result<(), WriteFault>
    ensures { Wrote (W.contents writer.old) (W.contents writer.new) (bounds_rows bounds.now) result }
{
    write_points_row(b"P ", bounds.low, bounds.high, writer)?;
    write_point_row(b"H ", bounds.home, writer)?;
    write_tip(bounds.tip, writer)
}

/// Writes the rows of a workpiece.
///
/// Errors: the writer failed, or took no byte; then it has taken a front of the rows, and not all of them.
pub fn write_part<W: Write>(part: &PartData, writer: &mut W) -> Result<(), WriteFault>
    ensures { Wrote (W.contents writer.old) (W.contents writer.new) (part_rows part.now) result }
{
    write_bounds(&part.bounds(), writer)?;
    write_rows(&BlockRows, part.blocks(), writer)
}
