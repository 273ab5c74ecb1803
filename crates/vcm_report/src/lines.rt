//! Output lines.

ghost use Rattle.std.specs.Prelude.{◌≤◌, ◌-◌, length, drop};
ghost use Rattle.vcm_num.specs.Written.{Wrote};
ghost use Rattle.vcm_report.specs.Output.{output_lines};

use crate::output_line::Line;
use crate::output_lines::Lines;
use std::io::Write;
use vcm_num::{WriteFault, write_pieces};

// Writes lines one by one, each with a line feed.
fn write_each<W: Write>(lines: &[Line], writer: &mut W) -> Result<(), WriteFault>
    ensures { Wrote (W.contents writer.old) (W.contents writer.new) (output_lines lines.now) result }
{
    for line in lines {
        write_pieces(writer, &[line.as_bytes(), b"\n"])?;
    }
    Ok(())
}

/// Writes output lines, each with a line feed.
///
/// Errors: the writer failed, or took no byte; then it has taken a front of the lines, and not all of them.
pub fn write_lines<W: Write>(lines: &Lines, writer: &mut W) -> Result<(), WriteFault>
    ensures { Wrote (W.contents writer.old) (W.contents writer.new) (output_lines lines.now) result }
{
    write_each(lines.as_slice(), writer)
}

/// Writes the last output lines, so many of them, each with a line feed.
///
/// Errors: the writer failed, or took no byte; then it has taken a front of these lines, and not all of them.
pub fn write_last_lines<W: Write>(
    lines: &Lines,
    count: usize,
    writer: &mut W,
) -> Result<(), WriteFault>
    requires { count ≤ length lines.now }
    ensures { Wrote (W.contents writer.old) (W.contents writer.new) (output_lines (drop (length lines.now - count) lines.now)) result }
{
    let all = lines.as_slice();
    write_each(all.split_at(all.len() - count).1, writer)
}
