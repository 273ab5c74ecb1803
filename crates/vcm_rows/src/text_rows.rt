//! The rows of the text that is shown. Nothing here takes memory.

ghost use Rattle.std.specs.Prelude.{◌≡◌, ◌<◌, ◌∷◌, length};
ghost use Rattle.vcm_num.specs.Written.{Wrote};
ghost use Rattle.vcm_rows.specs.Opening.{text_row, text_rows};

use crate::spelled::write_spelled;
use std::io::Write;
use vcm_num::{WriteFault, split_line, write_all};

// Writes a line.
fn write_line<W: Write>(line: &[u8], writer: &mut W) -> Result<(), WriteFault>
    ensures { Wrote (W.contents writer.old) (W.contents writer.new) (text_row line.now) result }
{
    write_all(writer, b"L ")?;
    write_spelled(line, writer)?;
    write_all(writer, b"\n")
}

/// Writes the lines of a text, which end with a line feed, or with a carriage return and a line feed.
///
/// Errors: the writer failed, or took no byte; then it has taken a front of the rows, and not all of them.
pub fn write_text<W: Write>(text: &[u8], writer: &mut W) -> Result<(), WriteFault>
    ensures { Wrote (W.contents writer.old) (W.contents writer.new) (text_rows text.now) result }
{
    let mut rest = text;
    while !rest.is_empty() {
        let (line, after) = split_line(rest);
        write_line(line, writer)?;
        rest = after;
    }
    Ok(())
}
