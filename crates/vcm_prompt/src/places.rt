//! Source lines, and where the probe is.

use itoa::Buffer;
use std::io::Write;
use vcm_calls::source_line;
use vcm_num::{WriteFault, thousandths_text, write_all, write_pieces};
use vcm_report::write_point;
use vcm_state::World;

/// Writes a source line with its number.
pub(crate) fn write_source<W: Write>(
    text: &[u8],
    line: u32,
    writer: &mut W,
) -> Result<(), WriteFault> {
    let mut digits = Buffer::new();
    let number = digits.format(line).as_bytes();
    write_pieces(writer, &[number, b"   ", source_line(text, line), b"\n"])
}

// Writes a setting in millimetres.
fn write_setting<W: Write>(name: &[u8], length: u32, writer: &mut W) -> Result<(), WriteFault> {
    let length = thousandths_text(i64::from(length));
    write_pieces(writer, &[b" ", name, b" ", length.as_slice()])
}

/// Writes where the probe is, in machine and in part coordinates, and the settings, in millimetres.
pub(crate) fn write_position<W: Write>(world: &World, writer: &mut W) -> Result<(), WriteFault> {
    let at = world.position();
    let settings = world.settings();
    write_point(at, b" ", writer)?;
    if let Ok(at) = world.frame().invert(at) {
        write_all(writer, b"   part ")?;
        write_point(at, b" ", writer)?;
    }
    write_all(writer, b"  ")?;
    write_setting(b"APPRCH", settings.approach(), writer)?;
    write_setting(b"RETRCT", settings.retract(), writer)?;
    write_setting(b"SEARCH", settings.search(), writer)?;
    write_setting(b"DEPTH", settings.depth(), writer)?;
    write_all(writer, b"\n")
}
