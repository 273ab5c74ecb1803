//! Writing bytes to a writer that may fail.

ghost use Rattle.std.specs.Prelude.{flat_map};
ghost use Rattle.vcm_num.specs.Written.{Wrote};

use crate::memory::WriteFault;
use std::io::Write;

/// Writes all of the bytes. Where a write fails or takes no byte, a front of them that is not all has been written: so a call with no bytes
/// never fails.
pub fn write_all<W: Write>(writer: &mut W, bytes: &[u8]) -> Result<(), WriteFault>
    ensures { Wrote (W.contents writer.old) (W.contents writer.new) bytes.now result }
{
    let mut at = 0;
    while at < bytes.len() {
        match writer.write(&bytes[at..]) {
            Ok(0) => return Err(WriteFault),
            Ok(n) => at += n,
            Err(_) => return Err(WriteFault),
        }
    }
    Ok(())
}

/// Writes the pieces one after another. Where a write fails or takes no byte, a front of them that is not all has been written.
pub fn write_pieces<W: Write>(writer: &mut W, pieces: &[&[u8]]) -> Result<(), WriteFault>
    ensures { Wrote (W.contents writer.old) (W.contents writer.new) (flat_map (λ p. p.now) pieces.now) result }
{
    for piece in pieces {
        write_all(writer, piece)?;
    }
    Ok(())
}
