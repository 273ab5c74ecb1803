//! Frames: a head that tells a length, and so many bytes.

ghost use Rattle.std.specs.Prelude.{◌≡◌, length, option_map, IfOk, IfErr, decimal};
ghost use Rattle.std.specs.Io.KnownBytes.{Consumes, Keeps};
ghost use Rattle.vcm_num.specs.Written.{Wrote};
ghost use Rattle.vcm_wire.specs.Frames.{frame, head, BeginsWithFrame, IsUnframed, Sent};
ghost use Rattle.vcm_wire.specs.inner.Heads.{IsMissing};

use crate::reading::read_head;
use itoa::Buffer;
use std::alloc::Global;
use std::io::{Read, Write};
use vcm_num::{WriteFault, write_all};

/// The most bytes of a message.
pub const MOST_BYTES: usize = 1_048_576;

/// Why no message was read.
#[derive(Clone, Copy)]
pub enum FrameFault {
    /// The reader failed, or the input ends within a message.
    Read,
    /// No head begins here: `Content-Length: `, one to seven digits, and two line ends, each CR LF.
    NoHead,
    /// The head tells more than 1,048,576 bytes. The reader stands behind the head.
    TooLong,
    /// A growth of memory was refused. The reader stands behind the head.
    NoMemory,
}

// So many bytes.
fn read_message<R: Read>(alloc: Global, reader: &mut R, count: usize) -> Result<Vec<u8>, FrameFault>
    ensures taken { IfOk result (λ v. Consumes (R.remaining reader.old) (R.remaining reader.new) v.items) }
    ensures whole { IfOk result (λ v. length v.items ≡ count) }
    ensures fault { IfErr result (λ f. IsMissing (R.remaining reader.old) (R.remaining reader.new) f) }
{
    let Ok(mut bytes) = vec![in alloc; 0; count] else {
        return Err(FrameFault::NoMemory);
    };
    match reader.read_exact(&mut bytes) {
        Ok(()) => Ok(bytes),
        Err(_) => Err(FrameFault::Read),
    }
}

/// The next message, or none at the end of the input.
///
/// Errors: see `FrameFault`. After an error the reader stands somewhere in the message.
pub fn read_frame<R: Read>(alloc: Global, reader: &mut R) -> Result<Option<Vec<u8>>, FrameFault>
    ensures message { IfOk result (λ m. BeginsWithFrame (R.remaining reader.old) (R.remaining reader.new) (option_map (λ v. v.items) m)) }
    ensures fault { IfErr result (λ f. IsUnframed (R.remaining reader.old) (R.remaining reader.new) f) }
{
    let Some(count) = read_head(reader)? else {
        return Ok(None);
    };
    if count > MOST_BYTES {
        return Err(FrameFault::TooLong);
    }
    let message = read_message(alloc, reader, count)?;
    Ok(Some(message))
}

// Hands on what a writer has taken.
fn flush<W: Write>(writer: &mut W) -> Result<(), WriteFault>
    ensures { Keeps (W.contents writer.old) (W.contents writer.new) }
{
    match writer.flush() {
        Ok(()) => Ok(()),
        Err(_) => Err(WriteFault),
    }
}

// Writes the head of a message of so many bytes.
fn write_head<W: Write>(writer: &mut W, length: usize) -> Result<(), WriteFault>
    ensures { Wrote (W.contents writer.old) (W.contents writer.new) (head (decimal length)) result }
{
    let mut digits = Buffer::new();
    write_all(writer, b"Content-Length: ")?;
    write_all(writer, digits.format(length).as_bytes())?;
    write_all(writer, b"\r\n\r\n")
}

/// Writes the frame of a message, and hands it on.
///
/// Errors: the writer failed. It has taken a front of the frame, all of it where it only couldn't be handed on.
pub fn write_frame<W: Write>(writer: &mut W, message: &[u8]) -> Result<(), WriteFault>
    ensures { Sent (W.contents writer.old) (W.contents writer.new) (frame message.now) result }
{
    write_head(writer, message.len())?;
    write_all(writer, message)?;
    flush(writer)
}
