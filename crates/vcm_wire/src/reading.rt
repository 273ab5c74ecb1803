//! Heads, read byte by byte.

ghost use Rattle.vcm_wire.specs.inner.Heads.{IsNextByte, IsByte, IsText, IsDigits, IsLengthRead, IsHeadRead};

use crate::frames::FrameFault;
use std::io::Read;

/// The most digits of a length.
const MOST_DIGITS: usize = 7;

// The next byte, if the input goes on.
fn next_byte<R: Read>(reader: &mut R) -> Result<Option<u8>, FrameFault>
    ensures { IsNextByte (R.remaining reader.old) (R.remaining reader.new) result }
{
    let mut byte = [0; 1];
    match reader.read(&mut byte) {
        Ok(0) => Ok(None),
        Ok(_) => Ok(Some(byte[0])),
        Err(_) => Err(FrameFault::Read),
    }
}

// A byte that has to be there.
fn read_byte<R: Read>(reader: &mut R) -> Result<u8, FrameFault>
    ensures { IsByte (R.remaining reader.old) (R.remaining reader.new) result }
{
    match next_byte(reader) {
        Ok(Some(byte)) => Ok(byte),
        Ok(None) => Err(FrameFault::Read),
        Err(fault) => Err(fault),
    }
}

// A text that has to be there.
fn read_text<R: Read>(reader: &mut R, text: &[u8]) -> Result<(), FrameFault>
    ensures { IsText text.now (R.remaining reader.old) (R.remaining reader.new) result }
{
    for wanted in text {
        let byte = read_byte(reader)?;
        if byte != *wanted {
            return Err(FrameFault::NoHead);
        }
    }
    Ok(())
}

// The number of one to seven digits, and a carriage return behind them.
fn read_digits<R: Read>(reader: &mut R) -> Result<usize, FrameFault>
    ensures { IsDigits (R.remaining reader.old) (R.remaining reader.new) result }
{
    let mut number = 0;
    for count in 0..MOST_DIGITS + 1 {
        let byte = read_byte(reader)?;
        if !byte.is_ascii_digit() {
            if byte == b'\r' && count > 0 {
                return Ok(number);
            }
            return Err(FrameFault::NoHead);
        }
        number = number * 10 + usize::from(byte - b'0');
    }
    Err(FrameFault::NoHead)
}

// The length that a head tells behind its front, up to its end.
fn read_length<R: Read>(reader: &mut R) -> Result<usize, FrameFault>
    ensures { IsLengthRead (R.remaining reader.old) (R.remaining reader.new) result }
{
    let number = read_digits(reader)?;
    read_text(reader, b"\n\r\n")?;
    Ok(number)
}

// The length that the next head tells, or none at the end of the input.
pub(crate) fn read_head<R: Read>(reader: &mut R) -> Result<Option<usize>, FrameFault>
    ensures { IsHeadRead (R.remaining reader.old) (R.remaining reader.new) result }
{
    match next_byte(reader)? {
        None => return Ok(None),
        Some(b'C') => {}
        Some(_) => return Err(FrameFault::NoHead),
    }
    read_text(reader, b"ontent-Length: ")?;
    let length = read_length(reader)?;
    Ok(Some(length))
}
