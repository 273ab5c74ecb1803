//! Lines of a reader, byte by byte.

ghost use Rattle.std.specs.Prelude.{◌≡◌, ◌==◌, ◌<◌, ◌^◌, IfSome, IfErr, if◌then◌else◌, false};
ghost use Rattle.vcm_console.specs.Reading.{IsNext, ReadsLine, IsWithin, IsReadOrMuch};

use crate::line::{InputLine, RawLine};
use crate::reply::ServeFault;
use std::io::Read;

// The next byte, if there is one.
pub fn next_byte<R: Read>(reader: &mut R) -> Result<Option<u8>, ServeFault>
    ensures { IsNext (R.remaining reader.old) (R.remaining reader.new) result }
{
    let mut byte = [0; 1];
    match reader.read(&mut byte) {
        Ok(0) => Ok(None),
        Ok(_) => Ok(Some(byte[0])),
        Err(_) => Err(ServeFault::Read),
    }
}

// The next line of at most so many bytes, if there is one.
pub fn read_line<R: Read>(reader: &mut R, left: usize) -> Result<Option<RawLine>, ServeFault>
    requires { left < 2 ^ 32 }
    ensures line { IfSome (R.remaining reader.old) (λ input. ReadsLine left input (R.remaining reader.new) result) }
    ensures within { IsWithin left result }
    ensures faults { IfErr result (λ f. IsReadOrMuch f) }
{
    let mut kept = InputLine::new();
    let mut used = 0;
    while used < left {
        match next_byte(reader) {
            Err(fault) => return Err(fault),
            Ok(None) => return Ok(at_end(kept, used)),
            Ok(Some(byte)) => {
                used += 1;
                if byte == b'\n' {
                    let ended = true;
                    return Ok(Some(RawLine { kept, ended, used }));
                }
                kept.push(byte);
            }
        }
    }
    match next_byte(reader) {
        Err(fault) => Err(fault),
        Ok(None) => Ok(at_end(kept, used)),
        Ok(Some(_)) => Err(ServeFault::TooMuch),
    }
}

// The line at the end of the input, if there is one.
fn at_end(kept: InputLine, used: usize) -> Option<RawLine>
    ensures { result ≡ (if used == 0 then None else Some (record { kept = kept; ended = false; used = used })) }
{
    if used == 0 {
        return None;
    }
    let ended = false;
    Some(RawLine { kept, ended, used })
}
