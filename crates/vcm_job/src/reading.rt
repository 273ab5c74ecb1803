//! Inputs read whole.

ghost use Rattle.std.specs.Prelude.{◌≡◌, ◌≤◌, length, IfOk, IfErr, IfSome};
ghost use Rattle.vcm_job.specs.Reading.{most_bytes, ReadsLittle, IsReadFault};

use std::alloc::Global;
use std::io::Read;

/// The most bytes of an input.
const LIMIT: usize = 33_554_432;

/// Why an input wasn't read whole.
#[derive(Clone, Copy)]
pub enum ReadFault {
    /// A growth of memory was refused.
    NoMemory,
    /// The reader failed, before its limit was passed.
    Device,
    /// The input is longer than 33,554,432 bytes.
    TooLong,
}

/// All bytes that the reader has, up to 33,554,432. At most one byte more is read.
///
/// Errors: want of memory, a reader that failed, an input that is too long.
pub fn read_all<R: Read>(alloc: Global, reader: &mut R) -> Result<Vec<u8>, ReadFault>
    ensures all { IfOk result (λ v. IfSome (R.remaining reader.old) (λ input. v.items ≡ input)) }
    ensures short { IfOk result (λ v. length v.items ≤ most_bytes) }
    ensures fault { IfErr result (IsReadFault (R.remaining reader.old) (R.remaining reader.new)) }
    ensures little { ReadsLittle (R.remaining reader.old) (R.remaining reader.new) }
{
    let mut bytes = Vec::new(alloc);
    let mut chunk = [0; 65_536];
    while bytes.len() <= LIMIT {
        let most = chunk.len().min(LIMIT + 1 - bytes.len());
        let Ok(n) = reader.read(&mut chunk[..most]) else {
            return Err(ReadFault::Device);
        };
        if n == 0 {
            return Ok(bytes);
        }
        if bytes.extend_from_slice(&chunk[..n]).is_err() {
            return Err(ReadFault::NoMemory);
        }
    }
    Err(ReadFault::TooLong)
}
