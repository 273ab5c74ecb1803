//! Texts of any bytes, as printable ones. Nothing here takes memory.

ghost use Rattle.std.specs.Prelude.{◌≡◌, unwrap_or, slice_get};
ghost use Rattle.vcm_num.specs.Written.{Wrote};
ghost use Rattle.vcm_rows.specs.Spelled.{is_plain, hex_digit, spelled_byte, spelled};

use std::io::Write;
use vcm_num::{WriteFault, write_all};

// Whether a byte stands for itself: a printable one that is neither `<` nor `%`.
fn is_plain(byte: u8) -> bool
    ensures { result ≡ is_plain byte }
{
    32 <= byte && byte <= 126 && byte != b'<' && byte != b'%'
}

// The digit of this value among these.
fn digit_in(digits: &[u8], value: u8) -> u8
    ensures { result ≡ unwrap_or (slice_get digits.now value) 48 }
{
    match digits.get(value as usize) {
        Some(digit) => *digit,
        None => b'0',
    }
}

// A hexadecimal digit, with capitals.
fn hex_digit(n: u8) -> u8
    ensures { result ≡ hex_digit n }
{
    digit_in(b"0123456789ABCDEF", n)
}

// Writes a byte of a text.
fn write_byte<W: Write>(byte: u8, writer: &mut W) -> Result<(), WriteFault>
    ensures { Wrote (W.contents writer.old) (W.contents writer.new) (spelled_byte byte) result }
{
    if is_plain(byte) {
        write_all(writer, &[byte])
    } else {
        write_all(writer, &[b'%', hex_digit(byte / 16), hex_digit(byte % 16)])
    }
}

/// Writes a text: each printable byte but `<` and `%` as it is, and any other as `%` and two hexadecimal digits.
///
/// Errors: the writer failed, or took no byte; then it has taken a front of the text, and not all of it.
pub fn write_spelled<W: Write>(bytes: &[u8], writer: &mut W) -> Result<(), WriteFault>
    ensures { Wrote (W.contents writer.old) (W.contents writer.new) (spelled bytes.now) result }
{
    for byte in bytes {
        write_byte(*byte, writer)?;
    }
    Ok(())
}
