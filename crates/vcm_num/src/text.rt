//! Numbers as text.

ghost use Rattle.std.specs.Prelude.{◌≡◌, ◌≤◌, ◌<◌, ◌+◌, ◌++◌, ◌%◌, ◌^◌, ◌∷◌, length, OnOk, OnErr};
ghost use Rattle.std.specs.Fmt.{signed_decimal};
ghost use Rattle.vcm_num.specs.Texts.{thousandths, size_text};

use crate::memory::NoMemory;
use itoa::Buffer;
use std::marker::Model;

/// A number as text: at most 24 bytes, which take no memory.
#[derive(Drop)]
pub struct Text {
    bytes: [u8; 24],
    start: usize,
}

impl Model for Text {
    ghost use Rattle.std.specs.Prelude.{ℕ, List, drop, ◌≤◌};

    ghost Value = { List ℕ };

    ghost view = { λ t. drop t.start t.bytes };

    ghost invariant = { λ t. t.start ≤ 24 };
}

impl Text {
    /// The bytes of the text.
    pub fn as_slice(&self) -> &[u8]
        ensures bytes { result.now ≡ self.now }
        ensures short { length result.now ≤ 24 }
    {
        &self.bytes[self.start..]
    }

    fn put_first(&mut self, b: u8)
        requires { length self.old < 24 }
        ensures { self.new ≡ b ∷ self.old }
    {
        self.start -= 1;
        self.bytes[self.start] = b;
    }
}

/// A whole number in decimal, with `-` in front where it is negative.
pub fn int_text(value: i64) -> Text
    ensures { result ≡ signed_decimal value }
{
    let mut buffer = Buffer::new();
    let text = buffer.format(value).as_bytes();
    let mut bytes = [0; 24];
    let start = 24 - text.len();
    bytes[start..].copy_from_slice(text);
    Text { bytes, start }
}

// The last digit of a number.
fn digit(n: u64) -> u8
    ensures { result ≡ 48 + n % 10 }
{
    b'0' + (n % 10) as u8
}

// A number of thousandths with three decimals, without a sign.
fn size_text(size: u64) -> Text
    requires { size ≤ 2 ^ 63 }
    ensures text { result ≡ size_text size }
    ensures room { length result < 24 }
{
    let rest = size % 1000;
    let mut bytes = [
        0,
        0,
        0,
        0,
        0,
        0,
        0,
        0,
        0,
        0,
        0,
        0,
        0,
        0,
        0,
        0,
        0,
        0,
        0,
        0,
        b'.',
        digit(rest / 100),
        digit(rest / 10),
        digit(rest),
    ];
    let start = itoa::write_digits(size / 1000, &mut bytes, 20);
    Text { bytes, start }
}

/// A number of thousandths with three decimals: `-0.005`, `12.345`.
pub fn thousandths_text(value: i64) -> Text
    ensures { result ≡ thousandths value }
{
    let mut text = size_text(value.unsigned_abs());
    if value < 0 {
        text.put_first(b'-');
    }
    text
}

/// Appends a whole number in decimal. After `NoMemory` the Vec is as it was.
pub fn write_int(value: i64, out: &mut Vec<u8>) -> Result<(), NoMemory>
    ensures ok { OnOk result (out.new.items ≡ out.old.items ++ signed_decimal value) }
    ensures err { OnErr result (out.new.items ≡ out.old.items) }
{
    out.extend_from_slice(int_text(value).as_slice())?;
    Ok(())
}

/// Appends a number of thousandths with three decimals. After `NoMemory` the Vec is as it was.
pub fn write_thousandths(value: i64, out: &mut Vec<u8>) -> Result<(), NoMemory>
    ensures ok { OnOk result (out.new.items ≡ out.old.items ++ thousandths value) }
    ensures err { OnErr result (out.new.items ≡ out.old.items) }
{
    out.extend_from_slice(thousandths_text(value).as_slice())?;
    Ok(())
}
