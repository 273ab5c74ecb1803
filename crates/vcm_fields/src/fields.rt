//! Numbers and runs of bytes. Each reader gives a value and the bytes behind it.

ghost use Rattle.std.specs.Prelude.{◌≡◌, ◌<◌, ◌≤◌, length, Ok};
ghost use Rattle.std.specs.Int.{w16, w32, w64};
ghost use Rattle.vcm_fields.specs.Readers.{Gives, byte_at, byte_below_at, number_at, signed_at, bytes_at};

use crate::fault::ImageFault;

/// A byte.
#[inline(always)]
pub(crate) fn byte(bytes: &[u8]) -> Result<(u8, &[u8]), ImageFault>
    ensures { Gives (λ x. (x.0, x.1.now)) result (byte_at bytes.now) }
{
    match bytes {
        [] => Err(ImageFault::Short),
        [first, rest @ ..] => Ok((*first, rest)),
    }
}

/// A byte, where there is one.
#[inline(always)]
pub(crate) fn known_byte(bytes: &[u8]) -> (u8, &[u8])
    requires { 0 < length bytes.now }
    ensures { byte_at bytes.now ≡ Ok (result.0, result.1.now) }
{
    (bytes[0], &bytes[1..])
}

/// A byte below a limit.
///
/// # Errors
///
/// Short; BadField where it is not below.
#[inline(always)]
pub fn byte_below(limit: u8, bytes: &[u8]) -> Result<(u8, &[u8]), ImageFault>
    ensures { Gives (λ x. (x.0, x.1.now)) result (byte_below_at limit bytes.now) }
{
    let (number, rest) = byte(bytes)?;
    if number >= limit {
        return Err(ImageFault::BadField);
    }
    Ok((number, rest))
}

/// A number of two bytes, the lower one first.
///
/// # Errors
///
/// Short.
#[inline(always)]
pub fn short(bytes: &[u8]) -> Result<(u16, &[u8]), ImageFault>
    ensures { Gives (λ x. (x.0, x.1.now)) result (number_at w16 bytes.now) }
{
    if bytes.len() < 2 {
        return Err(ImageFault::Short);
    }
    Ok(known_short(bytes))
}

/// A number of two bytes, the lower one first, where there are so many.
#[inline(always)]
pub fn known_short(bytes: &[u8]) -> (u16, &[u8])
    requires { 2 ≤ length bytes.now }
    ensures { number_at w16 bytes.now ≡ Ok (result.0, result.1.now) }
{
    let (front, rest) = bytes.split_at(2);
    let number = u16::from_le_bytes([front[0], front[1]]);
    (number, rest)
}

/// A number of four bytes, the lowest one first.
///
/// # Errors
///
/// Short.
#[inline(always)]
pub fn long(bytes: &[u8]) -> Result<(u32, &[u8]), ImageFault>
    ensures { Gives (λ x. (x.0, x.1.now)) result (number_at w32 bytes.now) }
{
    if bytes.len() < 4 {
        return Err(ImageFault::Short);
    }
    Ok(known_long(bytes))
}

/// A number of four bytes, the lowest one first, where there are so many.
#[inline(always)]
pub fn known_long(bytes: &[u8]) -> (u32, &[u8])
    requires { 4 ≤ length bytes.now }
    ensures { number_at w32 bytes.now ≡ Ok (result.0, result.1.now) }
{
    let (front, rest) = bytes.split_at(4);
    let number = u32::from_le_bytes([front[0], front[1], front[2], front[3]]);
    (number, rest)
}

/// A number of eight bytes with its sign, as a two's complement.
#[inline(always)]
pub(crate) fn signed(bytes: &[u8]) -> Result<(i64, &[u8]), ImageFault>
    ensures { Gives (λ x. (x.0, x.1.now)) result (signed_at bytes.now) }
{
    if bytes.len() < 8 {
        return Err(ImageFault::Short);
    }
    Ok(known_signed(bytes))
}

// A number of eight bytes, where there are so many.
#[inline(always)]
fn known_eight(bytes: &[u8]) -> (u64, &[u8])
    requires { 8 ≤ length bytes.now }
    ensures { number_at w64 bytes.now ≡ Ok (result.0, result.1.now) }
{
    let (front, rest) = bytes.split_at(8);
    let number = u64::from_le_bytes([
        front[0], front[1], front[2], front[3], front[4], front[5], front[6], front[7],
    ]);
    (number, rest)
}

/// A number of eight bytes with its sign, as a two's complement, where there are so many.
#[inline(always)]
pub fn known_signed(bytes: &[u8]) -> (i64, &[u8])
    requires { 8 ≤ length bytes.now }
    ensures { signed_at bytes.now ≡ Ok (result.0, result.1.now) }
{
    let (number, rest) = known_eight(bytes);
    (number.cast_signed(), rest)
}

/// So many bytes.
pub(crate) fn some_bytes(count: usize, bytes: &[u8]) -> Result<(&[u8], &[u8]), ImageFault>
    ensures { Gives (λ x. (x.0.now, x.1.now)) result (bytes_at count bytes.now) }
{
    if bytes.len() < count {
        return Err(ImageFault::Short);
    }
    let (front, rest) = bytes.split_at(count);
    Ok((front, rest))
}
