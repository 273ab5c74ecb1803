//! Lengths in micrometres, rounded once.

ghost use Rattle.std.specs.Prelude.{◌≡◌, ◌<◌, ◌≤◌, ◌*◌, ◌^◌, IfSome};
ghost use Rattle.vcm_mesh.specs.Lengths.{rounded, if_not_too_far, with_sign, float_size, float_of};

use crate::fault::Misread;

/// The most micrometres of a coordinate as it is read.
const FARTHEST: u64 = 2_000_000_000;

/// A number of micrometres, if it is at most two kilometres.
pub(crate) fn if_not_too_far(n: u64) -> Option<u64>
    ensures is { result ≡ if_not_too_far n }
    ensures small { IfSome result (λ n. n ≤ 2000000000) }
{
    if n <= FARTHEST { Some(n) } else { None }
}

/// A number with its sign, if there is one.
pub(crate) fn with_sign(minus: bool, size: Option<u64>) -> Result<i64, Misread>
    requires { IfSome size (λ n. n ≤ 2000000000) }
    ensures { result ≡ with_sign minus size }
{
    match size {
        None => Err(Misread::TooFar),
        Some(size) => Ok(if minus { -(size as i64) } else { size as i64 }),
    }
}

// A number over a power of two, rounded, if it isn't too far.
fn halved(n: u64, times: u32) -> Option<u64>
    requires { n < 2 ^ 40 }
    ensures is { result ≡ if_not_too_far (rounded n (2 ^ times)) }
    ensures small { IfSome result (λ n. n ≤ 2000000000) }
{
    if times > 60 {
        return Some(0);
    }
    let divisor = 1u64 << times;
    if_not_too_far((n + divisor / 2) / divisor)
}

// The micrometres of a number of 32 bits without its sign, if it isn't too far.
fn float_size(scale: u64, exponent: u32, fraction: u32) -> Option<u64>
    requires scale { scale ≤ 25400 }
    requires known { 1000 ≤ scale }
    requires fraction { fraction < 8388608 }
    ensures is { result ≡ if_not_too_far (float_size scale exponent fraction) }
    ensures small { IfSome result (λ n. n ≤ 2000000000) }
{
    if exponent == 0 {
        return halved(u64::from(fraction) * scale, 149);
    }
    if exponent < 150 {
        return halved((u64::from(fraction) + 8_388_608) * scale, 150 - exponent);
    }
    None
}

/// The micrometres of a number of 32 bits, at so many micrometres for 1.
pub(crate) fn float_of(scale: u64, word: u32) -> Result<i64, Misread>
    requires scale { scale ≤ 25400 }
    requires known { 1000 ≤ scale }
    ensures { result ≡ float_of scale word }
{
    let exponent = (word / 8_388_608) % 256;
    if exponent == 255 {
        return Err(Misread::NotANumber);
    }
    with_sign(
        word >= 2_147_483_648,
        float_size(scale, exponent, word % 8_388_608),
    )
}
