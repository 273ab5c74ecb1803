//! Numbers as they are written in a listing.

ghost use Rattle.std.specs.Prelude.{◌≡◌, ◌<◌, ◌≤◌, ◌^◌, ◌+◌, ◌==◌, ◌∷◌, length, SomeIff, IfSome, Some, decimal};
ghost use Rattle.std.specs.List.{list_all};
ghost use Rattle.std.specs.Char.{is_ascii_digit};
ghost use Rattle.std.specs.Str.{bytes_eq};
ghost use Rattle.vcm_num.specs.Literals.{number_after, AllDigits};
ghost use Rattle.vcm_words.specs.Numbers.{natural, whole, negated, are_figures, is_figures, number, signed};

use itoa::Buffer;

// Whether the bytes are the decimal text of the number.
fn is_text(number: u64, bytes: &[u8]) -> bool
    ensures { result ≡ bytes_eq (decimal number) bytes.now }
{
    let mut buffer = Buffer::new();
    let text = buffer.format(number).as_bytes();
    text == bytes
}

// Whether all bytes are digits.
fn all_digits(bytes: &[u8]) -> bool
    ensures { result ≡ list_all is_ascii_digit bytes.now }
{
    bytes.iter().all(|byte| byte.is_ascii_digit())
}

// The number that the digits spell, where it has 64 bits.
fn value(digits: &[u8]) -> Option<u64>
    requires { AllDigits digits.now }
    ensures { SomeIff result (number_after 0 digits.now < 2 ^ 64) (number_after 0 digits.now) }
{
    let mut number: u64 = 0;
    for byte in digits {
        let digit = (*byte - b'0') as u64;
        if number > (u64::MAX - digit) / 10 {
            return None;
        }
        number = number * 10 + digit;
    }
    Some(number)
}

/// The number below the limit whose decimal text this is.
#[tactic(auto, unfolding(crate::specs::Numbers::natural))]
pub fn natural(limit: u64, bytes: &[u8]) -> Option<u64>
    ensures value { result ≡ natural limit bytes.now }
    ensures below { IfSome result (λ n. n < limit) }
{
    if !all_digits(bytes) {
        return None;
    }
    let number = value(bytes)?;
    if number < limit && is_text(number, bytes) {
        Some(number)
    } else {
        None
    }
}

/// The whole number of 64 bits whose text this is.
#[tactic(auto, unfolding(crate::specs::Numbers::whole))]
pub fn whole(bytes: &[u8]) -> Option<i64>
    ensures { result ≡ whole bytes.now }
{
    match bytes {
        [] => None,
        [first, digits @ ..] => {
            if *first == b'-' {
                negated(natural(9223372036854775809, digits)?)
            } else {
                let number = natural(9223372036854775808, bytes)?;
                Some(number as i64)
            }
        }
    }
}

// The number with a minus, if it is not 0.
fn negated(number: u64) -> Option<i64>
    requires { number < 2 ^ 63 + 1 }
    ensures { result ≡ negated (Some number) }
{
    if number == 0 {
        return None;
    }
    let less = (number - 1) as i64;
    Some(-1 - less)
}

// Whether these are digits, at least one of them.
fn are_figures(bytes: &[u8]) -> bool
    ensures { result ≡ are_figures bytes.now }
{
    !bytes.is_empty() && all_digits(bytes)
}

/// Whether this has the shape of a number: digits, at least one of them, perhaps behind a sign.
pub fn is_figures(bytes: &[u8]) -> bool
    ensures { result ≡ is_figures bytes.now }
{
    match bytes {
        [] => false,
        [first, digits @ ..] => {
            if *first == b'+' || *first == b'-' {
                are_figures(digits)
            } else {
                are_figures(bytes)
            }
        }
    }
}

/// A number below the limit, or the shape of a number in its place.
pub fn number(exact: bool, limit: u64, bytes: &[u8]) -> Option<u64>
    requires { 0 < limit }
    ensures value { result ≡ number exact limit bytes.now }
    ensures below { IfSome result (λ n. n < limit) }
{
    if exact {
        natural(limit, bytes)
    } else if is_figures(bytes) {
        Some(0)
    } else {
        None
    }
}

/// A number of 16 bits, or the shape of a number in its place.
pub fn short(exact: bool, bytes: &[u8]) -> Option<u16>
    ensures { result ≡ number exact (2 ^ 16) bytes.now }
{
    let number = number(exact, 65536, bytes)?;
    Some(number as u16)
}

/// A number of 32 bits, or the shape of a number in its place.
pub fn long(exact: bool, bytes: &[u8]) -> Option<u32>
    ensures { result ≡ number exact (2 ^ 32) bytes.now }
{
    let number = number(exact, 4294967296, bytes)?;
    Some(number as u32)
}

/// A small number below the limit, or the shape of a number in its place.
pub fn small(exact: bool, limit: u8, bytes: &[u8]) -> Option<u8>
    requires { 0 < limit }
    ensures { result ≡ number exact limit bytes.now }
{
    let number = number(exact, limit as u64, bytes)?;
    Some(number as u8)
}

/// A whole number of 64 bits, or the shape of a number in its place.
pub fn signed(exact: bool, bytes: &[u8]) -> Option<i64>
    ensures { result ≡ signed exact bytes.now }
{
    if exact {
        whole(bytes)
    } else if is_figures(bytes) {
        Some(0)
    } else {
        None
    }
}
