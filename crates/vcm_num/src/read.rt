//! The reading of number literals.

ghost use Rattle.std.specs.Prelude.{◌≡◌, ◌+◌, ◌^◌, ◌<◌, ◌==◌, ◌++◌, length, drop, Some, SomeIff};
ghost use Rattle.std.specs.List.{list_all};
ghost use Rattle.vcm_num.specs.Literals.{Reads, AllDigits, has_minus, after_sign, number_after, signed, three_decimals, magnitude_of};
ghost use Rattle.vcm_num.specs.inner.Digits.{NoDigitFirst};
ghost use Rattle.std.specs.Char.{is_ascii_digit};

use crate::number::Literal;

/// The largest number of a literal, without its sign.
const MOST: u64 = i64::MAX as u64;

/// Why a text is no literal.
#[derive(Clone, Copy, PartialEq, Eq)]
pub enum NumFault {
    BadNumber,
    TooFine,
    TooLarge,
}

/// Reads a number with an optional sign.
pub fn read_number(bytes: &[u8]) -> Result<Literal, NumFault>
    ensures { Reads bytes.now result }
{
    let (minus, body) = split_sign(bytes);
    let (whole, rest) = split_digits(body);
    let Some((point, decimals)) = rest.split_first() else {
        if whole.is_empty() {
            return Err(NumFault::BadNumber);
        }
        let Some(number) = number_with(0, whole) else {
            return Err(NumFault::TooLarge);
        };
        return Ok(Literal::Int(with_sign(minus, number)));
    };
    if *point != b'.' {
        return Err(NumFault::BadNumber);
    }
    if has_no_digit(whole, decimals) {
        return Err(NumFault::BadNumber);
    }
    if !all_digits(decimals) {
        return Err(NumFault::BadNumber);
    }
    if !fine(decimals) {
        return Err(NumFault::TooFine);
    }
    let Some(number) = number_with_three(whole, decimals) else {
        return Err(NumFault::TooLarge);
    };
    Ok(Literal::Thousandths(with_sign(minus, number)))
}

// The sign, true for a minus, and what follows it.
fn split_sign(bytes: &[u8]) -> (bool, &[u8])
    ensures minus { result.0 ≡ has_minus bytes.now }
    ensures rest { result.1.now ≡ after_sign bytes.now }
{
    match bytes {
        [] => (false, bytes),
        [first, rest @ ..] => match *first {
            b'-' => (true, rest),
            b'+' => (false, rest),
            _ => (false, bytes),
        },
    }
}

// The digits in front, and what follows them.
fn split_digits(bytes: &[u8]) -> (&[u8], &[u8])
    ensures cut { bytes.now ≡ result.0.now ++ result.1.now }
    ensures digits { AllDigits result.0.now }
    ensures rest { NoDigitFirst result.1.now }
{
    let mut n = 0;
    while n < bytes.len() && bytes[n].is_ascii_digit() {
        n += 1;
    }
    (&bytes[..n], &bytes[n..])
}

// The number with these digits after it, if it is below 2^63.
fn number_with(start: u64, digits: &[u8]) -> Option<u64>
    requires start { start < 2 ^ 63 }
    requires digits { AllDigits digits.now }
    ensures { SomeIff result (number_after start digits.now < 2 ^ 63) (number_after start digits.now) }
{
    let mut number = start;
    for byte in digits {
        if number > MOST / 10 {
            return None;
        }
        number = number * 10 + (*byte - b'0') as u64;
        if number > MOST {
            return None;
        }
    }
    Some(number)
}

// The number with its sign.
fn with_sign(minus: bool, number: u64) -> i64
    requires { number < 2 ^ 63 }
    ensures { result ≡ signed minus number }
{
    let number = number as i64;
    if minus { -number } else { number }
}

// Whether neither has a digit.
fn has_no_digit(whole: &[u8], decimals: &[u8]) -> bool
    ensures { result ≡ (length whole.now + length decimals.now == 0) }
{
    whole.is_empty() && decimals.is_empty()
}

// Whether all bytes are digits.
fn all_digits(bytes: &[u8]) -> bool
    ensures { result ≡ list_all is_ascii_digit bytes.now }
{
    bytes.iter().all(|byte| byte.is_ascii_digit())
}

// Whether all bytes from the fourth on are zeros.
fn fine(decimals: &[u8]) -> bool
    ensures { result ≡ list_all (λ d. d == 48) (drop 3 decimals.now) }
{
    decimals.iter().skip(3).all(|digit| *digit == b'0')
}

// The number that the digits and the first three decimals spell, if it is below 2^63.
fn number_with_three(whole: &[u8], decimals: &[u8]) -> Option<u64>
    requires whole { AllDigits whole.now }
    requires decimals { AllDigits decimals.now }
    ensures { SomeIff result (magnitude_of whole.now (Some decimals.now) < 2 ^ 63)
        (magnitude_of whole.now (Some decimals.now)) }
{
    let number = number_with(0, whole)?;
    number_with(number, &first_three(decimals))
}

// The first three decimals.
fn first_three(decimals: &[u8]) -> [u8; 3]
    ensures { result ≡ three_decimals decimals.now }
{
    [
        decimals.get(0).copied().unwrap_or(b'0'),
        decimals.get(1).copied().unwrap_or(b'0'),
        decimals.get(2).copied().unwrap_or(b'0'),
    ]
}
