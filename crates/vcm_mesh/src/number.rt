//! Numbers as a text writes them.

ghost use Rattle.std.specs.Prelude.{◌≡◌, ◌≤◌, ◌<◌, ◌+◌, ◌*◌, ◌^◌, min, length, option_map, IfSome};
ghost use Rattle.std.specs.List.{list_all};
ghost use Rattle.std.specs.Char.{is_ascii_digit};
ghost use Rattle.vcm_num.specs.Literals.{has_minus, after_sign, number_after};
ghost use Rattle.vcm_mesh.specs.Lengths.{rounded, if_not_too_far, front_digits, behind_digits, behind_point, is_exponent, shift_by, shift_of, length_of, shifted, number_of, decimal_of};
ghost use Rattle.vcm_mesh.specs.inner.Shifts.{shift_view};

use crate::fault::Misread;
use crate::length::{if_not_too_far, with_sign};

/// The most digits of a number.
const MOST_DIGITS: usize = 32;

/// What the digits are multiplied with: ten to the power `up`, over ten to the power `down`.
#[derive(Clone, Copy)]
struct Shift {
    up: usize,
    down: usize,
}

// The sign, true for a minus, and what follows it.
fn split_sign(text: &[u8]) -> (bool, &[u8])
    ensures minus { result.0 ≡ has_minus text.now }
    ensures rest { result.1.now ≡ after_sign text.now }
{
    match text {
        [] => (false, text),
        [first, rest @ ..] => match *first {
            b'-' => (true, rest),
            b'+' => (false, rest),
            _ => (false, text),
        },
    }
}

// How many digits stand in front.
fn digits_len(text: &[u8]) -> usize
    ensures value { result ≡ length (front_digits text.now) }
    ensures within { result ≤ length text.now }
{
    text.iter().take_while(|byte| byte.is_ascii_digit()).count()
}

// The digits in front, and what stands after them.
fn split_digits(text: &[u8]) -> (&[u8], &[u8])
    ensures digits { result.0.now ≡ front_digits text.now }
    ensures rest { result.1.now ≡ behind_digits text.now }
{
    text.split_at(digits_len(text))
}

// What stands after a point, if that is the first byte.
fn behind_point(text: &[u8]) -> Option<&[u8]>
    ensures { option_map (λ t. t.now) result ≡ behind_point text.now }
{
    let (first, rest) = text.split_first()?;
    if *first == b'.' { Some(rest) } else { None }
}

// The number with these digits after it, `before` of them being in it already.
fn number_after(start: u128, before: usize, digits: &[u8]) -> u128
    requires few { before + length digits.now ≤ 32 }
    requires start { start + 24 ≤ 24 * 10 ^ before }
    ensures value { result ≡ number_after start digits.now }
    ensures small { result + 24 ≤ 24 * 10 ^ (before + length digits.now) }
{
    let mut number = start;
    for digit in digits {
        number = number * 10 + u128::from(digit.saturating_sub(b'0'));
    }
    number
}

// Whether all bytes are digits.
fn are_digits(text: &[u8]) -> bool
    ensures { result ≡ list_all is_ascii_digit text.now }
{
    text.iter().all(|byte| byte.is_ascii_digit())
}

// Whether a text is an exponent: perhaps a sign, and one to four digits.
fn is_exponent(text: &[u8]) -> bool
    ensures { result ≡ is_exponent text.now }
{
    let (_, digits) = split_sign(text);
    !digits.is_empty() && digits.len() <= 4 && are_digits(digits)
}

// The number of an exponent, without its sign.
fn exponent_of(digits: &[u8]) -> usize
    requires { length digits.now ≤ 4 }
    ensures value { result ≡ number_after 0 digits.now }
    ensures small { result ≤ 240000 }
{
    number_after(0, 0, digits) as usize
}

// The shift of an exponent, so many digits standing after the point.
fn shift_by(minus: bool, exponent: usize, decimals: usize) -> Shift
    requires exponent { exponent ≤ 240000 }
    requires decimals { decimals < 2 ^ 63 }
    ensures is { shift_view result ≡ shift_by minus exponent decimals }
    ensures one { min result.up result.down ≡ 0 }
{
    if minus {
        Shift {
            up: 0,
            down: decimals + exponent,
        }
    } else {
        Shift {
            up: exponent.saturating_sub(decimals),
            down: decimals.saturating_sub(exponent),
        }
    }
}

// The shift of what stands after the digits: nothing, or `e` and an exponent.
fn shift_of(decimals: usize, text: &[u8]) -> Option<Shift>
    requires { decimals < 2 ^ 63 }
    ensures is { option_map shift_view result ≡ shift_of decimals text.now }
    ensures one { IfSome result (λ s. min s.up s.down ≡ 0) }
{
    let Some((first, rest)) = text.split_first() else {
        return Some(Shift {
            up: 0,
            down: decimals,
        });
    };
    if *first != b'e' && *first != b'E' {
        return None;
    }
    if !is_exponent(rest) {
        return None;
    }
    let (minus, digits) = split_sign(rest);
    Some(shift_by(minus, exponent_of(digits), decimals))
}

// A number times ten to a power, if it isn't too far.
fn grown(number: u128, up: usize) -> Option<u64>
    ensures is { result ≡ if_not_too_far (number * 10 ^ up) }
    ensures small { IfSome result (λ n. n ≤ 2000000000) }
{
    if number == 0 {
        return Some(0);
    }
    if number > 2_000_000_000 || up > 9 {
        return None;
    }
    if_not_too_far(number as u64 * power_of_ten(up) as u64)
}

// Ten to a power.
fn power_of_ten(exponent: usize) -> u128
    requires { exponent ≤ 38 }
    ensures { result ≡ 10 ^ exponent }
{
    10u128.pow(exponent as u32)
}

// A number over ten to a power, rounded, if it isn't too far.
fn shrunk(number: u128, down: usize) -> Option<u64>
    requires { number < 10 ^ 38 }
    ensures is { result ≡ if_not_too_far (rounded number (10 ^ down)) }
    ensures small { IfSome result (λ n. n ≤ 2000000000) }
{
    if down > 38 {
        return Some(0);
    }
    let divisor = power_of_ten(down);
    let size = (number + divisor / 2) / divisor;
    if size > 2_000_000_000 {
        return None;
    }
    Some(size as u64)
}

// The micrometres of these digits with a shift, if they aren't too far.
fn shifted(scale: u64, whole: &[u8], decimals: &[u8], shift: Shift) -> Option<u64>
    requires scale { scale ≤ 25400 }
    requires few { length whole.now + length decimals.now ≤ 32 }
    requires one { min shift.up shift.down ≡ 0 }
    ensures is { result ≡ if_not_too_far (shifted scale whole.now decimals.now (shift_view shift)) }
    ensures small { IfSome result (λ n. n ≤ 2000000000) }
{
    let front = number_after(0, 0, whole);
    let number = number_after(front, whole.len(), decimals) * u128::from(scale);
    if shift.down == 0 {
        grown(number, shift.up)
    } else {
        shrunk(number, shift.down)
    }
}

// A number of these parts.
fn length_of(
    scale: u64,
    minus: bool,
    whole: &[u8],
    decimals: &[u8],
    shift: Option<Shift>,
) -> Result<i64, Misread>
    requires scale { scale ≤ 25400 }
    requires one { IfSome shift (λ s. min s.up s.down ≡ 0) }
    ensures { result ≡ length_of scale minus whole.now decimals.now (option_map shift_view shift) }
{
    let Some(shift) = shift else {
        return Err(Misread::NotANumber);
    };
    let digits = whole.len() + decimals.len();
    if digits == 0 || digits > MOST_DIGITS {
        return Err(Misread::NotANumber);
    }
    with_sign(minus, shifted(scale, whole, decimals, shift))
}

// A number of a sign, digits and what stands after them.
fn number_of(scale: u64, minus: bool, text: &[u8]) -> Result<i64, Misread>
    requires { scale ≤ 25400 }
    ensures { result ≡ number_of scale minus (front_digits text.now) (behind_digits text.now) (behind_point (behind_digits text.now)) }
{
    let (whole, rest) = split_digits(text);
    match behind_point(rest) {
        None => length_of(scale, minus, whole, &[], shift_of(0, rest)),
        Some(behind) => {
            let (decimals, rest) = split_digits(behind);
            let shift = shift_of(decimals.len(), rest);
            length_of(scale, minus, whole, decimals, shift)
        }
    }
}

/// The micrometres that a word spells, at so many micrometres for 1.
#[tactic(auto, unfolding(crate::specs::Lengths::decimal_of))]
pub(crate) fn decimal_of(scale: u64, text: &[u8]) -> Result<i64, Misread>
    requires { scale ≤ 25400 }
    ensures { result ≡ decimal_of scale text.now }
{
    let (minus, body) = split_sign(text);
    number_of(scale, minus, body)
}
