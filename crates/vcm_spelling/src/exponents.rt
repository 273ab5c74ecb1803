//! Numbers with exponents.

use std::alloc::Global;
use vcm_num::NoMemory;
use vcm_sentences::{is_name_byte, piece};

// The most places that an exponent may shift a point by.
const MOST: i64 = 40;

// A number with an exponent: where its digits begin and end, where it ends, and how many digits stand in front of the point that it means.
#[derive(Clone, Copy)]
struct Scaled {
    from: usize,
    to: usize,
    end: usize,
    whole: i64,
}

// The byte at a place, a blank where there is none.
fn byte_at(bytes: &[u8], at: usize) -> u8 {
    bytes.get(at).copied().unwrap_or(b' ')
}

// The place of the first byte from this one on that is no digit.
fn behind_digits(bytes: &[u8], at: usize) -> usize {
    let rest = piece(bytes, at, bytes.len());
    let count = rest
        .iter()
        .position(|byte| !byte.is_ascii_digit())
        .unwrap_or(rest.len());
    at.saturating_add(count)
}

// A whole number of three digits at most.
fn small_number(digits: &[u8]) -> Option<i64> {
    let mut value = 0i64;
    for byte in digits.iter().take(4) {
        value = value
            .saturating_mul(10)
            .saturating_add(i64::from(byte.wrapping_sub(b'0')));
    }
    if digits.is_empty() || digits.len() > 3 {
        None
    } else {
        Some(value)
    }
}

// The exponent at a place behind its letter, and where it ends.
fn exponent_at(bytes: &[u8], at: usize) -> Option<(i64, usize)> {
    let sign = byte_at(bytes, at);
    let is_signed = sign == b'-' || sign == b'+';
    let from = if is_signed { at.saturating_add(1) } else { at };
    let end = behind_digits(bytes, from);
    let value = small_number(piece(bytes, from, end))?;
    if value > MOST || is_name_byte(byte_at(bytes, end)) {
        return None;
    }
    Some((
        if sign == b'-' {
            value.saturating_neg()
        } else {
            value
        },
        end,
    ))
}

// The number with an exponent that begins at a place.
fn scaled_at(bytes: &[u8], from: usize) -> Option<Scaled> {
    let point = behind_digits(bytes, from);
    let to = if byte_at(bytes, point) == b'.' {
        behind_digits(bytes, point.saturating_add(1))
    } else {
        point
    };
    if byte_at(bytes, to) != b'E' || to.saturating_sub(from) > 60 {
        return None;
    }
    let (exponent, end) = exponent_at(bytes, to.saturating_add(1))?;
    let before = i64::try_from(point.saturating_sub(from)).unwrap_or(0);
    Some(Scaled {
        from,
        to,
        end,
        whole: before.saturating_add(exponent),
    })
}

// Appends zeros.
fn put_zeros(count: i64, out: &mut Vec<u8>) -> Result<(), NoMemory> {
    for _ in 0..count.max(0) {
        out.push(b'0')?;
    }
    Ok(())
}

// Appends the digits of a number with its point where the exponent says.
fn put_scaled(bytes: &[u8], number: Scaled, out: &mut Vec<u8>) -> Result<(), NoMemory> {
    let mut left = number.whole;
    let mut has_some = false;
    if left <= 0 {
        out.extend_from_slice(b"0.")?;
        put_zeros(left.saturating_neg(), out)?;
        has_some = true;
        left = i64::MAX;
    }
    for digit in piece(bytes, number.from, number.to) {
        if *digit == b'.' {
            continue;
        }
        if left == 0 {
            out.push(b'.')?;
        }
        left = left.saturating_sub(1);
        has_some = has_some || *digit != b'0' || left <= 0;
        if has_some {
            out.push(*digit)?;
        }
    }
    if !has_some {
        return out.push(b'0').map_err(NoMemory::from);
    }
    if left < MOST.saturating_mul(2) {
        put_zeros(left, out)?;
    }
    Ok(())
}

// Where a name, a text or a label ends that begins at a place; the next place where none does.
fn behind_word(bytes: &[u8], at: usize) -> usize {
    let first = byte_at(bytes, at);
    let next = at.saturating_add(1);
    let rest = piece(bytes, next, bytes.len());
    let length = if first == b'\'' {
        rest.iter()
            .position(|byte| *byte == b'\'')
            .map(|end| end.saturating_add(1))
    } else if first == b'(' && is_name_byte(byte_at(bytes, at.wrapping_sub(1))) {
        rest.iter().position(|byte| *byte == b')')
    } else if is_name_byte(first) {
        rest.iter()
            .position(|byte| !is_name_byte(*byte))
            .or(Some(rest.len()))
    } else {
        Some(0)
    };
    next.saturating_add(length.unwrap_or(rest.len()))
}

// Whether a number may begin at a place.
fn begins_number(bytes: &[u8], at: usize) -> bool {
    let first = byte_at(bytes, at);
    let is_behind_name = is_name_byte(byte_at(bytes, at.wrapping_sub(1)));
    first.is_ascii_digit()
        || first == b'.' && !is_behind_name && byte_at(bytes, at.saturating_add(1)).is_ascii_digit()
}

// Whether an exponent may stand somewhere in the bytes.
fn may_have_exponent(bytes: &[u8]) -> bool {
    bytes.windows(2).any(|pair| match pair {
        [first, b'E'] => first.is_ascii_digit() || *first == b'.',
        _ => false,
    })
}

// The statement with its numbers spelled out, and whether one had an exponent.
fn spelled(bytes: &[u8], out: &mut Vec<u8>) -> Result<bool, NoMemory> {
    let mut has_any = false;
    let mut at = 0usize;
    for _ in 0..bytes.len() {
        if at >= bytes.len() {
            break;
        }
        let number = if begins_number(bytes, at) {
            scaled_at(bytes, at)
        } else {
            None
        };
        match number {
            Some(number) => {
                put_scaled(bytes, number, out)?;
                has_any = true;
                at = number.end;
            }
            None => {
                let end = behind_word(bytes, at);
                out.extend_from_slice(piece(bytes, at, end))?;
                at = end;
            }
        }
    }
    Ok(has_any)
}

/// A statement whose numbers with exponents are spelled out, digit by digit; nothing where it has none.
pub fn spelled_out(alloc: Global, bytes: &[u8]) -> Result<Vec<u8>, NoMemory> {
    let mut out = Vec::new(alloc);
    if may_have_exponent(bytes) && !spelled(bytes, &mut out)? {
        out.clear();
    }
    Ok(out)
}
