//! Bytes, numbers, names and items, as the plain reader of images reads them.

use std::alloc::Global;

// A byte of at most this.
pub(crate) fn byte(bytes: &[u8], most: u8) -> Result<(u8, &[u8]), u8> {
    match bytes {
        [] => Err(2),
        [first, ..] if *first > most => Err(4),
        [first, rest @ ..] => Ok((*first, rest)),
    }
}

// A byte from one number to another.
pub(crate) fn byte_within(bytes: &[u8], least: u8, most: u8) -> Result<&[u8], u8> {
    match byte(bytes, most) {
        Ok((found, _)) if found < least => Err(4),
        Ok((_, rest)) => Ok(rest),
        Err(refusal) => Err(refusal),
    }
}

// A number of two bytes.
pub(crate) fn short(bytes: &[u8]) -> Result<(u32, &[u8]), u8> {
    match bytes {
        [a, b, rest @ ..] => Ok((u32::from(*a) | u32::from(*b) << 8, rest)),
        _ => Err(2),
    }
}

// A number of four bytes.
pub(crate) fn long(bytes: &[u8]) -> Result<(u32, &[u8]), u8> {
    let (low, rest) = short(bytes)?;
    let (high, rest) = short(rest)?;
    Ok((low | high << 16, rest))
}

// Eight bytes, of any value.
pub(crate) fn eight(bytes: &[u8]) -> Result<&[u8], u8> {
    bytes.get(8..).ok_or(2)
}

// A count of at most this.
pub(crate) fn count(bytes: &[u8], most: u32) -> Result<(u32, &[u8]), u8> {
    let (number, rest) = short(bytes)?;
    if number > most {
        Err(4)
    } else {
        Ok((number, rest))
    }
}

// A name, of a variable or another.
pub(crate) fn name(bytes: &[u8], is_variable: bool) -> Result<&[u8], u8> {
    let (length, rest) = byte(bytes, 16)?;
    if length == 0 {
        return Err(4);
    }
    if rest.len() < usize::from(length) {
        return Err(2);
    }
    let (front, rest) = rest.split_at(usize::from(length));
    for (i, b) in front.iter().enumerate() {
        let is_letter = b.is_ascii_uppercase();
        if !is_letter && (is_variable && i == 0 || !b.is_ascii_digit() && *b != b'_') {
            return Err(4);
        }
    }
    Ok(rest)
}

// A text.
pub(crate) fn text(bytes: &[u8]) -> Result<&[u8], u8> {
    let (length, rest) = count(bytes, 1024)?;
    if rest.len() < length as usize {
        return Err(2);
    }
    let (front, rest) = rest.split_at(length as usize);
    for b in front {
        if *b != 9 && (*b < 32 || *b == 39 || *b == 127) {
            return Err(4);
        }
    }
    Ok(rest)
}

// An item: its tag, and its index where it is a variable.
fn item(bytes: &[u8]) -> Result<((u8, u32), &[u8]), u8> {
    let (tag, rest) = byte(bytes, 255)?;
    match tag {
        1 | 2 => Ok(((tag, 0), eight(rest)?)),
        3 => {
            let (_, rest) = byte(rest, 1)?;
            Ok(((tag, 0), rest))
        }
        4 => {
            let (index, rest) = short(rest)?;
            Ok(((tag, index), rest))
        }
        16..22 | 32..38 | 48..51 => Ok(((tag, 0), rest)),
        _ => Err(4),
    }
}

// The kind of two values joined by an operator, if it takes them.
fn joined(tag: u8, a: u8, b: u8) -> Option<u8> {
    match (tag, a, b) {
        (17 | 18, 0, 0) | (17 | 18, 1, 1) => Some(a),
        (19 | 20, 0, 0) => Some(0),
        (19, 0, 1) | (19, 1, 0) | (20, 1, 0) => Some(1),
        (32..38, 0, 0) | (32..38, 1, 1) => Some(2),
        (49 | 50, 2, 2) => Some(2),
        _ => None,
    }
}

// What an item makes of the stack of kinds; none where it may not.
fn step(stack: &mut Vec<u8>, kinds: &[u8], tag: u8, index: u32) -> Option<()> {
    let kind = match tag {
        1 => 0,
        2 => 1,
        3 => 2,
        4 => *kinds.get(index as usize)?,
        16 => match stack.pop()? {
            2 => return None,
            kind => kind,
        },
        21 => match stack.pop()? {
            0 => 1,
            _ => return None,
        },
        48 => match stack.pop()? {
            2 => 2,
            _ => return None,
        },
        _ => {
            let b = stack.pop()?;
            let a = stack.pop()?;
            joined(tag, a, b)?
        }
    };
    if stack.len() >= 32 {
        return None;
    }
    stack.push(kind).ok()
}

// Whether the items have a kind.
pub(crate) fn has_kind(alloc: Global, items: &[(u8, u32)], kinds: &[u8], want: u8) -> bool {
    let mut stack = Vec::new(alloc);
    for (tag, index) in items {
        if step(&mut stack, kinds, *tag, *index).is_none() {
            return false;
        }
    }
    stack.as_slice() == [want].as_slice()
}

// So many items.
pub(crate) fn items_of(
    alloc: Global,
    number: u32,
    bytes: &[u8],
) -> Result<(Vec<(u8, u32)>, &[u8]), u8> {
    let mut items = Vec::new(alloc);
    let mut rest = bytes;
    for _ in 0..number {
        let (found, after) = item(rest)?;
        items.push(found).or(Err(0))?;
        rest = after;
    }
    Ok((items, rest))
}
