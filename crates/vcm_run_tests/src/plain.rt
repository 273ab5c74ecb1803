//! A plain reader of images, which shares nothing with the product's: which refusal bytes are to get, by its number, or none.

use crate::plain_items::{
    byte, byte_within, count, eight, has_kind, items_of, long, name, short, text,
};
use crate::plain_parts::{PARTS, Part};
use std::alloc::Global;

// The kinds of the variables, and how many features, frames and statements there are.
#[derive(Drop)]
struct Counts {
    kinds: Vec<u8>,
    features: u32,
    frames: u32,
    statements: u32,
}

// Whether the variables of items are there, and the items have this kind.
fn judge_items(alloc: Global, items: &[(u8, u32)], counts: &Counts, want: u8) -> Result<(), u8> {
    for (tag, index) in items {
        if *tag == 4 && *index as usize >= counts.kinds.len() {
            return Err(6);
        }
    }
    if has_kind(alloc, items, counts.kinds.as_slice(), want) {
        Ok(())
    } else {
        Err(8)
    }
}

// An expression; where it is judged, of this kind.
fn expression<'a>(
    alloc: Global,
    bytes: &'a [u8],
    judged: Option<&Counts>,
    want: u8,
) -> Result<&'a [u8], u8> {
    let (number, bytes) = count(bytes, 1024)?;
    if number == 0 {
        return Err(4);
    }
    let (items, rest) = items_of(alloc, number, bytes)?;
    let answer = match judged {
        Some(counts) => judge_items(alloc, items.as_slice(), counts, want),
        None => Ok(()),
    };
    answer.map(|()| rest)
}

// A variable and its kind: of this one, where one is wanted.
fn variable<'a>(
    bytes: &'a [u8],
    judged: Option<&Counts>,
    want: Option<u8>,
) -> Result<(u8, &'a [u8]), u8> {
    let (index, rest) = short(bytes)?;
    let Some(counts) = judged else {
        return Ok((0, rest));
    };
    let kind = *counts.kinds.get(index as usize).ok_or(6)?;
    if want.is_some_and(|wanted| wanted != kind) {
        return Err(8);
    }
    Ok((kind, rest))
}

// An index of a feature, or else of a frame.
fn index<'a>(bytes: &'a [u8], judged: Option<&Counts>, is_feature: bool) -> Result<&'a [u8], u8> {
    let (index, rest) = short(bytes)?;
    match judged {
        Some(counts) if is_feature && index >= counts.features => Err(6),
        Some(counts) if !is_feature && index >= counts.frames => Err(6),
        _ => Ok(rest),
    }
}

// A target.
fn target<'a>(bytes: &'a [u8], judged: Option<&Counts>) -> Result<&'a [u8], u8> {
    let (number, rest) = long(bytes)?;
    match judged {
        Some(counts) if number >= counts.statements => Err(7),
        _ => Ok(rest),
    }
}

// How many branches there are, and a value and a target for each.
fn branches<'a>(bytes: &'a [u8], judged: Option<&Counts>) -> Result<&'a [u8], u8> {
    let (number, mut rest) = count(bytes, 20_000)?;
    for _ in 0..number {
        rest = target(eight(rest)?, judged)?;
    }
    Ok(rest)
}

// A variable, and an expression of its kind.
fn assigned<'a>(alloc: Global, bytes: &'a [u8], judged: Option<&Counts>) -> Result<&'a [u8], u8> {
    let (kind, rest) = variable(bytes, judged, None)?;
    expression(alloc, rest, judged, kind)
}

// The bytes behind a part.
fn judge_part<'a>(
    alloc: Global,
    part: Part,
    bytes: &'a [u8],
    judged: Option<&Counts>,
) -> Result<&'a [u8], u8> {
    match part {
        Part::Assigned => assigned(alloc, bytes, judged),
        Part::Branches => branches(bytes, judged),
        Part::Byte(least, most) => byte_within(bytes, least, most),
        Part::Expression(kind) => expression(alloc, bytes, judged, kind),
        Part::Feature => index(bytes, judged, true),
        Part::Frame => index(bytes, judged, false),
        Part::Target => target(bytes, judged),
        Part::Text => text(bytes),
        Part::Variable(kind) => match variable(bytes, judged, Some(kind)) {
            Ok((_, rest)) => Ok(rest),
            Err(refusal) => Err(refusal),
        },
    }
}

// The bytes behind these parts.
fn judge_parts<'a>(
    alloc: Global,
    parts: &[Part],
    bytes: &'a [u8],
    judged: Option<&Counts>,
) -> Result<&'a [u8], u8> {
    let mut rest = bytes;
    for part in parts {
        rest = judge_part(alloc, *part, rest, judged)?;
    }
    Ok(rest)
}

// The bytes behind the operands of a kind of statements.
fn operands<'a>(
    alloc: Global,
    kind: u8,
    bytes: &'a [u8],
    judged: Option<&Counts>,
) -> Result<&'a [u8], u8> {
    match PARTS.get(usize::from(kind)) {
        Some(parts) => judge_parts(alloc, parts, bytes, judged),
        None => Err(4),
    }
}

// So many statements of kinds up to the last one: whether the last statement is ENDFIL, and the bytes behind them.
fn statements<'a>(
    alloc: Global,
    number: u32,
    last_kind: u8,
    bytes: &'a [u8],
    judged: Option<&Counts>,
) -> Result<(bool, &'a [u8]), u8> {
    let mut rest = bytes;
    let mut is_end = false;
    for _ in 0..number {
        let (kind, after) = byte(rest, last_kind)?;
        let (_, after) = long(after)?;
        rest = operands(alloc, kind, after, judged)?;
        is_end = kind == 0;
    }
    Ok((is_end, rest))
}

// So many names.
fn names(number: u32, bytes: &[u8]) -> Result<&[u8], u8> {
    let mut rest = bytes;
    for _ in 0..number {
        rest = name(rest, false)?;
    }
    Ok(rest)
}

// The kinds of so many variables.
fn kinds(alloc: Global, number: u32, bytes: &[u8]) -> Result<(Vec<u8>, &[u8]), u8> {
    let mut kinds = Vec::new(alloc);
    let mut rest = bytes;
    for _ in 0..number {
        let (kind, after) = byte(rest, 2)?;
        let (_, after) = long(after)?;
        rest = name(after, true)?;
        kinds.push(kind).or(Err(0))?;
    }
    Ok((kinds, rest))
}

// How many variables, features, frames and statements there are.
#[derive(Clone, Copy)]
struct Header {
    last_kind: u8,
    variables: u32,
    features: u32,
    frames: u32,
    statements: u32,
}

// The last kind of statements of the image's version, and the bytes behind the magic bytes and the version.
fn opened(bytes: &[u8]) -> Result<(u8, &[u8]), u8> {
    let (magic, rest) = long(bytes)?;
    if magic != u32::from_le_bytes(*b"VCMI") {
        return Err(1);
    }
    match short(rest)? {
        (1, rest) => Ok((21, rest)),
        (2, rest) => Ok((26, rest)),
        _ => Err(3),
    }
}

// The header, and the bytes behind it.
fn read_header(bytes: &[u8]) -> Result<(Header, &[u8]), u8> {
    let (last_kind, rest) = opened(bytes)?;
    let (variables, rest) = count(rest, 4096)?;
    let (features, rest) = count(rest, 4096)?;
    let (frames, rest) = count(rest, 4096)?;
    let (statements, rest) = long(rest)?;
    if statements > 20_000 {
        return Err(4);
    }
    let header = Header {
        last_kind,
        variables,
        features,
        frames,
        statements,
    };
    Ok((header, rest))
}

// Whether what stands behind the variables is in order.
fn judged_behind(alloc: Global, counts: &Counts, last_kind: u8, bytes: &[u8]) -> Result<(), u8> {
    let body = names(counts.frames, names(counts.features, bytes)?)?;
    let (_, rest) = statements(alloc, counts.statements, last_kind, body, None)?;
    if !rest.is_empty() {
        return Err(5);
    }
    let (is_end, _) = statements(alloc, counts.statements, last_kind, body, Some(counts))?;
    if is_end { Ok(()) } else { Err(9) }
}

/// Whether the bytes are the image of a valid code; or else the number of the refusal that they are to get, 1 to 9.
pub(crate) fn judged(alloc: Global, bytes: &[u8]) -> Result<(), u8> {
    let (header, rest) = read_header(bytes)?;
    let (kinds, rest) = kinds(alloc, header.variables, rest)?;
    let counts = Counts {
        kinds,
        features: header.features,
        frames: header.frames,
        statements: header.statements,
    };
    judged_behind(alloc, &counts, header.last_kind, rest)
}
