//! All faults of a text, as they are told.

use crate::doubts::{Doubt, of_unread};
use crate::judging::{Diagnosis, MOST_FAULTS, faults_in, find_all};
use crate::words::code_words;
use std::alloc::Global;
use vcm_lines::{FaultCode, SourceFault};
use vcm_num::{NoMemory, whole_line, write_int};
use vcm_sentences::{Sentence, sentences_of};

// The lines of a text, each with its line feed.
fn whole_lines(alloc: Global, text: &[u8]) -> Result<Vec<&[u8]>, NoMemory> {
    let mut lines = Vec::new(alloc);
    let mut rest = text;
    'lines: while !rest.is_empty() {
        let (line, after) = whole_line(rest);
        lines.push(line)?;
        rest = after;
    }
    Ok(lines)
}

// How many line feeds bytes have.
fn feeds(bytes: &[u8]) -> u32 {
    let mut count: u32 = 0;
    for byte in bytes {
        if *byte == b'\n' {
            count = count.saturating_add(1);
        }
    }
    count
}

// Appends so many line feeds.
fn put_feeds(count: u32, out: &mut Vec<u8>) -> Result<(), NoMemory> {
    for _ in 0..count {
        out.push(b'\n')?;
    }
    Ok(())
}

// A text of statements on their lines, those left out that have a fault.
fn readable(alloc: Global, sentences: &[Sentence]) -> Result<Vec<u8>, NoMemory> {
    let mut out = Vec::new(alloc);
    let mut line: u32 = 1;
    for sentence in sentences {
        put_feeds(sentence.line.saturating_sub(line), &mut out)?;
        let count = feeds(sentence.lines.as_slice());
        if sentence.fault.is_none() {
            out.extend_from_slice(sentence.lines.as_slice())?;
        } else {
            put_feeds(count, &mut out)?;
        }
        line = sentence.line.saturating_add(count);
    }
    Ok(out)
}

// What the statements may have done that can't be read.
fn doubts(alloc: Global, sentences: &[Sentence]) -> Result<Vec<Doubt>, NoMemory> {
    let mut all = Vec::new(alloc);
    for sentence in sentences {
        if sentence.fault.is_some() {
            all.push(of_unread(sentence))?;
        }
    }
    Ok(all)
}

// The faults of order, names, kinds and blocks of a text, in which these lines and statements can't be read.
fn others(alloc: Global, text: &[u8], faults: &[SourceFault]) -> Result<Vec<Diagnosis>, NoMemory> {
    if faults.is_empty() {
        return Ok(faults_in(alloc, text)?.told);
    }
    if faults
        .iter()
        .any(|fault| fault.code == FaultCode::TooManyLines)
    {
        return Ok(Vec::new(alloc));
    }
    let found = sentences_of(alloc, text)?;
    let rest = readable(alloc, found.items.as_slice())?;
    let doubts = doubts(alloc, found.items.as_slice())?;
    drop(found);
    Ok(find_all(alloc, rest.as_slice(), doubts)?.told)
}

// The line with this number, without the blanks around it.
fn line_at<'a>(lines: &[&'a [u8]], number: u32) -> &'a [u8] {
    match lines.get((number as usize).saturating_sub(1)) {
        Some(line) => line.trim_ascii(),
        None => &[],
    }
}

// Appends the line that tells a fault, and the line that it is at.
fn put_fault(
    front: &[u8],
    lines: &[&[u8]],
    fault: SourceFault,
    out: &mut Vec<u8>,
) -> Result<(), NoMemory> {
    if !front.is_empty() {
        out.extend_from_slice(front)?;
        out.extend_from_slice(b": ")?;
    }
    out.extend_from_slice(code_words(fault.code).as_bytes())?;
    out.extend_from_slice(b" line ")?;
    write_int(i64::from(fault.line), out)?;
    out.extend_from_slice(b"\n  ")?;
    out.extend_from_slice(line_at(lines, fault.line))?;
    out.extend_from_slice(b"\n")?;
    Ok(())
}

// Appends what a fault is about, if that is known.
fn put_words(words: &[u8], out: &mut Vec<u8>) -> Result<(), NoMemory> {
    if !words.is_empty() {
        out.extend_from_slice(b"  ")?;
        out.extend_from_slice(words)?;
        out.extend_from_slice(b"\n")?;
    }
    Ok(())
}

// The places of faults in the order of lines, those of lines and statements first, with the numbers of their lines.
fn ordered(
    alloc: Global,
    faults: &[SourceFault],
    others: &[Diagnosis],
) -> Result<Vec<(u32, usize)>, NoMemory> {
    let mut places = Vec::new(alloc);
    let mut place: usize = 0;
    for fault in faults {
        places.push((fault.line, place))?;
        place = place.saturating_add(1);
    }
    for other in others {
        places.push((other.fault.line, place))?;
        place = place.saturating_add(1);
    }
    places.sort_unstable();
    Ok(places)
}

// Appends the fault of a place, or what it is about.
fn put_place(
    front: &[u8],
    lines: &[&[u8]],
    faults: &[SourceFault],
    others: &[Diagnosis],
    place: usize,
    out: &mut Vec<u8>,
) -> Result<(), NoMemory> {
    if let Some(fault) = faults.get(place) {
        return put_fault(front, lines, *fault, out);
    }
    match others.get(place.saturating_sub(faults.len())) {
        Some(other) => {
            put_fault(front, lines, other.fault, out)?;
            put_words(other.words.as_bytes(), out)
        }
        None => Ok(()),
    }
}

/// All faults of a text, in the order of lines: these, of lines and statements, and those of order, names, kinds and blocks of what could be read. Each has a line of
/// its own behind this name if there is one, the line that it is at, and what it is about.
///
/// # Errors
///
/// Out of memory.
pub fn all_told(
    alloc: Global,
    front: &[u8],
    text: &[u8],
    faults: &[SourceFault],
) -> Result<Vec<u8>, NoMemory> {
    let lines = whole_lines(alloc, text)?;
    let others = others(alloc, text, faults)?;
    let others = others.as_slice();
    let mut out = Vec::new(alloc);
    for (_, place) in ordered(alloc, faults, others)? {
        put_place(front, lines.as_slice(), faults, others, place, &mut out)?;
    }
    if others.len() >= MOST_FAULTS {
        out.extend_from_slice(b"more faults of names and blocks may follow\n")?;
    }
    Ok(out)
}
