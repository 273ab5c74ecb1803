//! Part files that are opened by their names.

use std::alloc::Global;
use std::rt::Files;
use vcm_job::{DebugFault, PartFileFault, read_all};
use vcm_messages::{Message, message_of};
use vcm_num::NoMemory;
use vcm_part::{PartData, PartFault, read_part};
use vcm_telling::{second_line, unused_text};

/// A part file that was read: the workpiece, and the notices of the keys that nothing uses, lines with line feeds, each behind the file's name.
#[derive(Drop)]
pub struct PartFile {
    pub part: PartData,
    pub notices: String,
}

/// Why a part file isn't taken, with a second line, if there is one.
#[derive(Drop)]
pub struct Untaken<'a> {
    pub message: Message<'a>,
    pub second: Option<String>,
}

// What no second line is told of.
fn alone<'a>(message: Message<'a>) -> Untaken<'a> {
    Untaken {
        message,
        second: None,
    }
}

// Why the bytes of a file are no part file.
fn refused<'a>(alloc: Global, name: &'a str, bytes: &[u8], fault: PartFault) -> Untaken<'a> {
    match second_line(alloc, name, bytes, fault) {
        Some(second) => Untaken {
            message: message_of(PartFileFault::Refused(fault), name),
            second: Some(second),
        },
        None => alone(Message::NoMemory),
    }
}

// The notices of the keys of a file that nothing uses.
fn notices_of(alloc: Global, name: &str, bytes: &[u8]) -> Result<String, NoMemory> {
    let keys = unused_text(alloc, bytes)?;
    let mut text = String::new(alloc);
    for line in keys.split('\n') {
        if !line.is_empty() {
            text.push_str(name)?;
            text.push_str(": ")?;
            text.push_str(line)?;
            text.push('\n')?;
        }
    }
    Ok(text)
}

// The part file of these bytes.
fn part_in<'a>(alloc: Global, name: &'a str, bytes: &[u8]) -> Result<PartFile, Untaken<'a>> {
    let part = match read_part(alloc, bytes) {
        Ok(part) => part,
        Err(fault) => return Err(refused(alloc, name, bytes, fault)),
    };
    match notices_of(alloc, name, bytes) {
        Ok(notices) => Ok(PartFile { part, notices }),
        Err(_) => Err(alone(Message::NoMemory)),
    }
}

/// The workpiece of a file.
///
/// Errors: how it is told that the file could not be read, or that it is refused.
pub fn part_of<'a, R: Files + AllocGlobal>(rt: &R, name: &'a str) -> Result<PartFile, Untaken<'a>> {
    let Ok(mut file) = std::fs::open(rt, name) else {
        return Err(alone(Message::Read { name }));
    };
    match read_all(rt.alloc(), &mut file) {
        Ok(bytes) => part_in(rt.alloc(), name, &bytes),
        Err(fault) => Err(alone(message_of(DebugFault::from(fault), name))),
    }
}
