//! Part files: the workpiece, what is told of a refused one, and `vcm part`.

use crate::closing::fails_unless_closed;
use crate::printing::{bytes_of, print_bytes};
use crate::request::Request;
use crate::talking::{Told, Voice, alone, fails_twice};
use std::alloc::Global;
use std::rt::Files;
use vcm_blocks::shift_word;
use vcm_job::PartFileFault;
use vcm_keys::{block_fixtures, block_names};
use vcm_messages::{Message, message_of};
use vcm_num::{NoMemory, Point};
use vcm_part::{PartCode, PartData, PartFault, read_part};
use vcm_place::place_part;
use vcm_telling::{part_text, second_line, unused_text};
use vcm_usage::Choice;

// Why a part file is refused; want of memory where there is none for the second line.
fn refused<'a>(
    alloc: Global,
    voice: Voice,
    name: &'a str,
    bytes: &[u8],
    fault: PartFault,
) -> Told<'a> {
    let message = message_of(PartFileFault::Refused(fault), name);
    if !voice.tells_more {
        return alone(message);
    }
    match second_line(alloc, name, bytes, fault) {
        None => alone(Message::NoMemory),
        second => Told { message, second },
    }
}

// The workpiece of the bytes of a file.
fn part_in<'a>(
    alloc: Global,
    voice: Voice,
    name: &'a str,
    bytes: &[u8],
) -> Result<PartData, Told<'a>> {
    match read_part(alloc, bytes) {
        Ok(part) => Ok(part),
        Err(fault) => Err(refused(alloc, voice, name, bytes, fault)),
    }
}

// Tells notices of keys, a line each, behind the file's name.
fn tell_keys<R: Eprint>(rt: &R, name: &str, text: &str) {
    for line in text.split('\n') {
        if !line.is_empty() {
            let _ = eprintln!(rt; "{name}: {line}");
        }
    }
}

/// Tells the keys of a part file that nothing uses, each behind the file's name; nothing where a command tells no more than it always told.
///
/// Errors: want of memory; then nothing is told.
pub(crate) fn tell_unused<R: Eprint + AllocGlobal>(
    rt: &R,
    voice: Voice,
    name: &str,
    bytes: &[u8],
) -> Result<(), NoMemory> {
    if !voice.tells_more || voice.is_quiet {
        return Ok(());
    }
    let text = unused_text(rt.alloc(), bytes)?;
    tell_keys(rt, name, &text);
    Ok(())
}

// The workpiece of the bytes of a file, whose keys that nothing uses are told, or why it isn't read.
fn told_part<'a, R: Eprint + AllocGlobal>(
    rt: &R,
    voice: Voice,
    name: &'a str,
    bytes: &[u8],
) -> Result<PartData, Told<'a>> {
    let part = part_in(rt.alloc(), voice, name, bytes)?;
    match tell_unused(rt, voice, name, bytes) {
        Ok(()) => Ok(part),
        Err(_) => Err(alone(Message::NoMemory)),
    }
}

/// A part file that was read: its bytes, and the workpiece.
#[derive(Drop)]
pub struct PartFile {
    pub bytes: Vec<u8>,
    pub part: PartData,
}

/// A part file, whose keys that nothing uses are told, or why it isn't read.
pub fn part_file_of<'a, R: Files + Input + Eprint + AllocGlobal>(
    rt: &R,
    voice: Voice,
    name: &'a str,
) -> Result<PartFile, Told<'a>> {
    let bytes = match bytes_of(rt, name) {
        Ok(bytes) => bytes,
        Err(message) => return Err(alone(message)),
    };
    match told_part(rt, voice, name, &bytes) {
        Ok(part) => Ok(PartFile { bytes, part }),
        Err(told) => Err(told),
    }
}

/// The workpiece of a file, whose keys that nothing uses are told, or why it isn't read.
pub fn part_of<'a, R: Files + Input + Eprint + AllocGlobal>(
    rt: &R,
    voice: Voice,
    name: &'a str,
) -> Result<PartData, Told<'a>> {
    match part_file_of(rt, voice, name) {
        Ok(file) => Ok(file.part),
        Err(told) => Err(told),
    }
}

const PLACE: Message<'static> = Message::Option {
    words: "--place wants X,Y,Z in millimetres, with three decimals at most",
};

const STRICT: Message<'static> = Message::Part {
    words: "--strict refuses a part file with keys that nothing uses",
};

// How far a workpiece lies off its place, as a command line says: the word, and that in micrometres.
#[derive(Clone, Copy)]
struct Off<'a> {
    word: &'a str,
    by: Point,
}

// The same, if it says so.
fn off_of<'a>(request: &Request<'a, '_>) -> Result<Option<Off<'a>>, Message<'static>> {
    if !request.usage().takes(Choice::Place) {
        return Ok(None);
    }
    let Some(word) = request.value(Choice::Place) else {
        return Ok(None);
    };
    match shift_word(word.as_bytes()) {
        Some(by) if by.is_near() => Ok(Some(Off { word, by })),
        _ => Err(PLACE),
    }
}

// The line that tells at which place a workpiece is refused.
fn place_line(alloc: Global, word: &str) -> Option<String> {
    let mut line = String::new(alloc);
    line.push_str("at place ").ok()?;
    line.push_str(word).ok()?;
    Some(line)
}

/// The workpiece of a part file with its blocks moved by a length in micrometres along each axis, which is at most a kilometre; those of the fixture stay.
///
/// Errors: see `place_part`.
pub fn moved_part(alloc: Global, file: &PartFile, by: Point) -> Result<PartData, PartFault> {
    if !by.is_near() {
        return Err(PartFault {
            code: PartCode::OutOfRange,
            block: 0,
        });
    }
    match block_fixtures(alloc, &file.bytes) {
        Ok(fixtures) => place_part(alloc, &file.part, fixtures.as_slice(), by),
        Err(_) => Err(PartFault {
            code: PartCode::NoMemory,
            block: 0,
        }),
    }
}

// A part file whose workpiece lies off its place.
fn moved_file<'a>(
    alloc: Global,
    name: &'a str,
    file: PartFile,
    off: Off<'_>,
) -> Result<PartFile, Told<'a>> {
    let moved = moved_part(alloc, &file, off.by);
    let PartFile { bytes, part } = file;
    drop(part);
    match moved {
        Ok(part) => Ok(PartFile { bytes, part }),
        Err(fault) => Err(Told {
            message: message_of(PartFileFault::Refused(fault), name),
            second: place_line(alloc, off.word),
        }),
    }
}

// Refuses a part file with keys that nothing uses, where a command line says so; they are told first.
fn strict_fault<R: Eprint + AllocGlobal>(
    rt: &R,
    request: &Request<'_, '_>,
    name: &str,
    bytes: &[u8],
) -> Option<Message<'static>> {
    if !request.has(Choice::Strict) {
        return None;
    }
    match unused_text(rt.alloc(), bytes) {
        Ok(text) if text.is_empty() => None,
        Ok(text) => {
            tell_keys(rt, name, &text);
            Some(STRICT)
        }
        Err(_) => Some(Message::NoMemory),
    }
}

/// The part file of a command line, whose keys that nothing uses are told, at the place that it says, or why it isn't taken. How it is placed is judged first.
pub fn part_file_given<'a, R: Files + Input + Eprint + AllocGlobal>(
    rt: &R,
    voice: Voice,
    request: &Request<'_, '_>,
    name: &'a str,
) -> Result<PartFile, Told<'a>> {
    let off = match off_of(request) {
        Ok(off) => off,
        Err(message) => return Err(alone(message)),
    };
    let is_strict = request.has(Choice::Strict);
    let heard = Voice {
        is_quiet: voice.is_quiet || is_strict,
        ..voice
    };
    let file = part_file_of(rt, heard, name)?;
    if let Some(message) = strict_fault(rt, request, name, &file.bytes) {
        drop(file);
        return Err(alone(message));
    }
    match off {
        Some(off) => moved_file(rt.alloc(), name, file, off),
        None => Ok(file),
    }
}

/// The workpiece of a command line likewise.
pub(crate) fn part_given<'a, R: Files + Input + Eprint + AllocGlobal>(
    rt: &R,
    voice: Voice,
    request: &Request<'a, '_>,
) -> Result<PartData, Told<'a>> {
    match part_file_given(rt, voice, request, request.part()) {
        Ok(file) => Ok(file.part),
        Err(told) => Err(told),
    }
}

/// The same, with the names of its blocks, each empty where a block has none.
pub(crate) fn named_part_given<'a, R: Files + Input + Eprint + AllocGlobal>(
    rt: &R,
    voice: Voice,
    request: &Request<'a, '_>,
) -> Result<(PartData, Vec<Vec<u8>>), Told<'a>> {
    let file = part_file_given(rt, voice, request, request.part())?;
    match block_names(rt.alloc(), &file.bytes) {
        Ok(names) => Ok((file.part, names)),
        Err(_) => Err(alone(Message::NoMemory)),
    }
}

// What is printed of a workpiece, and its notices.
fn texts_of(alloc: Global, part: &PartData, bytes: &[u8]) -> Result<(String, String), NoMemory> {
    let text = part_text(alloc, part, bytes)?;
    let notices = unused_text(alloc, bytes)?;
    Ok((text, notices))
}

// Prints the workpiece of a file and tells the keys that nothing uses, and gives the exit status.
fn show_file<R: Print + Eprint + AllocGlobal>(rt: &R, voice: Voice, file: PartFile) -> u8 {
    let texts = texts_of(rt.alloc(), &file.part, &file.bytes);
    drop(file);
    let Ok((text, notices)) = texts else {
        return fails_unless_closed(rt, Message::NoMemory);
    };
    if let Err(message) = print_bytes(rt, text.as_bytes()) {
        return fails_unless_closed(rt, message);
    }
    if !voice.is_quiet {
        let _ = eprint!(rt; "{notices}");
    }
    0
}

/// Prints the workpiece of a file as it was read, at the place that the command line says, tells the keys that nothing uses, and gives the exit status.
pub fn show_part<R: Files + Input + Print + Eprint + AllocGlobal>(
    rt: &R,
    voice: Voice,
    request: &Request<'_, '_>,
) -> u8 {
    let heard = Voice {
        is_quiet: true,
        ..voice
    };
    match part_file_given(rt, heard, request, request.input()) {
        Ok(file) => show_file(rt, voice, file),
        Err(told) => fails_twice(rt, &told),
    }
}
