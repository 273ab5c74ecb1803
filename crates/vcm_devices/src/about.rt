//! What a refusal of a program is about, told below it.

use crate::printing::{DASH, bytes_of, fails};
use crate::talking::{Voice, fails_in, fails_in_view};
use std::alloc::Global;
use std::rt::Files;
use vcm_diagnosis::refusal_words;
use vcm_lines::{FaultCode, SourceFault};
use vcm_messages::Message;
use vcm_num::NoMemory;

// The code that a refusal of order, names, kinds or blocks begins with.
fn code_in(words: &str) -> Option<FaultCode> {
    match words.as_bytes() {
        [b'E', b'1', b'2', ..] => Some(FaultCode::BadOrder),
        [b'E', b'1', b'3', ..] => Some(FaultCode::DuplicateName),
        [b'E', b'1', b'4', ..] => Some(FaultCode::UnknownName),
        [b'E', b'1', b'5', ..] => Some(FaultCode::BadType),
        [b'E', b'1', b'6', ..] => Some(FaultCode::Unbalanced),
        [b'E', b'1', b'7', ..] => Some(FaultCode::JumpInward),
        [b'E', b'1', b'8', ..] => Some(FaultCode::MeasBody),
        [b'E', b'1', b'9', ..] => Some(FaultCode::BadArguments),
        _ => None,
    }
}

// The refusal that is told, if it is one of order, names, kinds or blocks.
fn fault_in(message: Message<'_>) -> Option<SourceFault> {
    match message {
        Message::Source { words, line } => match code_in(words) {
            Some(code) => Some(SourceFault { code, line }),
            None => None,
        },
        _ => None,
    }
}

/// What a refusal of this text is about, in words; none where nothing more is known of it.
///
/// # Errors
///
/// Out of memory.
pub fn about_of(
    alloc: Global,
    text: &[u8],
    message: Message<'_>,
) -> Result<Option<String>, NoMemory> {
    let Some(fault) = fault_in(message) else {
        return Ok(None);
    };
    let words = refusal_words(alloc, text, fault)?;
    if words.is_empty() {
        Ok(None)
    } else {
        Ok(Some(words))
    }
}

// Tells what a refusal of this text is about, and gives this exit status, or that of want of memory.
fn tell_words<R: Eprint + AllocGlobal>(
    rt: &R,
    text: &[u8],
    message: Message<'_>,
    status: u8,
) -> u8 {
    match about_of(rt.alloc(), text, message) {
        Ok(Some(words)) => {
            let _ = eprintln!(rt; "{words}");
            status
        }
        Ok(None) => status,
        Err(NoMemory) => fails(rt, Message::NoMemory),
    }
}

/// Tells, where second lines are told, what a refusal of a file's program is about, and gives this exit status. The file is read again for
/// that; where it can't be, or memory runs out, that is told and its exit status given.
pub fn tell_about<R: Files + Input + Eprint + AllocGlobal>(
    rt: &R,
    voice: Voice,
    message: Message<'_>,
    name: &str,
    status: u8,
) -> u8 {
    if !voice.tells_more || name == DASH || fault_in(message).is_none() {
        return status;
    }
    match bytes_of(rt, name) {
        Ok(text) => tell_words(rt, &text, message, status),
        Err(message) => fails(rt, message),
    }
}

/// Tells a fault of a file's program, with the file's name if the fault is a refusal and with what it is about, and gives its exit status.
pub(crate) fn fails_about<R: Files + Input + Eprint + AllocGlobal>(
    rt: &R,
    voice: Voice,
    message: Message<'_>,
    name: &str,
) -> u8 {
    let status = fails_in(rt, voice, message, name);
    tell_about(rt, voice, message, name, status)
}

/// Tells why a view of a run isn't shown, with the input's name if that is refused and with what it is about, and gives the exit status; nothing where standard output is
/// closed.
pub fn view_fails<R: Files + Input + Eprint + AllocGlobal>(
    rt: &R,
    voice: Voice,
    message: Message<'_>,
    input: &str,
) -> u8 {
    let status = fails_in_view(rt, voice, message, input);
    tell_about(rt, voice, message, input, status)
}
