//! What is told on standard error besides a fault's code: second lines of refusals, and notices.

use crate::closing::fails_unless_closed;
use crate::printing::fails;
use crate::request::Request;
use std::alloc::Global;
use std::fmt::{self, Write as _};
use vcm_messages::{Message, notice_line};
use vcm_program::Noticed;
use vcm_telling::summary_line;
use vcm_usage::Choice;

/// Which standard devices are terminals.
#[derive(Clone, Copy)]
pub struct Terminals {
    pub input: bool,
    pub errors: bool,
}

/// How much is told on standard error.
#[derive(Clone, Copy)]
pub struct Voice {
    /// Whether refusals have a second line.
    pub tells_more: bool,
    /// Whether all notices are told in one line.
    pub is_summary: bool,
    /// Whether no notice is told.
    pub is_quiet: bool,
    /// Whether the debugger is talked to by hand.
    pub is_by_hand: bool,
    /// Whether standard error shows colours.
    pub is_painted: bool,
    /// Whether the command takes a producer's text as it stands, and wasn't asked to.
    pub may_be_whole: bool,
}

/// How much is told of what was asked for. A command that takes `--talk` tells through a pipe what it always told.
pub fn voice_of(request: &Request<'_, '_>, terminals: Terminals) -> Voice {
    let talks = request.has(Choice::Talk);
    let is_summary = terminals.errors || talks;
    Voice {
        tells_more: is_summary || !request.usage().takes(Choice::Talk),
        is_summary,
        is_quiet: request.has(Choice::Quiet),
        is_by_hand: terminals.input && terminals.errors || talks,
        is_painted: terminals.errors,
        may_be_whole: request.usage().takes(Choice::Whole) && !request.has(Choice::Whole),
    }
}

/// How much is told of a job through a pipe: what always was.
pub(crate) const OF_JOBS: Voice = Voice {
    tells_more: false,
    is_summary: false,
    is_quiet: false,
    is_by_hand: false,
    is_painted: false,
    may_be_whole: false,
};

/// A fault, with the second line that is told of it, if there is one.
#[derive(Drop)]
pub struct Told<'a> {
    pub message: Message<'a>,
    pub second: Option<String>,
}

/// A fault of which no second line is told.
pub fn alone<'a>(message: Message<'a>) -> Told<'a> {
    Told {
        message,
        second: None,
    }
}

/// Tells a fault with its second line, and gives its exit status.
pub fn fails_twice<R: Eprint>(rt: &R, told: &Told<'_>) -> u8 {
    let status = fails(rt, told.message);
    if let Some(second) = &told.second {
        let _ = eprintln!(rt; "{second}");
    }
    status
}

// Whether a text is refused for words that may be another system's.
fn has_other_words(message: Message<'_>) -> bool {
    match message {
        Message::Source { words, .. } => words.starts_with("E05") || words.starts_with("E22"),
        _ => false,
    }
}

// Whether it is told of a refusal that --whole may take the text.
fn is_whole_told(voice: Voice, message: Message<'_>) -> bool {
    voice.tells_more && voice.may_be_whole && has_other_words(message)
}

/// Tells, of a text that is refused for words that may be another system's, what takes it.
pub(crate) fn tell_of_whole<R: Eprint>(rt: &R, voice: Voice, message: Message<'_>) {
    if is_whole_told(voice, message) {
        let _ = eprintln!(rt; "--whole takes a producer's text as it stands");
    }
}

// Tells in which file a fault is, if it is a refusal.
fn tell_file<R: Eprint>(rt: &R, voice: Voice, message: Message<'_>, name: &str, status: u8) {
    if !voice.tells_more || status != 1 {
        return;
    }
    let _ = if is_whole_told(voice, message) {
        eprintln!(rt; "in {name}; --whole takes a producer's text as it stands")
    } else {
        eprintln!(rt; "in {name}")
    };
}

/// Tells a fault of a view of a run, with the input's name if the fault is a refusal, and gives its exit status; nothing where standard output is closed.
pub fn fails_in_view<R: Eprint>(rt: &R, voice: Voice, message: Message<'_>, name: &str) -> u8 {
    let status = fails_unless_closed(rt, message);
    tell_file(rt, voice, message, name, status);
    status
}

/// Tells a fault of one of several files, with the file's name if the fault is a refusal, and gives its exit status.
pub(crate) fn fails_in<R: Eprint>(rt: &R, voice: Voice, message: Message<'_>, name: &str) -> u8 {
    let status = fails(rt, message);
    tell_file(rt, voice, message, name, status);
    status
}

// The lines that have no effect, as they are printed.
fn notice_text(alloc: Global, notices: &[Noticed]) -> Result<String, fmt::Error> {
    let mut text = String::new(alloc);
    for notice in notices {
        writeln!(text, "{}", notice_line(notice))?;
    }
    Ok(text)
}

// Tells the lines that have no effect, at once where there is memory.
fn tell_each<R: Eprint + AllocGlobal>(rt: &R, notices: &[Noticed]) {
    match notice_text(rt.alloc(), notices) {
        Ok(text) => {
            let _ = eprint!(rt; "{text}");
        }
        Err(_) => {
            for notice in notices {
                let _ = eprintln!(rt; "{}", notice_line(notice));
            }
        }
    }
}

/// Tells the lines that have no effect on standard error: each of them, all in one line, or none.
pub(crate) fn tell_notices<R: Eprint + AllocGlobal>(rt: &R, voice: Voice, notices: &[Noticed]) {
    if voice.is_quiet {
        return;
    }
    if !voice.is_summary {
        tell_each(rt, notices);
        return;
    }
    match summary_line(rt.alloc(), notices) {
        Ok(text) => {
            let _ = eprint!(rt; "{text}");
        }
        Err(_) => tell_each(rt, notices),
    }
}
