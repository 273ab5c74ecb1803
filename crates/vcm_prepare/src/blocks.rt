//! Part files whose blocks cover a model.

use crate::blocks_words::{Asked, asked_of, comment_words, options_with};
use std::alloc::Global;
use std::fmt::Display;
use std::io::Read;
use std::rt::Files;
use vcm_blocks::{BlocksFault, LengthDone, ModelRefusal, Refusal, Tells, Written, write_blocks};
use vcm_devices::{
    DASH, Request, STANDARD_INPUT, Told, Voice, alone, bytes_of, fails, fails_twice,
    fails_unless_closed, part_file_of, print_bytes,
};
use vcm_mesh::{MOST_BYTES, Refusal as MeshRefusal};
use vcm_messages::{Message, Told as _};
use vcm_usage::Choice;

// How many bytes of a model are read at once.
const CHUNK: usize = 65_536;

// The bytes of the model that a reader of this name gives, at most as many as a model may have. At most one byte more is read.
fn model_in<'a, I: Read>(
    alloc: Global,
    reader: &mut I,
    name: &'a str,
) -> Result<Vec<u8>, Message<'a>> {
    let mut bytes = Vec::new(alloc);
    let mut chunk = [0; CHUNK];
    for _ in 0..=MOST_BYTES {
        let most = CHUNK.min(MOST_BYTES.saturating_add(1).saturating_sub(bytes.len()));
        let Ok(count) = reader.read(&mut chunk[..most]) else {
            return Err(Message::Read { name });
        };
        if count == 0 {
            break;
        }
        if bytes.extend_from_slice(&chunk[..count]).is_err() {
            return Err(Message::NoMemory);
        }
    }
    if bytes.len() > MOST_BYTES {
        return Err(Message::TooLong);
    }
    Ok(bytes)
}

// The bytes of a model.
fn model_of<'a, R: Files + Input + AllocGlobal>(
    rt: &R,
    name: &'a str,
) -> Result<Vec<u8>, Message<'a>> {
    if name == DASH {
        return model_in(rt.alloc(), &mut rt.reader(), STANDARD_INPUT);
    }
    match std::fs::open(rt, name) {
        Ok(mut file) => model_in(rt.alloc(), &mut file, name),
        Err(_) => Err(Message::Read { name }),
    }
}

/// What is read: the model, and the part file and the points where they are given.
#[derive(Drop)]
struct Inputs {
    part: Option<Vec<u8>>,
    model: Vec<u8>,
    points: Option<Vec<u8>>,
}

// The bytes of the part file that the blocks are added to, if there is one. It is judged.
fn base_of<'a, R: Files + Input + Eprint + AllocGlobal>(
    rt: &R,
    voice: Voice,
    request: &Request<'a, '_>,
) -> Result<Option<Vec<u8>>, Told<'a>> {
    match request.value(Choice::Into) {
        Some(name) => match part_file_of(rt, voice, name) {
            Ok(file) => Ok(Some(file.bytes)),
            Err(told) => Err(told),
        },
        None => Ok(None),
    }
}

// The bytes of the points, if they are given.
fn points_of<'a, R: Files + Input + AllocGlobal>(
    rt: &R,
    request: &Request<'a, '_>,
) -> Result<Option<Vec<u8>>, Message<'a>> {
    match request.value(Choice::Near) {
        Some(name) => match bytes_of(rt, name) {
            Ok(bytes) => Ok(Some(bytes)),
            Err(message) => Err(message),
        },
        None => Ok(None),
    }
}

// The bytes of the model, and of the points, if they are given.
fn files_of<'a, R: Files + Input + AllocGlobal>(
    rt: &R,
    request: &Request<'a, '_>,
) -> Result<(Vec<u8>, Option<Vec<u8>>), Message<'a>> {
    let model = model_of(rt, request.input())?;
    let points = points_of(rt, request)?;
    Ok((model, points))
}

// What is read: the part file is judged before the others are opened.
fn inputs_of<'a, R: Files + Input + Eprint + AllocGlobal>(
    rt: &R,
    voice: Voice,
    request: &Request<'a, '_>,
) -> Result<Inputs, Told<'a>> {
    let part = base_of(rt, voice, request)?;
    match files_of(rt, request) {
        Ok((model, points)) => Ok(Inputs {
            part,
            model,
            points,
        }),
        Err(message) => Err(alone(message)),
    }
}

/// Reports each length on standard error as it is done, where more is reported.
#[derive(Clone, Copy)]
struct Lengths<'a, R: Eprint> {
    rt: &'a R,
    is_told: bool,
}

impl<R: Eprint> Tells for Lengths<'_, R> {
    fn tell(&mut self, done: &LengthDone) {
        if self.is_told {
            let done = *done;
            let _ = eprintln!(self.rt; "{done}");
        }
    }
}

// Reports a refusal, and where several files are read, which one is refused; and gives the exit status.
fn refuse<R: Eprint, D: Display + Drop>(
    rt: &R,
    request: &Request<'_, '_>,
    refusal: D,
    name: &str,
) -> u8 {
    let _ = eprintln!(rt; "{refusal}");
    let is_alone = request.value(Choice::Into).is_none() && request.value(Choice::Near).is_none();
    if !is_alone {
        let _ = eprintln!(rt; "in {name}");
    }
    1
}

// The file that a refusal speaks of.
fn file_refused<'a>(request: &Request<'a, '_>, refusal: Refusal) -> &'a str {
    let file = match refusal {
        Refusal::NotAdded | Refusal::HomeInModel => request.value(Choice::Into),
        Refusal::NoPoints(_) => request.value(Choice::Near),
        _ => None,
    };
    file.unwrap_or(request.input())
}

// Reports why no part file is written, and gives the exit status.
fn tell_fault<R: Eprint>(rt: &R, request: &Request<'_, '_>, fault: BlocksFault) -> u8 {
    match fault {
        BlocksFault::NoMemory => fails(rt, Message::NoMemory),
        BlocksFault::Part(fault) => fails(rt, fault.told()),
        BlocksFault::Model(MeshRefusal::TooLong) => fails(rt, Message::TooLong),
        BlocksFault::Model(refusal) => refuse(rt, request, ModelRefusal(refusal), request.input()),
        BlocksFault::Refused(refusal) => {
            refuse(rt, request, refusal, file_refused(request, refusal))
        }
    }
}

// Reports what was found of a model, its notices only where they are wanted.
fn tell_found<R: Eprint>(rt: &R, voice: Voice, told: &str) {
    for line in told.lines() {
        if !(voice.is_quiet && line.starts_with("notice ")) {
            let _ = eprintln!(rt; "{line}");
        }
    }
}

// Prints a part file, reports what was found, and gives the exit status.
fn show_written<R: Print + Eprint + AllocGlobal>(rt: &R, voice: Voice, written: &Written) -> u8 {
    match print_bytes(rt, written.text.as_bytes()) {
        Ok(()) => {
            tell_found(rt, voice, &written.told);
            0
        }
        Err(message) => fails_unless_closed(rt, message),
    }
}

// Writes the part file of what was read, and gives the exit status.
fn blocks_with<R: Print + Eprint + AllocGlobal>(
    rt: &R,
    voice: Voice,
    request: &Request<'_, '_>,
    asked: &Asked<'_>,
    words: &[&str],
    inputs: &Inputs,
) -> u8 {
    let options = options_with(asked, words);
    let mut lengths = Lengths {
        rt,
        is_told: voice.is_summary,
    };
    let (part, points) = (inputs.part.as_deref(), inputs.points.as_deref());
    match write_blocks(
        rt.alloc(),
        &inputs.model,
        part,
        points,
        &options,
        &mut lengths,
    ) {
        Ok(written) => show_written(rt, voice, &written),
        Err(fault) => tell_fault(rt, request, fault),
    }
}

// How much is reported: of a refused file as much as of any command, whether or not each length is.
fn voice_with(voice: Voice) -> Voice {
    Voice {
        tells_more: true,
        is_summary: voice.is_summary,
        is_quiet: voice.is_quiet,
        is_by_hand: voice.is_by_hand,
        is_painted: voice.is_painted,
        may_be_whole: voice.may_be_whole,
    }
}

/// Prints the part file whose blocks cover a model, reports what was found, and gives the exit status: 1 where the part file, the model or something else is
/// refused, 2 for a wrong option, 5 and 6 for want of memory and a device. The words are those of the command line after the command.
pub fn blocks_file<R: Files + Input + Print + Eprint + AllocGlobal>(
    rt: &R,
    voice: Voice,
    request: &Request<'_, '_>,
    words: &[String],
) -> u8 {
    let voice = voice_with(voice);
    let Ok(words) = comment_words(rt.alloc(), request.usage(), words) else {
        return fails(rt, Message::NoMemory);
    };
    let asked = match asked_of(request) {
        Ok(asked) => asked,
        Err(message) => return fails(rt, message),
    };
    match inputs_of(rt, voice, request) {
        Ok(inputs) => blocks_with(rt, voice, request, &asked, &words, &inputs),
        Err(told) => fails_twice(rt, &told),
    }
}
