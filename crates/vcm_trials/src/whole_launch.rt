//! Producers' texts that an editor launches.

use clap::Error;
use clap::error::ErrorKind;
use std::alloc::Global;
use std::fmt::Write as _;
use std::rt::Files;
use vcm_dap::Untried;
use vcm_devices::{Request, matches_of};
use vcm_job::{DebugFault, read_all};
use vcm_launch::{Opened, Opens, Unopened};
use vcm_loader::load;
use vcm_messages::{Message, message_of};
use vcm_motion::AnyPart;
use vcm_num::NoMemory;
use vcm_part::PartData;
use vcm_untried::{
    Counts, Marking, NamedFrame, Row, about_words, count_remarks, mark_remarks, untried_text,
    was_all_tried,
};
use vcm_whole_runs::{
    NOT_ALL_TRIED, Running, Selecting, choices_of, frames_named, place_of, put_reading,
    unused_name, whole_from,
};

/// Opens producers' texts among the files of a runtime, as the options of the command line say.
#[derive(Drop)]
pub(crate) struct Opener<'r, R> {
    pub(crate) rt: &'r R,
}

// A refusal, in words.
fn refused(alloc: Global, message: Message<'_>) -> Unopened {
    if let Message::NoMemory = message {
        return Unopened::NoMemory;
    }
    let mut text = String::new(alloc);
    match write!(text, "{message}") {
        Ok(()) => Unopened::Refused(text),
        Err(_) => Unopened::NoMemory,
    }
}

// A wrong option, in words.
fn refused_words(alloc: Global, error: &Error) -> Unopened {
    if error.kind() == ErrorKind::OutOfMemory {
        return Unopened::NoMemory;
    }
    refused(alloc, Message::Usage)
}

// The text of a file.
fn text_of<'a, R: Files + AllocGlobal>(rt: &R, name: &'a str) -> Result<Vec<u8>, Message<'a>> {
    let Ok(mut file) = std::fs::open(rt, name) else {
        return Err(Message::Read { name });
    };
    match read_all(rt.alloc(), &mut file) {
        Ok(bytes) => Ok(bytes),
        Err(fault) => Err(message_of(DebugFault::from(fault), name)),
    }
}

// What wasn't tried in a run of so many steps at most: how often, and at which steps.
fn tried(
    alloc: Global,
    running: &Running,
    part: &PartData,
    steps: u64,
) -> Result<(Counts, Marking), NoMemory> {
    let Ok(loaded) = load(alloc, &running.given.image) else {
        return Err(NoMemory);
    };
    let Ok(workpiece) = AnyPart::of(alloc, part) else {
        return Err(NoMemory);
    };
    let Ok(counts) = count_remarks(alloc, &workpiece, &loaded, steps, &running.remarks) else {
        return Err(NoMemory);
    };
    match mark_remarks(alloc, &workpiece, &loaded, steps, &running.remarks) {
        Ok(marking) => Ok((counts, marking)),
        Err(_) => Err(NoMemory),
    }
}

// The words for what is reported of each row.
fn words_of(alloc: Global, rows: &[Row], frames: &[NamedFrame]) -> Result<Vec<Vec<u8>>, NoMemory> {
    let mut words = Vec::new(alloc);
    for row in rows {
        words.push(about_words(alloc, row.about, frames)?)?;
    }
    Ok(words)
}

// What isn't tried, in the order of the steps.
fn untried_of(alloc: Global, rows: &[Row], marking: &Marking) -> Result<Vec<Untried>, NoMemory> {
    let mut untried = Vec::new(alloc);
    for marked in &marking.marks {
        let words = usize::try_from(place_of(rows, marked)).unwrap_or(0);
        untried.push(Untried {
            step: marked.step,
            line: marked.line,
            words,
        })?;
    }
    Ok(untried)
}

// How a text is read, as it is told; none where memory is refused.
fn reading_of(alloc: Global, request: &Request<'_, '_>, running: &Running) -> Option<Vec<u8>> {
    let mut text = String::new(alloc);
    let names = running.names.as_slice();
    put_reading(
        &mut text,
        "",
        Selecting::Part,
        &running.facts,
        names,
        request,
    )
    .ok()?;
    Some(text.into_bytes())
}

// What an editor shows of a text beside a workpiece; none where memory is refused.
fn opened(
    alloc: Global,
    request: &Request<'_, '_>,
    running: Running,
    part: &PartData,
    steps: u64,
) -> Option<Opened> {
    let notices = reading_of(alloc, request, &running)?;
    let lines = running.facts.frames.as_slice();
    let frames = frames_named(alloc, lines, running.names.as_slice()).ok()?;
    let frames = frames.as_slice();
    let (counts, marking) = tried(alloc, &running, part, steps).ok()?;
    let rows = counts.told.rows.as_slice();
    let is_whole = was_all_tried(&counts);
    Some(Opened {
        notices,
        untried: untried_of(alloc, rows, &marking).ok()?,
        words: words_of(alloc, rows, frames).ok()?,
        told: untried_text(alloc, &counts, frames).ok()?,
        status: if is_whole { 0 } else { NOT_ALL_TRIED },
        given: running.given,
    })
}

// Opens a text that is put as a program.
fn open_running(
    alloc: Global,
    request: &Request<'_, '_>,
    running: Running,
    part: &PartData,
    steps: u64,
) -> Result<Opened, Unopened> {
    if let Some(name) = unused_name(&running.facts, running.names.as_slice()) {
        let mut text = String::new(alloc);
        return match write!(text, "usage: the text never asks for {name}") {
            Ok(()) => Err(Unopened::Refused(text)),
            Err(_) => Err(Unopened::NoMemory),
        };
    }
    match opened(alloc, request, running, part, steps) {
        Some(opened) => Ok(opened),
        None => Err(Unopened::NoMemory),
    }
}

// Opens the text that a command line names.
fn open_request<R: Files + AllocGlobal>(
    rt: &R,
    request: &Request<'_, '_>,
    part: &PartData,
    steps: u64,
) -> Result<Opened, Unopened> {
    let alloc = rt.alloc();
    if let Err(message) = choices_of(alloc, request, &[], 0) {
        return Err(refused(alloc, message));
    }
    let input = request.input();
    let source = match text_of(rt, input) {
        Ok(source) => source,
        Err(message) => return Err(refused(alloc, message)),
    };
    match whole_from(alloc, request, part.bounds().tip, input, source) {
        Ok(running) => open_running(alloc, request, running, part, steps),
        Err(message) => Err(refused(alloc, message)),
    }
}

impl<R: Files + AllocGlobal> Opens for Opener<'_, R> {
    fn open(&self, words: &[String], part: &PartData, steps: u64) -> Result<Opened, Unopened> {
        let alloc = self.rt.alloc();
        let matches = match matches_of(alloc, words) {
            Ok(matches) => matches,
            Err(error) => return Err(refused_words(alloc, &error)),
        };
        match Request::of(&matches) {
            Some(request) => open_request(self.rt, &request, part, steps),
            None => Err(refused(alloc, Message::Usage)),
        }
    }
}
