//! What is shown of a run: its views, on the standard devices.

use crate::about::view_fails;
use crate::parts::{named_part_given, part_given};
use crate::printing::{DASH, STANDARD_INPUT, bytes_of, fails, output, status_after, written};
use crate::remarking::remarks_text;
use crate::request::Request;
use crate::talking::{Told, Voice, alone, fails_in, fails_twice, tell_notices};
use crate::view::{View, write_view};
use std::alloc::Global;
use std::io::Read;
use std::rt::Files;
use vcm_boxes::{Boxes, BoxesFault, read_boxes};
use vcm_job::{Done, Given, ReadFault, RunFault, given_of, read_all, show};
use vcm_messages::{Message, message_of, probe_message};
use vcm_part::PartData;
use vcm_usage::Choice;
use vcm_views::{AllContacts, Points, Why};

/// Why the boxes of a file aren't read.
#[derive(Drop)]
pub enum Unread {
    Refused(BoxesFault),
    Device,
    TooLong,
}

/// The boxes of a file.
pub fn boxes_of<R: Files + Input + AllocGlobal>(rt: &R, name: &str) -> Result<Boxes, Unread> {
    if name == DASH {
        return boxes_in(rt.alloc(), &mut rt.reader());
    }
    match std::fs::open(rt, name) {
        Ok(mut file) => boxes_in(rt.alloc(), &mut file),
        Err(_) => Err(Unread::Device),
    }
}

// The boxes that a reader gives.
fn boxes_in<I: Read>(alloc: Global, reader: &mut I) -> Result<Boxes, Unread> {
    let bytes = match read_all(alloc, reader) {
        Ok(bytes) => bytes,
        Err(ReadFault::NoMemory) => return Err(Unread::Refused(BoxesFault::NoMemory)),
        Err(ReadFault::Device) => return Err(Unread::Device),
        Err(ReadFault::TooLong) => return Err(Unread::TooLong),
    };
    match read_boxes(alloc, &bytes) {
        Ok(boxes) => Ok(boxes),
        Err(fault) => Err(Unread::Refused(fault)),
    }
}

/// Tells why a probe file isn't read, and gives the exit status.
pub fn tell_unread<R: Eprint>(rt: &R, voice: Voice, unread: &Unread, name: &str) -> u8 {
    match unread {
        Unread::Refused(fault) => fails_in(rt, voice, probe_message(fault), name),
        Unread::Device => fails(rt, Message::Read { name }),
        Unread::TooLong => fails(rt, Message::TooLong),
    }
}

// Prints a view of a run of the program or image that a reader of this name gives.
fn print_view<'a, R: Print + AllocGlobal, I: Read>(
    rt: &R,
    view: &View<'_>,
    part: &PartData,
    reader: &mut I,
    name: &'a str,
    steps: u64,
) -> Result<Done, Message<'a>> {
    let mut out = output(rt)?;
    let done = write_view(rt.alloc(), view, part, reader, steps, &mut out);
    written(&mut out, done.map_err(|fault| message_of(fault, name)))
}

// Prints a view of a run of the program or image of a file, or of standard input.
fn print_view_of<'a, R: Files + Input + Print + AllocGlobal>(
    rt: &R,
    view: &View<'_>,
    part: &PartData,
    input: &'a str,
    steps: u64,
) -> Result<Done, Message<'a>> {
    if input == DASH {
        return print_view(rt, view, part, &mut rt.reader(), STANDARD_INPUT, steps);
    }
    match std::fs::open(rt, input) {
        Ok(mut file) => print_view(rt, view, part, &mut file, input, steps),
        Err(_) => Err(Message::Read { name: input }),
    }
}

/// The exit status of what was shown. Where it wasn't, it is told why, but not that nobody reads it.
pub(crate) fn status_shown<R: Files + Input + Eprint + AllocGlobal>(
    rt: &R,
    voice: Voice,
    shown: Result<Done, Message<'_>>,
    input: &str,
) -> u8 {
    match shown {
        Ok(done) => status_after(rt, voice, Ok(done)),
        Err(message) => view_fails(rt, voice, message, input),
    }
}

/// The number of steps and the workpiece of a run, and the names of its blocks.
#[derive(Drop)]
pub struct NamedSetting {
    pub steps: u64,
    pub part: PartData,
    pub block_names: Vec<Vec<u8>>,
}

/// The number of steps and the workpiece of a run, judged in this order.
pub(crate) fn setting_of<'a, R: Files + Input + Eprint + AllocGlobal>(
    rt: &R,
    voice: Voice,
    request: &Request<'a, '_>,
) -> Result<(u64, PartData), Told<'a>> {
    let Some(steps) = request.steps() else {
        return Err(alone(Message::Steps));
    };
    match part_given(rt, voice, request) {
        Ok(part) => Ok((steps, part)),
        Err(told) => Err(told),
    }
}

/// The same, with the names of the workpiece's blocks.
pub fn named_setting_of<'a, R: Files + Input + Eprint + AllocGlobal>(
    rt: &R,
    voice: Voice,
    request: &Request<'a, '_>,
) -> Result<NamedSetting, Told<'a>> {
    let Some(steps) = request.steps() else {
        return Err(alone(Message::Steps));
    };
    match named_part_given(rt, voice, request) {
        Ok((part, block_names)) => Ok(NamedSetting {
            steps,
            part,
            block_names,
        }),
        Err(told) => Err(told),
    }
}

/// Prints a view of a run beside a workpiece, and gives the exit status.
pub(crate) fn show_beside<R: Files + Input + Print + Eprint + AllocGlobal>(
    rt: &R,
    voice: Voice,
    view: &View<'_>,
    part: &PartData,
    input: &str,
    steps: u64,
) -> u8 {
    let shown = print_view_of(rt, view, part, input, steps);
    status_shown(rt, voice, shown, input)
}

/// Prints a view of a run, and gives the exit status.
pub fn show_view<R: Files + Input + Print + Eprint + AllocGlobal>(
    rt: &R,
    voice: Voice,
    view: &View<'_>,
    request: &Request<'_, '_>,
) -> u8 {
    match setting_of(rt, voice, request) {
        Ok((steps, part)) => show_beside(rt, voice, view, &part, request.input(), steps),
        Err(told) => fails_twice(rt, &told),
    }
}

// The program or image of a file, or of standard input.
fn given_input<'a, R: Files + Input + AllocGlobal>(
    rt: &R,
    input: &'a str,
) -> Result<Given, Message<'a>> {
    let bytes = bytes_of(rt, input)?;
    match given_of(rt.alloc(), bytes) {
        Ok(given) => Ok(given),
        Err(fault) => Err(message_of(fault, input_name(input))),
    }
}

// How an input is named in what is told.
fn input_name(input: &str) -> &str {
    if input == DASH { STANDARD_INPUT } else { input }
}

// Why points aren't told; an image that was built is refused for want of memory alone.
fn untold(given: &Given, fault: RunFault) -> RunFault {
    match fault {
        RunFault::Refused(_) if given.text.is_some() => RunFault::NoMemory,
        fault => fault,
    }
}

// Prints the measured points of a run of what was given, and gives the exit status.
fn print_points<'a, R: Print + AllocGlobal>(
    rt: &R,
    view: &Points,
    given: &Given,
    part: &PartData,
    steps: u64,
    input: &'a str,
) -> Result<u8, Message<'a>> {
    let mut out = output(rt)?;
    let shown = show(rt.alloc(), view, given, part, steps, &mut out);
    let told = shown.map_err(|fault| message_of(untold(given, fault), input_name(input)));
    written(&mut out, told)
}

// Tells what is remarked of a run, behind its notices, and gives the exit status of the run that had this one.
fn tell_behind<R: Eprint + AllocGlobal>(
    rt: &R,
    voice: Voice,
    given: &Given,
    part: &PartData,
    steps: u64,
    status: u8,
) -> u8 {
    tell_notices(rt, voice, given.notices.as_slice());
    match remarks_text(rt.alloc(), voice, given, part, steps) {
        Ok(text) => {
            let _ = eprint!(rt; "{text}");
            status
        }
        Err(_) => fails(rt, Message::NoMemory),
    }
}

/// Prints the measured points of a run, in machine coordinates where `--machine` asks for them, tells what is remarked of them, and gives the exit status.
pub fn show_points<R: Files + Input + Print + Eprint + AllocGlobal>(
    rt: &R,
    voice: Voice,
    request: &Request<'_, '_>,
) -> u8 {
    let (steps, part) = match setting_of(rt, voice, request) {
        Ok(setting) => setting,
        Err(told) => return fails_twice(rt, &told),
    };
    let input = request.input();
    let given = match given_input(rt, input) {
        Ok(given) => given,
        Err(message) => return view_fails(rt, voice, message, input),
    };
    let is_machine = request.has(Choice::Machine);
    match print_points(rt, &Points { is_machine }, &given, &part, steps, input) {
        Ok(status) => tell_behind(rt, voice, &given, &part, steps, status),
        Err(message) => view_fails(rt, voice, message, input),
    }
}

/// A view of a run that names blocks.
#[derive(Clone, Copy)]
pub enum NamedView {
    Why,
    Contacts,
}

// The view, with these names.
fn view_with<'a>(named: NamedView, block_names: &'a [Vec<u8>]) -> View<'a> {
    match named {
        NamedView::Why => View::Why(Why { block_names }),
        NamedView::Contacts => View::Contacts(AllContacts { block_names }),
    }
}

/// Prints a view of a run that names blocks, and gives the exit status.
pub fn show_named<R: Files + Input + Print + Eprint + AllocGlobal>(
    rt: &R,
    voice: Voice,
    named: NamedView,
    request: &Request<'_, '_>,
) -> u8 {
    match named_setting_of(rt, voice, request) {
        Ok(setting) => {
            let view = view_with(named, &setting.block_names);
            show_beside(
                rt,
                voice,
                &view,
                &setting.part,
                request.input(),
                setting.steps,
            )
        }
        Err(told) => fails_twice(rt, &told),
    }
}
