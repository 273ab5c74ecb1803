//! Runs with the probe of a file, or with several, one of which a program chooses at a time: with several the head turns between steps.

use crate::set_clearances::{Telling, set_clearance};
use crate::set_debug::debug_fitted;
use crate::set_views::{print_told, tell_untried_boxes, text_given};
use std::alloc::Global;
use std::rt::Files;
use vcm_boxes::{Boxes, read_boxes};
use vcm_devices::{
    NamedSetting, Request, Unread, View, Voice, bytes_of, fails, fails_in_view, fails_twice,
    fails_unless_closed, is_sheet, named_setting_of, print_bytes, remark_lines, show_page_with,
    status_after, tell_unread, unread_input, view_fails,
};
use vcm_job::{Done, Given, InputRefusal, RunFault, given_of, status_of};
use vcm_loader::{Loaded, load};
use vcm_messages::{Message, message_of};
use vcm_num::NoMemory;
use vcm_probe_set::{ProbeSet, ProbeSetFault, is_of_several, read_probes, why_unfit};
use vcm_set_clearance::{SetFault, SetRun, SetText, run_set};
use vcm_set_views::{Fitted, fit, set_meant};
use vcm_spec::StopPlace;
use vcm_turning::Ended;
use vcm_usage::{Choice, Rest, Verb};
use vcm_views::{Clearance, FirstContacts};
use vcm_whole_runs::print_plain;

// Tells in which file a refusal is, where that is told, and gives the exit status of a refusal.
fn in_file<R: Eprint>(rt: &R, voice: Voice, name: &str) -> u8 {
    if voice.tells_more {
        let _ = eprintln!(rt; "in {name}");
    }
    1
}

/// Tells why a file of several probes isn't read, and gives the exit status.
pub(crate) fn tell_set_fault<R: Eprint>(
    rt: &R,
    voice: Voice,
    fault: &ProbeSetFault,
    name: &str,
) -> u8 {
    match fault {
        ProbeSetFault::NoMemory => fails(rt, Message::NoMemory),
        ProbeSetFault::Refused(refusal) => {
            let _ = eprintln!(rt; "{refusal}");
            in_file(rt, voice, name)
        }
    }
}

/// What is asked for: a run of this input with these probes, of a file of this name.
#[derive(Clone, Copy)]
pub(crate) struct Asked<'a> {
    pub(crate) setting: &'a NamedSetting,
    pub(crate) set: &'a ProbeSet,
    pub(crate) probe: &'a str,
    pub(crate) input: &'a str,
}

/// Tells why a run with several probes wasn't done, and gives the exit status.
pub(crate) fn tell_run_fault<R: Eprint>(
    rt: &R,
    voice: Voice,
    fault: SetFault,
    asked: &Asked<'_>,
) -> u8 {
    match fault {
        SetFault::NoMemory => fails(rt, Message::NoMemory),
        SetFault::Unfit(unfit) => {
            let _ = eprintln!(rt; "{unfit}");
            in_file(rt, voice, asked.probe)
        }
        SetFault::NoVariable => {
            let name = std::str::from_utf8(asked.set.variable().as_bytes()).unwrap_or("?");
            let _ = eprintln!(rt; "B12 NoVariable {name}");
            in_file(rt, voice, asked.input)
        }
    }
}

/// Whether a command tries the boxes of a file of one probe.
pub(crate) fn tries_one(verb: Verb) -> bool {
    matches!(verb, Verb::Clearance | Verb::View | Verb::Why)
}

/// Tells that of a file of one probe nothing is used here, and gives the exit status.
pub(crate) fn tell_one_probe<R: Eprint>(rt: &R) -> u8 {
    let _ = eprintln!(rt; "this file has one probe: vcm clearance tries it");
    2
}

/// The exit status of a run with several probes that ended so.
pub(crate) fn status_at(end: Ended, stop: Option<StopPlace>) -> u8 {
    match end {
        Ended::Lost(_) => 3,
        _ => status_of(stop),
    }
}

/// The same where a body met a block, or didn't.
pub(crate) fn status_with(run: &SetRun, is_met: bool) -> u8 {
    if is_met {
        3
    } else {
        status_at(run.end, run.stop)
    }
}

// The text of a run with several probes; none where memory is refused.
fn text_of(
    alloc: Global,
    loaded: &Loaded<'_>,
    fitted: &Fitted<'_>,
    asked: &Asked<'_>,
    given: &Given,
    run: &SetRun,
) -> Option<SetText> {
    let Ok(tables) = loaded.tables(alloc) else {
        return None;
    };
    let telling = Telling {
        part: &asked.setting.part,
        block_names: asked.setting.block_names.as_slice(),
        set: asked.set,
        run,
        untried: b"",
    };
    match set_clearance(alloc, fitted, telling, &tables, text_given(given)) {
        Ok(told) => Some(told),
        Err(_) => None,
    }
}

// Prints what a run with several probes came to, and gives its exit status. Where it isn't printed, it is told why, and the exit status is given as a fault.
fn print_run<R: Print + Eprint + AllocGlobal>(
    rt: &R,
    told: &SetText,
    run: &SetRun,
) -> Result<u8, u8> {
    match print_bytes(rt, told.text.as_slice()) {
        Ok(()) => Ok(status_with(run, told.is_met)),
        Err(message) => Err(fails_unless_closed(rt, message)),
    }
}

// Runs a loaded code with several probes, and prints their clearance, likewise.
fn print_clearance<R: Print + Eprint + AllocGlobal>(
    rt: &R,
    voice: Voice,
    asked: &Asked<'_>,
    given: &Given,
    loaded: &Loaded<'_>,
    fitted: &Fitted<'_>,
) -> Result<u8, u8> {
    let alloc = rt.alloc();
    let setting = asked.setting;
    match run_set(alloc, loaded, asked.set, &setting.part, setting.steps) {
        Ok(run) => match text_of(alloc, loaded, fitted, asked, given, &run) {
            Some(told) => print_run(rt, &told, &run),
            None => Err(fails(rt, Message::NoMemory)),
        },
        Err(fault) => Err(tell_run_fault(rt, voice, fault, asked)),
    }
}

// What is remarked of the measurements of a run whose points are told; nothing where no notice is told.
fn remarks_told(
    alloc: Global,
    voice: Voice,
    asked: &Asked<'_>,
    fitted: &Fitted<'_>,
    loaded: &Loaded<'_>,
) -> Result<String, NoMemory> {
    if voice.is_quiet {
        return Ok(String::new(alloc));
    }
    let remarks = set_meant(alloc, fitted, asked.setting.steps)?;
    remark_lines(alloc, loaded, remarks.as_slice())
}

// What was printed of a run: the exit status, and what is remarked of its measurements, which is told behind its notices.
#[derive(Drop)]
struct Printed {
    status: u8,
    remarks: String,
}

// Prints what a command tells of a run, likewise, and gives what is remarked of it.
fn print_remarked<R: Print + Eprint + AllocGlobal>(
    rt: &R,
    voice: Voice,
    request: &Request<'_, '_>,
    asked: &Asked<'_>,
    fitted: &Fitted<'_>,
    given: &Given,
    loaded: &Loaded<'_>,
) -> Result<Printed, u8> {
    let status = print_told(rt, request, asked, fitted, given, loaded)?;
    if request.verb() != Verb::Points {
        return Ok(unremarked(rt.alloc(), status));
    }
    match remarks_told(rt.alloc(), voice, asked, fitted, loaded) {
        Ok(remarks) => Ok(Printed { status, remarks }),
        Err(_) => Err(fails(rt, Message::NoMemory)),
    }
}

// Nothing is remarked.
fn unremarked(alloc: Global, status: u8) -> Printed {
    Printed {
        status,
        remarks: String::new(alloc),
    }
}

// Runs a loaded code with several probes, and prints what a command tells of it, or answers commands on it, likewise.
fn print_loaded<R: Input + Print + Eprint + AllocGlobal>(
    rt: &R,
    voice: Voice,
    request: &Request<'_, '_>,
    asked: &Asked<'_>,
    given: &Given,
    loaded: &Loaded<'_>,
) -> Result<Printed, u8> {
    let fitted = match fit(rt.alloc(), loaded, asked.set, &asked.setting.part) {
        Ok(fitted) => fitted,
        Err(fault) => return Err(tell_run_fault(rt, voice, fault, asked)),
    };
    let printed = match request.verb() {
        Verb::Clearance => print_clearance(rt, voice, asked, given, loaded, &fitted),
        Verb::Debug => debug_fitted(rt, &fitted),
        _ => return print_remarked(rt, voice, request, asked, &fitted, given, loaded),
    };
    match printed {
        Ok(status) => Ok(unremarked(rt.alloc(), status)),
        Err(status) => Err(status),
    }
}

// The same of an image.
fn print_image<R: Input + Print + Eprint + AllocGlobal>(
    rt: &R,
    voice: Voice,
    request: &Request<'_, '_>,
    asked: &Asked<'_>,
    given: &Given,
) -> Result<Printed, u8> {
    let input = asked.input;
    match load(rt.alloc(), &given.image) {
        Ok(loaded) => print_loaded(rt, voice, request, asked, given, &loaded),
        Err(fault) => {
            let message = message_of(RunFault::Refused(InputRefusal::Image(fault)), input);
            Err(fails_in_view(rt, voice, message, input))
        }
    }
}

/// Whether a command tries the boxes of the probes.
pub(crate) fn tries_boxes(verb: Verb) -> bool {
    matches!(verb, Verb::Clearance | Verb::View)
}

// Runs what was given with several probes, prints what a command tells of it, and gives the exit status.
fn show_run<R: Input + Print + Eprint + AllocGlobal>(
    rt: &R,
    voice: Voice,
    request: &Request<'_, '_>,
    asked: &Asked<'_>,
    given: Given,
) -> u8 {
    match print_image(rt, voice, request, asked, &given) {
        Ok(Printed { status, remarks }) => {
            if !tries_boxes(request.verb()) {
                tell_untried_boxes(rt, voice);
            }
            let Given { notices, .. } = given;
            let status = status_after(rt, voice, Ok(Done { status, notices }));
            let _ = eprint!(rt; "{remarks}");
            status
        }
        Err(status) => status,
    }
}

// The program or image that is given.
fn given_input<'a, R: Files + Input + AllocGlobal>(
    rt: &R,
    input: &'a str,
) -> Result<Given, Message<'a>> {
    let bytes = bytes_of(rt, input)?;
    match given_of(rt.alloc(), bytes) {
        Ok(given) => Ok(given),
        Err(fault) => Err(message_of(fault, input)),
    }
}

/// What is told where a sheet is asked for with probes.
pub(crate) const NO_SHEET: Message<'static> = Message::Option {
    words: "--probe draws a picture, and no sheet",
};

// What is told of a run with several probes. The file is judged first, then whether its probes can be tried beside the workpiece, and then the input.
fn show_several<R: Files + Input + Print + Eprint + AllocGlobal>(
    rt: &R,
    voice: Voice,
    request: &Request<'_, '_>,
    probe: &str,
    setting: &NamedSetting,
    file: &[u8],
) -> u8 {
    let set = match read_probes(rt.alloc(), file) {
        Ok(set) => set,
        Err(fault) => return tell_set_fault(rt, voice, &fault, probe),
    };
    let input = request.input();
    let asked = Asked {
        setting,
        set: &set,
        probe,
        input,
    };
    if let Some(unfit) = why_unfit(&setting.part, &set) {
        return tell_run_fault(rt, voice, SetFault::Unfit(unfit), &asked);
    }
    match given_input(rt, input) {
        Ok(given) => show_run(rt, voice, request, &asked, given),
        Err(message) => view_fails(rt, voice, message, input),
    }
}

// The view of boxes that are fixed to the tip: their clearance, or their first contact.
fn view_of<'x>(verb: Verb, setting: &'x NamedSetting, boxes: &'x Boxes) -> View<'x> {
    let block_names = setting.block_names.as_slice();
    match verb {
        Verb::Why => View::First(FirstContacts { boxes, block_names }),
        _ => View::Clearance(Clearance {
            boxes,
            untried: &[],
            block_names,
            tells_calls: true,
        }),
    }
}

// What is told of boxes that are fixed to the tip.
fn show_boxes<'x, R: Files + Input + Print + Eprint + AllocGlobal>(
    rt: &R,
    voice: Voice,
    request: &Request<'_, '_>,
    setting: &'x NamedSetting,
    boxes: &'x Boxes,
) -> u8 {
    let given = match given_input(rt, request.input()) {
        Ok(given) => given,
        Err(message) => return view_fails(rt, voice, message, request.input()),
    };
    let view = view_of(request.verb(), setting, boxes);
    match print_plain(rt, &view, setting, given, request.input()) {
        Ok(done) => status_after(rt, voice, Ok(done)),
        Err(message) => fails_in_view(rt, voice, message, request.input()),
    }
}

// What is told of a run with boxes that are fixed to the tip, where they are tried.
fn show_one<R: Files + Input + Print + Eprint + AllocGlobal>(
    rt: &R,
    voice: Voice,
    request: &Request<'_, '_>,
    setting: &NamedSetting,
    boxes: &Boxes,
) -> u8 {
    match request.verb() {
        Verb::View => show_page_with(rt, voice, boxes, setting, request.input()),
        verb if tries_one(verb) => show_boxes(rt, voice, request, setting, boxes),
        _ => tell_one_probe(rt),
    }
}

/// The probe file of a run that a command line names, if it names one.
pub fn probe_named<'a>(request: &Request<'a, '_>) -> Option<&'a str> {
    if request.verb() == Verb::Clearance {
        Some(request.probe())
    } else if request.usage().takes(Choice::Probe) && request.usage().rest != Rest::Programs {
        request.value(Choice::Probe)
    } else {
        None
    }
}

/// Whether a sheet is asked for.
pub(crate) fn draws_sheet(request: &Request<'_, '_>) -> bool {
    request.verb() == Verb::Picture && is_sheet(request)
}

// Why commands can't be read from standard input, where a command reads them and they can't.
fn unread_commands<R: Input>(rt: &R, request: &Request<'_, '_>) -> Option<Message<'static>> {
    if request.verb() == Verb::Debug {
        unread_input(rt)
    } else {
        None
    }
}

/// Prints what a command tells of a run with the probe of a file, or with several, and gives the exit status. The probe file is judged after the workpiece.
pub fn show_probed<R: Files + Input + Print + Eprint + AllocGlobal>(
    rt: &R,
    voice: Voice,
    request: &Request<'_, '_>,
    probe: &str,
) -> u8 {
    if draws_sheet(request) {
        return fails(rt, NO_SHEET);
    }
    if let Some(message) = unread_commands(rt, request) {
        return fails(rt, message);
    }
    let setting = match named_setting_of(rt, voice, request) {
        Ok(setting) => setting,
        Err(told) => return fails_twice(rt, &told),
    };
    let file = match bytes_of(rt, probe) {
        Ok(file) => file,
        Err(message) => return fails(rt, message),
    };
    match is_of_several(rt.alloc(), &file) {
        Err(_) => fails(rt, Message::NoMemory),
        Ok(true) => show_several(rt, voice, request, probe, &setting, &file),
        Ok(false) => match read_boxes(rt.alloc(), &file) {
            Ok(boxes) => show_one(rt, voice, request, &setting, &boxes),
            Err(fault) => tell_unread(rt, voice, &Unread::Refused(fault), probe),
        },
    }
}
