//! A producer's text as it stands, in views of its run; what of it wasn't tried is reported behind them.

use crate::set_debug::NO_WHOLE;
use crate::several::{NO_SHEET, draws_sheet, probe_named, tell_one_probe, tries_one};
use crate::whole_several::show_whole_several;
use std::alloc::Global;
use std::rt::Files;
use vcm_boxes::{Boxes, read_boxes};
use vcm_devices::{
    LINES, NamedSetting, PAPERS, Request, Unread, Voice, bytes_of, fails, fails_in_view,
    fails_twice, lines_given, named_setting_of, paper_given, remarks_text, status_after,
    tell_unread, unread_input,
};
use vcm_job::{Done, Given};
use vcm_messages::Message;
use vcm_num::NoMemory;
use vcm_probe_set::is_of_several;
use vcm_sheet::{ALL_LINES, Lines};
use vcm_short_names::{ShortName, lengthen_names};
use vcm_usage::{Choice, Verb};
use vcm_whole::Facts;
use vcm_whole_runs::{
    Beside, NOT_ALL_TRIED, Report, Running, Selecting, around_view, choices_of, debug_running,
    frames_named, print_asked, print_page, report_of, status_of_unused, tell_reading, whole_from,
};

// The same of a file.
fn whole_of<'a, R: Files + Input + AllocGlobal>(
    rt: &R,
    request: &Request<'_, '_>,
    tip: u32,
    input: &'a str,
) -> Result<Running, Message<'a>> {
    let source = bytes_of(rt, input)?;
    whole_from(rt.alloc(), request, tip, input, source)
}

// Reports what wasn't tried, and gives the exit status of the run that had this one.
fn tell_untried<R: Eprint>(rt: &R, report: &Report, status: u8) -> u8 {
    let text = std::str::from_utf8(report.text.as_slice()).unwrap_or("");
    let _ = eprint!(rt; "{text}");
    if status == 0 && !report.is_whole {
        NOT_ALL_TRIED
    } else {
        status
    }
}

// What was given, with this text beside it.
fn given_with(given: Given, text: Vec<u8>) -> Given {
    let Given {
        image,
        text: _,
        notices,
    } = given;
    Given {
        image,
        text: Some(text),
        notices,
    }
}

// What is remarked of the measurements of a text that is run as it is written, where its points are asked for, with the names that the text has.
fn remarks_told(
    alloc: Global,
    voice: Voice,
    verb: Verb,
    setting: &NamedSetting,
    running: &Running,
) -> Result<Vec<u8>, NoMemory> {
    if verb != Verb::Points || running.given.text.is_none() {
        return Ok(Vec::new(alloc));
    }
    let text = remarks_text(alloc, voice, &running.given, &setting.part, setting.steps)?;
    lengthen_names(alloc, running.names.as_slice(), text.as_bytes())
}

// Prints what was asked for of a run of a program, reports what of it wasn't tried, and gives the exit status.
fn show_running<R: Print + Eprint + AllocGlobal>(
    rt: &R,
    voice: Voice,
    request: &Request<'_, '_>,
    setting: &NamedSetting,
    beside: &Beside,
    running: Running,
) -> u8 {
    let alloc = rt.alloc();
    let names = running.names.as_slice();
    let Ok(frames) = frames_named(alloc, running.facts.frames.as_slice(), names) else {
        return fails(rt, Message::NoMemory);
    };
    let frames = frames.as_slice();
    let Some(report) = report_of(alloc, request.verb(), setting, &running, frames) else {
        return fails(rt, Message::NoMemory);
    };
    let Some(around) = around_view(alloc, request, setting, &running.given, &report, frames) else {
        return fails(rt, Message::NoMemory);
    };
    let Ok(remarks) = remarks_told(alloc, voice, request.verb(), setting, &running) else {
        return fails(rt, Message::NoMemory);
    };
    let Running {
        given,
        remarks: _,
        facts,
        names,
        source,
    } = running;
    let names = names.as_slice();
    let printed = match request.verb() {
        Verb::View => {
            let given = given_with(given, source);
            let input = request.input();
            print_page(rt, setting, beside, given, names, &report, frames, input)
        }
        _ => print_asked(
            rt, &*request, &*setting, &*beside, given, names, &report, &around,
        ),
    };
    tell_shown(
        rt, voice, request, printed, &report, &facts, names, &remarks,
    )
}

// Tells how the text of a view was read and what of it wasn't tried, or why there is no view, and gives the exit status.
fn tell_shown<R: Print + Eprint + AllocGlobal>(
    rt: &R,
    voice: Voice,
    request: &Request<'_, '_>,
    printed: Result<Done, Message<'_>>,
    report: &Report,
    facts: &Facts,
    names: &[ShortName],
    remarks: &[u8],
) -> u8 {
    match printed {
        Ok(done) => {
            let status = status_after(rt, voice, Ok(done));
            tell_reading(rt, voice, "", Selecting::Part, facts, names, request);
            let told = std::str::from_utf8(remarks).unwrap_or("");
            let _ = eprint!(rt; "{told}");
            tell_untried(rt, report, status)
        }
        Err(message) => fails_in_view(rt, voice, message, request.input()),
    }
}

// The same of a producer's text as it stands.
fn show_text<R: Files + Input + Print + Eprint + AllocGlobal>(
    rt: &R,
    voice: Voice,
    request: &Request<'_, '_>,
    setting: &NamedSetting,
    beside: &Beside,
) -> u8 {
    let tip = setting.part.bounds().tip;
    match whole_of(rt, request, tip, request.input()) {
        Ok(running) => match status_of_unused(rt, &running.facts, running.names.as_slice()) {
            Some(status) => status,
            None => match request.verb() {
                Verb::Debug => debug_running(rt, voice, request, setting, &running),
                _ => show_running(rt, voice, request, setting, beside, running),
            },
        },
        Err(message) => fails_in_view(rt, voice, message, request.input()),
    }
}

// The lines of a sheet, if the command line may name them; all lines where it names none.
fn lines_asked(request: &Request<'_, '_>) -> Option<Lines> {
    if request.verb() == Verb::Picture {
        lines_given(request.value(Choice::Stretch))
    } else {
        Some(ALL_LINES)
    }
}

// Whether the command line may name a paper, and names one that there isn't.
fn is_no_paper(request: &Request<'_, '_>) -> bool {
    request.verb() == Verb::Picture && paper_given(request.value(Choice::Paper)).is_none()
}

// Prints a view of a run of these lines of a producer's text, beside the workpiece and the probe that the command line names, and gives the exit status.
fn show_lines<R: Files + Input + Print + Eprint + AllocGlobal>(
    rt: &R,
    voice: Voice,
    request: &Request<'_, '_>,
    lines: Lines,
) -> u8 {
    let setting = match named_setting_of(rt, voice, request) {
        Ok(setting) => setting,
        Err(told) => return fails_twice(rt, &told),
    };
    match probe_named(request) {
        Some(_) if draws_sheet(request) => fails(rt, NO_SHEET),
        Some(probe) => show_whole_probed(rt, voice, request, &setting, lines, probe),
        None => {
            let boxes = None;
            let beside = Beside { lines, boxes };
            show_text(rt, voice, request, &setting, &beside)
        }
    }
}

// The same with the boxes of one probe, where they are tried.
fn show_with_boxes<R: Files + Input + Print + Eprint + AllocGlobal>(
    rt: &R,
    voice: Voice,
    request: &Request<'_, '_>,
    setting: &NamedSetting,
    lines: Lines,
    boxes: Boxes,
) -> u8 {
    if !tries_one(request.verb()) {
        return tell_one_probe(rt);
    }
    let boxes = Some(boxes);
    let beside = Beside { lines, boxes };
    show_text(rt, voice, request, setting, &beside)
}

// The same with the probe of a file, or with several.
fn show_whole_probed<R: Files + Input + Print + Eprint + AllocGlobal>(
    rt: &R,
    voice: Voice,
    request: &Request<'_, '_>,
    setting: &NamedSetting,
    lines: Lines,
    probe: &str,
) -> u8 {
    let file = match bytes_of(rt, probe) {
        Ok(file) => file,
        Err(message) => return fails(rt, message),
    };
    match is_of_several(rt.alloc(), &file) {
        Err(_) => fails(rt, Message::NoMemory),
        Ok(true) => show_whole_several(rt, voice, request, setting, probe, &file),
        Ok(false) => match read_boxes(rt.alloc(), &file) {
            Ok(boxes) => show_with_boxes(rt, voice, request, setting, lines, boxes),
            Err(fault) => tell_unread(rt, voice, &Unread::Refused(fault), probe),
        },
    }
}

/// Prints a view of a run of a producer's text as it stands, reports what of it wasn't tried, and gives the exit status. The steps are judged first, then the lines of
/// a sheet, the workpiece, the probe and the text.
pub fn show_whole<R: Files + Input + Print + Eprint + AllocGlobal>(
    rt: &R,
    voice: Voice,
    request: &Request<'_, '_>,
) -> u8 {
    if request.verb() == Verb::Debug && probe_named(request).is_some() {
        return fails(rt, NO_WHOLE);
    }
    if let Err(message) = choices_of(rt.alloc(), request, &[], 0) {
        return fails(rt, message);
    }
    if request.steps().is_none() {
        return fails(rt, Message::Steps);
    }
    if request.verb() == Verb::Debug {
        if let Some(message) = unread_input(rt) {
            return fails(rt, message);
        }
    }
    let Some(lines) = lines_asked(request) else {
        return fails(rt, LINES);
    };
    if is_no_paper(request) {
        return fails(rt, PAPERS);
    }
    show_lines(rt, voice, request, lines)
}
