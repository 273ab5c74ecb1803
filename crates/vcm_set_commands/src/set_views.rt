//! What is told of a run with several probes but for their clearance: its result, its trace, its measured points, why it ended where it did, and all its contacts.

use crate::set_pages::{Beside, page_told};
use crate::several::{Asked, status_at};
use std::alloc::Global;
use vcm_devices::{NamedSetting, Request, Voice, fails, fails_unless_closed, print_bytes};
use vcm_job::{Given, status_of};
use vcm_loader::Loaded;
use vcm_messages::Message;
use vcm_naming::BlockNames;
use vcm_num::NoMemory;
use vcm_set_contacts::PassedEnd;
use vcm_set_views::{
    ContactsTold, Fitted, SetTold, set_contacts, set_picture, set_points, set_result, set_trace,
    set_why,
};
use vcm_short_names::lengthen_names;
use vcm_turning::{Ended, NoProbe};
use vcm_usage::{Choice, Verb};
use vcm_whole_runs::{NAMES, names_shown, places_of};

/// What a command tells of a run, why that ended without a probe, if it did, and the exit status.
#[derive(Drop)]
pub(crate) struct CommandTold {
    pub(crate) text: Vec<u8>,
    pub(crate) lost: Option<NoProbe>,
    pub(crate) status: u8,
}

// What is told of a run that ended so, with its exit status.
fn with_status(told: SetTold) -> CommandTold {
    let SetTold { text, end } = told;
    let lost = match end.end {
        Ended::Lost(lost) => Some(lost),
        _ => None,
    };
    CommandTold {
        text,
        lost,
        status: status_at(end.end, end.stop),
    }
}

// The exit status of a run with so many contacts, which ended so.
fn status_of_contacts(count: usize, end: PassedEnd) -> u8 {
    if count > 0 || end.lost.is_some() {
        3
    } else {
        status_of(end.stop)
    }
}

/// The text of a program that was given; an image has none.
pub(crate) fn text_given(given: &Given) -> Option<&[u8]> {
    match &given.text {
        Some(text) => Some(text.as_slice()),
        None => None,
    }
}

// All contacts of a run with several probes, as they are told.
fn contacts_told(
    alloc: Global,
    fitted: &Fitted<'_>,
    setting: &NamedSetting,
    given: &Given,
) -> Result<CommandTold, NoMemory> {
    let mut names = BlockNames::new(alloc, setting.block_names.as_slice())?;
    let text = text_given(given);
    let ContactsTold { text, count, end } = set_contacts(
        alloc,
        fitted,
        setting.steps,
        text,
        &mut names,
    )?;
    let lost = match end.lost {
        Some(lost) => Some(lost.probe),
        None => None,
    };
    Ok(CommandTold {
        text,
        lost,
        status: status_of_contacts(count, end),
    })
}

/// Why a run with several probes ended where it did, as it is told.
///
/// Errors: want of memory.
pub(crate) fn why_told(
    alloc: Global,
    fitted: &Fitted<'_>,
    setting: &NamedSetting,
    given: &Given,
) -> Result<SetTold, NoMemory> {
    let names = BlockNames::new(alloc, setting.block_names.as_slice())?;
    set_why(alloc, fitted, setting.steps, text_given(given), &names)
}

// The places of the variables that are to be shown.
fn places_shown(
    alloc: Global,
    given: &Given,
    names: Option<&str>,
) -> Result<Vec<u16>, Message<'static>> {
    let Some(names) = names else {
        return Ok(Vec::new(alloc));
    };
    match places_of(alloc, &given.image, names) {
        Ok(Some(places)) => Ok(places),
        Ok(None) => Err(NAMES),
        Err(_) => Err(Message::NoMemory),
    }
}

// The result of a run with several probes, as it is told.
fn result_told(
    alloc: Global,
    fitted: &Fitted<'_>,
    steps: u64,
    given: &Given,
    names: Option<&str>,
) -> Result<CommandTold, Message<'static>> {
    let places = places_shown(alloc, given, names)?;
    match set_result(alloc, fitted, steps, &places) {
        Ok(told) => Ok(with_status(told)),
        Err(_) => Err(Message::NoMemory),
    }
}

// The same of any command but `vcm view`, without the names that the text has.
fn text_told(
    alloc: Global,
    request: &Request<'_, '_>,
    setting: &NamedSetting,
    fitted: &Fitted<'_>,
    given: &Given,
) -> Result<CommandTold, Message<'static>> {
    let steps = setting.steps;
    if request.verb() == Verb::Contacts {
        return match contacts_told(alloc, fitted, setting, given) {
            Ok(told) => Ok(told),
            Err(_) => Err(Message::NoMemory),
        };
    }
    let told = match request.verb() {
        Verb::Trace => set_trace(alloc, fitted, steps),
        Verb::Points => set_points(
            alloc,
            fitted,
            steps,
            text_given(given),
            request.has(Choice::Machine),
        ),
        Verb::Picture => set_picture(alloc, fitted, steps, request.has(Choice::Close)),
        Verb::Why => why_told(alloc, fitted, setting, given),
        _ => return result_told(alloc, fitted, steps, given, names_shown(request)),
    };
    match told {
        Ok(told) => Ok(with_status(told)),
        Err(_) => Err(Message::NoMemory),
    }
}

/// What a command tells of a run of what was given with several probes.
pub(crate) fn told_of(
    alloc: Global,
    request: &Request<'_, '_>,
    asked: &Asked<'_>,
    fitted: &Fitted<'_>,
    given: &Given,
    loaded: &Loaded<'_>,
    beside: Beside<'_>,
) -> Result<CommandTold, Message<'static>> {
    if request.verb() == Verb::View {
        return match page_told(alloc, asked, fitted, given, loaded, beside) {
            Some(told) => Ok(with_status(told)),
            None => Err(Message::NoMemory),
        };
    }
    let mut told = text_told(alloc, request, asked.setting, fitted, given)?;
    match lengthen_names(alloc, beside.names, &told.text) {
        Ok(text) => {
            told.text = text;
            Ok(told)
        }
        Err(_) => Err(Message::NoMemory),
    }
}

/// Tells that the boxes of the probes aren't tried here.
pub(crate) fn tell_untried_boxes<R: Eprint>(rt: &R, voice: Voice) {
    if !voice.is_quiet {
        let _ = eprintln!(rt;
            "notice: the boxes and the swing of the probes aren't tried here; vcm clearance tries them"
        );
    }
}

/// Tells that a text wasn't printed, and gives the exit status; where nobody reads it, it is told of the result of a run alone.
pub(crate) fn fails_as_printed<R: Eprint>(rt: &R, verb: Verb, message: Message<'_>) -> u8 {
    if verb == Verb::Run {
        fails(rt, message)
    } else {
        fails_unless_closed(rt, message)
    }
}

/// Prints what a command tells of a run of what was given with several probes, and gives the exit status. Where it isn't printed, it is told why, and the exit status is
/// given as a fault.
pub(crate) fn print_told<R: Print + Eprint + AllocGlobal>(
    rt: &R,
    request: &Request<'_, '_>,
    asked: &Asked<'_>,
    fitted: &Fitted<'_>,
    given: &Given,
    loaded: &Loaded<'_>,
) -> Result<u8, u8> {
    let beside = Beside {
        names: &[],
        untried: &[],
        is_written: true,
    };
    let told = match told_of(rt.alloc(), request, asked, fitted, given, loaded, beside) {
        Ok(told) => told,
        Err(message) => return Err(fails(rt, message)),
    };
    match print_bytes(rt, told.text.as_slice()) {
        Ok(()) => Ok(told.status),
        Err(message) => Err(fails_as_printed(rt, request.verb(), message)),
    }
}
