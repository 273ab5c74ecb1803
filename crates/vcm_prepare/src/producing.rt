//! Producers' texts: what is told of them, and what they are adapted to.

use crate::telling::tell_bytes;
use std::alloc::Global;
use std::rt::Files;
use vcm_blocks::file_name;
use vcm_devices::{
    DASH, Request, STANDARD_INPUT, Told, Voice, alone, bytes_of, fails, fails_twice,
    fails_unless_closed, part_of, print_bytes,
};
use vcm_lines::SourceFault;
use vcm_messages::{Message, Told as _};
use vcm_num::NoMemory;
use vcm_survey::{Adaptation, Findings, GivenFrame, Options, Shape, adapt, survey};
use vcm_tree::accept;
use vcm_usage::Choice;

// The widest tip that a part file may have, in micrometres to each side.
const WIDEST: i64 = vcm_num::WIDEST_TIP as i64;

const TIP: Message<'static> = Message::Option {
    words: "--tip wants micrometres, a number from 0 to 50000, and no --part beside it",
};

const FRAME: Message<'static> = Message::Option {
    words: "--frame wants LABEL=X,Y,Z or LABEL=X,Y,Z,Z90, each label once, in millimetres with three decimals at most",
};

// The number of micrometres that `--tip` gives.
fn tip_of(text: &str) -> Option<i64> {
    if !text.as_bytes().iter().all(|byte| byte.is_ascii_digit()) {
        return None;
    }
    match text.parse::<i64>() {
        Ok(tip) if tip <= WIDEST => Some(tip),
        _ => None,
    }
}

// Adds a frame that a word gives, and says whether it could be.
fn add_frame(alloc: Global, frames: &mut Vec<GivenFrame>, word: &str) -> Result<bool, NoMemory> {
    let Some((name, place)) = word.split_once('=') else {
        return Ok(false);
    };
    let Some(frame) = GivenFrame::read(alloc, name.as_bytes(), place.as_bytes())? else {
        return Ok(false);
    };
    let is_there = frames
        .iter()
        .any(|other| other.label.as_slice() == frame.label.as_slice());
    if is_there {
        return Ok(false);
    }
    frames.push(frame)?;
    Ok(true)
}

// The frames that a command line gives.
fn frames_of(alloc: Global, given: &[&str]) -> Result<Option<Vec<GivenFrame>>, NoMemory> {
    let mut frames = Vec::new(alloc);
    for word in given {
        if !add_frame(alloc, &mut frames, word)? {
            return Ok(None);
        }
    }
    Ok(Some(frames))
}

// Half the width of the tip, which the command line gives or the part file.
fn half_width<'a, R: Files + Input + Eprint + AllocGlobal>(
    rt: &R,
    voice: Voice,
    request: &Request<'a, '_>,
) -> Result<i64, Told<'a>> {
    match (request.value(Choice::Tip), request.value(Choice::Part)) {
        (None, None) => Ok(0),
        (Some(tip), None) => match tip_of(tip) {
            Some(tip) => Ok(tip),
            None => Err(alone(TIP)),
        },
        (None, Some(name)) => {
            let part = part_of(rt, voice, name)?;
            let tip = i64::from(part.bounds().tip);
            drop(part);
            Ok(tip)
        }
        (Some(_), Some(_)) => Err(alone(TIP)),
    }
}

// What the command line says of the machine and the part.
fn options_of<'a, R: Files + Input + Eprint + AllocGlobal>(
    rt: &R,
    voice: Voice,
    request: &Request<'a, '_>,
) -> Result<Options, Told<'a>> {
    let tip = half_width(rt, voice, request)?;
    match frames_of(rt.alloc(), request.values(Choice::Frame)) {
        Ok(Some(frames)) => Ok(Options {
            tip,
            frames,
            is_exact: request.has(Choice::Exact),
            is_touch: request.has(Choice::Touch),
        }),
        Ok(None) => Err(alone(FRAME)),
        Err(_) => Err(alone(Message::NoMemory)),
    }
}

// Whether a text is accepted.
fn refusal_of(alloc: Global, text: &[u8]) -> Option<SourceFault> {
    match accept(alloc, text) {
        Ok(accepted) => {
            drop(accepted);
            None
        }
        Err(fault) => Some(fault),
    }
}

// The exit status of a text that nothing else is to be told of: 1 where it is refused, which is told.
fn status_of_text<R: Eprint + AllocGlobal>(rt: &R, text: &[u8]) -> u8 {
    match refusal_of(rt.alloc(), text) {
        None => 0,
        Some(fault) => fails(rt, fault.told()),
    }
}

// Tells a survey, and gives the exit status.
fn tell_findings<R: Print + Eprint + AllocGlobal>(rt: &R, findings: &Findings, text: &[u8]) -> u8 {
    if let Err(message) = print_bytes(rt, findings.text.as_slice()) {
        return fails_unless_closed(rt, message);
    }
    tell_bytes(rt, findings.warnings.as_slice());
    if findings.is_clean {
        status_of_text(rt, text)
    } else {
        1
    }
}

// Tells an adapted text, and gives the exit status.
fn tell_adaptation<R: Print + Eprint + AllocGlobal>(rt: &R, adaptation: &Adaptation) -> u8 {
    if let Err(message) = print_bytes(rt, adaptation.text.as_slice()) {
        return fails_unless_closed(rt, message);
    }
    tell_bytes(rt, adaptation.warnings.as_slice());
    let status = status_of_text(rt, adaptation.text.as_slice());
    if status == 0 && !adaptation.is_whole {
        1
    } else {
        status
    }
}

// Surveys a text, and gives the exit status.
fn survey_text<R: Print + Eprint + AllocGlobal>(
    rt: &R,
    name: &str,
    text: &[u8],
    options: &Options,
    shape: Shape,
) -> Result<u8, Message<'static>> {
    match survey(rt.alloc(), file_name(name).as_bytes(), text, options, shape) {
        Ok(Ok(findings)) => Ok(tell_findings(rt, &findings, text)),
        Ok(Err(fault)) => Err(fault.told()),
        Err(_) => Err(Message::NoMemory),
    }
}

// Adapts a text, and gives the exit status.
fn adapt_text<R: Print + Eprint + AllocGlobal>(
    rt: &R,
    text: &[u8],
    options: &Options,
) -> Result<u8, Message<'static>> {
    match adapt(rt.alloc(), text, options) {
        Ok(Ok(adaptation)) => Ok(tell_adaptation(rt, &adaptation)),
        Ok(Err(fault)) => Err(fault.told()),
        Err(_) => Err(Message::NoMemory),
    }
}

// How an input is named.
fn name_of(input: &str) -> &str {
    if input == DASH { STANDARD_INPUT } else { input }
}

// Surveys a file, and gives the exit status.
fn survey_with<'a, R: Files + Input + Print + Eprint + AllocGlobal>(
    rt: &R,
    request: &Request<'a, '_>,
    options: &Options,
) -> Result<u8, Message<'a>> {
    let text = bytes_of(rt, request.input())?;
    let shape = if request.has(Choice::Lines) {
        Shape::Lines
    } else {
        Shape::Groups
    };
    survey_text(rt, name_of(request.input()), &text, options, shape)
}

// Adapts a file, and gives the exit status.
fn adapt_with<'a, R: Files + Input + Print + Eprint + AllocGlobal>(
    rt: &R,
    request: &Request<'a, '_>,
    options: &Options,
) -> Result<u8, Message<'a>> {
    let text = bytes_of(rt, request.input())?;
    adapt_text(rt, &text, options)
}

// The exit status of what was done, or told why it wasn't.
fn status_told<R: Eprint>(rt: &R, done: Result<u8, Message<'_>>) -> u8 {
    match done {
        Ok(status) => status,
        Err(message) => fails(rt, message),
    }
}

/// Prints what becomes of each statement of a producer's text, and gives the exit status: 0 where all of it is tried and accepted, 1 where not, 2 for a wrong
/// option, 5 and 6 for want of memory and a device.
pub fn survey_file<R: Files + Input + Print + Eprint + AllocGlobal>(
    rt: &R,
    voice: Voice,
    request: &Request<'_, '_>,
) -> u8 {
    match options_of(rt, voice, request) {
        Ok(options) => status_told(rt, survey_with(rt, request, &options)),
        Err(told) => fails_twice(rt, &told),
    }
}

/// Prints the program that a producer's text is adapted to, and gives the exit status, as of a survey.
pub fn adapt_file<R: Files + Input + Print + Eprint + AllocGlobal>(
    rt: &R,
    voice: Voice,
    request: &Request<'_, '_>,
) -> u8 {
    match options_of(rt, voice, request) {
        Ok(options) => status_told(rt, adapt_with(rt, request, &options)),
        Err(told) => fails_twice(rt, &told),
    }
}
