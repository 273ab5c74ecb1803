//! Checks of several programs, and of all faults.

use std::alloc::{AllocError, Global};
use std::fmt::Write as _;
use std::rt::Files;
use vcm_devices::{Request, Voice, about_of, bytes_of, check_file, fails, print_bytes};
use vcm_diagnosis::all_told;
use vcm_lines::SourceFault;
use vcm_messages::{Message, Told, notice_line, status_of};
use vcm_num::NoMemory;
use vcm_prepare::tell_bytes;
use vcm_program::Noticed;
use vcm_survey::faults_of;
use vcm_telling::summary_line;
use vcm_tree::accept;
use vcm_usage::Choice;
use vcm_whole::Facts;
use vcm_whole_runs::{Built, Selecting, choices_of, put_whole, status_of_unused, tell_reading};

// A program that is checked: its name, what stands in front of what is told of it, and whether it is a producer's text as it stands.
#[derive(Clone, Copy)]
struct Checked<'a> {
    name: &'a str,
    is_named: bool,
    is_all: bool,
    is_whole: bool,
    voice: Voice,
}

const ALL: Message<'static> = Message::Option {
    words: "--all and --whole don't go together",
};

// How many statements a program has that is accepted, and its lines that have no effect.
fn counted(alloc: Global, text: &[u8]) -> Result<(usize, Vec<Noticed>), SourceFault> {
    let accepted = accept(alloc, text)?;
    let count = accepted.count();
    Ok((count, accepted.into_notices()))
}

// Tells a fault of a program, and gives its exit status.
fn tell_fault<R: Eprint>(rt: &R, checked: Checked<'_>, message: Message<'_>) -> u8 {
    if !checked.is_named {
        return fails(rt, message);
    }
    let name = checked.name;
    let _ = eprintln!(rt; "{name}: {message}");
    status_of(message)
}

// Tells, at a terminal and with `--talk`, what a refusal of a program is about, and gives this exit status, or that of want of memory.
fn tell_about<R: Eprint + AllocGlobal>(
    rt: &R,
    checked: Checked<'_>,
    text: &[u8],
    message: Message<'_>,
    status: u8,
) -> u8 {
    if !checked.voice.is_summary {
        return status;
    }
    let words = match about_of(rt.alloc(), text, message) {
        Ok(Some(words)) => words,
        Ok(None) => return status,
        Err(NoMemory) => return tell_fault(rt, checked, Message::NoMemory),
    };
    let name = checked.name;
    let _ = if checked.is_named {
        eprintln!(rt; "{name}: {words}")
    } else {
        eprintln!(rt; "{words}")
    };
    status
}

// Tells a line that has no effect.
fn tell_notice<R: Eprint>(rt: &R, checked: Checked<'_>, notice: &Noticed) {
    let line = notice_line(notice);
    let name = checked.name;
    let _ = if checked.is_named {
        eprintln!(rt; "{name}: {line}")
    } else {
        eprintln!(rt; "{line}")
    };
}

// Tells the lines that have no effect: each of them, all in one line, or none.
fn tell_notices<R: Eprint + AllocGlobal>(rt: &R, checked: Checked<'_>, notices: &[Noticed]) {
    if checked.voice.is_quiet || notices.is_empty() {
        return;
    }
    if checked.voice.is_summary {
        if let Ok(line) = summary_line(rt.alloc(), notices) {
            let name = checked.name;
            let _ = if checked.is_named {
                eprint!(rt; "{name}: {line}")
            } else {
                eprint!(rt; "{line}")
            };
            return;
        }
    }
    for notice in notices {
        tell_notice(rt, checked, notice);
    }
}

// Adds the line that tells how many statements a program has.
fn put_count(line: &mut String, checked: Checked<'_>, count: usize) -> Result<(), AllocError> {
    if checked.is_named {
        let name = checked.name;
        writeln!(line, "{name}: ok {count} statements")
    } else {
        writeln!(line, "ok {count} statements")
    }
}

// The line that tells how many statements a program has.
fn count_line(alloc: Global, checked: Checked<'_>, count: usize) -> Result<String, AllocError> {
    let mut line = String::new(alloc);
    put_count(&mut line, checked, count)?;
    Ok(line)
}

// Tells that a program is accepted, and gives the exit status.
fn tell_accepted<R: Print + Eprint + AllocGlobal>(
    rt: &R,
    checked: Checked<'_>,
    count: usize,
    notices: &[Noticed],
) -> u8 {
    let Ok(line) = count_line(rt.alloc(), checked, count) else {
        return tell_fault(rt, checked, Message::NoMemory);
    };
    if let Err(message) = print_bytes(rt, line.as_bytes()) {
        return tell_fault(rt, checked, message);
    }
    tell_notices(rt, checked, notices);
    0
}

// Tells all faults of a text, and whether there is one.
fn tell_all<R: Eprint + AllocGlobal>(
    rt: &R,
    checked: Checked<'_>,
    text: &[u8],
) -> Result<bool, NoMemory> {
    let front = if checked.is_named { checked.name } else { "" };
    let found = faults_of(rt.alloc(), &[], text)?;
    let told = all_told(rt.alloc(), front.as_bytes(), text, found.faults.as_slice())?;
    tell_bytes(rt, told.as_slice());
    Ok(!told.is_empty())
}

// Adds lines as they are listed, adjacent ones as their first and their last.
fn put_lines(text: &mut String, lines: &[u32]) -> Result<(), AllocError> {
    let mut first: u32 = 0;
    let mut last: u32 = 0;
    for line in lines {
        if first != 0 && last.wrapping_add(1) == *line {
            last = *line;
            continue;
        }
        put_stretch(text, first, last)?;
        first = *line;
        last = *line;
    }
    put_stretch(text, first, last)
}

// Adds the lines from one to another, nothing where there is none.
fn put_stretch(text: &mut String, first: u32, last: u32) -> Result<(), AllocError> {
    if first == 0 {
        Ok(())
    } else if first == last {
        write!(text, " {first}")
    } else {
        write!(text, " {first}-{last}")
    }
}

// What is printed of a producer's text that is put as a program: how many statements it has, and the lines by which something may be lost.
fn whole_text(alloc: Global, checked: Checked<'_>, facts: &Facts) -> Result<String, AllocError> {
    let mut text = String::new(alloc);
    put_count(&mut text, checked, facts.statements)?;
    let losses = facts.losses.as_slice();
    if losses.is_empty() {
        return Ok(text);
    }
    if checked.is_named {
        let name = checked.name;
        write!(text, "{name}: ")?;
    }
    text.push_str("may be lost or isn't tried: lines")?;
    put_lines(&mut text, losses)?;
    text.push('\n')?;
    Ok(text)
}

// Prints what a producer's text is put as, and gives the exit status.
fn tell_whole<R: Print + Eprint + AllocGlobal>(
    rt: &R,
    checked: Checked<'_>,
    request: &Request<'_, '_>,
    built: &Built,
) -> u8 {
    let facts = &built.whole.facts;
    let Ok(text) = whole_text(rt.alloc(), checked, facts) else {
        return tell_fault(rt, checked, Message::NoMemory);
    };
    match print_bytes(rt, text.as_bytes()) {
        Ok(()) => {}
        Err(Message::Closed) => return 0,
        Err(message) => return tell_fault(rt, checked, message),
    }
    tell_notices(rt, checked, built.whole.notices.as_slice());
    let front = if checked.is_named { checked.name } else { "" };
    let names = built.names.as_slice();
    tell_reading(
        rt,
        checked.voice,
        front,
        Selecting::Part,
        facts,
        names,
        request,
    );
    0
}

// Judges a producer's text as it stands, and gives the exit status.
fn judge_whole<R: Print + Eprint + AllocGlobal>(
    rt: &R,
    checked: Checked<'_>,
    request: &Request<'_, '_>,
    text: &[u8],
) -> u8 {
    match put_whole(rt.alloc(), request, 0, checked.name, text) {
        Ok(built) => match status_of_unused(rt, &built.whole.facts, built.names.as_slice()) {
            Some(status) => status,
            None => tell_whole(rt, checked, request, &built),
        },
        Err(message) => tell_fault(rt, checked, message),
    }
}

// Judges the text of a program, and gives the exit status.
fn judge<R: Print + Eprint + AllocGlobal>(
    rt: &R,
    checked: Checked<'_>,
    request: &Request<'_, '_>,
    text: &[u8],
) -> u8 {
    if checked.is_whole {
        return judge_whole(rt, checked, request, text);
    }
    if checked.is_all {
        match tell_all(rt, checked, text) {
            Ok(false) => {}
            Ok(true) => return 1,
            Err(_) => return tell_fault(rt, checked, Message::NoMemory),
        }
    }
    match counted(rt.alloc(), text) {
        Ok((count, notices)) => tell_accepted(rt, checked, count, notices.as_slice()),
        Err(fault) => {
            let message = fault.told();
            let status = tell_fault(rt, checked, message);
            tell_about(rt, checked, text, message, status)
        }
    }
}

// Checks a program, and gives the exit status.
fn check_one<R: Files + Input + Print + Eprint + AllocGlobal>(
    rt: &R,
    checked: Checked<'_>,
    request: &Request<'_, '_>,
) -> u8 {
    match bytes_of(rt, checked.name) {
        Ok(text) => judge(rt, checked, request, &text),
        Err(message) => tell_fault(rt, checked, message),
    }
}

// Checks programs one after another, and gives the greatest exit status: 1 where one is refused.
fn check_each<R: Files + Input + Print + Eprint + AllocGlobal>(
    rt: &R,
    voice: Voice,
    request: &Request<'_, '_>,
) -> u8 {
    let mut status = 0;
    let is_named = request.programs().len() > 1;
    let is_all = request.has(Choice::All);
    let is_whole = request.has(Choice::Whole);
    for name in request.programs() {
        let checked = Checked {
            name,
            is_named,
            is_all,
            is_whole,
            voice,
        };
        status = check_one(rt, checked, request).max(status);
    }
    status
}

// Prints what producers' texts are put as, and gives the exit status.
fn check_whole<R: Files + Input + Print + Eprint + AllocGlobal>(
    rt: &R,
    voice: Voice,
    request: &Request<'_, '_>,
) -> u8 {
    if request.has(Choice::All) {
        return fails(rt, ALL);
    }
    match choices_of(rt.alloc(), request, &[], 0) {
        Ok(choices) => {
            drop(choices);
            check_each(rt, voice, request)
        }
        Err(message) => fails(rt, message),
    }
}

/// Prints whether programs are accepted, with all faults where `--all` stands, or what they are put as where `--whole` does, and gives
/// the exit status.
pub fn check_programs<R: Files + Input + Print + Eprint + AllocGlobal>(
    rt: &R,
    voice: Voice,
    request: &Request<'_, '_>,
) -> u8 {
    if request.has(Choice::Whole) {
        return check_whole(rt, voice, request);
    }
    let is_all = request.has(Choice::All);
    match request.programs() {
        [name] if !is_all && *name != "-" => check_file(rt, voice, name),
        _ => check_each(rt, voice, request),
    }
}
