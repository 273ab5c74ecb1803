//! Many programs in one go: each is tried beside its workpiece.

use crate::judged::{Judging, judge_program};
use std::alloc::{AllocError, Global};
use std::fmt::Write as _;
use std::rt::Files;
use vcm_boxes::{Boxes, read_boxes};
use vcm_devices::{
    PartFile, Request, Told, Voice, alone, bytes_of, fails, fails_twice, is_one_file,
    part_file_given, print_bytes,
};
use vcm_judge::{
    Counts, Outcome, Verdict, count_outcomes, counts_line, csv_heading, csv_row, digest_of,
    junit_report, report_page, status_of_outcomes, verdict_line,
};
use vcm_messages::{Message, probe_message};
use vcm_num::write_all;
use vcm_usage::{Choice, VERSION};

const SAME_FILE: Message<'static> = Message::Option {
    words: "--junit and --report want files of their own, which no word of the command line names",
};

// The probe of all programs: its file's name and digest, both empty where there is none, and its boxes.
#[derive(Drop)]
struct Probe<'a> {
    name: &'a str,
    digest: String,
    boxes: Option<Boxes>,
}

// The probe file of a command line, if it names one.
fn probe_of<'a, R: Files + Input + Eprint + AllocGlobal>(
    rt: &R,
    request: &Request<'a, '_>,
) -> Result<Probe<'a>, u8> {
    let Some(name) = request.value(Choice::Probe) else {
        return Ok(Probe {
            name: "",
            digest: String::new(rt.alloc()),
            boxes: None,
        });
    };
    let bytes = match bytes_of(rt, name) {
        Ok(bytes) => bytes,
        Err(message) => return Err(fails(rt, message)),
    };
    let Ok(digest) = digest_of(rt.alloc(), &bytes) else {
        return Err(fails(rt, Message::NoMemory));
    };
    match read_boxes(rt.alloc(), &bytes) {
        Ok(boxes) => Ok(Probe {
            name,
            digest,
            boxes: Some(boxes),
        }),
        Err(fault) => Err(fails(rt, probe_message(&fault))),
    }
}

// The workpiece of all programs, if the command line names one.
fn shared_part<'a, R: Files + Input + Eprint + AllocGlobal>(
    rt: &R,
    voice: Voice,
    request: &Request<'a, '_>,
) -> Result<Option<PartFile>, Told<'a>> {
    match request.value(Choice::Beside) {
        Some(name) => Ok(Some(part_file_given(rt, voice, request, name)?)),
        None => Ok(None),
    }
}

// What is kept of all programs: their outcomes, and their verdicts where a report is asked for.
#[derive(Drop)]
struct Kept {
    outcomes: Vec<Outcome>,
    verdicts: Vec<Verdict>,
    is_kept: bool,
}

// Prints what is said of a program, and keeps what is needed later.
fn keep<R: Print + AllocGlobal>(
    rt: &R,
    is_csv: bool,
    kept: &mut Kept,
    verdict: Verdict,
) -> Result<(), Message<'static>> {
    let line = if is_csv {
        csv_row(rt.alloc(), &verdict)
    } else {
        verdict_line(rt.alloc(), &verdict)
    };
    let Ok(line) = line else {
        return Err(Message::NoMemory);
    };
    print_bytes(rt, line.as_bytes())?;
    if kept.outcomes.push(verdict.outcome).is_err() {
        return Err(Message::NoMemory);
    }
    if kept.is_kept && kept.verdicts.push(verdict).is_err() {
        return Err(Message::NoMemory);
    }
    Ok(())
}

// Tells at a terminal how far it is.
fn tell_progress<R: Eprint>(rt: &R, voice: Voice, at: usize, count: usize) {
    if voice.is_summary && at % 100 == 99 {
        let at = at.saturating_add(1);
        let _ = eprintln!(rt; "{at} of {count} programs");
    }
}

// Tries all programs.
fn judge_each<R: Files + Input + Print + Eprint + AllocGlobal>(
    rt: &R,
    voice: Voice,
    request: &Request<'_, '_>,
    judging: &Judging<'_>,
    kept: &mut Kept,
) -> Result<(), Message<'static>> {
    let is_csv = request.has(Choice::Csv);
    if is_csv {
        print_bytes(rt, csv_heading().as_bytes())?;
    }
    let programs = request.programs();
    let count = programs.len();
    let mut at: usize = 0;
    for name in programs {
        match judge_program(rt, voice, request, judging, name) {
            Ok(verdict) => keep(rt, is_csv, kept, verdict)?,
            Err(_) => return Err(Message::NoMemory),
        }
        tell_progress(rt, voice, at, count);
        at = at.saturating_add(1);
    }
    Ok(())
}

// Writes a text to a file.
fn write_file<'a, R: Files>(rt: &R, name: &'a str, text: &str) -> Result<(), Message<'a>> {
    let Ok(mut file) = std::fs::create(rt, name) else {
        return Err(Message::Write { name });
    };
    match write_all(&mut file, text.as_bytes()) {
        Ok(()) => Ok(()),
        Err(_) => Err(Message::Write { name }),
    }
}

// Adds an option that is there, with its value.
fn put_asked(text: &mut String, name: &str, value: Option<&str>) -> Result<(), AllocError> {
    match value {
        Some(value) => write!(text, " --{name} {value}"),
        None => Ok(()),
    }
}

// What was asked for, as words of a command line without the programs.
fn asked_words(alloc: Global, request: &Request<'_, '_>) -> Result<String, AllocError> {
    let mut text = String::new(alloc);
    text.push_str("vcm judge")?;
    for choice in request.usage().choices {
        let name = choice.spelled().name;
        match choice {
            Choice::Frame | Choice::Given | Choice::Harmless => {
                for value in request.values(*choice) {
                    put_asked(&mut text, name, Some(*value))?;
                }
            }
            Choice::Whole | Choice::Auto | Choice::Approached | Choice::Strict | Choice::Csv => {
                if request.has(*choice) {
                    write!(text, " --{name}")?;
                }
            }
            _ => put_asked(&mut text, name, request.value(*choice))?,
        }
    }
    Ok(text)
}

// The page to be filed.
fn page_of(
    alloc: Global,
    request: &Request<'_, '_>,
    probe: &Probe<'_>,
    kept: &Kept,
    counts: &Counts,
) -> Result<String, AllocError> {
    let asked = asked_words(alloc, request)?;
    report_page(
        alloc,
        kept.verdicts.as_slice(),
        counts,
        VERSION,
        &asked,
        probe.name,
        &probe.digest,
    )
}

// Writes the reports that are asked for.
fn write_reports<'a, R: Files + AllocGlobal>(
    rt: &R,
    request: &Request<'a, '_>,
    probe: &Probe<'_>,
    kept: &Kept,
    counts: &Counts,
) -> Result<(), Message<'a>> {
    if let Some(name) = request.value(Choice::JUnit) {
        match junit_report(rt.alloc(), kept.verdicts.as_slice(), counts) {
            Ok(text) => write_file(rt, name, &text)?,
            Err(_) => return Err(Message::NoMemory),
        }
    }
    if let Some(name) = request.value(Choice::Report) {
        match page_of(rt.alloc(), request, probe, kept, counts) {
            Ok(text) => write_file(rt, name, &text)?,
            Err(_) => return Err(Message::NoMemory),
        }
    }
    Ok(())
}

// Prints the counts, unless CSV is asked for.
fn print_counts<R: Print + AllocGlobal>(
    rt: &R,
    request: &Request<'_, '_>,
    total: usize,
    counts: &Counts,
) -> Result<(), Message<'static>> {
    if request.has(Choice::Csv) {
        return Ok(());
    }
    match counts_line(rt.alloc(), total, counts) {
        Ok(line) => print_bytes(rt, line.as_bytes()),
        Err(_) => Err(Message::NoMemory),
    }
}

// Tries all programs, prints what is said of them and writes the reports, and gives the exit status.
fn judge_all<'a, R: Files + Input + Print + Eprint + AllocGlobal>(
    rt: &R,
    voice: Voice,
    request: &Request<'a, '_>,
    judging: &Judging<'_>,
    probe: &Probe<'_>,
) -> Result<u8, Message<'a>> {
    let alloc = rt.alloc();
    let mut kept = Kept {
        outcomes: Vec::new(alloc),
        verdicts: Vec::new(alloc),
        is_kept: request.value(Choice::JUnit).is_some() || request.value(Choice::Report).is_some(),
    };
    judge_each(rt, voice, request, judging, &mut kept)?;
    let counts = count_outcomes(kept.outcomes.as_slice());
    print_counts(rt, request, kept.outcomes.len(), &counts)?;
    write_reports(rt, request, probe, &kept, &counts)?;
    Ok(status_of_outcomes(kept.outcomes.as_slice()))
}

// Whether a file that is written, if there is one, is the one that is read.
fn is_read<R: Files>(rt: &R, read: &str, written: Option<&str>) -> bool {
    match written {
        Some(written) => is_one_file(rt, read, written),
        None => false,
    }
}

// Whether a file that is written is one that is read, or both reports are one file.
fn has_same_file<R: Files>(rt: &R, request: &Request<'_, '_>) -> bool {
    let junit = request.value(Choice::JUnit);
    let report = request.value(Choice::Report);
    if let Some(junit) = junit {
        if is_read(rt, junit, report) {
            return true;
        }
    }
    for name in request.programs() {
        if is_read(rt, name, junit) || is_read(rt, name, report) {
            return true;
        }
    }
    for choice in [Choice::Beside, Choice::Probe] {
        if let Some(read) = request.value(choice) {
            if is_read(rt, read, junit) || is_read(rt, read, report) {
                return true;
            }
        }
    }
    false
}

// Tries programs beside the workpiece and with the probe of the command line, and gives the exit status.
fn judge_beside<R: Files + Input + Print + Eprint + AllocGlobal>(
    rt: &R,
    voice: Voice,
    request: &Request<'_, '_>,
    steps: u64,
) -> u8 {
    let part = match shared_part(rt, voice, request) {
        Ok(part) => part,
        Err(told) => return fails_twice(rt, &told),
    };
    let probe = match probe_of(rt, request) {
        Ok(probe) => probe,
        Err(status) => return status,
    };
    let judging = Judging {
        part: &part,
        part_name: request.value(Choice::Beside).unwrap_or(""),
        boxes: &probe.boxes,
        steps,
    };
    match judge_all(rt, voice, request, &judging, &probe) {
        Ok(status) => status,
        Err(Message::Closed) => 0,
        Err(message) => fails(rt, message),
    }
}

/// Tries programs, each beside its workpiece, prints a line for each, and gives the exit status: the first of 6, 5, 1, 3, 4 and 7 that a program had, else 0.
pub fn judge_programs<R: Files + Input + Print + Eprint + AllocGlobal>(
    rt: &R,
    voice: Voice,
    request: &Request<'_, '_>,
) -> u8 {
    if has_same_file(rt, request) {
        return fails(rt, SAME_FILE);
    }
    match request.steps() {
        Some(steps) => judge_beside(rt, voice, request, steps),
        None => fails(rt, Message::Steps),
    }
}
