//! One of many programs, tried beside its workpiece.

use std::alloc::{AllocError, Global};
use std::fmt::Write as _;
use std::io;
use std::rt::Files;
use vcm_boxes::Boxes;
use vcm_devices::{PartFile, Request, Voice, bytes_of, part_file_given};
use vcm_job::{Given, given_of, show, status_of};
use vcm_judge::{Clearing, Measured, Outcome, Ran, Verdict, digest_of};
use vcm_loader::{Loaded, load};
use vcm_margin::margin;
use vcm_meant::meant;
use vcm_messages::{Message, Told as _, message_of, status_of as message_status};
use vcm_motion::AnyPart;
use vcm_num::NoMemory;
use vcm_part::PartData;
use vcm_remarks::NumberedRemark;
use vcm_report::{name_at, write_end_line};
use vcm_spec::StopPlace;
use vcm_summary::{Findings, Summary, summarize};
use vcm_telling::unused_text;
use vcm_untried::{count_remarks, untried_motions, was_all_tried};
use vcm_usage::Choice;
use vcm_views::Clearance;
use vcm_whole_runs::{Built, put_whole, unused_name};

/// What all programs share: the workpiece and the name of its file, if there is one for all, the boxes of the probe, and the most steps of a run.
#[derive(Clone, Copy)]
pub(crate) struct Judging<'a> {
    pub(crate) part: &'a Option<PartFile>,
    pub(crate) part_name: &'a str,
    pub(crate) boxes: &'a Option<Boxes>,
    pub(crate) steps: u64,
}

// What isn't told of a program yet.
fn opening(alloc: Global, name: &str, part: &str) -> Result<Verdict, NoMemory> {
    let mut verdict = Verdict {
        program: String::new(alloc),
        part: String::new(alloc),
        outcome: Outcome::NoMemory,
        words: String::new(alloc),
        statements: None,
        notices: 0,
        ran: None,
        program_digest: String::new(alloc),
        part_digest: String::new(alloc),
    };
    verdict.program.push_str(name)?;
    verdict.part.push_str(part)?;
    Ok(verdict)
}

// How a program fared that vcm ends with this exit status.
fn outcome_of(status: u8) -> Outcome {
    match status {
        0 => Outcome::Ended,
        3 => Outcome::Stopped,
        4 => Outcome::OutOfSteps,
        5 => Outcome::NoMemory,
        6 => Outcome::Device,
        7 => Outcome::NotAllTried,
        _ => Outcome::Refused,
    }
}

// A program that can't be tried, and why.
fn failed(verdict: &mut Verdict, message: Message<'_>) -> Result<(), AllocError> {
    verdict.outcome = outcome_of(message_status(message));
    write!(verdict.words, "{message}")
}

// The name of the part file of a program: `a/b.toml` of `a/b.dmi`.
fn part_name_of(alloc: Global, program: &str) -> Result<String, NoMemory> {
    let mut name = String::new(alloc);
    let stem = match program.rsplit_once('.') {
        Some((stem, end)) if !end.as_bytes().contains(&b'/') => stem,
        _ => program,
    };
    name.push_str(stem)?;
    name.push_str(".toml")?;
    Ok(name)
}

// A program as it is run: its image, its remarks, and how many statements it has and notices there are of it.
#[derive(Drop)]
struct Program {
    given: Given,
    remarks: Vec<NumberedRemark>,
    statements: Option<u64>,
    is_whole: bool,
}

// A producer's text as it stands.
fn whole_program<'a>(
    alloc: Global,
    request: &Request<'_, '_>,
    tip: u32,
    name: &'a str,
    text: &[u8],
) -> Result<Program, Message<'a>> {
    let Built { whole, names, .. } = put_whole(alloc, request, tip, name, text)?;
    if unused_name(&whole.facts, names.as_slice()).is_some() {
        return Err(UNUSED);
    }
    Ok(Program {
        given: Given {
            image: whole.image,
            text: None,
            notices: whole.notices,
        },
        remarks: whole.remarks,
        statements: Some(whole.facts.statements as u64),
        is_whole: true,
    })
}

const UNUSED: Message<'static> = Message::Option {
    words: "the text never asks for a name of --frame or --given",
};

// The program of a text or an image.
fn program_of<'a>(
    alloc: Global,
    request: &Request<'_, '_>,
    tip: u32,
    name: &'a str,
    text: Vec<u8>,
) -> Result<Program, Message<'a>> {
    if request.has(Choice::Whole) {
        return whole_program(alloc, request, tip, name, &text);
    }
    match given_of(alloc, text) {
        Ok(given) => Ok(Program {
            given,
            remarks: Vec::new(alloc),
            statements: None,
            is_whole: false,
        }),
        Err(fault) => Err(message_of(fault, name)),
    }
}

/// The words of the line that tells how a run ended.
pub(crate) fn end_words(
    alloc: Global,
    loaded: &Loaded<'_>,
    stop: Option<StopPlace>,
    done: u64,
) -> Result<String, NoMemory> {
    let tables = loaded.tables(alloc)?;
    let mut line = Vec::new(alloc);
    let Ok(()) = write_end_line(&tables, stop, done, &mut line) else {
        return Err(NoMemory);
    };
    let mut words = String::new(alloc);
    words.push_str(std::str::from_utf8(&line).unwrap_or("").trim_end())?;
    Ok(words)
}

// The measured point that lies farthest off.
fn measured_of(
    alloc: Global,
    loaded: &Loaded<'_>,
    findings: &Findings,
) -> Result<Option<Measured>, NoMemory> {
    let Some(greatest) = findings.greatest else {
        return Ok(None);
    };
    let tables = loaded.tables(alloc)?;
    let name = name_at(tables.features(), greatest.feature);
    let mut feature = String::new(alloc);
    feature.push_str(std::str::from_utf8(name).unwrap_or("?"))?;
    Ok(Some(Measured {
        size: greatest.size,
        feature,
        line: greatest.line,
    }))
}

// The number that the line of a box tells after its name and this word.
fn number_after(line: &str, word: &str) -> Option<u64> {
    let (_, behind) = line.strip_prefix("box ")?.split_once(' ')?;
    let (first, number) = behind.split_once(' ')?;
    if first == word {
        number.parse::<u64>().ok()
    } else {
        None
    }
}

// How the boxes of a probe go, of the lines that tell their clearance.
fn clearing_of(text: &str) -> Clearing {
    let mut met: u64 = 0;
    let mut least: Option<u64> = None;
    for line in text.split('\n') {
        if number_after(line, "met").is_some() {
            met = met.saturating_add(1);
        }
        if let Some(room) = number_after(line, "clear") {
            least = match least {
                Some(known) if known <= room => Some(known),
                _ => Some(room),
            };
        }
    }
    match least {
        _ if met != 0 => Clearing::Met(met),
        Some(room) => Clearing::Clear(room),
        None => Clearing::Unknown,
    }
}

// How the boxes of a probe go in the run of a program, and the exit status of that.
fn cleared(
    alloc: Global,
    boxes: &Boxes,
    given: &Given,
    part: &PartData,
    steps: u64,
) -> Result<(Clearing, u8), NoMemory> {
    let view = Clearance {
        boxes,
        untried: &[],
        block_names: &[],
        tells_calls: false,
    };
    let mut out = Vec::new(alloc);
    match show(alloc, &view, given, part, steps, &mut out) {
        Ok(status) => {
            let text = std::str::from_utf8(&out).unwrap_or("");
            Ok((clearing_of(text), status))
        }
        Err(_) => Err(NoMemory),
    }
}

// How many motions of a producer's text weren't tried, and whether all of it was.
fn untried_of(
    alloc: Global,
    workpiece: &AnyPart,
    loaded: &Loaded<'_>,
    steps: u64,
    remarks: &[NumberedRemark],
) -> Result<(u64, bool), NoMemory> {
    match count_remarks(alloc, workpiece, loaded, steps, remarks) {
        Ok(counts) => Ok((untried_motions(&counts), was_all_tried(&counts))),
        Err(_) => Err(NoMemory),
    }
}

// Fills in what a run came to.
fn fill_in(
    alloc: Global,
    verdict: &mut Verdict,
    judging: &Judging<'_>,
    part: &PartData,
    program: &Program,
    loaded: &Loaded<'_>,
) -> Result<(), NoMemory> {
    let workpiece = AnyPart::of(alloc, part)?;
    let steps = judging.steps;
    let Ok(summary) = summarize(alloc, &workpiece, loaded, steps, 0) else {
        return Err(NoMemory);
    };
    let Summary {
        stop,
        done,
        findings,
    } = summary;
    let mut status = status_of(stop);
    verdict.words = end_words(alloc, loaded, stop, done)?;
    let mut ran = Ran {
        steps: done,
        points: findings.points,
        greatest: measured_of(alloc, loaded, &findings)?,
        margin: None,
        clearing: None,
        untried: 0,
        remarks: 0,
    };
    if status == 0 {
        ran.margin = Some(margin(alloc, loaded, part, done)?.tip);
    }
    if let Some(boxes) = judging.boxes {
        let (clearing, met) = cleared(alloc, boxes, &program.given, part, steps)?;
        ran.clearing = Some(clearing);
        status = if met == 3 { 3 } else { status };
    }
    if !program.is_whole {
        ran.remarks = meant(alloc, loaded, &workpiece, part, steps)?.len() as u64;
    }
    if program.is_whole {
        let (untried, is_all) = untried_of(alloc, &workpiece, loaded, steps, &program.remarks)?;
        ran.untried = untried;
        status = if status == 0 && !is_all { 7 } else { status };
    }
    verdict.outcome = outcome_of(status);
    verdict.ran = Some(ran);
    Ok(())
}

// Tries a program beside a workpiece.
fn try_program(
    alloc: Global,
    request: &Request<'_, '_>,
    judging: &Judging<'_>,
    verdict: &mut Verdict,
    part: &PartFile,
    text: Vec<u8>,
    name: &str,
) -> Result<(), NoMemory> {
    verdict.part_digest = digest_of(alloc, &part.bytes)?;
    let tip = part.part.bounds().tip;
    let program = match program_of(alloc, request, tip, name, text) {
        Ok(program) => program,
        Err(message) => {
            failed(verdict, message)?;
            return Ok(());
        }
    };
    let statements = program.statements;
    let notices = program.given.notices.len() as u64;
    let loaded = match load(alloc, &program.given.image) {
        Ok(loaded) => loaded,
        Err(fault) => {
            failed(verdict, fault.told())?;
            return Ok(());
        }
    };
    verdict.statements = match statements {
        Some(count) => Some(count),
        None => Some(loaded.statement_count() as u64),
    };
    verdict.notices = notices;
    fill_in(alloc, verdict, judging, &part.part, &program, &loaded)
}

// How many lines a text has.
fn lines_in(text: &str) -> u64 {
    let mut count: u64 = 0;
    for byte in text.as_bytes() {
        if *byte == b'\n' {
            count = count.saturating_add(1);
        }
    }
    count
}

// Whether a file is there that can be opened.
fn is_there<R: Files>(rt: &R, name: &str) -> Result<bool, NoMemory> {
    match std::fs::open(rt, name) {
        Ok(file) => {
            drop(file);
            Ok(true)
        }
        Err(error) if error.kind() == io::ErrorKind::OutOfMemory => Err(NoMemory),
        Err(_) => Ok(false),
    }
}

// Tries a program beside a workpiece of its own, whose file has this name.
fn try_beside_own<R: Files + Input + Eprint + AllocGlobal>(
    rt: &R,
    voice: Voice,
    request: &Request<'_, '_>,
    judging: &Judging<'_>,
    verdict: &mut Verdict,
    part_name: &str,
    text: Vec<u8>,
    name: &str,
) -> Result<(), NoMemory> {
    if !is_there(rt, part_name)? {
        verdict.outcome = Outcome::Refused;
        verdict.words.push_str("no part")?;
        return Ok(());
    }
    let heard = Voice {
        is_quiet: true,
        ..voice
    };
    match part_file_given(rt, heard, request, part_name) {
        Ok(part) => {
            try_program(rt.alloc(), request, judging, verdict, &part, text, name)?;
            let keys = unused_text(rt.alloc(), &part.bytes)?;
            verdict.notices = verdict.notices.saturating_add(lines_in(&keys));
            Ok(())
        }
        Err(told) => {
            failed(verdict, told.message)?;
            Ok(())
        }
    }
}

// Tries a program beside the workpiece of all, or its own.
fn try_text<R: Files + Input + Eprint + AllocGlobal>(
    rt: &R,
    voice: Voice,
    request: &Request<'_, '_>,
    judging: &Judging<'_>,
    verdict: &mut Verdict,
    text: Vec<u8>,
    name: &str,
) -> Result<(), NoMemory> {
    verdict.program_digest = digest_of(rt.alloc(), &text)?;
    match judging.part {
        Some(part) => try_program(rt.alloc(), request, judging, verdict, part, text, name),
        None => {
            let part_name = part_name_of(rt.alloc(), name)?;
            verdict.part.push_str(&part_name)?;
            try_beside_own(rt, voice, request, judging, verdict, &part_name, text, name)
        }
    }
}

/// What is said of a program.
///
/// Errors: want of memory for what is said; where memory is refused to its run, that is said.
pub(crate) fn judge_program<R: Files + Input + Eprint + AllocGlobal>(
    rt: &R,
    voice: Voice,
    request: &Request<'_, '_>,
    judging: &Judging<'_>,
    name: &str,
) -> Result<Verdict, NoMemory> {
    let mut verdict = opening(rt.alloc(), name, judging.part_name)?;
    let tried = match bytes_of(rt, name) {
        Ok(text) => try_text(rt, voice, request, judging, &mut verdict, text, name),
        Err(message) => {
            failed(&mut verdict, message)?;
            Ok(())
        }
    };
    if tried.is_err() {
        verdict.outcome = Outcome::NoMemory;
        verdict.words.clear();
        verdict.words.push_str("no memory")?;
    }
    Ok(verdict)
}
