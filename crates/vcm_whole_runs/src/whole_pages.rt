//! The page of a run of a producer's text as it stands: the text as it was read, and what of it wasn't tried.

use crate::whole_views::{Beside, Report};
use std::alloc::{AllocError, Global};
use std::fmt::Write as _;
use std::io::Write;
use vcm_devices::{
    NamedSetting, boxes_element_of, names_element, output, put_name, story_of, written,
};
use vcm_job::{Done, Given, RunFault};
use vcm_messages::{Message, message_of};
use vcm_num::{WriteFault, write_pieces};
use vcm_short_names::{ShortName, lengthen_names};
use vcm_untried::{About, Knowing, Marked, Marking, NamedFrame, Row, about_words};
use vcm_viewer::{back, front};

// What stands in a page of a run: its story, and what stands behind that.
#[derive(Drop)]
struct Parts {
    story: Vec<u8>,
    names: Vec<u8>,
    boxes: Vec<u8>,
    untried: Vec<u8>,
}

// Adds a letter and numbers after it, with blanks between them.
fn put_numbers(
    out: &mut Vec<u8>,
    alloc: Global,
    key: &str,
    numbers: &[u64],
) -> Result<(), AllocError> {
    let mut row = String::new(alloc);
    row.push_str(key)?;
    for number in numbers {
        write!(row, " {number}")?;
    }
    out.extend_from_slice(row.as_bytes())
}

// Adds words as they are spelled in an element, and ends the row.
fn put_words(out: &mut Vec<u8>, words: &[u8]) -> Result<(), RunFault> {
    put_name(out, words)?;
    match out.push(b'\n') {
        Ok(()) => Ok(()),
        Err(_) => Err(RunFault::NoMemory),
    }
}

// Adds a row of numbers.
fn put_row(out: &mut Vec<u8>, alloc: Global, key: &str, numbers: &[u64]) -> Result<(), RunFault> {
    match put_numbers(out, alloc, key, numbers) {
        Ok(()) => put_words(out, b""),
        Err(_) => Err(RunFault::NoMemory),
    }
}

// Adds what is reported of a line: U, the line, how often, and the words.
fn put_report(
    out: &mut Vec<u8>,
    alloc: Global,
    row: &Row,
    frames: &[NamedFrame],
) -> Result<(), RunFault> {
    let Ok(()) = put_numbers(out, alloc, "U", &[u64::from(row.line), row.count]) else {
        return Err(RunFault::NoMemory);
    };
    let Ok(()) = out.push(b' ') else {
        return Err(RunFault::NoMemory);
    };
    match about_words(alloc, row.about, frames) {
        Ok(words) => put_words(out, &words),
        Err(_) => Err(RunFault::NoMemory),
    }
}

// Adds the line from which on nothing is tried, if there is one, likewise.
fn put_end(out: &mut Vec<u8>, alloc: Global, end: Option<u32>) -> Result<(), RunFault> {
    let Some(line) = end else {
        return Ok(());
    };
    match put_numbers(out, alloc, "U", &[u64::from(line), 1]) {
        Ok(()) => put_words(out, b" nothing is tried from here on"),
        Err(_) => Err(RunFault::NoMemory),
    }
}

// Whether the same is reported.
fn is_same(one: About, other: About) -> bool {
    match (one, other) {
        (About::NotTried(cause, since), About::NotTried(its, line)) => {
            cause == its && since == line
        }
        (About::Approached, About::Approached) => true,
        (About::BeginsElsewhere, About::BeginsElsewhere) => true,
        (About::NotReported, About::NotReported) => true,
        (About::AnotherTip, About::AnotherTip) => true,
        (About::NotInFile, About::NotInFile) => true,
        _ => false,
    }
}

/// The place of the row that reports this of a line.
pub fn place_of(rows: &[Row], marked: &Marked) -> u64 {
    let mut at: u64 = 0;
    for row in rows {
        if row.line == marked.line && is_same(row.about, marked.about) {
            return at;
        }
        at = at.saturating_add(1);
    }
    0
}

// Adds a step behind which something else is known: Y, the step, and whether the frame, the mode, the table and the place are.
fn put_knowing(out: &mut Vec<u8>, alloc: Global, knowing: &Knowing) -> Result<(), RunFault> {
    let known = knowing.known;
    let row = [
        knowing.step,
        u64::from(known.frame),
        u64::from(known.mode),
        u64::from(known.table),
        u64::from(known.place),
    ];
    put_row(out, alloc, "Y", &row)
}

// Adds what the steps report: M, the step and the place of its row; E and the step of a way that begins elsewhere; and what is known.
fn put_steps(
    out: &mut Vec<u8>,
    alloc: Global,
    rows: &[Row],
    marking: &Marking,
) -> Result<(), RunFault> {
    for marked in &marking.marks {
        put_row(out, alloc, "M", &[marked.step, place_of(rows, marked)])?;
    }
    for step in &marking.elsewhere {
        put_row(out, alloc, "E", &[*step])?;
    }
    for knowing in &marking.changes {
        put_knowing(out, alloc, knowing)?;
    }
    Ok(())
}

// Adds bytes.
fn put(out: &mut Vec<u8>, bytes: &[u8]) -> Result<(), RunFault> {
    match out.extend_from_slice(bytes) {
        Ok(()) => Ok(()),
        Err(_) => Err(RunFault::NoMemory),
    }
}

// The element of a page that tells what wasn't tried: W and each line of the report, and then what is reported of each line and at each step; nothing where the text is
// run as it is written.
fn untried_element(
    alloc: Global,
    report: &Report,
    frames: &[NamedFrame],
) -> Result<Vec<u8>, RunFault> {
    let mut out = Vec::new(alloc);
    let Some(marking) = &report.marking else {
        return Ok(out);
    };
    put(&mut out, b"<script type=\"text/plain\" id=\"untried\">\n")?;
    for line in &report.lines {
        put(&mut out, b"W ")?;
        put_words(&mut out, line.as_slice())?;
    }
    let rows = report.counts.told.rows.as_slice();
    for row in rows {
        put_report(&mut out, alloc, row, frames)?;
    }
    put_end(&mut out, alloc, report.counts.told.end)?;
    put_steps(&mut out, alloc, rows, marking)?;
    put(&mut out, b"</script>\n")?;
    Ok(out)
}

// The parts of the page of a run of what was given, with the names that the text has.
fn parts_of(
    alloc: Global,
    setting: &NamedSetting,
    beside: &Beside,
    given: Given,
    names: &[ShortName],
    report: &Report,
    frames: &[NamedFrame],
) -> Result<(Done, Parts), RunFault> {
    let (part, steps) = (&setting.part, setting.steps);
    let boxes = boxes_element_of(
        alloc,
        part,
        beside.boxes.as_ref(),
        report.behind_ways(),
        &given,
        steps,
    )?;
    let untried = untried_element(alloc, report, frames)?;
    let block_names = names_element(alloc, setting.block_names.as_slice())?;
    let (done, story) = story_of(alloc, part, given, steps)?;
    match lengthen_names(alloc, names, &story) {
        Ok(story) => Ok((
            done,
            Parts {
                story,
                names: block_names,
                boxes,
                untried,
            },
        )),
        Err(_) => Err(RunFault::NoMemory),
    }
}

// Writes a page.
fn write_parts<W: Write>(out: &mut W, parts: &Parts) -> Result<(), WriteFault> {
    write_pieces(out, &front())?;
    write_pieces(
        out,
        &[
            parts.story.as_slice(),
            parts.names.as_slice(),
            parts.boxes.as_slice(),
            parts.untried.as_slice(),
        ],
    )?;
    write_pieces(out, &back())
}

/// Prints the page of a run of what was given, which shows this text.
pub fn print_page<'a, R: Print + AllocGlobal>(
    rt: &R,
    setting: &NamedSetting,
    beside: &Beside,
    given: Given,
    names: &[ShortName],
    report: &Report,
    frames: &[NamedFrame],
    input: &'a str,
) -> Result<Done, Message<'a>> {
    let (done, parts) = match parts_of(rt.alloc(), setting, beside, given, names, report, frames) {
        Ok(parts) => parts,
        Err(fault) => return Err(message_of(fault, input)),
    };
    let mut out = output(rt)?;
    let told = write_parts(&mut out, &parts).map_err(|_| Message::Write {
        name: "standard output",
    });
    match written(&mut out, told) {
        Ok(()) => Ok(done),
        Err(message) => Err(message),
    }
}
