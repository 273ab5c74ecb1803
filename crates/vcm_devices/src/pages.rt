//! The page of a run, on the standard devices.

use crate::printing::{DASH, STANDARD_INPUT, output, written};
use crate::request::Request;
use crate::showing::{NamedSetting, named_setting_of, status_shown};
use crate::talking::{Voice, fails_twice};
use itoa::Buffer;
use std::alloc::{AllocError, Global};
use std::fmt::Write as _;
use std::io::{Read, Write};
use std::rt::Files;
use vcm_boxes::{Boxes, ProbeBox};
use vcm_job::{Done, Given, RunFault, given_of, read_all, show, show_given};
use vcm_messages::{Message, message_of};
use vcm_num::{Point, write_all};
use vcm_page::{Page, Texts};
use vcm_part::PartData;
use vcm_rows::write_spelled;
use vcm_viewer::{back, front};
use vcm_views::{Clearance, Why};

// What a page is of: a workpiece with the names of its blocks, and the boxes that are fixed to the tip, if some are given.
#[derive(Clone, Copy)]
struct Subject<'a> {
    boxes: Option<&'a Boxes>,
    part: &'a PartData,
    block_names: &'a [Vec<u8>],
}

// Adds a box as a line: Q, its name and its corners in micrometres.
fn put_box(text: &mut String, tried: &ProbeBox) -> Result<(), AllocError> {
    let name = std::str::from_utf8(tried.name.as_bytes()).unwrap_or("");
    let Point([a, b, c]) = tried.block.low;
    let Point([d, e, f]) = tried.block.high;
    writeln!(text, "Q {name} {a} {b} {c} {d} {e} {f}")
}

// The boxes as lines.
fn box_lines(alloc: Global, boxes: &Boxes) -> Result<String, AllocError> {
    let mut text = String::new(alloc);
    for tried in boxes.as_slice() {
        put_box(&mut text, tried)?;
    }
    Ok(text)
}

// Writes bytes to memory.
fn put(out: &mut Vec<u8>, bytes: &[u8]) -> Result<(), RunFault> {
    match write_all(out, bytes) {
        Ok(()) => Ok(()),
        Err(_) => Err(RunFault::NoMemory),
    }
}

// The element of a page that tells of boxes: their lines, and their clearance in the run of what was read, with these bytes behind the number of ways.
fn boxes_element(
    alloc: Global,
    part: &PartData,
    boxes: &Boxes,
    untried: &[u8],
    given: &Given,
    steps: u64,
) -> Result<Vec<u8>, RunFault> {
    let Ok(lines) = box_lines(alloc, boxes) else {
        return Err(RunFault::NoMemory);
    };
    let mut out = Vec::new(alloc);
    put(
        &mut out,
        b"<script type=\"text/plain\" id=\"probe-boxes\">\n",
    )?;
    put(&mut out, lines.as_bytes())?;
    // The script of the page reads these lines, which have no names of blocks and no CALLs.
    let view = Clearance {
        boxes,
        untried,
        block_names: &[],
        tells_calls: false,
    };
    match show(alloc, &view, given, part, steps, &mut out) {
        Ok(_) => {}
        Err(RunFault::Write { .. }) => return Err(RunFault::NoMemory),
        Err(fault) => return Err(fault),
    }
    put(&mut out, b"</script>\n")?;
    Ok(out)
}

/// What a page tells of boxes that are fixed to the tip, with these bytes behind the number of ways; nothing where no boxes are given.
pub fn boxes_element_of(
    alloc: Global,
    part: &PartData,
    boxes: Option<&Boxes>,
    untried: &[u8],
    given: &Given,
    steps: u64,
) -> Result<Vec<u8>, RunFault> {
    match boxes {
        Some(boxes) => boxes_element(alloc, part, boxes, untried, given, steps),
        None => Ok(Vec::new(alloc)),
    }
}

/// Adds a name as it is spelled in an element: `<` and `%` by their bytes.
pub fn put_name(out: &mut Vec<u8>, name: &[u8]) -> Result<(), RunFault> {
    for byte in name {
        match *byte {
            b'<' => put(out, b"%3C")?,
            b'%' => put(out, b"%25")?,
            byte => put(out, &[byte])?,
        }
    }
    Ok(())
}

// Adds the line of a block that has a name: K, its number and the name.
fn put_block(out: &mut Vec<u8>, number: u32, name: &[u8]) -> Result<(), RunFault> {
    if name.is_empty() {
        return Ok(());
    }
    let mut digits = Buffer::new();
    put(out, b"K ")?;
    put(out, digits.format(number).as_bytes())?;
    put(out, b" ")?;
    put_name(out, name)?;
    put(out, b"\n")
}

// Whether some block has a name.
fn is_some_named(names: &[Vec<u8>]) -> bool {
    for name in names {
        if !name.is_empty() {
            return true;
        }
    }
    false
}

/// The element of a page that has the names of blocks; nothing where none has one.
pub fn names_element(alloc: Global, names: &[Vec<u8>]) -> Result<Vec<u8>, RunFault> {
    let mut out = Vec::new(alloc);
    if !is_some_named(names) {
        return Ok(out);
    }
    put(
        &mut out,
        b"<script type=\"text/plain\" id=\"block-names\">\n",
    )?;
    let mut number: u32 = 0;
    for name in names {
        number = number.saturating_add(1);
        put_block(&mut out, number, name)?;
    }
    put(&mut out, b"</script>\n")?;
    Ok(out)
}

// Adds a text, each of its lines as texts are spelled in an element.
fn put_text(out: &mut Vec<u8>, text: &[u8]) -> Result<(), RunFault> {
    let mut is_first = true;
    for line in text.split(|byte| *byte == b'\n') {
        if !is_first {
            put(out, b"\n")?;
        }
        is_first = false;
        let Ok(()) = write_spelled(line, out) else {
            return Err(RunFault::NoMemory);
        };
    }
    Ok(())
}

// Whether a text tells why a run stopped before the end of its program.
fn tells_stop(told: &[u8]) -> bool {
    told.starts_with(b"stop ") && !told.starts_with(b"stop ENDED")
}

/// The element of a page that has what `vcm why` tells of the run; nothing where the run came to the end of its program, or didn't stop.
pub fn why_element(alloc: Global, told: &[u8]) -> Result<Vec<u8>, RunFault> {
    let mut out = Vec::new(alloc);
    if tells_stop(told) {
        put(&mut out, b"<script type=\"text/plain\" id=\"why\">\n")?;
        put_text(&mut out, told)?;
        put(&mut out, b"</script>\n")?;
    }
    Ok(out)
}

// The same of a run of what was given.
fn why_element_of(
    alloc: Global,
    part: &PartData,
    block_names: &[Vec<u8>],
    given: &Given,
    steps: u64,
) -> Result<Vec<u8>, RunFault> {
    let mut told = Vec::new(alloc);
    match show(alloc, &Why { block_names }, given, part, steps, &mut told) {
        Ok(_) => why_element(alloc, &told),
        Err(RunFault::Write { .. }) => Err(RunFault::NoMemory),
        Err(fault) => Err(fault),
    }
}

// What stands after the story of a page: the elements of its names, of its boxes and of its stop, and then what always does.
fn back_with<'a>(
    alloc: Global,
    names: &'a [u8],
    boxes: &'a [u8],
    why: &'a [u8],
) -> Result<Vec<&'a [u8]>, RunFault> {
    let mut pieces = Vec::new(alloc);
    let Ok(()) = pieces.push(names) else {
        return Err(RunFault::NoMemory);
    };
    let Ok(()) = pieces.push(boxes) else {
        return Err(RunFault::NoMemory);
    };
    let Ok(()) = pieces.push(why) else {
        return Err(RunFault::NoMemory);
    };
    match pieces.extend_from_slice(&back()) {
        Ok(()) => Ok(pieces),
        Err(_) => Err(RunFault::NoMemory),
    }
}

// What was done of a page. Memory that is refused while a page is written is told as a failed write: where the buffer can be written all the same, it
// was no write that failed.
fn page_done<W: Write>(done: Result<Done, RunFault>, writer: &mut W) -> Result<Done, RunFault> {
    match done {
        Err(RunFault::Write { done }) => match writer.flush() {
            Ok(()) => Err(RunFault::NoMemory),
            Err(_) => Err(RunFault::Write { done }),
        },
        done => done,
    }
}

/// The story of a run of what was given, as it stands in a page, with the end of its element.
pub fn story_of(
    alloc: Global,
    part: &PartData,
    given: Given,
    steps: u64,
) -> Result<(Done, Vec<u8>), RunFault> {
    let texts = Texts {
        front: &[],
        back: &[],
    };
    let mut story = Vec::new(alloc);
    match show_given(alloc, &Page { texts }, given, part, steps, &mut story) {
        Ok(done) => Ok((done, story)),
        Err(RunFault::Write { .. }) => Err(RunFault::NoMemory),
        Err(fault) => Err(fault),
    }
}

// Writes the page of a run of the program or image that a reader gives, with boxes that are fixed to the tip, if some are given. The input is read once, and its
// run is made twice: to count its steps, and for the page; with boxes once more, for these; and once for why it stopped.
fn write_page<I: Read, W: Write>(
    alloc: Global,
    subject: &Subject<'_>,
    reader: &mut I,
    steps: u64,
    writer: &mut W,
) -> Result<Done, RunFault> {
    let input = read_all(alloc, reader)?;
    let given = given_of(alloc, input)?;
    let part = subject.part;
    let names = names_element(alloc, subject.block_names)?;
    let boxes = boxes_element_of(alloc, part, subject.boxes, &[], &given, steps)?;
    let why = why_element_of(alloc, part, subject.block_names, &given, steps)?;
    let back = back_with(alloc, &names, &boxes, &why)?;
    let front = front();
    let texts = Texts {
        front: &front,
        back: &back,
    };
    let done = show_given(alloc, &Page { texts }, given, part, steps, writer);
    page_done(done, writer)
}

// Prints the page of a run of the program or image that a reader of this name gives.
fn print_page<'a, R: Print + AllocGlobal, I: Read>(
    rt: &R,
    subject: &Subject<'_>,
    reader: &mut I,
    name: &'a str,
    steps: u64,
) -> Result<Done, Message<'a>> {
    let mut out = output(rt)?;
    let done = write_page(rt.alloc(), subject, reader, steps, &mut out);
    written(&mut out, done.map_err(|fault| message_of(fault, name)))
}

// Prints the page of a run of the program or image of a file, or of standard input.
fn print_page_of<'a, R: Files + Input + Print + AllocGlobal>(
    rt: &R,
    subject: &Subject<'_>,
    input: &'a str,
    steps: u64,
) -> Result<Done, Message<'a>> {
    if input == DASH {
        return print_page(rt, subject, &mut rt.reader(), STANDARD_INPUT, steps);
    }
    match std::fs::open(rt, input) {
        Ok(mut file) => print_page(rt, subject, &mut file, input, steps),
        Err(_) => Err(Message::Read { name: input }),
    }
}

// What a page is of, in this setting.
fn subject_of<'a>(boxes: Option<&'a Boxes>, setting: &'a NamedSetting) -> Subject<'a> {
    Subject {
        boxes,
        part: &setting.part,
        block_names: setting.block_names.as_slice(),
    }
}

// Prints a page, and gives the exit status.
fn show_subject<R: Files + Input + Print + Eprint + AllocGlobal>(
    rt: &R,
    voice: Voice,
    subject: &Subject<'_>,
    input: &str,
    steps: u64,
) -> u8 {
    let shown = print_page_of(rt, subject, input, steps);
    status_shown(rt, voice, shown, input)
}

/// Prints the page of a run with the boxes of a probe, and gives the exit status.
pub fn show_page_with<R: Files + Input + Print + Eprint + AllocGlobal>(
    rt: &R,
    voice: Voice,
    boxes: &Boxes,
    setting: &NamedSetting,
    input: &str,
) -> u8 {
    let subject = subject_of(Some(boxes), setting);
    show_subject(rt, voice, &subject, input, setting.steps)
}

/// Prints the page of a run, and gives the exit status.
pub fn show_page<R: Files + Input + Print + Eprint + AllocGlobal>(
    rt: &R,
    voice: Voice,
    request: &Request<'_, '_>,
) -> u8 {
    let setting = match named_setting_of(rt, voice, request) {
        Ok(setting) => setting,
        Err(told) => return fails_twice(rt, &told),
    };
    let subject = subject_of(None, &setting);
    show_subject(rt, voice, &subject, request.input(), setting.steps)
}
