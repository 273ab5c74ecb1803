//! A workpiece off its place: a program is run with it at 27 places.

use crate::judged::end_words;
use std::alloc::{AllocError, Global};
use std::fmt::Write as _;
use std::rt::Files;
use vcm_blocks::length_word;
use vcm_devices::{
    PartFile, Request, Voice, alone, bytes_of, fails, fails_twice, moved_part, part_file_given,
    print_bytes, view_fails,
};
use vcm_job::{Given, PartFileFault, given_of, status_of};
use vcm_keys::block_fixtures;
use vcm_loader::{Loaded, load};
use vcm_messages::{Message, Told as _, message_of};
use vcm_motion::AnyPart;
use vcm_num::{NoMemory, Point, thousandths_text};
use vcm_part::PartData;
use vcm_report::name_at;
use vcm_summary::{Deviation, Summary, summarize};
use vcm_usage::Choice;

const BY: Message<'static> = Message::Option {
    words: "--by wants millimetres from 0.001 to 1000000, with three decimals at most",
};

const FROM: Message<'static> = Message::Option {
    words: "--from-line wants a source line, a number from 1 on",
};

// The places on each axis: how often the length of --by is added.
const SIDES: [i64; 3] = [-1, 0, 1];

// How runs ended alike: by which words, whether that is the program's end, how many, and the first place of them.
#[derive(Drop)]
struct Group {
    words: String,
    is_end: bool,
    count: u64,
    first: Point,
}

// The greatest deviation, and the place where it was.
#[derive(Clone, Copy)]
struct Farthest {
    deviation: Deviation,
    place: Point,
}

// What came of the places: how runs ended, the greatest deviation, and at which of them the line from which on points are looked at was come to otherwise than at the
// workpiece's own place: after how many steps it is there, how many places differ, and the first that does.
#[derive(Drop)]
struct Places {
    groups: Vec<Group>,
    farthest: Option<Farthest>,
    begun: Option<u64>,
    differing: u64,
    first: Point,
}

// What is tried at each place: the most steps, how far it lies off, and the line from which on points are looked at, or 0.
#[derive(Clone, Copy)]
struct Trial {
    steps: u64,
    by: i64,
    from: u32,
}

// Counts a place at which the line was come to otherwise.
fn count_begun(places: &mut Places, begun: Option<u64>, place: Point) {
    if begun == places.begun {
        return;
    }
    if places.differing == 0 {
        places.first = place;
    }
    places.differing = places.differing.saturating_add(1);
}

// Counts a run that ended by these words.
fn count_end(
    places: &mut Places,
    words: String,
    is_end: bool,
    place: Point,
) -> Result<(), NoMemory> {
    for index in 0..places.groups.len() {
        if places.groups[index].words == words {
            let count = places.groups[index].count;
            places.groups[index].count = count.saturating_add(1);
            return Ok(());
        }
    }
    places.groups.push(Group {
        words,
        is_end,
        count: 1,
        first: place,
    })?;
    Ok(())
}

// Keeps the greatest deviation, the first of equals.
fn keep_farthest(places: &mut Places, deviation: Option<Deviation>, place: Point) {
    let Some(deviation) = deviation else {
        return;
    };
    let is_farther = match places.farthest {
        Some(farthest) => farthest.deviation.size < deviation.size,
        None => true,
    };
    if is_farther {
        places.farthest = Some(Farthest { deviation, place });
    }
}

// What a run beside a workpiece comes to.
fn summary_beside(
    alloc: Global,
    loaded: &Loaded<'_>,
    part: &PartData,
    trial: Trial,
) -> Result<Summary, NoMemory> {
    let workpiece = AnyPart::of(alloc, part)?;
    match summarize(alloc, &workpiece, loaded, trial.steps, trial.from) {
        Ok(summary) => Ok(summary),
        Err(_) => Err(NoMemory),
    }
}

// Runs a program with the workpiece at a place.
fn try_place(
    alloc: Global,
    places: &mut Places,
    loaded: &Loaded<'_>,
    part: &PartData,
    trial: Trial,
    place: Point,
) -> Result<(), NoMemory> {
    let summary = summary_beside(alloc, loaded, part, trial)?;
    let words = end_words(alloc, loaded, summary.stop, summary.done)?;
    count_begun(places, summary.findings.begun, place);
    keep_farthest(places, summary.findings.greatest, place);
    count_end(places, words, status_of(summary.stop) == 0, place)
}

// Runs it there, or tells why the workpiece can't be there.
fn try_moved(
    alloc: Global,
    places: &mut Places,
    loaded: &Loaded<'_>,
    file: &PartFile,
    trial: Trial,
    place: Point,
) -> Result<(), NoMemory> {
    match moved_part(alloc, file, place) {
        Ok(part) => try_place(alloc, places, loaded, &part, trial, place),
        Err(fault) => {
            let message = message_of(PartFileFault::Refused(fault), "");
            if let Message::NoMemory = message {
                return Err(NoMemory);
            }
            let mut words = String::new(alloc);
            write!(words, "{message}")?;
            count_end(places, words, false, place)
        }
    }
}

// Runs it with the workpiece at all places.
fn try_places(
    alloc: Global,
    loaded: &Loaded<'_>,
    file: &PartFile,
    trial: Trial,
) -> Result<Places, NoMemory> {
    let own = summary_beside(alloc, loaded, &file.part, trial)?;
    let mut places = Places {
        groups: Vec::new(alloc),
        farthest: None,
        begun: own.findings.begun,
        differing: 0,
        first: Point([0, 0, 0]),
    };
    let by = trial.by;
    for x in SIDES {
        for y in SIDES {
            for z in SIDES {
                let place = Point([
                    x.saturating_mul(by),
                    y.saturating_mul(by),
                    z.saturating_mul(by),
                ]);
                try_moved(alloc, &mut places, loaded, file, trial, place)?;
            }
        }
    }
    Ok(places)
}

// Adds a coordinate in millimetres.
fn put_coordinate(text: &mut String, micrometres: i64) -> Result<(), AllocError> {
    let digits = thousandths_text(micrometres);
    text.push(' ')?;
    text.push_str(std::str::from_utf8(digits.as_slice()).unwrap_or("?"))
}

// Adds a place in millimetres.
fn put_place(text: &mut String, place: Point) -> Result<(), AllocError> {
    let Point([x, y, z]) = place;
    text.push_str(" at")?;
    put_coordinate(text, x)?;
    put_coordinate(text, y)?;
    put_coordinate(text, z)
}

// Adds how many runs ended so, and where the first of them was, unless all did.
fn put_group(text: &mut String, group: &Group, is_all: bool) -> Result<(), AllocError> {
    let count = group.count;
    let words = if group.is_end {
        "ended"
    } else {
        group.words.as_str()
    };
    write!(text, "{count} {words}")?;
    if !is_all {
        text.push_str(", first")?;
        put_place(text, group.first)?;
    }
    text.push('\n')
}

// Adds the groups of runs that came to the program's end, or of the others.
fn put_groups(text: &mut String, groups: &[Group], is_end: bool) -> Result<(), AllocError> {
    for group in groups {
        if group.is_end == is_end {
            put_group(text, group, groups.len() == 1)?;
        }
    }
    Ok(())
}

// Adds the greatest deviation, with its point and place.
fn put_farthest(text: &mut String, farthest: &Farthest, feature: &[u8]) -> Result<(), AllocError> {
    let Deviation {
        size,
        step,
        line,
        ..
    } = farthest.deviation;
    let whole = size / 1_000;
    let rest = size % 1_000;
    write!(text, "deviation {whole}.{rest:03} at most")?;
    if size != 0 {
        let feature = std::str::from_utf8(feature).unwrap_or("?");
        write!(text, ": {feature} step {step} line {line}")?;
        put_place(text, farthest.place)?;
    }
    text.push('\n')
}

// How many of these are true.
fn count_true(fixtures: &[bool]) -> usize {
    let mut count: usize = 0;
    for is_fixed in fixtures {
        if *is_fixed {
            count = count.saturating_add(1);
        }
    }
    count
}

// Adds how many blocks are moved, and how many stay.
fn put_head(text: &mut String, blocks: usize, fixed: usize) -> Result<(), AllocError> {
    let moved = blocks.saturating_sub(fixed);
    let plural = if moved == 1 { "" } else { "s" };
    write!(text, "27 places of {moved} block{plural}")?;
    if fixed != 0 {
        let (plural, stay) = if fixed == 1 {
            ("", "stays")
        } else {
            ("s", "stay")
        };
        write!(text, "; {fixed} block{plural} of the fixture {stay}")?;
    }
    text.push('\n')
}

// Adds how many runs came to the line from which on points are looked at otherwise than at the workpiece's own place, or that none did.
fn put_begun(text: &mut String, places: &Places, from: u32) -> Result<(), AllocError> {
    if places.begun.is_none() {
        return writeln!(text, "line {from} is not come to");
    }
    if places.differing == 0 {
        return Ok(());
    }
    let differing = places.differing;
    write!(text, "{differing} come to line {from} otherwise, first")?;
    put_place(text, places.first)?;
    text.push('\n')
}

// What is printed of all places.
fn places_text(
    alloc: Global,
    loaded: &Loaded<'_>,
    file: &PartFile,
    places: &Places,
    trial: Trial,
) -> Result<String, NoMemory> {
    let fixtures = block_fixtures(alloc, &file.bytes)?;
    let mut text = String::new(alloc);
    put_head(
        &mut text,
        file.part.blocks().len(),
        count_true(fixtures.as_slice()),
    )?;
    put_groups(&mut text, places.groups.as_slice(), true)?;
    put_groups(&mut text, places.groups.as_slice(), false)?;
    put_begun(&mut text, places, trial.from)?;
    if let Some(farthest) = &places.farthest {
        let tables = loaded.tables(alloc)?;
        let feature = name_at(tables.features(), farthest.deviation.feature);
        put_farthest(&mut text, farthest, feature)?;
    }
    Ok(text)
}

// The exit status: 0 where each run came to the program's end.
fn status_at(places: &Places) -> u8 {
    for group in &places.groups {
        if !group.is_end {
            return 3;
        }
    }
    0
}

// Prints what comes of a program with the workpiece at all places, and gives the exit status.
fn show_loaded<R: Print + AllocGlobal>(
    rt: &R,
    loaded: &Loaded<'_>,
    file: &PartFile,
    trial: Trial,
) -> Result<u8, Message<'static>> {
    let alloc = rt.alloc();
    let Ok(places) = try_places(alloc, loaded, file, trial) else {
        return Err(Message::NoMemory);
    };
    let Ok(text) = places_text(alloc, loaded, file, &places, trial) else {
        return Err(Message::NoMemory);
    };
    print_bytes(rt, text.as_bytes())?;
    Ok(status_at(&places))
}

// The same of a program or image that was given.
fn show_given<'a, R: Print + AllocGlobal>(
    rt: &R,
    given: &Given,
    file: &PartFile,
    trial: Trial,
) -> Result<u8, Message<'a>> {
    match load(rt.alloc(), &given.image) {
        Ok(loaded) => show_loaded(rt, &loaded, file, trial),
        Err(fault) => Err(fault.told()),
    }
}

// The program or image of a file.
fn given_in<'a, R: Files + Input + AllocGlobal>(
    rt: &R,
    input: &'a str,
) -> Result<Given, Message<'a>> {
    match bytes_of(rt, input) {
        Ok(bytes) => match given_of(rt.alloc(), bytes) {
            Ok(given) => Ok(given),
            Err(fault) => Err(message_of(fault, input)),
        },
        Err(message) => Err(message),
    }
}

// The same of a file.
fn show_input<'a, R: Files + Input + Print + AllocGlobal>(
    rt: &R,
    input: &'a str,
    file: &PartFile,
    trial: Trial,
) -> Result<u8, Message<'a>> {
    let given = given_in(rt, input)?;
    show_given(rt, &given, file, trial)
}

// How far the workpiece is moved, in micrometres.
fn by_of(request: &Request<'_, '_>) -> Option<i64> {
    let word = request.value(Choice::By)?;
    Some(i64::from(length_word(word.as_bytes())?))
}

// The line from which on points are looked at, 0 where none is named.
fn from_of(request: &Request<'_, '_>) -> Option<u32> {
    let Some(word) = request.value(Choice::FromLine) else {
        return Some(0);
    };
    if !word.as_bytes().iter().all(|byte| byte.is_ascii_digit()) {
        return None;
    }
    match word.parse::<u32>() {
        Ok(line) if 1 <= line => Some(line),
        _ => None,
    }
}

/// Runs a program with the workpiece at 27 places, prints how the runs ended, and gives the exit status: 0 where each came to the program's end, else 3.
pub fn show_places<R: Files + Input + Print + Eprint + AllocGlobal>(
    rt: &R,
    voice: Voice,
    request: &Request<'_, '_>,
) -> u8 {
    let Some(steps) = request.steps() else {
        return fails(rt, Message::Steps);
    };
    let Some(by) = by_of(request) else {
        return fails(rt, BY);
    };
    let Some(from) = from_of(request) else {
        return fails(rt, FROM);
    };
    let trial = Trial { steps, by, from };
    let file = match part_file_given(rt, voice, request, request.part()) {
        Ok(file) => file,
        Err(told) => return fails_twice(rt, &told),
    };
    match show_input(rt, request.input(), &file, trial) {
        Ok(status) => status,
        Err(message) => view_fails(rt, voice, message, request.input()),
    }
}
