//! The result of a run, and one that shows variables at its end.

use crate::about::fails_about;
use crate::printing::{DASH, STANDARD_INPUT, bytes_of, fails, output, status_after, written};
use crate::request::Request;
use crate::showing::setting_of;
use crate::talking::{Voice, fails_twice};
use std::alloc::Global;
use std::io::Read;
use std::rt::Files;
use vcm_items::Tables;
use vcm_job::{Done, Given, InputRefusal, RunFault, given_of, run, show_given};
use vcm_loader::load;
use vcm_messages::{Message, message_of};
use vcm_num::NoMemory;
use vcm_part::PartData;
use vcm_usage::Choice;
use vcm_values::variable_named;
use vcm_views::Values;

const NAMES: Message<'static> = Message::Option {
    words: "--show wants names of variables of the program, with commas between them, as I or R#2",
};

// Where the variables stand that have these names; none where one isn't there.
fn places_of(alloc: Global, tables: &Tables, names: &str) -> Result<Option<Vec<u16>>, NoMemory> {
    let mut places = Vec::new(alloc);
    for name in names.split(',') {
        match variable_named(alloc, tables, name.as_bytes())? {
            Some(place) => places.push(place)?,
            None => return Ok(None),
        }
    }
    Ok(Some(places))
}

// The names of an image's code.
fn tables_of(alloc: Global, image: &[u8]) -> Result<Tables, RunFault> {
    let loaded = match load(alloc, image) {
        Ok(loaded) => loaded,
        Err(fault) => return Err(RunFault::Refused(InputRefusal::Image(fault))),
    };
    match loaded.tables(alloc) {
        Ok(tables) => Ok(tables),
        Err(_) => Err(RunFault::NoMemory),
    }
}

// Where the wanted variables of an image stand; none where one isn't there.
fn places_in(alloc: Global, image: &[u8], names: &str) -> Result<Option<Vec<u16>>, RunFault> {
    let tables = tables_of(alloc, image)?;
    match places_of(alloc, &tables, names) {
        Ok(places) => Ok(places),
        Err(_) => Err(RunFault::NoMemory),
    }
}

// Prints the result of a run of what was read and the values of variables.
fn print_values<'a, R: Print + AllocGlobal>(
    rt: &R,
    part: &PartData,
    given: Given,
    places: &[u16],
    steps: u64,
    input: &'a str,
) -> Result<Done, Message<'a>> {
    let mut out = output(rt)?;
    let done = show_given(rt.alloc(), &Values { places }, given, part, steps, &mut out);
    written(&mut out, done.map_err(|fault| message_of(fault, input)))
}

// What an input is, and where the wanted variables stand; no places where one isn't there.
fn read_with<'a, R: Files + Input + AllocGlobal>(
    rt: &R,
    input: &'a str,
    names: &str,
) -> Result<(Given, Option<Vec<u16>>), Message<'a>> {
    let bytes = bytes_of(rt, input)?;
    let given = given_of(rt.alloc(), bytes).map_err(|fault| message_of(fault, input))?;
    match places_in(rt.alloc(), &given.image, names) {
        Ok(places) => Ok((given, places)),
        Err(fault) => Err(message_of(fault, input)),
    }
}

// Shows variables of an input beside a workpiece, and gives the exit status.
fn show_values_beside<R: Files + Input + Print + Eprint + AllocGlobal>(
    rt: &R,
    voice: Voice,
    part: &PartData,
    input: &str,
    steps: u64,
    names: &str,
) -> u8 {
    let (given, places) = match read_with(rt, input, names) {
        Ok(read) => read,
        Err(message) => return fails_about(rt, voice, message, input),
    };
    let Some(places) = places else {
        return fails(rt, NAMES);
    };
    match print_values(rt, part, given, &places, steps, input) {
        Ok(done) => status_after(rt, voice, Ok(done)),
        Err(message) => fails_about(rt, voice, message, input),
    }
}

// Prints the result of a run of the program or image that a reader of this name gives.
fn print_result<'a, R: Print + AllocGlobal, I: Read>(
    rt: &R,
    part: &PartData,
    reader: &mut I,
    name: &'a str,
    steps: u64,
) -> Result<Done, Message<'a>> {
    let mut out = output(rt)?;
    let done = run(rt.alloc(), part, reader, steps, &mut out);
    written(&mut out, done.map_err(|fault| message_of(fault, name)))
}

// Prints the result of a run of the program or image of a file, or of standard input.
fn print_result_of<'a, R: Files + Input + Print + AllocGlobal>(
    rt: &R,
    part: &PartData,
    input: &'a str,
    steps: u64,
) -> Result<Done, Message<'a>> {
    if input == DASH {
        return print_result(rt, part, &mut rt.reader(), STANDARD_INPUT, steps);
    }
    match std::fs::open(rt, input) {
        Ok(mut file) => print_result(rt, part, &mut file, input, steps),
        Err(_) => Err(Message::Read { name: input }),
    }
}

/// Prints the result of a run, with the values of variables where `--show` names some, which are judged before the run, and gives the exit status.
pub fn show_result<R: Files + Input + Print + Eprint + AllocGlobal>(
    rt: &R,
    voice: Voice,
    request: &Request<'_, '_>,
) -> u8 {
    let (steps, part) = match setting_of(rt, voice, request) {
        Ok(setting) => setting,
        Err(told) => return fails_twice(rt, &told),
    };
    let input = request.input();
    match request.value(Choice::Show) {
        Some(names) => show_values_beside(rt, voice, &part, input, steps, names),
        None => match print_result_of(rt, &part, input, steps) {
            Ok(done) => status_after(rt, voice, Ok(done)),
            Err(message) => fails_about(rt, voice, message, input),
        },
    }
}
