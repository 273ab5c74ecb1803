//! What is made of one file alone: whether its program is accepted, its listing, its image.

use crate::about::tell_about;
use crate::printing::{
    DASH, STANDARD_INPUT, fails, is_one_file, output, status_of_notices, written,
};
use crate::request::Request;
use crate::talking::{Voice, tell_notices, tell_of_whole};
use std::alloc::Global;
use std::io::{Read, Write};
use std::rt::Files;
use vcm_job::{asm, build, check, list};
use vcm_messages::{Message, message_of};
use vcm_num::write_all;
use vcm_program::Noticed;
use vcm_run::Built;

/// What is printed of a file alone.
#[derive(Clone, Copy)]
enum Printed {
    /// Whether its program is accepted.
    Check,
    /// The listing of its program or image.
    List,
}

// Prints it of what a reader gives, and gives the program's lines that have no effect.
fn print_input<'a, I: Read, W: Write>(
    alloc: Global,
    printed: Printed,
    name: &'a str,
    input: &mut I,
    out: &mut W,
) -> Result<Vec<Noticed>, Message<'a>> {
    match printed {
        Printed::Check => check(alloc, input, out).map_err(|fault| message_of(fault, name)),
        Printed::List => list(alloc, input, out).map_err(|fault| message_of(fault, name)),
    }
}

// Prints it of what a reader of this name gives, on standard output.
fn print_from<'a, R: Print + AllocGlobal, I: Read>(
    rt: &R,
    printed: Printed,
    name: &'a str,
    input: &mut I,
) -> Result<Vec<Noticed>, Message<'a>> {
    let mut out = output(rt)?;
    let done = print_input(rt.alloc(), printed, name, input, &mut out);
    written(&mut out, done)
}

// The same of a file, or of standard input.
fn print_of<'a, R: Files + Input + Print + AllocGlobal>(
    rt: &R,
    printed: Printed,
    name: &'a str,
) -> Result<Vec<Noticed>, Message<'a>> {
    if name == DASH {
        return print_from(rt, printed, STANDARD_INPUT, &mut rt.reader());
    }
    match std::fs::open(rt, name) {
        Ok(mut file) => print_from(rt, printed, name, &mut file),
        Err(_) => Err(Message::Read { name }),
    }
}

/// Prints whether the program of a file is accepted, and gives the exit status.
pub fn check_file<R: Files + Input + Print + Eprint + AllocGlobal>(
    rt: &R,
    voice: Voice,
    name: &str,
) -> u8 {
    let done = print_of(rt, Printed::Check, name);
    let refusal = match &done {
        Ok(_) => None,
        Err(message) => Some(*message),
    };
    let status = status_of_notices(rt, voice, done);
    match refusal {
        Some(message) => {
            tell_of_whole(rt, voice, message);
            tell_about(rt, voice, message, name, status)
        }
        None => status,
    }
}

/// Prints the listing of a file's program or image, and gives the exit status.
pub fn list_file<R: Files + Input + Print + Eprint + AllocGlobal>(
    rt: &R,
    voice: Voice,
    request: &Request<'_, '_>,
) -> u8 {
    let name = request.input();
    let done = print_of(rt, Printed::List, name);
    let refusal = match &done {
        Ok(_) => None,
        Err(message) => Some(*message),
    };
    let status = status_of_notices(rt, voice, done);
    match refusal {
        Some(message) => tell_about(rt, voice, message, name, status),
        None => status,
    }
}

const ONE_FILE: Message<'static> = Message::Option {
    words: "the image can't be written to the file that is read",
};

// Writes an image to a file, tells the lines that have no effect, and gives the exit status. Where the write fails, a part of the image stands
// in the file, which is none. The file is let go before anything is told: where standard error is closed, the file may have its number.
fn write_image<R: Files + Eprint + AllocGlobal>(
    rt: &R,
    voice: Voice,
    name: &str,
    image: &[u8],
    notices: &[Noticed],
) -> u8 {
    let Ok(mut file) = std::fs::create(rt, name) else {
        return fails(rt, Message::Write { name });
    };
    let done = write_all(&mut file, image);
    drop(file);
    match done {
        Ok(()) => {
            tell_notices(rt, voice, notices);
            0
        }
        Err(_) => fails(rt, Message::Write { name }),
    }
}

/// What an image is made of.
#[derive(Clone, Copy)]
enum Source {
    Program,
    Listing,
}

// The image of what a reader gives, and the program's lines that have no effect.
fn image_in<'a, I: Read>(
    alloc: Global,
    source: Source,
    input: &mut I,
    name: &'a str,
) -> Result<Built, Message<'a>> {
    match source {
        Source::Program => match build(alloc, input) {
            Ok(built) => Ok(built),
            Err(fault) => Err(message_of(fault, name)),
        },
        Source::Listing => match asm(alloc, input) {
            Ok(image) => Ok(Built {
                image,
                notices: Vec::new(alloc),
            }),
            Err(fault) => Err(message_of(fault, name)),
        },
    }
}

// Writes the image of what a reader of this name gives, and gives the exit status.
fn make_from<R: Files + Input + Eprint + AllocGlobal, I: Read>(
    rt: &R,
    voice: Voice,
    source: Source,
    input: &mut I,
    name: &str,
    image: &str,
) -> u8 {
    match image_in(rt.alloc(), source, input, name) {
        Ok(built) => write_image(rt, voice, image, &built.image, built.notices.as_slice()),
        Err(message) => {
            let status = fails(rt, message);
            tell_about(rt, voice, message, name, status)
        }
    }
}

// Writes the image of a file, or of standard input, to another file, and gives the exit status. Nothing is read or written where both are one file.
fn make_image<R: Files + Input + Eprint + AllocGlobal>(
    rt: &R,
    voice: Voice,
    source: Source,
    request: &Request<'_, '_>,
) -> u8 {
    let (name, image) = (request.input(), request.image());
    if name == DASH {
        return make_from(rt, voice, source, &mut rt.reader(), STANDARD_INPUT, image);
    }
    if is_one_file(rt, name, image) {
        return fails(rt, ONE_FILE);
    }
    match std::fs::open(rt, name) {
        Ok(mut file) => make_from(rt, voice, source, &mut file, name, image),
        Err(_) => fails(rt, Message::Read { name }),
    }
}

/// Writes the image of a file's program to another file, and gives the exit status.
pub fn build_file<R: Files + Input + Eprint + AllocGlobal>(
    rt: &R,
    voice: Voice,
    request: &Request<'_, '_>,
) -> u8 {
    make_image(rt, voice, Source::Program, request)
}

/// Writes the image of a file's listing to another file, and gives the exit status.
pub fn asm_file<R: Files + Input + Eprint + AllocGlobal>(
    rt: &R,
    voice: Voice,
    request: &Request<'_, '_>,
) -> u8 {
    make_image(rt, voice, Source::Listing, request)
}
