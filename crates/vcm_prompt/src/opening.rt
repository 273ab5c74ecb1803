//! Conversations on programs and images.

use crate::answering::Source;
use crate::talking::{Prompts, serve_plain, talk};
use std::alloc::Global;
use std::io::{Read, Write};
use vcm_debug::Session;
use vcm_job::{DebugFault, Given, SessionFault, given_of, session_fault};
use vcm_loader::load;
use vcm_motion::AnyPart;
use vcm_part::PartData;
use vcm_program::Noticed;

// Opens a session on an image, and talks about it.
fn talk_of<R: Read, W: Write, E: Prompts>(
    alloc: Global,
    part: &PartData,
    image: &[u8],
    source: Source<'_>,
    reader: &mut R,
    replies: &mut W,
    prompts: Option<&E>,
) -> Result<(), DebugFault> {
    let loaded = match load(alloc, image) {
        Ok(loaded) => loaded,
        Err(fault) => return Err(DebugFault::Refused(SessionFault::Image(fault))),
    };
    let Ok(workpiece) = AnyPart::of(alloc, part) else {
        return Err(DebugFault::NoMemory);
    };
    let Ok(mut session) = Session::new(alloc, &loaded, &workpiece) else {
        return Err(DebugFault::NoMemory);
    };
    let talked = match prompts {
        Some(prompts) => talk(alloc, &mut session, source, reader, replies, prompts),
        None => serve_plain(alloc, &mut session, reader, replies),
    };
    drop(session);
    match talked {
        Ok(()) => Ok(()),
        Err(fault) => Err(DebugFault::Refused(SessionFault::Serve(fault))),
    }
}

/// Opens a session of the debugger on an input beside a workpiece, and answers the lines that are typed, up to `quit` or their end: a prompt
/// is said before each, and replies are written. An input whose first four bytes are `VCMI` is an image, any other the text of a program. It answers the lines of the
/// program that have no effect.
///
/// Errors: see `DebugFault`.
pub fn debug_by_hand<R: Read, W: Write, E: Prompts>(
    alloc: Global,
    part: &PartData,
    input: Vec<u8>,
    reader: &mut R,
    replies: &mut W,
    prompts: &E,
) -> Result<Vec<Noticed>, DebugFault> {
    let given = match given_of(alloc, input) {
        Ok(given) => given,
        Err(fault) => return Err(session_fault(fault)),
    };
    let text: &[u8] = match &given.text {
        Some(text) => text.as_slice(),
        None => b"",
    };
    let source = Source {
        text,
        has_text: given.text.is_some(),
        is_whole: false,
        given: &given,
        part,
    };
    let image = given.image.as_slice();
    match talk_of(alloc, part, image, source, reader, replies, Some(prompts)) {
        Ok(()) => Ok(given.notices),
        // An image that was built is refused for want of memory alone.
        Err(DebugFault::Refused(SessionFault::Image(_))) if given.text.is_some() => Err(
            DebugFault::NoMemory,
        ),
        Err(fault) => Err(fault),
    }
}

/// Opens a session of the debugger on what a producer's text is put as, beside a workpiece, and answers lines up to `quit` or their end: with a prompt before each, and
/// what is typed short, where there are prompts, else as they stand. Two words more are answered there: `over` and `known`.
///
/// Errors: see `DebugFault`.
pub fn debug_whole<R: Read, W: Write, E: Prompts>(
    alloc: Global,
    part: &PartData,
    given: &Given,
    text: &[u8],
    reader: &mut R,
    replies: &mut W,
    prompts: Option<&E>,
) -> Result<(), DebugFault> {
    let source = Source {
        text,
        has_text: true,
        is_whole: true,
        given,
        part,
    };
    match talk_of(alloc, part, &given.image, source, reader, replies, prompts) {
        Ok(()) => Ok(()),
        // An image that was built is refused for want of memory alone.
        Err(DebugFault::Refused(SessionFault::Image(_))) => Err(DebugFault::NoMemory),
        Err(fault) => Err(fault),
    }
}
