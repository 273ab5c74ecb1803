//! A session of the debugger on the standard devices.

use crate::about::fails_about;
use crate::hand::{debug_put, debug_typed};
use crate::parts::named_part_given;
use crate::printing::{output, written};
use crate::request::Request;
use crate::talking::{Voice, fails_twice, tell_notices};
use std::io::Read;
use std::rt::Files;
use vcm_job::{Given, debug};
use vcm_messages::{Message, message_of};
use vcm_part::PartData;
use vcm_program::Noticed;

// Answers the commands of standard input on the program or image of a file beside a workpiece. Each reply is handed on at once. A read of no
// byte shows whether standard input is open: where it is closed, the file would get its number.
fn debug_beside<'a, R: Files + Input + Print + Eprint + AllocGlobal>(
    rt: &R,
    voice: Voice,
    name: &'a str,
    part: &PartData,
    block_names: &[Vec<u8>],
) -> Result<Vec<Noticed>, Message<'a>> {
    let Ok(_) = rt.reader().read(&mut []) else {
        return Err(Message::Read {
            name: "standard input",
        });
    };
    let Ok(mut file) = std::fs::open(rt, name) else {
        return Err(Message::Read { name });
    };
    let mut out = output(rt)?;
    let done = if voice.is_by_hand {
        debug_typed(rt, voice.is_painted, part, block_names, &mut file, &mut out)
    } else {
        debug(rt.alloc(), part, &mut file, &mut rt.reader(), &mut out)
    };
    written(&mut out, done.map_err(|fault| message_of(fault, name)))
}

/// Answers the commands of standard input on what a producer's text is put as, beside a workpiece.
pub fn debug_text<'a, R: Input + Print + Eprint + AllocGlobal>(
    rt: &R,
    voice: Voice,
    name: &'a str,
    part: &PartData,
    given: &Given,
    text: &[u8],
) -> Result<(), Message<'a>> {
    let mut out = output(rt)?;
    let done = debug_put(rt, voice, part, given, text, &mut out);
    written(&mut out, done.map_err(|fault| message_of(fault, name)))
}

/// Tells why standard input can't be read, if it can't: it is asked before a file is opened, which would get its number where it is closed.
pub fn unread_input<R: Input>(rt: &R) -> Option<Message<'static>> {
    match rt.reader().read(&mut []) {
        Ok(_) => None,
        Err(_) => Some(Message::Read {
            name: "standard input",
        }),
    }
}

/// Answers the commands of standard input on the program or image of a file beside the workpiece of another one, which is judged first, and gives the
/// exit status.
pub fn debug_file<R: Files + Input + Print + Eprint + AllocGlobal>(
    rt: &R,
    voice: Voice,
    request: &Request<'_, '_>,
) -> u8 {
    let (part, names) = match named_part_given(rt, voice, request) {
        Ok(named) => named,
        Err(told) => return fails_twice(rt, &told),
    };
    let name = request.input();
    match debug_beside(rt, voice, name, &part, names.as_slice()) {
        Ok(notices) => {
            tell_notices(rt, voice, notices.as_slice());
            0
        }
        Err(message) => fails_about(rt, voice, message, name),
    }
}
