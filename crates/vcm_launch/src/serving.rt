//! The debug adapter: the requests before a launch, what is answered behind one, and how the adapter ends.

ghost use Rattle.std.specs.Prelude.{◌<◌, ◌≤◌, ◌+◌, ◌^◌};

use crate::files::{PartFile, Untaken, part_of};
use crate::launching::{Asked, launch_of, program_of, settings_of};
use crate::opening::{Opened, Opens, Unopened};
use crate::whole::{Unput, words_of};
use json::{Error, Scratch, Value};
use std::alloc::Global;
use std::fmt::Write as _;
use std::io::{Read, Write};
use std::rt::Files;
use vcm_dap::{Adapter, DapFault, Served, Settings, Talk, WholeText};
use vcm_debug::Session;
use vcm_job::Given;
use vcm_loader::{Loaded, load};
use vcm_messages::{Message, Told, notice_line};
use vcm_motion::AnyPart;
use vcm_part::PartData;
use vcm_program::Noticed;
use vcm_wire::{FrameFault, Request, Unread, read_frame, request_of};

// What is told where the input is no message.
const BROKEN: Message<'static> = Message::NoMessage;

// What is told where the input can't be read.
const UNREAD: Message<'static> = Message::Read {
    name: "standard input",
};

// How a fault of the adapter is told.
fn dap_message(fault: DapFault) -> Message<'static> {
    match fault {
        DapFault::Write => Message::Write {
            name: "standard output",
        },
        DapFault::NoMemory => Message::NoMemory,
    }
}

// How it is told that no message was read.
fn frame_message(fault: FrameFault) -> Message<'static> {
    match fault {
        FrameFault::Read => UNREAD,
        FrameFault::NoHead => BROKEN,
        FrameFault::TooLong => Message::TooLong,
        FrameFault::NoMemory => Message::NoMemory,
    }
}

// How it is told that a message is no JSON, or that memory was refused as it was read.
fn json_message(fault: Error) -> Message<'static> {
    match fault {
        Error::OutOfMemory => Message::NoMemory,
        _ => BROKEN,
    }
}

// Answers one message to an adapter, and tells whether there may be another one.
fn serve_message<W: Write>(
    alloc: Global,
    talk: &mut Talk<W>,
    adapter: &mut Adapter<'_, '_, AnyPart>,
    bytes: &[u8],
) -> Result<bool, Message<'static>>
    requires { adapter.old.session.count + 1000000 < 2 ^ 64 }
    ensures { adapter.new.session.count ≤ adapter.old.session.count + 1000000 }
{
    let mut scratch = Scratch::new(alloc);
    let message = match Value::from_slice(alloc, bytes, &mut scratch) {
        Ok(message) => message,
        Err(fault) => return Err(json_message(fault)),
    };
    match request_of(&message) {
        Ok(request) => match adapter.serve(talk, &request) {
            Ok(Served::Over) => Ok(false),
            Ok(_) => Ok(true),
            Err(fault) => Err(dap_message(fault)),
        },
        Err(Unread::NoRequest) => Ok(true),
        Err(Unread::Broken) => Err(BROKEN),
    }
}

// Answers what comes behind a launch, up to the end.
fn serve_adapter<R: Read, W: Write>(
    alloc: Global,
    talk: &mut Talk<W>,
    adapter: &mut Adapter<'_, '_, AnyPart>,
    input: &mut R,
) -> Result<(), Message<'static>>
    requires { adapter.old.session.count < 2 ^ 63 }
{
    for _served in 0..u32::MAX {
        let Some(bytes) = read_frame(alloc, input).map_err(frame_message)? else {
            return Ok(());
        };
        if !serve_message(alloc, talk, adapter, &bytes)? {
            return Ok(());
        }
    }
    Err(Message::TooLong)
}

// Tells the lines of the program that have no effect.
fn tell_notices<W: Write>(
    alloc: Global,
    talk: &mut Talk<W>,
    adapter: &Adapter<'_, '_, AnyPart>,
    notices: &[Noticed],
) -> Result<(), Message<'static>> {
    for notice in notices {
        let mut text = String::new(alloc);
        let Ok(()) = writeln!(text, "{}", notice_line(notice)) else {
            return Err(Message::NoMemory);
        };
        adapter
            .notice(talk, text.as_bytes(), notice.line)
            .map_err(dap_message)?;
    }
    Ok(())
}

// What a refused launch says. There may be another request.
fn refuse<W: Write>(
    alloc: Global,
    talk: &mut Talk<W>,
    request: &Request<'_, '_>,
    message: Message<'_>,
) -> Result<bool, Message<'static>> {
    let mut text = String::new(alloc);
    let Ok(()) = write!(text, "{message}") else {
        return Err(Message::NoMemory);
    };
    talk.refuse(request, &text).map_err(dap_message)?;
    Ok(true)
}

// What a launch says whose part file isn't taken: both lines. There may be another request.
fn refuse_part<W: Write>(
    alloc: Global,
    talk: &mut Talk<W>,
    request: &Request<'_, '_>,
    untaken: &Untaken<'_>,
) -> Result<bool, Message<'static>> {
    let Some(second) = &untaken.second else {
        return refuse(alloc, talk, request, untaken.message);
    };
    let mut text = String::new(alloc);
    let message = untaken.message;
    let Ok(()) = write!(text, "{message}\n{second}") else {
        return Err(Message::NoMemory);
    };
    talk.refuse(request, &text).map_err(dap_message)?;
    Ok(true)
}

// What is told of a program behind its launch: the keys of the part file that nothing uses, its lines that have no effect, and of a producer's text how it is read.
#[derive(Clone, Copy)]
struct Behind<'a> {
    keys: &'a [u8],
    notices: &'a [Noticed],
    reading: &'a [u8],
}

// Tells lines, if there are any.
fn tell_lines<W: Write>(talk: &mut Talk<W>, lines: &[u8]) -> Result<(), Message<'static>> {
    if lines.is_empty() {
        return Ok(());
    }
    talk.tell_text("stderr", lines).map_err(dap_message)
}

// Answers that a program is launched, and what comes behind, up to the end.
fn serve_session<R: Read, W: Write>(
    talk: &mut Talk<W>,
    request: &Request<'_, '_>,
    adapter: &mut Adapter<'_, '_, AnyPart>,
    behind: Behind<'_>,
    input: &mut R,
) -> Result<(), Message<'static>>
    requires { adapter.old.session.count < 2 ^ 63 }
{
    let alloc = talk.alloc();
    talk.done(request).map_err(dap_message)?;
    tell_lines(talk, behind.keys)?;
    tell_notices(alloc, talk, adapter, behind.notices)?;
    tell_lines(talk, behind.reading)?;
    adapter.ready(talk).map_err(dap_message)?;
    serve_adapter(alloc, talk, adapter, input)
}

// Opens a session. Tells whether there may be another request.
fn open_session<R: Read, W: Write>(
    talk: &mut Talk<W>,
    request: &Request<'_, '_>,
    settings: Settings<'_>,
    loaded: &Loaded<'_>,
    part: &PartData,
    behind: Behind<'_>,
    input: &mut R,
) -> Result<bool, Message<'static>> {
    let alloc = talk.alloc();
    let Ok(workpiece) = AnyPart::of(alloc, part) else {
        return refuse(alloc, talk, request, Message::NoMemory);
    };
    let Ok(session) = Session::new(alloc, loaded, &workpiece) else {
        return refuse(alloc, talk, request, Message::NoMemory);
    };
    let mut adapter = Adapter::new(session, settings);
    serve_session(talk, request, &mut adapter, behind, input)?;
    Ok(false)
}

// Opens a session on a program. Tells whether there may be another request.
fn open_program<R: Read, W: Write>(
    talk: &mut Talk<W>,
    request: &Request<'_, '_>,
    asked: Asked<'_>,
    program: &Given,
    file: &PartFile,
    input: &mut R,
) -> Result<bool, Message<'static>> {
    let alloc = talk.alloc();
    let loaded = match load(alloc, &program.image) {
        Ok(loaded) => loaded,
        Err(fault) => return refuse(alloc, talk, request, fault.told()),
    };
    let tip = file.part.bounds().tip;
    let settings = settings_of(asked, tip, program.text.is_some(), None);
    let behind = Behind {
        keys: file.notices.as_bytes(),
        notices: program.notices.as_slice(),
        reading: &[],
    };
    open_session(talk, request, settings, &loaded, &file.part, behind, input)
}

// Opens a session on what a producer's text is put as. Tells whether there may be another request.
fn open_text<R: Read, W: Write>(
    talk: &mut Talk<W>,
    request: &Request<'_, '_>,
    asked: Asked<'_>,
    opened: &Opened,
    file: &PartFile,
    input: &mut R,
) -> Result<bool, Message<'static>> {
    let alloc = talk.alloc();
    let loaded = match load(alloc, &opened.given.image) {
        Ok(loaded) => loaded,
        Err(fault) => return refuse(alloc, talk, request, fault.told()),
    };
    let whole = WholeText {
        untried: opened.untried.as_slice(),
        words: opened.words.as_slice(),
        told: opened.told.as_slice(),
        status: opened.status,
    };
    let settings = settings_of(asked, file.part.bounds().tip, true, Some(whole));
    let behind = Behind {
        keys: file.notices.as_bytes(),
        notices: opened.given.notices.as_slice(),
        reading: opened.notices.as_slice(),
    };
    open_session(talk, request, settings, &loaded, &file.part, behind, input)
}

// Refuses a launch, and says why. There may be another request.
fn refuse_words<W: Write>(
    talk: &mut Talk<W>,
    request: &Request<'_, '_>,
    why: &str,
) -> Result<bool, Message<'static>> {
    talk.refuse(request, why).map_err(dap_message)?;
    Ok(true)
}

// Launches a producer's text. Tells whether there may be another request.
fn launch_whole<O: Opens, R: Read, W: Write>(
    opener: &O,
    talk: &mut Talk<W>,
    request: &Request<'_, '_>,
    asked: Asked<'_>,
    file: &PartFile,
    input: &mut R,
) -> Result<bool, Message<'static>> {
    let alloc = talk.alloc();
    let words = match words_of(alloc, request, asked.program, asked.part) {
        Ok(words) => words,
        Err(Unput::Refused(why)) => return refuse_words(talk, request, why),
        Err(Unput::NoMemory) => return refuse(alloc, talk, request, Message::NoMemory),
    };
    match opener.open(&words, &file.part, asked.steps()) {
        Ok(opened) => open_text(talk, request, asked, &opened, file, input),
        Err(Unopened::Refused(why)) => refuse_words(talk, request, &why),
        Err(Unopened::NoMemory) => refuse(alloc, talk, request, Message::NoMemory),
    }
}

// Launches a program. Tells whether there may be another request.
fn launch<Rt: Files + AllocGlobal, O: Opens, R: Read, W: Write>(
    rt: &Rt,
    opener: &O,
    talk: &mut Talk<W>,
    request: &Request<'_, '_>,
    input: &mut R,
) -> Result<bool, Message<'static>> {
    let asked = match launch_of(request) {
        Ok(asked) => asked,
        Err(why) => return refuse_words(talk, request, why),
    };
    let file = match part_of(rt, asked.part) {
        Ok(file) => file,
        Err(untaken) => return refuse_part(rt.alloc(), talk, request, &untaken),
    };
    if asked.is_whole {
        return launch_whole(opener, talk, request, asked, &file, input);
    }
    match program_of(rt, asked.program) {
        Ok(program) => open_program(talk, request, asked, &program, &file, input),
        Err(message) => refuse(rt.alloc(), talk, request, message),
    }
}

// Answers a request before a launch. Tells whether there may be another one.
fn serve_first<Rt: Files + AllocGlobal, O: Opens, R: Read, W: Write>(
    rt: &Rt,
    opener: &O,
    talk: &mut Talk<W>,
    request: &Request<'_, '_>,
    input: &mut R,
) -> Result<bool, Message<'static>> {
    let done = match request.command {
        "launch" => return launch(rt, opener, talk, request, input),
        "initialize" => match talk.initialize(request) {
            Ok(_) => Ok(()),
            Err(fault) => Err(fault),
        },
        "threads" => talk.threads(request),
        "setExceptionBreakpoints" => talk.done(request),
        "disconnect" => talk.done(request),
        _ => talk.refuse(request, "no program is launched"),
    };
    done.map_err(dap_message)?;
    Ok(request.command != "disconnect")
}

// Answers one message before a launch. Tells whether there may be another one.
fn serve_first_message<Rt: Files + AllocGlobal, O: Opens, R: Read, W: Write>(
    rt: &Rt,
    opener: &O,
    talk: &mut Talk<W>,
    bytes: &[u8],
    input: &mut R,
) -> Result<bool, Message<'static>> {
    let mut scratch = Scratch::new(rt.alloc());
    let message = match Value::from_slice(rt.alloc(), bytes, &mut scratch) {
        Ok(message) => message,
        Err(fault) => return Err(json_message(fault)),
    };
    match request_of(&message) {
        Ok(request) => serve_first(rt, opener, talk, &request, input),
        Err(Unread::NoRequest) => Ok(true),
        Err(Unread::Broken) => Err(BROKEN),
    }
}

/// Speaks the Debug Adapter Protocol: reads requests up to their end, and writes what is answered and told. A launch opens files of the runtime; one with the key `whole`
/// has the opener open its text.
///
/// Errors: how it is told that what was read is no request, is too long or could not be read, each as a fault of standard input; that the writer
/// failed, as one of standard output; that a growth of memory was refused. What was written before stands.
pub fn serve_dap<Rt: Files + AllocGlobal, O: Opens, R: Read, W: Write + Drop>(
    rt: &Rt,
    opener: &O,
    input: &mut R,
    out: W,
) -> Result<(), Message<'static>> {
    let mut talk = Talk::new(rt.alloc(), out);
    for _served in 0..u32::MAX {
        let Some(bytes) = read_frame(rt.alloc(), input).map_err(frame_message)? else {
            return Ok(());
        };
        if !serve_first_message(rt, opener, &mut talk, &bytes, input)? {
            return Ok(());
        }
    }
    Err(Message::TooLong)
}
