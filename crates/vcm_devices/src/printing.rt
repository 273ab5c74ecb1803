//! What is read from files, printed on standard output and told on standard error.

use crate::talking::{Voice, tell_notices};
use std::alloc::Global;
use std::io::{self, BufWriter, ErrorKind, Printer, Read, Write};
use std::os::unix::fs::MetadataExt;
use std::rt::Files;
use vcm_job::{CheckFault, Done, read_all};
use vcm_messages::{Message, message_of, status_of};
use vcm_num::write_all;
use vcm_program::Noticed;

/// Tells a fault on standard error, and gives its exit status.
pub fn fails<R: Eprint>(rt: &R, message: Message<'_>) -> u8 {
    let _ = eprintln!(rt; "{message}");
    status_of(message)
}

// How many bytes of standard output are held back.
const BUFFER: usize = 65_536;

/// Standard output, which keeps in mind whether it is a pipe that nobody reads any more.
#[derive(Drop)]
pub struct Outlet<'a, R: Print> {
    printer: Printer<'a, R>,
    is_closed: bool,
}

impl<R: Print> Outlet<'_, R> {
    // Keeps in mind what a fault says.
    fn note(&mut self, error: &io::Error) {
        if error.kind() == ErrorKind::BrokenPipe {
            self.is_closed = true;
        }
    }
}

impl<R: Print> Write for Outlet<'_, R> {
    fn write(&mut self, buf: &[u8]) -> io::Result<usize> {
        match self.printer.write(buf) {
            Ok(count) => Ok(count),
            Err(error) => {
                self.note(&error);
                Err(error)
            }
        }
    }

    fn flush(&mut self) -> io::Result<()> {
        self.printer.flush()
    }
}

/// Standard output through a buffer.
pub type Output<'a, R> = BufWriter<Outlet<'a, R>>;

/// Standard output, through a buffer.
///
/// Errors: want of memory.
pub fn output<R: Print + AllocGlobal>(rt: &R) -> Result<Output<'_, R>, Message<'static>> {
    let outlet = Outlet {
        printer: io::writer(rt),
        is_closed: false,
    };
    BufWriter::with_capacity(rt.alloc(), BUFFER, outlet).map_err(|_| Message::NoMemory)
}

// How it is told that standard output could not be written.
fn unwritten<R: Print>(out: &Output<'_, R>) -> Message<'static> {
    if out.get_ref().is_closed {
        Message::Closed
    } else {
        Message::Write {
            name: "standard output",
        }
    }
}

/// What was done. The buffer is written before it is told, after a fault too; where only that fails, it is the fault.
///
/// Errors: the fault of what was done; or how it is told that standard output could not be written.
pub fn written<'a, T: Drop, R: Print>(
    out: &mut Output<'_, R>,
    done: Result<T, Message<'a>>,
) -> Result<T, Message<'a>> {
    let flushed = out.flush();
    match done {
        Ok(done) => match flushed {
            Ok(()) => Ok(done),
            Err(_) => Err(unwritten(out)),
        },
        Err(
            Message::Write {
                name: "standard output",
            },
        ) => Err(unwritten(out)),
        Err(message) => Err(message),
    }
}

/// Prints bytes on standard output.
///
/// Errors: how it is told that they could not be written, or that memory is refused.
pub fn print_bytes<R: Print + AllocGlobal>(rt: &R, bytes: &[u8]) -> Result<(), Message<'static>> {
    let mut out = output(rt)?;
    let done = write_all(&mut out, bytes).map_err(|_| Message::Write {
        name: "standard output",
    });
    written(&mut out, done)
}

/// The word that stands for standard input.
pub const DASH: &str = "-";

/// How standard input is named in what is told.
pub const STANDARD_INPUT: &str = "standard input";

/// The bytes of a file, or of standard input, for which `-` stands.
///
/// Errors: how it is told that it could not be read, that it is too long, or that memory is refused.
pub fn bytes_of<'a, R: Files + Input + AllocGlobal>(
    rt: &R,
    name: &'a str,
) -> Result<Vec<u8>, Message<'a>> {
    if name == DASH {
        return read_bytes(rt.alloc(), &mut rt.reader(), STANDARD_INPUT);
    }
    match std::fs::open(rt, name) {
        Ok(mut file) => read_bytes(rt.alloc(), &mut file, name),
        Err(_) => Err(Message::Read { name }),
    }
}

/// Whether a file that is to be written is one that is read, by the same name or by another one: another spelling or a link.
pub fn is_one_file<R: Files>(rt: &R, read: &str, written: &str) -> bool {
    if read == written {
        return true;
    }
    let (Ok(one), Ok(other)) = (std::fs::metadata(rt, read), std::fs::metadata(rt, written)) else {
        return false;
    };
    one.ino() != 0 && one.ino() == other.ino() && one.dev() == other.dev()
}

// The bytes that a reader of this name gives.
fn read_bytes<'a, I: Read>(
    alloc: Global,
    reader: &mut I,
    name: &'a str,
) -> Result<Vec<u8>, Message<'a>> {
    match read_all(alloc, reader) {
        Ok(bytes) => Ok(bytes),
        Err(fault) => Err(message_of(CheckFault::from(fault), name)),
    }
}

/// The exit status of a run that was done, whose lines without effect are told.
pub fn status_after<R: Eprint + AllocGlobal>(
    rt: &R,
    voice: Voice,
    done: Result<Done, Message<'_>>,
) -> u8 {
    match done {
        Ok(done) => {
            tell_notices(rt, voice, done.notices.as_slice());
            done.status
        }
        Err(message) => fails(rt, message),
    }
}

/// The exit status where no run was asked for, the lines without effect being told.
pub(crate) fn status_of_notices<R: Eprint + AllocGlobal>(
    rt: &R,
    voice: Voice,
    done: Result<Vec<Noticed>, Message<'_>>,
) -> u8 {
    match done {
        Ok(notices) => {
            tell_notices(rt, voice, notices.as_slice());
            0
        }
        Err(message) => fails(rt, message),
    }
}
