//! Devices in memory: a command line, files, standard input, standard output and standard error. A call of one of them may go wrong.

ghost use Rattle.std.specs.Prelude.{◌≤◌, IfOk};

use crate::texts::{Asked, put, word_at};
use std::alloc::{Allocator, Global};
use std::cell::RefCell;
use std::env::FillError;
use std::fmt::{Display, Write as _};
use std::fs::{Metadata, OpenFile, OpenOptions, Permissions};
use std::io;
use std::io::{BufRead, ErrorKind, Lines, PipeReader, PipeWriter, Read, Seek, SeekFrom, Write};
use std::os::fd::BorrowedFd;
use std::os::unix::net::SocketAddr;
use std::path::PathBuf;
use std::rt::{Env, Files};

// How many bytes a reader gives at a call, and a writer takes.
const GIVEN: usize = 7;

const TAKEN: usize = 3;

/// The devices whose calls are counted.
#[derive(Clone, Copy, PartialEq, Eq)]
pub(crate) enum Device {
    /// Opening a file that is there.
    Open,
    /// Reading a file.
    Read,
    /// Reading standard input.
    Input,
    /// Writing to standard output.
    Output,
    /// Making a file.
    Make,
    /// Writing to the file that is made.
    Write,
}

impl Device {
    // Where its calls are counted.
    fn place(self) -> usize {
        match self {
            Device::Open => 0,
            Device::Read => 1,
            Device::Input => 2,
            Device::Output => 3,
            Device::Make => 4,
            Device::Write => 5,
        }
    }
}

/// How a call goes wrong.
#[derive(Clone, Copy)]
pub(crate) enum How {
    /// It fails.
    Fails,
    /// It is a write that takes no byte.
    TakesNone,
    /// It is a write to a pipe that nobody reads any more.
    IsClosed,
}

/// What goes wrong: the call with this number of a device, and all after it; the number 0 is none.
#[derive(Clone, Copy)]
pub(crate) struct Trouble {
    pub(crate) device: Device,
    pub(crate) number: u32,
    pub(crate) how: How,
}

/// Nothing goes wrong.
pub(crate) const NO_TROUBLE: Trouble = Trouble {
    device: Device::Open,
    number: 0,
    how: How::Fails,
};

/// What a command did.
#[derive(Drop)]
pub(crate) struct Heard {
    pub(crate) status: u8,
    /// What it wrote on standard output, or to the file that it made: no command does both.
    pub(crate) written: Vec<u8>,
    /// What it told on standard error.
    pub(crate) told: String,
    // How often it called each device.
    counts: [u32; 6],
    has_failed: bool,
    /// The file that it opened or made last.
    pub(crate) path: String,
    /// How often it wrote to standard output after the call that went wrong, and how often it called the other devices.
    pub(crate) tries: u32,
    pub(crate) others: u32,
}

impl Heard {
    /// Nothing yet.
    pub(crate) fn new(alloc: Global) -> Heard {
        Heard {
            status: 0,
            written: Vec::new(alloc),
            told: String::new(alloc),
            counts: [0; 6],
            has_failed: false,
            path: String::new(alloc),
            tries: 0,
            others: 0,
        }
    }

    /// How often it called a device.
    pub(crate) fn count(&self, device: Device) -> u32 {
        match self.counts.get(device.place()) {
            Some(count) => *count,
            None => 0,
        }
    }

    // Counts a call of a device, and gives its number.
    fn add(&mut self, device: Device) -> u32 {
        match self.counts.get_mut(device.place()) {
            Some(count) => {
                *count = count.saturating_add(1);
                *count
            }
            None => 0,
        }
    }

    // Counts a call after the one that went wrong.
    fn add_late(&mut self, device: Device) {
        if device == Device::Output {
            self.tries = self.tries.saturating_add(1);
        } else {
            self.others = self.others.saturating_add(1);
        }
    }

    // Counts a call of a device and tells how it goes wrong, if it does.
    fn call(&mut self, trouble: Trouble, device: Device) -> Option<How> {
        let number = self.add(device);
        if self.has_failed {
            self.add_late(device);
        }
        if trouble.number == 0 || number < trouble.number || device != trouble.device {
            return None;
        }
        self.has_failed = true;
        Some(trouble.how)
    }

    // The same of a write of these bytes.
    fn write(&mut self, trouble: Trouble, device: Device, bytes: &[u8]) -> Option<How> {
        match self.call(trouble, device) {
            None => match self.written.extend_from_slice(bytes) {
                Ok(()) => None,
                Err(_) => Some(How::Fails),
            },
            wrong => wrong,
        }
    }
}

// Counts a call, and says whether it goes well.
fn goes_well(heard: &RefCell<Heard>, trouble: Trouble, device: Device) -> bool {
    match heard.try_borrow_mut() {
        Ok(mut heard) => heard.call(trouble, device).is_none(),
        Err(_) => false,
    }
}

// The same of opening or making the file with a path.
fn opens(heard: &RefCell<Heard>, trouble: Trouble, device: Device, path: &str) -> bool {
    match heard.try_borrow_mut() {
        Ok(mut heard) => {
            heard.path.clear();
            put(&mut heard.path, path);
            heard.call(trouble, device).is_none()
        }
        Err(_) => false,
    }
}

// Counts a write, and tells how it goes wrong, if it does.
fn write(heard: &RefCell<Heard>, trouble: Trouble, device: Device, bytes: &[u8]) -> Option<How> {
    match heard.try_borrow_mut() {
        Ok(mut heard) => heard.write(trouble, device, bytes),
        Err(_) => Some(How::Fails),
    }
}

// What a write answers that takes so many bytes, if it doesn't go wrong.
fn answered(wrong: Option<How>, count: usize) -> io::Result<usize>
    ensures { IfOk result (λ n. n ≤ count) }
{
    match wrong {
        None => Ok(count),
        Some(How::TakesNone) => Ok(0),
        Some(How::Fails) => Err(failed()),
        Some(How::IsClosed) => Err(io::Error::from(ErrorKind::BrokenPipe)),
    }
}

// Adds what a value shows, and an end, to what was told.
fn tell<D: Display>(heard: &RefCell<Heard>, value: &D, end: &str) -> io::Result<()> {
    match heard.try_borrow_mut() {
        Ok(mut heard) => match write!(heard.told, "{value}{end}") {
            Ok(()) => Ok(()),
            Err(_) => Err(failed()),
        },
        Err(_) => Err(failed()),
    }
}

fn failed() -> io::Error {
    io::Error::from(ErrorKind::Other)
}

fn unsupported() -> io::Error {
    io::Error::from(ErrorKind::Unsupported)
}

/// The devices that a command is asked between: what it finds, what goes wrong, and what is heard of it.
#[derive(Clone, Copy)]
pub(crate) struct Stage<'a, 'h> {
    pub(crate) asked: Asked<'a>,
    pub(crate) trouble: Trouble,
    pub(crate) heard: &'h RefCell<Heard>,
}

impl Alloc for Stage<'_, '_> {
    type A = Global;

    fn alloc(&self) -> Global {
        self.asked.texts.alloc
    }
}

impl Env for Stage<'_, '_> {
    fn arg(&self, i: usize, buf: &mut [u8]) -> Result<usize, FillError> {
        let Some(word) = word_at(self.asked.line, i) else {
            return Err(FillError::NotPresent);
        };
        let word = word.as_bytes();
        if word.len() > buf.len() {
            return Err(FillError::TooLong);
        }
        buf[..word.len()].copy_from_slice(word);
        Ok(word.len())
    }

    fn var(&self, _name: &str, _buf: &mut [u8]) -> Result<usize, FillError> {
        Err(FillError::NotPresent)
    }

    fn var_at(&self, _i: usize, _buf: &mut [u8]) -> Result<usize, FillError> {
        Err(FillError::NotPresent)
    }
}

// No command prints a value on standard output, and none more bytes at once than its buffer has.
impl Print for Stage<'_, '_> {
    fn print<D: Display + Drop>(&self, _value: D) -> io::Result<()> {
        Err(unsupported())
    }

    fn println<D: Display + Drop>(&self, _value: D) -> io::Result<()> {
        Err(unsupported())
    }

    fn write_all(&self, bytes: &[u8]) -> io::Result<()> {
        match write(self.heard, self.trouble, Device::Output, bytes) {
            None => Ok(()),
            Some(_) => Err(failed()),
        }
    }

    fn write_some(&self, bytes: &[u8]) -> io::Result<usize> {
        let count = bytes.len().min(TAKEN);
        let wrong = write(self.heard, self.trouble, Device::Output, &bytes[..count]);
        answered(wrong, count)
    }
}

impl Eprint for Stage<'_, '_> {
    fn eprint<D: Display + Drop>(&self, value: D) -> io::Result<()> {
        tell(self.heard, &value, "")
    }

    fn eprintln<D: Display + Drop>(&self, value: D) -> io::Result<()> {
        tell(self.heard, &value, "\n")
    }
}

/// Standard input, from its first byte on.
#[derive(Drop)]
pub(crate) struct Typed<'a, 'h> {
    left: &'a [u8],
    trouble: Trouble,
    heard: &'h RefCell<Heard>,
}

impl Read for Typed<'_, '_> {
    fn read(&mut self, buf: &mut [u8]) -> io::Result<usize> {
        if !goes_well(self.heard, self.trouble, Device::Input) {
            return Err(failed());
        }
        let count = buf.len().min(GIVEN).min(self.left.len());
        buf[..count].copy_from_slice(&self.left[..count]);
        self.left = &self.left[count..];
        Ok(count)
    }
}

impl BufRead for Typed<'_, '_> {
    fn fill_buf(&mut self) -> io::Result<&[u8]> {
        if !goes_well(self.heard, self.trouble, Device::Input) {
            return Err(failed());
        }
        Ok(self.left)
    }

    fn consume(&mut self, amount: usize) {
        self.left = &self.left[amount.min(self.left.len())..];
    }
}

impl<'a, 'h> Input for Stage<'a, 'h> {
    type Reader = Typed<'a, 'h>;

    fn read_line<A: Allocator + Clone>(&self, _buf: &mut String<A>) -> io::Result<usize> {
        Err(unsupported())
    }

    fn lines<A: Allocator>(&self, alloc: A) -> Lines<Typed<'a, 'h>, A> {
        self.reader().lines(alloc)
    }

    fn reader(&self) -> Typed<'a, 'h> {
        Typed {
            left: self.asked.input,
            trouble: self.trouble,
            heard: self.heard,
        }
    }
}

/// A file that is open: it is read, or it is made and written.
#[derive(Drop)]
pub(crate) struct Opened<'a, 'h> {
    left: &'a [u8],
    trouble: Trouble,
    heard: &'h RefCell<Heard>,
}

impl Read for Opened<'_, '_> {
    fn read(&mut self, buf: &mut [u8]) -> io::Result<usize> {
        if !goes_well(self.heard, self.trouble, Device::Read) {
            return Err(failed());
        }
        let count = buf.len().min(GIVEN).min(self.left.len());
        buf[..count].copy_from_slice(&self.left[..count]);
        self.left = &self.left[count..];
        Ok(count)
    }
}

impl Write for Opened<'_, '_> {
    fn write(&mut self, buf: &[u8]) -> io::Result<usize> {
        let count = buf.len().min(TAKEN);
        let wrong = write(self.heard, self.trouble, Device::Write, &buf[..count]);
        answered(wrong, count)
    }

    fn flush(&mut self) -> io::Result<()> {
        Ok(())
    }
}

impl Seek for Opened<'_, '_> {
    fn seek(&mut self, _to: SeekFrom) -> io::Result<u64> {
        Err(unsupported())
    }
}

impl OpenFile for Opened<'_, '_> {
    fn metadata(&self) -> io::Result<Metadata> {
        Err(unsupported())
    }

    fn set_len(&self, _size: u64) -> io::Result<()> {
        Err(unsupported())
    }

    fn sync_all(&self) -> io::Result<()> {
        Err(unsupported())
    }

    fn sync_data(&self) -> io::Result<()> {
        Err(unsupported())
    }
}

impl<'a, 'h> Files for Stage<'a, 'h> {
    type File = Opened<'a, 'h>;

    type Dir = Opened<'a, 'h>;

    fn open_file(&self, how: &OpenOptions, path: &str) -> io::Result<Opened<'a, 'h>> {
        let is_made = how.asks_create();
        let device = if is_made { Device::Make } else { Device::Open };
        if !opens(self.heard, self.trouble, device, path) {
            return Err(failed());
        }
        let left = match self.asked.file(path) {
            _ if is_made => &[],
            Some(left) => left,
            None => return Err(io::Error::from(ErrorKind::NotFound)),
        };
        Ok(Opened {
            left,
            trouble: self.trouble,
            heard: self.heard,
        })
    }

    fn open_dir(&self, _path: &str) -> io::Result<Opened<'a, 'h>> {
        Err(unsupported())
    }

    fn metadata(&self, _path: &str) -> io::Result<Metadata> {
        Err(unsupported())
    }

    fn symlink_metadata(&self, _path: &str) -> io::Result<Metadata> {
        Err(unsupported())
    }

    fn copy(&self, _from: &str, _to: &str) -> io::Result<u64> {
        Err(unsupported())
    }

    fn rename(&self, _from: &str, _to: &str) -> io::Result<()> {
        Err(unsupported())
    }

    fn remove_file(&self, _path: &str) -> io::Result<()> {
        Err(unsupported())
    }

    fn create_dir(&self, _path: &str) -> io::Result<()> {
        Err(unsupported())
    }

    fn remove_dir(&self, _path: &str) -> io::Result<()> {
        Err(unsupported())
    }

    fn remove_dir_all<B: Allocator>(&self, _alloc: B, _path: &str) -> io::Result<()> {
        Err(unsupported())
    }

    fn canonicalize<B: Allocator>(&self, _alloc: B, _path: &str) -> io::Result<PathBuf<B>> {
        Err(unsupported())
    }

    fn read_link<B: Allocator>(&self, _alloc: B, _path: &str) -> io::Result<PathBuf<B>> {
        Err(unsupported())
    }

    fn hard_link(&self, _original: &str, _link: &str) -> io::Result<()> {
        Err(unsupported())
    }

    fn set_permissions(&self, _path: &str, _perm: Permissions) -> io::Result<()> {
        Err(unsupported())
    }

    fn symlink(&self, _original: &str, _link: &str) -> io::Result<()> {
        Err(unsupported())
    }

    fn pipe(&self) -> io::Result<(PipeReader, PipeWriter)> {
        Err(unsupported())
    }

    fn chown(&self, _path: &str, _uid: Option<u32>, _gid: Option<u32>) -> io::Result<()> {
        Err(unsupported())
    }

    fn lchown(&self, _path: &str, _uid: Option<u32>, _gid: Option<u32>) -> io::Result<()> {
        Err(unsupported())
    }

    fn create_dir_with_mode(&self, _path: &str, _mode: u32) -> io::Result<()> {
        Err(unsupported())
    }

    fn bind_unix(&self, _socket: BorrowedFd<'_>, _addr: &SocketAddr) -> io::Result<()> {
        Err(unsupported())
    }
}
