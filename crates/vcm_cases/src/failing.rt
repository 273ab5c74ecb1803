//! What a command does where a call of a device goes wrong: it tells so, and has written a front of what it writes where nothing goes wrong.

use crate::asking::{ask, heard_of};
use crate::stage::{Device, Heard, How, Trouble};
use crate::texts::{Asked, copied, number_text, put, word_at};

/// The devices of commands.
pub(crate) const DEVICES: &[Device] = &[
    Device::Open,
    Device::Read,
    Device::Input,
    Device::Output,
    Device::Make,
    Device::Write,
];

/// The devices of the debug adapter, which answers by a message where a file can't be read.
pub(crate) const STREAMS: &[Device] = &[Device::Input, Device::Output];

// The most writes that may come after one that failed. The buffer of standard output is tried again where a command ends, and where it is let go; then a view
// tries whether standard output is closed.
const TRIES: u32 = 3;

// The commands that tell through a pipe what they always told. The empty word is a job's.
const BOUND: &[&str] = &["", "check", "build", "run", "debug", "list", "asm"];

// Whether a device is written to.
fn is_writer(device: Device) -> bool {
    device == Device::Output || device == Device::Write
}

// How the call of a number goes wrong, of so many: it fails, or a write takes no byte, by turns.
fn how_at(device: Device, number: u32, count: u32) -> How {
    if is_writer(device) && (number / 2).saturating_add(count / 3) % 2 == 1 {
        How::TakesNone
    } else {
        How::Fails
    }
}

// Whether a command line has this word.
fn has_word(line: &str, wanted: &str) -> bool {
    for word in line.split(' ') {
        if word == wanted {
            return true;
        }
    }
    false
}

// Whether a command tells through a pipe what it always told: then it tells that its output is closed, and the others don't. A producer's text as it stands is
// none of what was always told.
fn is_bound(line: &str) -> bool {
    let word = word_at(line, 1).unwrap_or("");
    BOUND.contains(&word) && !has_word(line, "--whole")
}

// How a device's calls are named.
fn name_of(device: Device) -> &'static str {
    match device {
        Device::Open => "open",
        Device::Read => "read",
        Device::Input => "read of standard input",
        Device::Output => "write",
        Device::Make => "file made",
        Device::Write => "write of a file",
    }
}

// How it is told what goes wrong.
fn end_of(how: How) -> &'static str {
    match how {
        How::Fails => " fails\n",
        How::TakesNone => " takes no byte\n",
        How::IsClosed => " finds it closed\n",
    }
}

// What is told where a call of a device goes wrong, in front of a name.
fn front_of(device: Device) -> &'static str {
    match device {
        Device::Open | Device::Read | Device::Input => "cannot read ",
        Device::Output | Device::Make | Device::Write => "cannot write ",
    }
}

// The name that is told of a device, or of its file.
fn told_name(device: Device, path: &str) -> &str {
    match device {
        Device::Input => "standard input",
        Device::Output => "standard output",
        _ => path,
    }
}

// Whether the last that was told is that this device failed, and what was told before is a front of what else is told.
fn is_told(asked: &Asked<'_>, whole: &Heard, heard: &Heard, device: Device) -> bool {
    let mut line = copied(asked.texts.alloc, front_of(device));
    put(&mut line, told_name(device, &heard.path));
    put(&mut line, "\n");
    match heard.told.strip_suffix(line.as_str()) {
        Some(front) => whole.told.starts_with(front),
        None => false,
    }
}

// Whether no device was called again, but standard output by its buffer.
fn is_last(heard: &Heard, device: Device) -> bool {
    let tries = if device == Device::Output { TRIES } else { 0 };
    heard.others == 0 && heard.tries <= tries
}

// Whether what was written is a front of the whole, and not all of it where a write failed.
fn is_front(whole: &Heard, heard: &Heard, device: Device) -> bool {
    let is_cut = heard.written.len() < whole.written.len() || !is_writer(device);
    is_cut && whole.written.starts_with(&heard.written)
}

// Whether a command tells what it should where this goes wrong, with the exit status that it should have.
fn is_ended(asked: &Asked<'_>, whole: &Heard, heard: &Heard, trouble: Trouble) -> bool {
    match trouble.how {
        How::IsClosed if !is_bound(asked.line) => {
            heard.status == 0 && whole.told.starts_with(heard.told.as_str())
        }
        _ => heard.status == 6 && is_told(asked, whole, heard, trouble.device),
    }
}

// Whether a command does what it should where this goes wrong.
fn is_right(asked: &Asked<'_>, whole: &Heard, trouble: Trouble) -> bool {
    let heard = ask(asked, trouble);
    is_last(&heard, trouble.device)
        && is_front(whole, &heard, trouble.device)
        && is_ended(asked, whole, &heard, trouble)
}

// Tries a command where this goes wrong, and adds a line where it doesn't do what it should.
fn try_trouble(asked: &Asked<'_>, whole: &Heard, trouble: Trouble, wrong: &mut String) {
    if is_right(asked, whole, trouble) {
        return;
    }
    put(wrong, asked.line);
    put(wrong, ": ");
    put(wrong, name_of(trouble.device));
    put(wrong, " ");
    put(
        wrong,
        &number_text(asked.texts.alloc, u64::from(trouble.number)),
    );
    put(wrong, end_of(trouble.how));
}

// Has the first call of a device, one in the middle and the last go wrong.
fn try_device(asked: &Asked<'_>, whole: &Heard, device: Device, wrong: &mut String) {
    let count = whole.count(device);
    let mut last = 0;
    for number in [count.min(1), count / 2, count] {
        if number > last {
            last = number;
            let how = how_at(device, number, count);
            let trouble = Trouble {
                device,
                number,
                how,
            };
            try_trouble(asked, whole, trouble, wrong);
        }
    }
}

/// Has standard output closed in the middle.
pub(crate) fn try_closed(asked: &Asked<'_>, whole: &Heard, wrong: &mut String) {
    let count = whole.count(Device::Output);
    if count > 0 {
        let trouble = Trouble {
            device: Device::Output,
            number: (count / 2).saturating_add(1),
            how: How::IsClosed,
        };
        try_trouble(asked, whole, trouble, wrong);
    }
}

/// Asks a command again where calls of these devices go wrong, adds a line for each try that isn't as it should be, and gives what it does where nothing goes wrong.
pub(crate) fn try_devices(asked: &Asked<'_>, devices: &[Device], wrong: &mut String) -> Heard {
    let whole = heard_of(asked);
    for device in devices {
        try_device(asked, &whole, *device, wrong);
    }
    whole
}
