//! What the program says on standard error, and its exit statuses.

use thiserror::Error;
use vcm_boxes::{BoxKey, BoxesFault, Refusal as BoxRefusal, ShortName};
use vcm_debug::ServeFault;
use vcm_fields::ImageFault;
use vcm_job::{Fault, InputRefusal, SessionFault};
use vcm_lines::{FaultCode, SourceFault};
use vcm_listing::{ListCode, ListFault};
use vcm_part::{PartCode, PartFault};
use vcm_program::Noticed;
use vcm_run::Refusal;

/// A fault as it is printed.
#[derive(Clone, Copy, Debug, Error)]
pub enum Message<'a> {
    #[error("{words} line {line}")]
    Source {
        words: &'static str,
        line: u32,
    },
    /// A text that is put as too many statements.
    #[error("{words} line {line}, put as {count} statements")]
    Put {
        words: &'static str,
        line: u32,
        count: usize,
    },
    #[error("{words} block {block}")]
    Block {
        words: &'static str,
        block: u32,
    },
    #[error("{words} {key}")]
    Key {
        words: &'static str,
        key: &'a str,
    },
    #[error("{words} box {number}")]
    Box {
        words: &'static str,
        number: u32,
    },
    #[error("{words} box {number} {key}")]
    BoxKey {
        words: &'static str,
        number: u32,
        key: &'a str,
    },
    #[error("{words}")]
    Part {
        words: &'static str,
    },
    #[error("{words}")]
    Image {
        words: &'static str,
    },
    #[error("no memory")]
    NoMemory,
    #[error("no memory after {done} steps")]
    Halted {
        done: u64,
    },
    #[error("cannot read {name}")]
    Read {
        name: &'a str,
    },
    /// What an editor sends is no message of its protocol.
    #[error("standard input is no message of the debug adapter protocol")]
    NoMessage,
    #[error("cannot write {name}")]
    Write {
        name: &'a str,
    },
    /// Standard output is a pipe that nobody reads any more.
    #[error("cannot write standard output")]
    Closed,
    #[error("input too long")]
    TooLong,
    #[error("usage: a word of the command line is no text")]
    Usage,
    #[error("usage: nothing is known of {words}")]
    Unknown {
        words: &'a str,
    },
    #[error("usage: --steps wants decimal digits, a number from 0 to 1000000000")]
    Steps,
    #[error("usage: {words}")]
    Option {
        words: &'static str,
    },
}

/// A line of a program that has no effect, as it is printed.
#[derive(Clone, Copy, Debug, Error)]
#[error("notice line {line}: {word} has no effect")]
pub struct NoticeLine<'a> {
    pub line: u32,
    pub word: &'a str,
}

/// A line of a program that has no effect, as it is printed.
pub fn notice_line(notice: &Noticed) -> NoticeLine<'static> {
    NoticeLine {
        line: notice.line,
        word: std::str::from_utf8(notice.word.word()).unwrap_or(""),
    }
}

/// What is told of a refusal.
pub trait Told {
    fn told(self) -> Message<'static>;
}

// The code and name of a refusal of a text.
fn source_words(code: FaultCode) -> &'static str {
    match code {
        FaultCode::NoMemory => "E00 NoMemory",
        FaultCode::BadByte => "E01 BadByte",
        FaultCode::LineTooLong => "E02 LineTooLong",
        FaultCode::TooManyLines => "E03 TooManyLines",
        FaultCode::DanglingContinuation => "E04 DanglingContinuation",
        FaultCode::UnknownStatement => "E05 UnknownStatement",
        FaultCode::BadSyntax => "E06 BadSyntax",
        FaultCode::TooFine => "E07 TooFine",
        FaultCode::NumberTooLarge => "E08 NumberTooLarge",
        FaultCode::TooDeep => "E09 TooDeep",
        FaultCode::NotQuarterTurn => "E10 NotQuarterTurn",
        FaultCode::NotAxis => "E11 NotAxis",
        FaultCode::BadOrder => "E12 BadOrder",
        FaultCode::DuplicateName => "E13 DuplicateName",
        FaultCode::UnknownName => "E14 UnknownName",
        FaultCode::BadType => "E15 BadType",
        FaultCode::Unbalanced => "E16 Unbalanced",
        FaultCode::JumpInward => "E17 JumpInward",
        FaultCode::MeasBody => "E18 MeasBody",
        FaultCode::BadArguments => "E19 BadArguments",
        FaultCode::TooLong => "E20 TooLong",
        FaultCode::TooManyNames => "E21 TooManyNames",
        FaultCode::Unsupported => "E22 Unsupported",
    }
}

// The code and name of a refusal of a part file.
fn part_words(code: PartCode) -> &'static str {
    match code {
        PartCode::NoMemory => "P00 NoMemory",
        PartCode::NotToml => "P01 NotToml",
        PartCode::BadKey => "P02 BadKey",
        PartCode::OutOfRange => "P03 OutOfRange",
        PartCode::LowAboveHigh => "P04 LowAboveHigh",
        PartCode::TooManyBlocks => "P05 TooManyBlocks",
        PartCode::HomeNotClear => "P06 HomeNotClear",
    }
}

// The key of a probe file as it is told: a sign for it where it is no label.
fn key_words(key: &Option<ShortName>) -> &str {
    match key {
        Some(label) => std::str::from_utf8(label.as_bytes()).unwrap_or("?"),
        None => "?",
    }
}

// How a refusal of a key of a box is told.
fn box_key_message(words: &'static str, number: u32, key: BoxKey) -> Message<'static> {
    Message::BoxKey {
        words,
        number,
        key: key.word(),
    }
}

// How a refused probe file is told.
fn boxes_message(refusal: &BoxRefusal) -> Message<'_> {
    match refusal {
        BoxRefusal::NotToml => Message::Part {
            words: "B01 NotToml",
        },
        BoxRefusal::UnknownKey(key) => Message::Key {
            words: "B06 UnknownKey",
            key: key_words(key),
        },
        BoxRefusal::NoBoxes => Message::Key {
            words: "B02 BadKey",
            key: "box",
        },
        BoxRefusal::TooManyBoxes => Message::Part {
            words: "B05 TooManyBoxes",
        },
        BoxRefusal::UnknownBoxKey(number, key) => Message::BoxKey {
            words: "B06 UnknownKey",
            number: *number,
            key: key_words(key),
        },
        BoxRefusal::BadKey(number, key) => box_key_message("B02 BadKey", *number, *key),
        BoxRefusal::OutOfRange(number, key) => box_key_message("B03 OutOfRange", *number, *key),
        BoxRefusal::LowAboveHigh(number) => Message::Box {
            words: "B04 LowAboveHigh",
            number: *number,
        },
        BoxRefusal::DuplicateName(number) => Message::Box {
            words: "B07 DuplicateName",
            number: *number,
        },
    }
}

/// How the fault of a probe file is told.
pub fn probe_message(fault: &BoxesFault) -> Message<'_> {
    match fault {
        BoxesFault::NoMemory => Message::NoMemory,
        BoxesFault::Refused(refusal) => boxes_message(refusal),
    }
}

// The code and name of a refusal of an image.
fn image_words(fault: ImageFault) -> &'static str {
    match fault {
        ImageFault::NoMemory => "I00 NoMemory",
        ImageFault::BadMagic => "I01 BadMagic",
        ImageFault::Short => "I02 Short",
        ImageFault::BadVersion => "I03 BadVersion",
        ImageFault::BadField => "I04 BadField",
        ImageFault::Trailing => "I05 Trailing",
        ImageFault::BadIndex => "I06 BadIndex",
        ImageFault::BadTarget => "I07 BadTarget",
        ImageFault::BadOperand => "I08 BadOperand",
        ImageFault::RunsOff => "I09 RunsOff",
    }
}

impl Told for ImageFault {
    fn told(self) -> Message<'static> {
        match self {
            ImageFault::NoMemory => Message::NoMemory,
            fault => Message::Image {
                words: image_words(fault),
            },
        }
    }
}

// The code and name of a refusal of a listing.
fn listing_words(code: ListCode) -> &'static str {
    match code {
        ListCode::NoMemory => "L00 NoMemory",
        ListCode::BadLine => "L01 BadLine",
        ListCode::BadNumber => "L02 BadNumber",
        ListCode::OutOfOrder => "L03 OutOfOrder",
        ListCode::NotValid => "L04 NotValid",
    }
}

impl Told for ListFault {
    fn told(self) -> Message<'static> {
        match self.code {
            ListCode::NoMemory => Message::NoMemory,
            code => Message::Source {
                words: listing_words(code),
                line: self.line,
            },
        }
    }
}

impl Told for SourceFault {
    fn told(self) -> Message<'static> {
        match self.code {
            FaultCode::NoMemory => Message::NoMemory,
            code => Message::Source {
                words: source_words(code),
                line: self.line,
            },
        }
    }
}

impl Told for PartFault {
    fn told(self) -> Message<'static> {
        match (self.code, self.block) {
            (PartCode::NoMemory, _) => Message::NoMemory,
            (code, 0) => Message::Part {
                words: part_words(code),
            },
            (code, block) => Message::Block {
                words: part_words(code),
                block,
            },
        }
    }
}

impl Told for Refusal {
    fn told(self) -> Message<'static> {
        match self {
            Refusal::Source(fault) => fault.told(),
            Refusal::Part(fault) => fault.told(),
            Refusal::NoMemory => Message::NoMemory,
        }
    }
}

impl Told for InputRefusal {
    fn told(self) -> Message<'static> {
        match self {
            InputRefusal::Text(refusal) => refusal.told(),
            InputRefusal::Image(fault) => fault.told(),
        }
    }
}

impl Told for SessionFault {
    fn told(self) -> Message<'static> {
        match self {
            SessionFault::Text(refusal) => refusal.told(),
            SessionFault::Image(fault) => fault.told(),
            SessionFault::Serve(ServeFault::Read) => Message::Read {
                name: "standard input",
            },
            SessionFault::Serve(ServeFault::Write) => Message::Write {
                name: "standard output",
            },
            SessionFault::Serve(ServeFault::TooMuch) => Message::TooLong,
        }
    }
}

/// How the fault of a command is told, of the input with this name.
pub fn message_of<'a, R: Told>(fault: Fault<R>, name: &'a str) -> Message<'a> {
    match fault {
        Fault::Refused(refusal) => refusal.told(),
        Fault::NoMemory => Message::NoMemory,
        Fault::Memory { done } => Message::Halted { done },
        Fault::Read => Message::Read { name },
        Fault::Write { .. } => Message::Write {
            name: "standard output",
        },
        Fault::TooLong => Message::TooLong,
    }
}

/// The exit status of a fault: 1 refused, 2 usage, 5 want of memory, 6 a device.
pub fn status_of(message: Message<'_>) -> u8 {
    match message {
        Message::Source { .. } | Message::Put { .. } | Message::Block { .. } => 1,
        Message::Key { .. } | Message::Box { .. } | Message::BoxKey { .. } => 1,
        Message::Part { .. } | Message::Image { .. } => 1,
        Message::Usage | Message::Steps | Message::Option { .. } | Message::Unknown { .. } => 2,
        Message::NoMemory | Message::Halted { .. } => 5,
        Message::Read { .. } | Message::NoMessage | Message::TooLong => 6,
        Message::Write { .. } | Message::Closed => 6,
    }
}
