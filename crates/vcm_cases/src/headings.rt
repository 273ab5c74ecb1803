//! Headings, and the command lines that they stand for.

use crate::texts::{joined, number_text, put};
use std::alloc::Global;
use vcm_num::look_up;

/// What stands below a heading.
#[derive(Clone, Copy)]
pub(crate) enum Heading {
    /// Remarks, and nothing to be judged.
    Remarks,
    /// A part file, for all that follows.
    Part,
    /// A probe file, for all that follows.
    Probe,
    /// A program, for all that follows.
    Program,
    /// The statements of a program between its head and its end, for all that follows.
    Statements,
    /// Commands of the debugger, for all that follows.
    Commands,
    /// What a command line answers.
    Plain,
    /// What a run answers, and by all other ways too.
    Run,
    /// What is told of the program's image.
    OfImage,
    /// What stands in the page of a run between the fixed texts.
    Story,
    /// The words of the texts of the sheet of a run.
    Sheet,
    /// What is told of all notices in one line.
    Notices,
    /// What a text is adapted to.
    Adapt,
    /// What the debugger answers at a terminal.
    Talked,
    /// The listing of the program, whose image is that of the program.
    Listing,
    /// The bytes of the program's image.
    Image,
    /// Statements, a line each, whose programs are refused as the heading says.
    Refused,
    /// Images, a line each, that are refused as the heading says.
    Images,
    /// A listing that is refused as the heading says.
    Unlisted,
    /// A listing that has an image.
    Assembled,
    /// Command lines, a line each, that ask for what the heading says.
    Words,
    /// Words, a line each, whose explanation begins with the line that the heading has.
    Explain,
    /// Words, a line each, of which nothing is known.
    Unexplained,
    /// What a command tells of each of its faults.
    Messages,
    /// What is sent to the debug adapter, and what comes back.
    Adapter,
    /// None of these.
    Unknown,
}

const HEADINGS: &[(&[u8], Heading)] = &[
    (b"", Heading::Remarks),
    (b"#", Heading::Remarks),
    (b"part", Heading::Part),
    (b"probe", Heading::Probe),
    (b"program", Heading::Program),
    (b"statements", Heading::Statements),
    (b"commands", Heading::Commands),
    (b"check", Heading::Plain),
    (b"line", Heading::Plain),
    (b"part-told", Heading::Plain),
    (b"blocks", Heading::Plain),
    (b"trace", Heading::Plain),
    (b"margin", Heading::Plain),
    (b"points", Heading::Plain),
    (b"points-machine", Heading::Plain),
    (b"whole", Heading::Plain),
    (b"whole-trace", Heading::Plain),
    (b"whole-points", Heading::Plain),
    (b"whole-why", Heading::Plain),
    (b"why", Heading::Plain),
    (b"contacts", Heading::Plain),
    (b"clearance", Heading::Plain),
    (b"picture", Heading::Plain),
    (b"close", Heading::Plain),
    (b"run", Heading::Run),
    (b"why-image", Heading::OfImage),
    (b"points-image", Heading::OfImage),
    (b"story", Heading::Story),
    (b"sheet", Heading::Sheet),
    (b"whole-story", Heading::Story),
    (b"probed-story", Heading::Story),
    (b"whole-sheet", Heading::Sheet),
    (b"paper-a4", Heading::Sheet),
    (b"paper-a3", Heading::Sheet),
    (b"shown", Heading::Plain),
    (b"notices", Heading::Notices),
    (b"survey", Heading::Plain),
    (b"adapt", Heading::Adapt),
    (b"replies", Heading::Plain),
    (b"talked", Heading::Talked),
    (b"listing", Heading::Listing),
    (b"image", Heading::Image),
    (b"refused", Heading::Refused),
    (b"images", Heading::Images),
    (b"unlisted", Heading::Unlisted),
    (b"assembled", Heading::Assembled),
    (b"words", Heading::Words),
    (b"explain", Heading::Explain),
    (b"unexplained", Heading::Unexplained),
    (b"messages", Heading::Messages),
    (b"dap", Heading::Adapter),
];

/// What a command line has of what stands in a heading behind its first word.
#[derive(Clone, Copy)]
enum Rest {
    Nothing,
    /// A number of steps.
    Steps,
    /// A number of steps, and lines of the source or none.
    Lines,
    /// A number of steps, and names of variables.
    Names,
    /// The width of the tip to each side, and further options.
    Options,
    /// Words as they stand.
    Words,
}

/// The front of a command line, and what it has behind that.
#[derive(Clone, Copy)]
struct Front {
    words: &'static str,
    rest: Rest,
}

const FRONTS: &[(&[u8], Front)] = &[
    (
        b"check",
        Front {
            words: "vcm check t.dmi",
            rest: Rest::Nothing,
        },
    ),
    (
        b"part-told",
        Front {
            words: "vcm part part.toml",
            rest: Rest::Nothing,
        },
    ),
    (
        b"line",
        Front {
            words: "vcm ",
            rest: Rest::Words,
        },
    ),
    (
        b"blocks",
        Front {
            words: "vcm blocks ",
            rest: Rest::Words,
        },
    ),
    (
        b"trace",
        Front {
            words: "vcm trace t.dmi t.toml",
            rest: Rest::Steps,
        },
    ),
    (
        b"margin",
        Front {
            words: "vcm margin t.dmi t.toml",
            rest: Rest::Steps,
        },
    ),
    (
        b"points",
        Front {
            words: "vcm points t.dmi t.toml",
            rest: Rest::Steps,
        },
    ),
    (
        b"points-machine",
        Front {
            words: "vcm points t.dmi t.toml --machine",
            rest: Rest::Steps,
        },
    ),
    (
        b"whole",
        Front {
            words: "vcm run t.dmi t.toml --whole",
            rest: Rest::Steps,
        },
    ),
    (
        b"whole-trace",
        Front {
            words: "vcm trace t.dmi t.toml --whole",
            rest: Rest::Steps,
        },
    ),
    (
        b"whole-points",
        Front {
            words: "vcm points t.dmi t.toml --whole",
            rest: Rest::Steps,
        },
    ),
    (
        b"whole-why",
        Front {
            words: "vcm why t.dmi t.toml --whole",
            rest: Rest::Steps,
        },
    ),
    (
        b"why",
        Front {
            words: "vcm why t.dmi t.toml",
            rest: Rest::Steps,
        },
    ),
    (
        b"contacts",
        Front {
            words: "vcm contacts t.dmi t.toml",
            rest: Rest::Steps,
        },
    ),
    (
        b"clearance",
        Front {
            words: "vcm clearance t.dmi t.toml probe.toml",
            rest: Rest::Steps,
        },
    ),
    (
        b"picture",
        Front {
            words: "vcm picture t.dmi t.toml",
            rest: Rest::Steps,
        },
    ),
    (
        b"close",
        Front {
            words: "vcm picture t.dmi t.toml --close",
            rest: Rest::Steps,
        },
    ),
    (
        b"run",
        Front {
            words: "vcm run t.dmi t.toml",
            rest: Rest::Steps,
        },
    ),
    (
        b"why-image",
        Front {
            words: "vcm why made t.toml",
            rest: Rest::Steps,
        },
    ),
    (
        b"points-image",
        Front {
            words: "vcm points made t.toml",
            rest: Rest::Steps,
        },
    ),
    (
        b"story",
        Front {
            words: "vcm view t.dmi t.toml",
            rest: Rest::Steps,
        },
    ),
    (
        b"sheet",
        Front {
            words: "vcm picture t.dmi t.toml --sheet --close",
            rest: Rest::Lines,
        },
    ),
    (
        b"whole-story",
        Front {
            words: "vcm view t.dmi t.toml --whole",
            rest: Rest::Steps,
        },
    ),
    (
        b"probed-story",
        Front {
            words: "vcm view t.dmi t.toml --probe probe.toml",
            rest: Rest::Steps,
        },
    ),
    (
        b"whole-sheet",
        Front {
            words: "vcm picture t.dmi t.toml --whole --sheet --close",
            rest: Rest::Lines,
        },
    ),
    (
        b"paper-a4",
        Front {
            words: "vcm picture t.dmi t.toml --close --paper a4",
            rest: Rest::Lines,
        },
    ),
    (
        b"paper-a3",
        Front {
            words: "vcm picture t.dmi t.toml --close --paper a3",
            rest: Rest::Lines,
        },
    ),
    (
        b"shown",
        Front {
            words: "vcm run t.dmi t.toml",
            rest: Rest::Names,
        },
    ),
    (
        b"notices",
        Front {
            words: "vcm check t.dmi --talk",
            rest: Rest::Nothing,
        },
    ),
    (
        b"survey",
        Front {
            words: "vcm survey program",
            rest: Rest::Options,
        },
    ),
    (
        b"adapt",
        Front {
            words: "vcm adapt t.dmi",
            rest: Rest::Options,
        },
    ),
    (
        b"replies",
        Front {
            words: "vcm debug t.dmi t.toml",
            rest: Rest::Nothing,
        },
    ),
    (
        b"talked",
        Front {
            words: "vcm debug t.dmi t.toml",
            rest: Rest::Nothing,
        },
    ),
    (
        b"listing",
        Front {
            words: "vcm list t.dmi",
            rest: Rest::Nothing,
        },
    ),
    (
        b"image",
        Front {
            words: "vcm build t.dmi image",
            rest: Rest::Nothing,
        },
    ),
];

/// The first word of a heading.
pub(crate) fn word_of(title: &str) -> &str {
    match title.split_once(' ') {
        Some((word, _)) => word,
        None => title,
    }
}

/// What a heading has behind its first word.
pub(crate) fn behind_word(title: &str) -> &str {
    match title.split_once(' ') {
        Some((_, rest)) => rest,
        None => "",
    }
}

/// What a heading says.
pub(crate) fn heading_of(title: &str) -> Heading {
    look_up(HEADINGS, word_of(title).as_bytes()).unwrap_or(Heading::Unknown)
}

// A number of steps, at most so many; as it stands where it is none.
fn steps_text(alloc: Global, steps: &str, most: u64) -> String {
    match steps.parse::<u64>() {
        Ok(steps) => number_text(alloc, steps.min(most)),
        Err(_) => joined(alloc, &[steps]),
    }
}

/// A command line with the steps that a heading has, at most so many, and with what else it has behind an option.
pub(crate) fn line_with(
    alloc: Global,
    front: &str,
    asked: &str,
    option: &str,
    most: u64,
) -> String {
    let (steps, rest) = match asked.split_once(' ') {
        Some(pair) => pair,
        None => (asked, ""),
    };
    let mut line = joined(
        alloc,
        &[front, " --steps ", &steps_text(alloc, steps, most)],
    );
    if !rest.is_empty() {
        put(&mut line, option);
        put(&mut line, rest);
    }
    line
}

// What stands in a command line in front of an option that a heading has.
fn front_of(word: &str) -> &'static str {
    if word == "exact" || word == "touch" {
        " --"
    } else if word.contains('=') {
        " --frame "
    } else {
        " --tip "
    }
}

// A command line with the options that a heading has: the width of the tip to each side, `exact`, `touch` and frames.
fn line_of_options(alloc: Global, front: &str, words: &str) -> String {
    let mut line = joined(alloc, &[front]);
    for word in words.split(' ') {
        put(&mut line, front_of(word));
        put(&mut line, word);
    }
    line
}

// A command line with words as they stand in a heading.
fn line_of_words(alloc: Global, front: &str, words: &str) -> String {
    let mut line = joined(alloc, &[front]);
    put(&mut line, words);
    line
}

/// The command line that a heading stands for, with at most so many steps; no words where it stands for none.
pub(crate) fn line_of(alloc: Global, title: &str, most: u64) -> String {
    let Some(front) = look_up(FRONTS, word_of(title).as_bytes()) else {
        return String::new(alloc);
    };
    let rest = behind_word(title);
    match front.rest {
        Rest::Nothing => joined(alloc, &[front.words]),
        Rest::Steps => line_with(alloc, front.words, rest, "", most),
        Rest::Lines => line_with(alloc, front.words, rest, " --lines ", most),
        Rest::Names => line_with(alloc, front.words, rest, " --show ", most),
        Rest::Options => line_of_options(alloc, front.words, rest),
        Rest::Words => line_of_words(alloc, front.words, rest),
    }
}
