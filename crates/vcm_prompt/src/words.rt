//! The words that are typed.

use std::alloc::Global;
use vcm_num::{NoMemory, look_up};

/// What the front answers by itself.
#[derive(Clone, Copy)]
pub(crate) enum Own {
    /// `help`: the words.
    Help,
    /// `b L`: a breakpoint at each statement of a source line.
    BreakAt,
    /// `cl L`: none there.
    ClearAt,
    /// `bs`: all breakpoints.
    Breakpoints,
    /// `pos`: where the probe is.
    Position,
    /// `why`: why the run stops.
    Why,
}

// The words of the front.
const OWN_WORDS: &[(&[u8], Own)] = &[
    (b"help", Own::Help),
    (b"h", Own::Help),
    (b"?", Own::Help),
    (b"b", Own::BreakAt),
    (b"cl", Own::ClearAt),
    (b"bs", Own::Breakpoints),
    (b"pos", Own::Position),
    (b"why", Own::Why),
];

/// A word of the debugger that has short ones.
#[derive(Clone, Copy)]
enum Long {
    Back,
    Feat,
    List,
    Out,
    Over,
    Quit,
    Reverse,
    Run,
    Show,
    Step,
    Unwatch,
    Watch,
    Where,
}

// Short words, each with the debugger's that it stands for.
const SHORT_WORDS: &[(&[u8], Long)] = &[
    (b"c", Long::Run),
    (b"f", Long::Feat),
    (b"l", Long::List),
    (b"n", Long::Step),
    (b"o", Long::Out),
    (b"ov", Long::Over),
    (b"p", Long::Show),
    (b"q", Long::Quit),
    (b"r", Long::Run),
    (b"rev", Long::Reverse),
    (b"s", Long::Step),
    (b"u", Long::Back),
    (b"uw", Long::Unwatch),
    (b"w", Long::Where),
    (b"wa", Long::Watch),
];

// A word as it is spelled.
fn spelled(word: Long) -> &'static [u8] {
    match word {
        Long::Back => b"back",
        Long::Feat => b"feat",
        Long::List => b"list",
        Long::Out => b"out",
        Long::Over => b"over",
        Long::Quit => b"quit",
        Long::Reverse => b"reverse",
        Long::Run => b"run",
        Long::Show => b"show",
        Long::Step => b"step",
        Long::Unwatch => b"unwatch",
        Long::Watch => b"watch",
        Long::Where => b"where",
    }
}

/// What `help` prints.
pub(crate) const HELP: &[u8] =
    b"b LINE      breakpoints at all statements of a source line; cl LINE takes them away
bs          all breakpoints; break N and clear N set and clear one by its statement
r, c [N]    run, to a breakpoint, a change of a watched variable or a stop
s, n [N]    step            u [N]       back
rev         reverse: back to where a run would have ended
wa NAME     watch           uw NAME     unwatch
p NAME      show a variable f NAME      feat: a feature
w           where it stands pos         where the probe is
l [N]       list            o [N]       out: the last output lines
line LINE   the statement of a source line
q           quit
An empty line repeats the last command.
";

/// What it prints besides of a program, or of an image.
pub(crate) const HELP_WHY: &[u8] =
    b"why         why the run stops: its line, its calls and loops, and where the way is free
";

/// What it prints besides of a producer's text.
pub(crate) const HELP_WHOLE: &[u8] =
    b"ov [N]      over: to another source line, N times; known: what is known there
";

/// What the front answers by itself to a word. On a producer's text `why` is none: that of the program which it is put as would tell other lines.
pub(crate) fn own_word(word: &[u8], is_whole: bool) -> Option<Own> {
    match look_up(OWN_WORDS, word) {
        Some(Own::Why) if is_whole => None,
        own => own,
    }
}

// How many blanks are in front.
fn blanks(bytes: &[u8]) -> usize {
    bytes.iter().take_while(|b| **b == b' ').count()
}

// How many bytes are before the first blank.
fn word_len(bytes: &[u8]) -> usize {
    bytes.iter().take_while(|b| **b != b' ').count()
}

// The bytes cut behind so many, or behind all.
fn cut(bytes: &[u8], most: usize) -> (&[u8], &[u8]) {
    let count = bytes.len();
    if most < count {
        bytes.split_at(most)
    } else {
        bytes.split_at(count)
    }
}

/// The first word of a line, and what stands behind it.
pub(crate) fn cut_word(line: &[u8]) -> (&[u8], &[u8]) {
    let (_, rest) = cut(line, blanks(line));
    cut(rest, word_len(rest))
}

/// One text behind another.
pub(crate) fn joined(alloc: Global, front: &[u8], back: &[u8]) -> Result<Vec<u8>, NoMemory> {
    let mut whole = Vec::new(alloc);
    whole.extend_from_slice(front)?;
    whole.extend_from_slice(back)?;
    Ok(whole)
}

/// The debugger's line that a typed one stands for.
///
/// Errors: want of memory.
pub(crate) fn long_line(alloc: Global, line: &[u8]) -> Result<Vec<u8>, NoMemory> {
    let (word, behind) = cut_word(line);
    match look_up(SHORT_WORDS, word) {
        Some(long) => joined(alloc, spelled(long), behind),
        None => joined(alloc, line, b""),
    }
}

/// The number that a word spells, if it has one to nine digits.
pub(crate) fn number(word: &[u8]) -> Option<u64> {
    if word.is_empty() || word.len() > 9 {
        return None;
    }
    let mut value: u64 = 0;
    for byte in word {
        if !byte.is_ascii_digit() {
            return None;
        }
        value = value
            .saturating_mul(10)
            .saturating_add(u64::from(byte.saturating_sub(b'0')));
    }
    Some(value)
}
