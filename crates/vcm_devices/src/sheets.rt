//! The picture of a run, and the words of a sheet on the command line.

use crate::parts::named_part_given;
use crate::printing::{bytes_of, output, written};
use crate::request::Request;
use crate::showing::{show_view, status_shown};
use crate::talking::{Voice, alone, fails_twice};
use crate::view::{View, write_given};
use std::rt::Files;
use vcm_job::{Done, given_of};
use vcm_messages::{Message, message_of};
use vcm_num::cut_line;
use vcm_part::PartData;
use vcm_sheet::{ALL_LINES, Lines, Paper};
use vcm_usage::Choice;
use vcm_views::{Picture, SheetView, Titles, Untried, all_tried};

/// How it is told that `--lines` gives no lines.
pub const LINES: Message<'static> = Message::Option {
    words: "--lines wants A-B, two source lines from 1 on, the first not behind the last",
};

/// How it is told that `--paper` gives no paper.
pub const PAPERS: Message<'static> = Message::Option {
    words: "--paper wants a4 or a3",
};

// The number of a source line: decimal digits, from 1 on.
fn line_of(text: &str) -> Option<u32> {
    if !text.as_bytes().iter().all(|byte| byte.is_ascii_digit()) {
        return None;
    }
    match text.parse::<u32>() {
        Ok(line) if 1 <= line => Some(line),
        _ => None,
    }
}

/// The source lines that `--lines` gives: two numbers from 1 on with `-` between them, the first not above the second.
pub fn lines_of(text: &str) -> Option<Lines> {
    let (first, last) = text.split_once('-')?;
    let first = line_of(first)?;
    let last = line_of(last)?;
    if first <= last {
        Some(Lines { first, last })
    } else {
        None
    }
}

/// The same, where it may be given.
pub fn lines_given(text: Option<&str>) -> Option<Lines> {
    match text {
        Some(text) => lines_of(text),
        None => Some(ALL_LINES),
    }
}

// The paper of this name.
fn paper_of(text: &str) -> Option<Paper> {
    match text {
        "a4" | "A4" => Some(Paper::A4),
        "a3" | "A3" => Some(Paper::A3),
        _ => None,
    }
}

/// The paper that `--paper` gives, where it may be given.
pub fn paper_given(text: Option<&str>) -> Option<Option<Paper>> {
    match text {
        Some(text) => Some(Some(paper_of(text)?)),
        None => Some(None),
    }
}

// What stands between apostrophes in a line.
fn quoted(line: &[u8]) -> Option<&[u8]> {
    let begin = line.iter().position(|byte| *byte == b'\'')?;
    let text = line.get(begin.saturating_add(1)..)?;
    let end = text.iter().position(|byte| *byte == b'\'')?;
    text.get(..end)
}

// Whether a line begins with DMISMN, in letters of either case.
fn is_opening(line: &[u8]) -> bool {
    match line.get(..6) {
        Some(front) => front.eq_ignore_ascii_case(b"DMISMN"),
        None => false,
    }
}

/// The most lines in front of the first statement in which its text is looked for.
const FIRST_LINES: usize = 100;

/// The title of a program: the text of its DMISMN, or this name of its file where it has none.
pub fn title_of<'a>(text: &'a [u8], name: &'a [u8]) -> &'a [u8] {
    let mut rest = text;
    for _ in 0..FIRST_LINES {
        let (line, after) = cut_line(rest);
        if is_opening(line) {
            return quoted(line).unwrap_or(name);
        }
        rest = after;
    }
    name
}

/// The name of a file without its folders.
pub fn base_name(path: &str) -> &[u8] {
    match path.rsplit_once('/') {
        Some((_, name)) => name.as_bytes(),
        None => path.as_bytes(),
    }
}

/// What a sheet of these lines shows besides the run, where the files and the blocks have these names, the program has this title, and this wasn't tried.
pub fn titles_of<'a>(
    request: &Request<'_, '_>,
    program_name: &'a [u8],
    part_name: &'a [u8],
    title: &'a [u8],
    block_names: &'a [Vec<u8>],
    lines: Lines,
    untried: Untried<'a>,
) -> Titles<'a> {
    Titles {
        program_name,
        part_name,
        block_names,
        lines,
        is_close: request.has(Choice::Close),
        untried,
        paper: paper_given(request.value(Choice::Paper)).unwrap_or(None),
        title,
    }
}

/// Whether a sheet is asked for. `--sheet` makes a picture one, and so do `--lines` and `--paper`.
pub fn is_sheet(request: &Request<'_, '_>) -> bool {
    request.has(Choice::Sheet)
        || request.value(Choice::Stretch).is_some()
        || request.value(Choice::Paper).is_some()
}

// Prints a view of a run of a text or an image.
fn print_read<'a, R: Print + AllocGlobal>(
    rt: &R,
    view: &View<'_>,
    part: &PartData,
    input: &'a str,
    bytes: Vec<u8>,
    steps: u64,
) -> Result<Done, Message<'a>> {
    let mut out = output(rt)?;
    let done = match given_of(rt.alloc(), bytes) {
        Ok(given) => write_given(rt.alloc(), view, given, part, steps, &mut out),
        Err(fault) => Err(fault),
    };
    written(&mut out, done.map_err(|fault| message_of(fault, input)))
}

// Prints the sheet of a run beside a workpiece with names of blocks.
fn print_sheet<'a, R: Files + Input + Print + AllocGlobal>(
    rt: &R,
    request: &Request<'a, '_>,
    part: &PartData,
    names: &[Vec<u8>],
    lines: Lines,
    steps: u64,
) -> Result<Done, Message<'a>> {
    let input = request.input();
    let (program, beside) = (base_name(input), base_name(request.part()));
    let bytes = bytes_of(rt, input)?;
    let Ok(title) = Vec::from_slice(rt.alloc(), title_of(&bytes, program)) else {
        return Err(Message::NoMemory);
    };
    let titles = titles_of(
        request,
        program,
        beside,
        title.as_slice(),
        names,
        lines,
        all_tried(),
    );
    let view = View::Sheet(SheetView { titles });
    print_read(rt, &view, part, input, bytes, steps)
}

// Prints the sheet of a run, and gives the exit status. The steps are judged first, then the lines, then the paper, then the workpiece.
fn show_sheet<R: Files + Input + Print + Eprint + AllocGlobal>(
    rt: &R,
    voice: Voice,
    request: &Request<'_, '_>,
) -> u8 {
    let Some(steps) = request.steps() else {
        return fails_twice(rt, &alone(Message::Steps));
    };
    let Some(lines) = lines_given(request.value(Choice::Stretch)) else {
        return fails_twice(rt, &alone(LINES));
    };
    if paper_given(request.value(Choice::Paper)).is_none() {
        return fails_twice(rt, &alone(PAPERS));
    }
    let (part, names) = match named_part_given(rt, voice, request) {
        Ok(named) => named,
        Err(told) => return fails_twice(rt, &told),
    };
    let printed = print_sheet(rt, request, &part, names.as_slice(), lines, steps);
    status_shown(rt, voice, printed, request.input())
}

/// Prints the picture of a run, or its sheet, and gives the exit status.
pub fn show_picture<R: Files + Input + Print + Eprint + AllocGlobal>(
    rt: &R,
    voice: Voice,
    request: &Request<'_, '_>,
) -> u8 {
    if is_sheet(request) {
        return show_sheet(rt, voice, request);
    }
    let picture = Picture {
        is_close: request.has(Choice::Close),
        untried: all_tried(),
    };
    show_view(rt, voice, &View::Picture(picture), request)
}
