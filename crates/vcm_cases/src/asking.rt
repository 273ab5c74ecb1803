//! The commands of vcm, asked between devices in memory; and what a command line asks for. Nothing else here names the crate of the commands.

use crate::messages::line_of;
use crate::stage::{Heard, NO_TROUBLE, Stage, Trouble};
use crate::texts::{Asked, copied, joined, number_text, put, put_all};
use std::alloc::Global;
use std::cell::RefCell;
use std::fmt::Write as _;
use vcm_command::{
    Request, Terminals, lines_of, matches_of, paper_given, status, words_to_explain,
};
use vcm_messages::Message;
use vcm_usage::{Choice, Verb};

/// What a command does that is asked this, where a call goes wrong.
pub(crate) fn ask(asked: &Asked<'_>, trouble: Trouble) -> Heard {
    let heard = RefCell::new(Heard::new(asked.texts.alloc));
    let stage = Stage {
        asked: *asked,
        trouble,
        heard: &heard,
    };
    let terminals = Terminals {
        input: asked.is_typed,
        errors: asked.is_typed,
    };
    let status = status(&stage, terminals);
    let mut heard = heard.into_inner();
    heard.status = status;
    heard
}

/// What a command does that is asked this, where nothing goes wrong.
pub(crate) fn heard_of(asked: &Asked<'_>) -> Heard {
    ask(asked, NO_TROUBLE)
}

// The words of a command line. One between apostrophes may have blanks, or nothing.
fn words_of(alloc: Global, line: &str) -> Vec<String> {
    let mut words = Vec::new(alloc);
    for (place, piece) in line.split('\'').enumerate() {
        if place % 2 == 1 {
            let _ = words.push(copied(alloc, piece));
        } else {
            for word in piece.split(' ') {
                if !word.is_empty() {
                    let _ = words.push(copied(alloc, word));
                }
            }
        }
    }
    words
}

// A run, or a view of one, that is asked for, with these pieces in front.
fn run_asked(alloc: Global, pieces: &[&str], request: &Request<'_, '_>) -> String {
    let Some(steps) = request.steps() else {
        return line_of(alloc, Message::Steps);
    };
    let steps = number_text(alloc, steps);
    let mut text = joined(alloc, pieces);
    put_all(
        &mut text,
        &[
            " input=",
            request.input(),
            " part=",
            request.part(),
            " steps=",
            &steps,
        ],
    );
    text
}

// The blocks of a model that are asked for.
fn blocks_asked(alloc: Global, request: &Request<'_, '_>) -> String {
    let mut text = copied(alloc, "blocks model=");
    put(&mut text, request.input());
    put(&mut text, " into=");
    put(&mut text, request.value(Choice::Into).unwrap_or(""));
    put(&mut text, " near=");
    put(&mut text, request.value(Choice::Near).unwrap_or(""));
    text
}

// How it is told whether something is so.
fn told(is_so: bool) -> &'static str {
    if is_so { "true" } else { "false" }
}

// What is asked for of a producer's text.
fn produced_asked(alloc: Global, name: &str, request: &Request<'_, '_>) -> String {
    let mut text = copied(alloc, name);
    put(&mut text, " program=");
    put(&mut text, request.input());
    put(&mut text, " tip=");
    put(&mut text, request.value(Choice::Tip).unwrap_or(""));
    put(&mut text, " part=");
    put(&mut text, request.value(Choice::Part).unwrap_or(""));
    put(&mut text, " exact=");
    put(&mut text, told(request.has(Choice::Exact)));
    text
}

// The name of one of two, by whether an option is there.
fn named(
    request: &Request<'_, '_>,
    choice: Choice,
    with: &'static str,
    without: &'static str,
) -> &'static str {
    if request.has(choice) { with } else { without }
}

// The source lines of a sheet.
fn lines_words<'a>(lines: Option<&'a str>) -> &'a str {
    match lines {
        Some(text) if lines_of(text).is_some() => text,
        Some(_) => "refused",
        None => "all",
    }
}

// The paper of a sheet.
fn paper_words<'a>(paper: Option<&'a str>) -> &'a str {
    match paper {
        Some(text) if paper_given(paper).is_some() => text,
        Some(_) => "refused",
        None => "none",
    }
}

// Words with a blank between two.
fn spaced(alloc: Global, words: &[String]) -> String {
    words.join(alloc, " ").unwrap_or(String::new(alloc))
}

// The check of programs that is asked for.
fn check_asked(alloc: Global, request: &Request<'_, '_>) -> String {
    let is_all = request.has(Choice::All);
    match request.programs() {
        [name] if !is_all && *name != "-" => joined(alloc, &["check program=", name]),
        programs => {
            let programs = programs.join(alloc, " ").unwrap_or(String::new(alloc));
            joined(alloc, &["checks words=", &programs, " all=", told(is_all)])
        }
    }
}

// The trial of programs that is asked for.
fn judge_asked(alloc: Global, request: &Request<'_, '_>) -> String {
    let programs = request.programs();
    let programs = programs.join(alloc, " ").unwrap_or(String::new(alloc));
    let part = request.value(Choice::Beside).unwrap_or("");
    joined(alloc, &["judge words=", &programs, " part=", part])
}

// The picture that is asked for.
fn picture_asked(alloc: Global, request: &Request<'_, '_>) -> String {
    let lines = request.value(Choice::Stretch);
    let paper = request.value(Choice::Paper);
    if request.has(Choice::Sheet) || lines.is_some() || paper.is_some() {
        let mut name = copied(alloc, "sheet close=");
        put(&mut name, told(request.has(Choice::Close)));
        put(&mut name, " lines=");
        put(&mut name, lines_words(lines));
        if paper.is_some() {
            put(&mut name, " paper=");
            put(&mut name, paper_words(paper));
        }
        return run_asked(alloc, &[&name], request);
    }
    run_asked(
        alloc,
        &[named(request, Choice::Close, "close", "picture")],
        request,
    )
}

// A run that is asked for, with the value of an option in front of it, if that is there.
fn with_option(
    alloc: Global,
    name: &str,
    front: &str,
    choice: Choice,
    request: &Request<'_, '_>,
) -> String {
    match request.value(choice) {
        Some(value) => run_asked(alloc, &[name, front, value], request),
        None => run_asked(alloc, &[name], request),
    }
}

// What is asked for.
fn asked(alloc: Global, request: &Request<'_, '_>) -> String {
    let (input, part) = (request.input(), request.part());
    match request.verb() {
        Verb::Check => check_asked(alloc, request),
        Verb::Survey => produced_asked(
            alloc,
            named(request, Choice::Lines, "lines", "survey"),
            request,
        ),
        Verb::Adapt => produced_asked(
            alloc,
            named(request, Choice::Touch, "touch", "adapt"),
            request,
        ),
        Verb::Build => joined(
            alloc,
            &["build program=", input, " image=", request.image()],
        ),
        Verb::Run => with_option(alloc, "run", " show=", Choice::Show, request),
        Verb::Picture => picture_asked(alloc, request),
        Verb::View => with_option(alloc, "view", " probe=", Choice::Probe, request),
        Verb::Clearance => run_asked(alloc, &["clearance probe=", request.probe()], request),
        Verb::Debug => joined(alloc, &["debug input=", input, " part=", part]),
        Verb::List => joined(alloc, &["list input=", input]),
        Verb::Asm => joined(alloc, &["asm listing=", input, " image=", request.image()]),
        Verb::Part => joined(alloc, &["part part=", input]),
        Verb::Blocks => blocks_asked(alloc, request),
        Verb::Probe => joined(alloc, &["probe hardware=", input]),
        Verb::Points => run_asked(
            alloc,
            &[named(request, Choice::Machine, "machine", "points")],
            request,
        ),
        Verb::Place => with_option(alloc, "place", " by=", Choice::By, request),
        Verb::Judge => judge_asked(alloc, request),
        Verb::Dap | Verb::Explain => copied(alloc, request.usage().name),
        Verb::Why | Verb::Contacts | Verb::Trace | Verb::Margin => {
            run_asked(alloc, &[request.usage().name], request)
        }
    }
}

// What is asked for by words that are read.
fn matches_answer(alloc: Global, words: &[String]) -> String {
    match matches_of(alloc, words) {
        Ok(matches) => match Request::of(&matches) {
            Some(request) => asked(alloc, &request),
            None => copied(alloc, "job"),
        },
        Err(error) => {
            let mut text = String::new(alloc);
            let _ = write!(text, "{} {:?}", error.exit_code(), error.kind());
            text
        }
    }
}

/// What a command line asks for, or its exit status and its fault.
pub(crate) fn words_answer(alloc: Global, line: &str) -> String {
    let words = words_of(alloc, line);
    match words_to_explain(words.as_slice()) {
        Some(words) => joined(alloc, &["explain words=", &spaced(alloc, words)]),
        None => matches_answer(alloc, words.as_slice()),
    }
}
