//! The program: its words are read, and the command is carried out on the standard devices and files.

use clap::Error;
use clap::error::ErrorKind;
use std::io;
use std::rt::{Env, Files};
use vcm_devices::{
    NamedView, Request, Terminals, View, Voice, asm_file, build_file, debug_file, fails, list_file,
    matches_of, run_job, show_named, show_page, show_part, show_picture, show_points, show_result,
    show_view, voice_of,
};
use vcm_messages::Message;
use vcm_prepare::{adapt_file, blocks_file, explain, probe_file, survey_file};
use vcm_set_commands::{probe_named, show_probed, show_whole};
use vcm_trials::{check_programs, judge_programs, serve_editor, show_places};
use vcm_usage::{Choice, Rest, Verb};
use vcm_whole_runs::says_of_whole;

// Answers a request for help or the version on standard output, tells a wrong command line on standard error, and gives the exit status.
fn tell_usage<R: Print + Eprint>(rt: &R, error: &Error) -> u8 {
    if error.kind() == ErrorKind::OutOfMemory {
        return fails(rt, Message::NoMemory);
    }
    match (error.print(rt), error.use_stderr()) {
        (_, true) => 2,
        (Ok(()), false) => 0,
        (Err(error), false) if error.kind() == io::ErrorKind::BrokenPipe => 0,
        (Err(_), false) => fails(
            rt,
            Message::Write {
                name: "standard output",
            },
        ),
    }
}

// The words of the command line, the program's name first.
fn words_of<R: Env + AllocGlobal>(rt: &R) -> Result<Vec<String>, Message<'static>> {
    match std::env::args(rt) {
        Ok(args) => args.collect(rt.alloc()).map_err(|_| Message::NoMemory),
        Err(error) => match error.kind() {
            io::ErrorKind::OutOfMemory => Err(Message::NoMemory),
            _ => Err(Message::Usage),
        },
    }
}

/// The words that are to be explained, as they stand, where no help is asked for. The two dashes that end options may stand before them.
pub fn words_to_explain(words: &[String]) -> Option<&[String]> {
    match words {
        [_, command, rest @ ..] if command.as_str() == "explain" => match rest {
            [first, ..] if first.as_str() == "--help" || first.as_str() == "-h" => None,
            [first, behind @ ..] if first.as_str() == "--" => Some(behind),
            _ => Some(rest),
        },
        _ => None,
    }
}

const WANTS_WHOLE: Message<'static> = Message::Option {
    words: "--frame, --given, --apprch, --retrct, --search, --auto, --approach, --harmless and --table want --whole beside them",
};

// How much is told of a job where `--talk` stands: as much as at a terminal.
const AS_AT_TERMINAL: Terminals = Terminals {
    input: false,
    errors: true,
};

// Whether the command line is `--talk` alone, which asks for a job.
fn talks_alone(words: &[String]) -> bool {
    match words {
        [_, word] => word.as_str() == "--talk",
        _ => false,
    }
}

// Carries out a command, which has these words after it, and gives the exit status.
fn carry_out<R: Files + Input + Print + Eprint + AllocGlobal>(
    rt: &R,
    voice: Voice,
    request: &Request<'_, '_>,
    words: &[String],
) -> u8 {
    if request.usage().takes(Choice::Whole) {
        if request.has(Choice::Whole) && request.usage().rest != Rest::Programs {
            return show_whole(rt, voice, request);
        }
        if !request.has(Choice::Whole) && says_of_whole(request) {
            return fails(rt, WANTS_WHOLE);
        }
    }
    match probe_named(request) {
        Some(probe) => show_probed(rt, voice, request, probe),
        None => carry_out_alone(rt, voice, request, words),
    }
}

// The same where no probe file is named.
fn carry_out_alone<R: Files + Input + Print + Eprint + AllocGlobal>(
    rt: &R,
    voice: Voice,
    request: &Request<'_, '_>,
    words: &[String],
) -> u8 {
    match request.verb() {
        // It names one.
        Verb::Clearance => fails(rt, Message::Usage),
        Verb::Check => check_programs(rt, voice, request),
        Verb::Survey => survey_file(rt, voice, request),
        Verb::Adapt => adapt_file(rt, voice, request),
        Verb::Build => build_file(rt, voice, request),
        Verb::Run => show_result(rt, voice, request),
        Verb::Why => show_named(rt, voice, NamedView::Why, request),
        Verb::Contacts => show_named(rt, voice, NamedView::Contacts, request),
        Verb::Trace => show_view(rt, voice, &View::Trace, request),
        Verb::Margin => show_view(rt, voice, &View::Margin, request),
        Verb::Points => show_points(rt, voice, request),
        Verb::Picture => show_picture(rt, voice, request),
        Verb::View => show_page(rt, voice, request),
        Verb::Part => show_part(rt, voice, request),
        Verb::Blocks => blocks_file(rt, voice, request, words),
        Verb::Probe => probe_file(rt, request),
        Verb::Debug => debug_file(rt, voice, request),
        Verb::Dap => serve_editor(rt),
        Verb::List => list_file(rt, voice, request),
        Verb::Asm => asm_file(rt, voice, request),
        Verb::Place => show_places(rt, voice, request),
        Verb::Judge => judge_programs(rt, voice, request),
        // Its words are read before the command line is.
        Verb::Explain => explain(rt, &[]),
    }
}

const DASHES: Message<'static> = Message::Option {
    words: "- stands for standard input once, and where no commands are read from it",
};

// How often `-` may stand for standard input: the debugger and the debug adapter read their commands from it.
fn dashes_allowed(verb: Verb) -> usize {
    match verb {
        Verb::Debug | Verb::Dap => 0,
        _ => 1,
    }
}

// Carries out a command whose words may name standard input so often.
fn carry_out_once<R: Files + Input + Print + Eprint + AllocGlobal>(
    rt: &R,
    voice: Voice,
    request: &Request<'_, '_>,
    words: &[String],
) -> u8 {
    if request.dashes() > dashes_allowed(request.verb()) {
        fails(rt, DASHES)
    } else {
        carry_out(rt, voice, request, words)
    }
}

// The words after the command, which stands after the program's name.
fn words_behind(words: &[String]) -> &[String] {
    match words {
        [_, _, behind @ ..] => behind,
        _ => &[],
    }
}

// Reads the command line, carries it out, and gives the exit status.
fn status_of<R: Files + Input + Print + Eprint + AllocGlobal>(
    rt: &R,
    terminals: Terminals,
    words: &[String],
) -> u8 {
    let matches = match matches_of(rt.alloc(), words) {
        Ok(matches) => matches,
        Err(error) => return tell_usage(rt, &error),
    };
    match Request::of(&matches) {
        Some(request) => {
            let voice = voice_of(&request, terminals);
            carry_out_once(rt, voice, &request, words_behind(words))
        }
        None => run_job(rt, terminals),
    }
}

/// Carries out what the command line asks for, and gives the exit status: 0 done, or the program ended; 1 refused; 2 a wrong command line; 3
/// another stop; 4 the step limit; 5 want of memory; 6 a device. At a terminal it tells more on standard error.
pub fn status<R: Env + Files + Input + Print + Eprint + AllocGlobal>(
    rt: &R,
    terminals: Terminals,
) -> u8 {
    let words = match words_of(rt) {
        Ok(words) => words,
        Err(message) => return fails(rt, message),
    };
    match (words_to_explain(&words), talks_alone(&words)) {
        (Some(words), _) => explain(rt, words),
        (None, true) => run_job(rt, AS_AT_TERMINAL),
        (None, false) => status_of(rt, terminals, &words),
    }
}
