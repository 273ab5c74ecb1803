//! The command line, read once: which command it is, the words after it and its options.

use crate::printing::DASH;
use clap::{Arg, ArgAction, ArgMatches, Command, Error};
use std::alloc::Global;
use vcm_usage::{
    Behind, Choice, Files, Rest, Spelled, Usage, VERSION, Verb, Word, usage_of, usages,
};

/// What a command line asks for: a command with its words and options, as they are written. Nothing of them is judged yet.
#[derive(Clone, Copy)]
pub struct Request<'a, 'm> {
    usage: Usage,
    behind: &'m ArgMatches<'a>,
}

impl<'a, 'm> Request<'a, 'm> {
    /// The request of a command line that was read; none where it has no words, which asks for a job.
    pub fn of(matches: &'m ArgMatches<'a>) -> Option<Request<'a, 'm>> {
        let (name, behind) = matches.subcommand()?;
        let usage = usage_of(name)?;
        Some(Request { usage, behind })
    }

    /// The command.
    pub fn verb(&self) -> Verb {
        self.usage.verb
    }

    /// The command, with all that it takes.
    pub fn usage(&self) -> &Usage {
        &self.usage
    }

    // The word at a place, counted from 0, among those that have to be there.
    fn word(&self, place: usize) -> &'a str {
        match self.usage.words.get(place) {
            Some(word) => self.behind.get_str(word.name).unwrap_or(""),
            None => "",
        }
    }

    /// The file that is read: a program, a program's image, a listing or, of `part`, a workpiece.
    pub fn input(&self) -> &'a str {
        self.word(0)
    }

    /// The file of the workpiece beside which a program is run.
    pub fn part(&self) -> &'a str {
        self.word(1)
    }

    /// The file that an image is written to.
    pub fn image(&self) -> &'a str {
        self.word(1)
    }

    /// The file of the probe whose boxes are tried.
    pub fn probe(&self) -> &'a str {
        self.word(2)
    }

    /// The programs of a command that takes several.
    pub fn programs(&self) -> &'m [&'a str] {
        self.behind.get_strs("PROGRAM").unwrap_or(&[])
    }

    /// What stands after an option, if it is there.
    pub fn value(&self, choice: Choice) -> Option<&'a str> {
        self.behind.get_str(choice.spelled().name)
    }

    /// What stands after an option each time that it is there.
    pub fn values(&self, choice: Choice) -> &'m [&'a str] {
        self.behind.get_strs(choice.spelled().name).unwrap_or(&[])
    }

    /// Whether an option is there that has nothing after it.
    pub fn has(&self, choice: Choice) -> bool {
        self.usage.takes(choice) && self.behind.get_flag(choice.spelled().name)
    }

    // Whether the word at a place is one that is read; the others name what is written.
    fn is_read(&self, place: usize) -> bool {
        match self.usage.words.get(place) {
            Some(word) => word.name != "IMAGE",
            None => false,
        }
    }

    /// How often `-` stands for standard input among what is read.
    pub fn dashes(&self) -> usize {
        let mut count: usize = 0;
        for place in 0..self.usage.words.len() {
            if self.is_read(place) && self.word(place) == DASH {
                count = count.saturating_add(1);
            }
        }
        for name in self.programs() {
            if *name == DASH && self.usage.rest == Rest::Programs {
                count = count.saturating_add(1);
            }
        }
        for choice in self.usage.choices {
            if choice.spelled().files != Files::None && self.value(*choice) == Some(DASH) {
                count = count.saturating_add(1);
            }
        }
        count
    }

    /// The most steps of a run; none where they are no decimal digits, or more than 1,000,000,000.
    pub fn steps(&self) -> Option<u64> {
        steps_of(self.value(Choice::Steps).unwrap_or(STEPS))
    }
}

/// The number of steps where `--steps` isn't given.
const STEPS: &str = "1000000";

/// The most steps that may be asked for.
const MOST_STEPS: u64 = 1_000_000_000;

/// The number that `--steps` gives: decimal digits, 0 to 1,000,000,000.
pub fn steps_of(text: &str) -> Option<u64> {
    if !text.as_bytes().iter().all(|byte| byte.is_ascii_digit()) {
        return None;
    }
    match text.parse::<u64>() {
        Ok(steps) if steps <= MOST_STEPS => Some(steps),
        _ => None,
    }
}

// A word that has to be there.
fn required<'a>(alloc: Global, word: Word) -> Arg<'a> {
    Arg::new(alloc, word.name)
        .required(true)
        .action(ArgAction::Set)
        .help(word.help)
}

// Any words.
fn any_words<'a>(alloc: Global) -> Arg<'a> {
    Arg::new(alloc, "WORD")
        .num_args(0..)
        .action(ArgAction::Set)
        .help("A code, as E14, or a message of vcm")
}

// Programs, one at least.
fn programs<'a>(alloc: Global) -> Arg<'a> {
    Arg::new(alloc, "PROGRAM")
        .required(true)
        .num_args(1..)
        .action(ArgAction::Append)
        .help("The measuring programs, DMIS texts; `-` is standard input")
}

// What is done where an option stands.
fn action_of(behind: Behind) -> ArgAction {
    match behind {
        Behind::Nothing => ArgAction::SetTrue,
        Behind::Value | Behind::Signed => ArgAction::Set,
        Behind::Values => ArgAction::Append,
    }
}

// Whether what stands behind an option may begin with a minus.
fn is_signed(behind: Behind) -> bool {
    match behind {
        Behind::Signed => true,
        _ => false,
    }
}

// An option.
fn option_of<'a>(alloc: Global, spelled: Spelled) -> Arg<'a> {
    Arg::new(alloc, spelled.name)
        .long(spelled.name)
        .action(action_of(spelled.behind))
        .allow_hyphen_values(is_signed(spelled.behind))
        .help(spelled.help)
}

// The command with the words after it.
fn with_words<'a>(alloc: Global, usage: Usage) -> Result<Command<'a>, Error> {
    let mut command = Command::new(alloc, usage.name)
        .about(usage.about)
        .after_help(usage.example);
    for word in usage.words {
        command = command.arg(required(alloc, *word))?;
    }
    Ok(command)
}

// The command with the further words that it takes.
fn with_rest<'a>(alloc: Global, command: Command<'a>, rest: Rest) -> Result<Command<'a>, Error> {
    match rest {
        Rest::Nothing => Ok(command),
        Rest::Words => Ok(command.arg(any_words(alloc))?),
        Rest::Programs => Ok(command.arg(programs(alloc))?),
    }
}

// The command with these options.
fn with_choices<'a>(
    alloc: Global,
    command: Command<'a>,
    choices: &[Choice],
) -> Result<Command<'a>, Error> {
    let mut command = command;
    for choice in choices {
        command = command.arg(option_of(alloc, choice.spelled()))?;
    }
    Ok(command)
}

// The command, with all that it takes.
fn subcommand_of<'a>(alloc: Global, usage: Usage) -> Result<Command<'a>, Error> {
    let command = with_rest(alloc, with_words(alloc, usage)?, usage.rest)?;
    with_choices(alloc, command, usage.choices)
}

// The program with its commands, one of which has to stand there where there are words.
fn command_of<'a>(alloc: Global, has_words: bool) -> Result<Command<'a>, Error> {
    let mut vcm = Command::new(alloc, "vcm")
        .version(VERSION)
        .about(
            "A virtual coordinate measuring machine. Without words it reads a job from standard input",
        )
        .subcommand_required(has_words);
    for usage in usages() {
        match subcommand_of(alloc, *usage) {
            Ok(subcommand) => vcm = vcm.subcommand(subcommand)?,
            Err(refused) => {
                drop(vcm);
                return Err(refused);
            }
        }
    }
    Ok(vcm)
}

/// A command line, read; its first word is the program's name.
///
/// Errors: a wrong command line, a request for help or the version, or want of memory.
pub fn matches_of<'a>(alloc: Global, words: &'a [String]) -> Result<ArgMatches<'a>, Error> {
    command_of(alloc, words.len() > 1)?.try_get_matches_from(words)
}
