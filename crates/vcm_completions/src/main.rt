//! The completions for shells and the synopsis of the manual, written from the table of commands. With a file's name it prints that text (`tools/completions` puts it into
//! `data/`); without words it tells whether the files there are as they are written, whether the manual names all commands and options, and what holds of the texts of the viewer.
#![tactic(auto)]

mod bash;
mod fish;
mod manual;
mod viewer;
mod writing;
mod zsh;

use crate::bash::put_bash;
use crate::fish::put_fish;
use crate::manual::put_synopsis;
use crate::viewer::told_of_viewer;
use crate::zsh::put_zsh;
use std::alloc::Global;
use std::fmt::Write as _;
use std::process::ExitCode;
use std::rt::{Env, Files};
use vcm_usage::{Choice, VERSION, usages};

// The completions.
const SHELLS: [&str; 3] = ["vcm.bash", "_vcm", "vcm.fish"];

const MANUAL: &str = "vcm.1";

// The options of the program itself; the others stand with the commands.
const OPTIONS: [&str; 2] = ["help", "version"];

// The text of a file: the completions of a shell, or the synopsis of the manual; none where it is no such file, or memory is refused.
fn text_of(alloc: Global, name: &str) -> Option<String> {
    let mut text = String::new(alloc);
    let done = match name {
        "vcm.bash" => put_bash(&mut text),
        "_vcm" => put_zsh(&mut text),
        "vcm.fish" => put_fish(&mut text),
        MANUAL => put_synopsis(&mut text),
        _ => None,
    };
    match done {
        Some(()) => Some(text),
        None => None,
    }
}

// Whether one of the words of a text, which are parted by anything but letters and hyphens, is this, or a hyphen and this.
fn names(text: &str, word: &str) -> bool {
    text.split(|letter: char| !letter.is_ascii_alphabetic() && letter != '-')
        .any(|found| found == word || found.strip_prefix("-") == Some(word))
}

// Adds those of these options that the manual doesn't name.
fn put_missing_options(found: &mut String, manual: &str, choices: &[Choice]) -> Option<()> {
    for choice in choices {
        let option = choice.spelled().name;
        if !names(manual, option) {
            writeln!(found, "{MANUAL} lacks {option}").ok()?;
        }
    }
    Some(())
}

// Adds the words of the command line that the manual doesn't name.
fn put_missing(found: &mut String, manual: &str) -> Option<()> {
    for option in OPTIONS {
        if !names(manual, option) {
            writeln!(found, "{MANUAL} lacks {option}").ok()?;
        }
    }
    for usage in usages() {
        if !names(manual, usage.name) {
            let command = usage.name;
            writeln!(found, "{MANUAL} lacks {command}").ok()?;
        }
        put_missing_options(found, manual, usage.choices)?;
    }
    let count = usages().len();
    writeln!(found, "{MANUAL} names {count} commands").ok()
}

// Adds what is told of the manual.
fn put_manual<R: Files + AllocGlobal>(rt: &R, told: &mut String) -> Option<()> {
    let manual = std::fs::read_to_string(rt, MANUAL).ok()?;
    let synopsis = text_of(rt.alloc(), MANUAL)?;
    put_missing(told, &manual)?;
    let has_synopsis = manual.contains(synopsis.as_str());
    writeln!(told, "{MANUAL} has the synopsis: {has_synopsis}").ok()?;
    let has_version = manual.contains(VERSION);
    writeln!(told, "{MANUAL} has the version: {has_version}").ok()
}

// Adds whether the completions of a shell are as they are written.
fn put_shell<R: Files + AllocGlobal>(rt: &R, told: &mut String, name: &str) -> Option<()> {
    let text = std::fs::read_to_string(rt, name).ok()?;
    let written = text_of(rt.alloc(), name)?;
    let is_written = text.as_str() == written.as_str();
    writeln!(told, "{name} is as it is written: {is_written}").ok()
}

// What is told of all files, unless one can't be read or memory runs out.
fn told<R: Files + AllocGlobal>(rt: &R) -> Option<String> {
    let mut told = String::new(rt.alloc());
    put_manual(rt, &mut told)?;
    for name in SHELLS {
        put_shell(rt, &mut told, name)?;
    }
    told.push_str(&told_of_viewer(rt.alloc())?).ok()?;
    Some(told)
}

// The file that a command line names, if it names one.
fn asked<R: Env + AllocGlobal>(rt: &R) -> Option<String> {
    let words: Vec<String> = std::env::args(rt).ok()?.collect(rt.alloc()).ok()?;
    match words.as_slice() {
        [_, name, ..] => String::from_str(rt.alloc(), name.as_str()).ok(),
        _ => None,
    }
}

// What is printed.
fn printed<R: Env + Files + AllocGlobal>(rt: &R) -> Option<String> {
    match asked(rt) {
        Some(name) => text_of(rt.alloc(), &name),
        None => told(rt),
    }
}

fn main(rt: HostRuntime) -> ExitCode {
    match printed(&rt) {
        Some(text) => match print!(rt; "{text}") {
            Ok(()) => ExitCode::SUCCESS,
            Err(_) => ExitCode::FAILURE,
        },
        None => ExitCode::FAILURE,
    }
}
