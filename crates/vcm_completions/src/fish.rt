//! The completions for fish.

use crate::writing::{files_of, put, put_quoted};
use vcm_usage::{Choice, Files, Usage, usages};

const HEAD: &str = r#"# Completions of vcm for fish: put this file into ~/.config/fish/completions.
complete -c vcm -f
"#;

const MIDDLE: &str = r#"complete -c vcm -n __fish_use_subcommand -a help -d 'print help'
complete -c vcm -n __fish_use_subcommand -l version -d 'print the version'
complete -c vcm -l help -d 'print help'
"#;

const TAIL: &str =
    r#"complete -c vcm -n '__fish_seen_subcommand_from explain' -a '(vcm explain 2>/dev/null | string split -f1 " ")'
"#;

// Appends what stands before each completion of a command.
fn put_front(text: &mut String, usage: &Usage) -> Option<()> {
    put(
        text,
        &[
            "complete -c vcm -n '__fish_seen_subcommand_from ",
            usage.name,
            "'",
        ],
    )
}

// Appends the files that a word of a command may be.
fn put_files(text: &mut String, usage: &Usage, files: Files) -> Option<()> {
    if files == Files::Any {
        put_front(text, usage)?;
        return put(text, &[" -F\n"]);
    }
    for end in files.ends().split(' ') {
        if !end.is_empty() {
            put_front(text, usage)?;
            put(text, &[" -a '(__fish_complete_suffix .", end, ")'\n"])?;
        }
    }
    Some(())
}

// Appends an option of a command.
fn put_option(text: &mut String, usage: &Usage, choice: Choice) -> Option<()> {
    let spelled = choice.spelled();
    let wants = if spelled.value.is_empty() {
        ""
    } else if spelled.files == Files::None {
        " -x"
    } else {
        " -r"
    };
    put_front(text, usage)?;
    put(text, &[" -l ", spelled.name, wants, " -d '"])?;
    put_quoted(text, spelled.brief)?;
    put(text, &["'\n"])
}

// Whether a word before this place may be one of the same files.
fn is_told(usage: &Usage, place: usize, files: Files) -> bool {
    for before in 0..place {
        if files_of(usage, before) == Some(files) {
            return true;
        }
    }
    false
}

// Appends what a command takes.
fn put_command(text: &mut String, usage: &Usage) -> Option<()> {
    for place in 0..4 {
        if let Some(files) = files_of(usage, place) {
            if !is_told(usage, place, files) {
                put_files(text, usage, files)?;
            }
        }
    }
    for choice in usage.choices {
        put_option(text, usage, *choice)?;
    }
    Some(())
}

/// Appends the completions for fish; none where memory is refused.
pub(crate) fn put_fish(text: &mut String) -> Option<()> {
    put(text, &[HEAD])?;
    for usage in usages() {
        put(
            text,
            &[
                "complete -c vcm -n __fish_use_subcommand -a ",
                usage.name,
                " -d '",
            ],
        )?;
        put_quoted(text, usage.brief)?;
        put(text, &["'\n"])?;
    }
    put(text, &[MIDDLE])?;
    for usage in usages() {
        put_command(text, usage)?;
    }
    put(text, &[TAIL])
}
