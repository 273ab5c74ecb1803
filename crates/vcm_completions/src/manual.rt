//! The synopsis of the manual.

use crate::writing::put;
use vcm_usage::{Behind, Choice, Rest, Usage, usages};

// Appends the words after a command.
fn put_words(text: &mut String, usage: &Usage) -> Option<()> {
    if !usage.words.is_empty() {
        put(text, &[".I"])?;
        for word in usage.words {
            put(text, &[" ", word.name])?;
        }
        put(text, &["\n"])?;
    }
    match usage.rest {
        Rest::Nothing => Some(()),
        Rest::Programs => put(text, &[".IR PROGRAM ...\n"]),
        Rest::Words => put(text, &[".RI [ WORD ...]\n"]),
    }
}

// Appends an option.
fn put_option(text: &mut String, choice: Choice) -> Option<()> {
    let spelled = choice.spelled();
    put(text, &[".RB [ \\-\\-", spelled.name])?;
    match spelled.behind {
        Behind::Nothing => put(text, &[" ]\n"]),
        Behind::Value | Behind::Signed => put(text, &["\n.IR ", spelled.value, " ]\n"]),
        Behind::Values => put(text, &["\n.IR ", spelled.value, " ]...\n"]),
    }
}

// Appends what a command takes. The options that many commands take stand in a section of their own.
fn put_command(text: &mut String, usage: &Usage) -> Option<()> {
    put(text, &[".br\n.B vcm ", usage.name, "\n"])?;
    put_words(text, usage)?;
    for choice in usage.choices {
        if *choice != Choice::Talk && *choice != Choice::Quiet {
            put_option(text, *choice)?;
        }
    }
    Some(())
}

/// Appends the synopsis of the manual; none where memory is refused.
pub(crate) fn put_synopsis(text: &mut String) -> Option<()> {
    put(text, &[".SH SYNOPSIS\n.B vcm\n"])?;
    for usage in usages() {
        put_command(text, usage)?;
    }
    Some(())
}
