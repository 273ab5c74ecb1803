//! Explanations, on the standard devices.

use std::alloc::{AllocError, Global};
use std::fmt::Write as _;
use vcm_devices::{fails, fails_unless_closed, print_bytes};
use vcm_explain::{Entry, explanation, explanations, word_explanation};
use vcm_messages::Message;
use vcm_standard::{WordClass, class_of};

// Appends the titles of explanations, a line each.
fn put_titles(text: &mut String, entries: &[Entry]) -> Result<(), Message<'static>> {
    for entry in entries {
        if writeln!(text, "{}", entry.title()).is_err() {
            return Err(Message::NoMemory);
        }
    }
    Ok(())
}

// The titles of all explanations, a line each.
fn titles(alloc: Global) -> Result<String, Message<'static>> {
    let mut text = String::new(alloc);
    for entries in explanations() {
        put_titles(&mut text, entries)?;
    }
    Ok(text)
}

// Tells on standard error that nothing is known of these words, and what tells of which something is.
fn tell_unknown<R: Eprint>(rt: &R, words: &str) -> u8 {
    let status = fails(rt, Message::Unknown { words });
    let _ = eprintln!(rt; "vcm explain alone prints what is known");
    status
}

// What becomes of the statements of a word of the standard, if it is one that is known here.
fn standard_text(word: &str) -> Option<(&'static str, &'static str)> {
    match class_of(word.as_bytes())? {
        WordClass::Ruled => Some((
            "takes it as it is, or has rules for it",
            "docs/PRODUCERS.md has them",
        )),
        WordClass::Notice => Some(("takes it", "it has no effect")),
        WordClass::LeftOut(reason) => Some(("leaves it out", reason.words())),
        WordClass::NotTried(reason) => Some(("doesn't try it", reason.words())),
    }
}

// The word of a statement: what stands in front of its slash, without a label, a variable or a number of a line before it.
fn statement_word(words: &str) -> &str {
    let front = match words.split_once('/') {
        Some((front, _)) => front,
        None => words,
    };
    let word = match front.split_once('=') {
        Some((_, word)) => word.trim(),
        None => front.trim(),
    };
    match word.rsplit_once(' ') {
        Some((number, word)) if number.trim().parse::<u32>().is_ok() => word,
        _ => word,
    }
}

// Appends what becomes of a word of DMIS, and says whether something is known of it.
fn put_word(alloc: Global, text: &mut String, words: &str) -> Result<bool, AllocError> {
    let word = statement_word(words).to_ascii_uppercase(alloc)?;
    if let Some(entry) = word_explanation(&word) {
        writeln!(text, "{}", entry.text())?;
        return Ok(true);
    }
    match standard_text(&word) {
        Some((what, why)) => {
            writeln!(text, "{word}: vcm adapt {what}: {why}")?;
            Ok(true)
        }
        None => Ok(false),
    }
}

// Appends what words mean, codes and messages or a word of DMIS, and says whether something is known of them.
fn put_meaning(alloc: Global, text: &mut String, words: &str) -> Result<bool, AllocError> {
    if let Some(entry) = explanation(words) {
        writeln!(text, "{}", entry.text())?;
        return Ok(true);
    }
    put_word(alloc, text, words)
}

// What several words mean, an empty line between them, if something is known of each of them.
fn meanings(alloc: Global, words: &[String]) -> Result<Option<String>, AllocError> {
    let mut text = String::new(alloc);
    for word in words {
        if !text.is_empty() {
            text.push_str("\n")?;
        }
        if !put_meaning(alloc, &mut text, word)? {
            return Ok(None);
        }
    }
    Ok(Some(text))
}

// Prints a text whole, and gives the exit status.
fn tell_text<R: Print + AllocGlobal>(rt: &R, text: &str) -> Result<u8, Message<'static>> {
    print_bytes(rt, text.as_bytes())?;
    Ok(0)
}

// Prints what a message means.
fn explain_message<R: Print + Eprint + AllocGlobal>(
    rt: &R,
    message: &str,
) -> Result<u8, Message<'static>> {
    let mut text = String::new(rt.alloc());
    match put_meaning(rt.alloc(), &mut text, message) {
        Ok(true) => tell_text(rt, &text),
        Ok(false) => Ok(tell_unknown(rt, message)),
        Err(_) => Err(Message::NoMemory),
    }
}

// Whether words begin with the title of their explanation, if that is a code with its name, or several words: then they are one message.
fn is_one_message(words: &str) -> bool {
    let Some(entry) = explanation(words) else {
        return false;
    };
    let title = entry.title();
    match words.as_bytes().get(..title.len()) {
        Some(front) => {
            title.split_once(' ').is_some() && front.eq_ignore_ascii_case(title.as_bytes())
        }
        None => false,
    }
}

// Prints what words mean, or where there are none, of what something is known. Several words that aren't one message are explained one by one where each has a meaning of its own.
fn explained<R: Print + Eprint + AllocGlobal>(
    rt: &R,
    words: &[String],
) -> Result<u8, Message<'static>> {
    if words.is_empty() {
        return tell_text(rt, &titles(rt.alloc())?);
    }
    let Ok(message) = words.join(rt.alloc(), " ") else {
        return Err(Message::NoMemory);
    };
    if words.len() > 1 && !is_one_message(&message) {
        match meanings(rt.alloc(), words) {
            Ok(Some(text)) => return tell_text(rt, &text),
            Ok(None) => {}
            Err(_) => return Err(Message::NoMemory),
        }
    }
    explain_message(rt, &message)
}

/// Prints what a code or a message means, and gives the exit status: 0, or 2 where nothing is known of it.
pub fn explain<R: Print + Eprint + AllocGlobal>(rt: &R, words: &[String]) -> u8 {
    match explained(rt, words) {
        Ok(status) => status,
        Err(message) => fails_unless_closed(rt, message),
    }
}
