//! What is compared of what a command does.

use crate::stage::Heard;
use crate::texts::{joined, number_text, put, text_of};
use std::alloc::Global;
use std::fmt::Write as _;
use vcm_viewer::{back, front};

/// What a command printed, then what it told, then its exit status.
pub(crate) fn answer_of(alloc: Global, heard: &Heard) -> String {
    answer_with(alloc, text_of(&heard.written), heard)
}

/// The same with this in the place of what it printed.
pub(crate) fn answer_with(alloc: Global, printed: &str, heard: &Heard) -> String {
    let status = number_text(alloc, u64::from(heard.status));
    joined(alloc, &[printed, &heard.told, "status ", &status, "\n"])
}

/// The first line of a text, without its line feed.
pub(crate) fn first_line(text: &str) -> &str {
    match text.split_once('\n') {
        Some((line, _)) => line,
        None => text,
    }
}

// The words of a line that is a text of an SVG, if it is one.
fn words_in(line: &str) -> Option<&str> {
    let behind = line.strip_prefix("<text ")?;
    let (_, words) = behind.split_once('>')?;
    words.strip_suffix("</text>")
}

/// The words of the texts of an SVG, a line each.
pub(crate) fn words_of_svg(alloc: Global, svg: &str) -> String {
    let mut text = String::new(alloc);
    for line in svg.lines() {
        if let Some(words) = words_in(line) {
            put(&mut text, words);
            put(&mut text, "\n");
        }
    }
    text
}

// What stands behind a piece; nothing where it doesn't stand there.
fn behind<'a>(text: &'a [u8], piece: &[u8]) -> &'a [u8] {
    match text.split_at_checked(piece.len()) {
        Some((front, rest)) if front == piece => rest,
        _ => &[],
    }
}

// What stands in front of a piece; nothing where it doesn't stand there.
fn before<'a>(text: &'a [u8], piece: &[u8]) -> &'a [u8] {
    match text.split_at_checked(text.len().saturating_sub(piece.len())) {
        Some((rest, end)) if end == piece => rest,
        _ => &[],
    }
}

/// What stands in a page between the fixed texts; nothing where one of them isn't there.
pub(crate) fn story_in(page: &[u8]) -> &[u8] {
    let mut rest = page;
    for piece in &front() {
        rest = behind(rest, piece);
    }
    for piece in back().iter().rev() {
        rest = before(rest, piece);
    }
    rest
}

/// Bytes in hexadecimal, 32 in a line.
pub(crate) fn digits_of(alloc: Global, bytes: &[u8]) -> String {
    let mut text = String::new(alloc);
    for line in bytes.chunks(32) {
        for byte in line {
            let _ = write!(text, "{byte:02x}");
        }
        put(&mut text, "\n");
    }
    text
}

/// The bytes that are written in hexadecimal, two digits each; blanks between them don't count.
pub(crate) fn bytes_of(alloc: Global, digits: &str) -> Vec<u8> {
    let mut bytes = Vec::new(alloc);
    for word in digits.split(' ') {
        for pair in word.as_bytes().chunks(2) {
            let _ = bytes.push(u8::from_str_radix(text_of(pair), 16).unwrap_or(0));
        }
    }
    bytes
}
