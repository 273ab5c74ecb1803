//! Talks with the debug adapter.

use crate::shapes::answer_with;
use crate::stage::Heard;
use crate::texts::{joined, number_text, put, text_of};
use std::alloc::Global;

// What a line begins with that is sent as a message, one whose bytes are sent, and one with a message that comes back.
const MESSAGE: &str = "> ";

const BYTES: &str = "= ";

const ANSWER: &str = "< ";

// What stands in the head of a message, before its length and behind it.
const HEAD: &str = "Content-Length: ";

const END: &str = "\r\n\r\n";

// The most messages that come back.
const MOST: u32 = 10_000;

// Adds bytes to what is sent.
fn send(sent: &mut Vec<u8>, bytes: &[u8]) {
    let _ = sent.extend_from_slice(bytes);
}

// The byte that the front of a text means behind a backslash, and how many letters it takes.
fn escaped(text: &str) -> (u8, usize) {
    match text.as_bytes() {
        [b'r', ..] => (b'\r', 1),
        [b'n', ..] => (b'\n', 1),
        _ => (hexadecimal(text), 3),
    }
}

// The byte of the two hexadecimal digits behind the first letter.
fn hexadecimal(text: &str) -> u8 {
    match text.split_at_checked(3) {
        Some((front, _)) => u8::from_str_radix(front.strip_prefix("x").unwrap_or(""), 16).unwrap_or(
            0,
        ),
        None => 0,
    }
}

// Adds the bytes of a text, in which `\r`, `\n` and `\xNN` are bytes.
fn send_bytes(sent: &mut Vec<u8>, text: &str) {
    for (place, piece) in text.split('\\').enumerate() {
        if place == 0 {
            send(sent, piece.as_bytes());
        } else {
            let (byte, count) = escaped(piece);
            let _ = sent.push(byte);
            if let Some((_, rest)) = piece.split_at_checked(count) {
                send(sent, rest.as_bytes());
            }
        }
    }
}

// Adds a message behind its head.
fn send_message(alloc: Global, sent: &mut Vec<u8>, message: &str) {
    let length = number_text(alloc, message.len() as u64);
    let framed = joined(alloc, &[HEAD, &length, END, message]);
    send(sent, framed.as_bytes());
}

/// The bytes that the lines of a talk send.
pub(crate) fn sent_in(alloc: Global, talk: &str) -> Vec<u8> {
    let mut sent = Vec::new(alloc);
    for line in talk.lines() {
        if let Some(message) = line.strip_prefix(MESSAGE) {
            send_message(alloc, &mut sent, message);
        }
        if let Some(text) = line.strip_prefix(BYTES) {
            send_bytes(&mut sent, text);
        }
    }
    sent
}

/// The lines of a talk that tell what is to come back.
pub(crate) fn wanted_in(alloc: Global, talk: &str) -> String {
    let mut wanted = String::new(alloc);
    for line in talk.lines() {
        if !line.starts_with(MESSAGE) && !line.starts_with(BYTES) {
            put(&mut wanted, line);
            put(&mut wanted, "\n");
        }
    }
    wanted
}

// The length of a message that a text begins with, and what stands behind its head.
fn head_of(text: &str) -> Option<(usize, &str)> {
    let behind = text.strip_prefix(HEAD)?;
    let (length, rest) = behind.split_once(END)?;
    match length.parse::<usize>() {
        Ok(length) => Some((length, rest)),
        Err(_) => None,
    }
}

// The message that a text begins with, and what stands behind it.
fn message_in(text: &str) -> Option<(&str, &str)> {
    let (length, rest) = head_of(text)?;
    rest.split_at_checked(length)
}

/// The messages that came back, a line each, then what else there is, what was told and the exit status.
pub(crate) fn talk_of(alloc: Global, heard: &Heard) -> String {
    let mut text = String::new(alloc);
    let mut rest = text_of(&heard.written);
    for _ in 0..MOST {
        match message_in(rest) {
            Some((message, behind)) => {
                put(&mut text, ANSWER);
                put(&mut text, message);
                put(&mut text, "\n");
                rest = behind;
            }
            None => break,
        }
    }
    put(&mut text, rest);
    answer_with(alloc, &text, heard)
}
