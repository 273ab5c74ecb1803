//! Lines that are told on standard error, whatever bytes they have.

use vcm_num::cut_line;

// A byte as a letter, a question mark where it is none of ASCII, or one that controls a terminal.
fn letter_of(byte: u8) -> char {
    if byte.is_ascii() {
        shown(char::from(byte))
    } else {
        '?'
    }
}

// A letter as it is printed: a question mark for one that controls a terminal, but for the tab.
fn shown(letter: char) -> char {
    if letter.is_control() && letter != '\t' {
        '?'
    } else {
        letter
    }
}

// Whether a line has a letter that controls a terminal.
fn has_control(line: &str) -> bool {
    for letter in line.chars() {
        if shown(letter) != letter {
            return true;
        }
    }
    false
}

// Prints a line on standard error, with question marks for letters that control a terminal.
fn tell_text<R: Eprint>(rt: &R, line: &str) {
    if line.is_empty() {
        return;
    }
    if !has_control(line) {
        let _ = eprintln!(rt; "{line}");
        return;
    }
    for letter in line.chars() {
        let letter = shown(letter);
        let _ = eprint!(rt; "{letter}");
    }
    let _ = eprintln!(rt; "");
}

// Prints a line on standard error; one that is no text with its odd bytes as question marks.
fn tell_line<R: Eprint>(rt: &R, line: &[u8]) {
    match std::str::from_utf8(line) {
        Ok(line) => tell_text(rt, line),
        Err(_) => {
            for byte in line {
                let letter = letter_of(*byte);
                let _ = eprint!(rt; "{letter}");
            }
            let _ = eprintln!(rt; "");
        }
    }
}

// Prints lines on standard error.
pub fn tell_bytes<R: Eprint>(rt: &R, bytes: &[u8]) {
    let mut rest = bytes;
    for _ in 0..bytes.len() {
        if rest.is_empty() {
            break;
        }
        let (line, after) = cut_line(rest);
        tell_line(rt, line);
        rest = after;
    }
}
