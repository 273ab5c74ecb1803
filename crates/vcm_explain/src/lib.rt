//! What each refusal, stop and other line of vcm means, and what to do about it; and what becomes of words of DMIS.
#![tactic(auto)]

mod about_entries;
mod entry;
mod file_entries;
mod hardware_entries;
mod line_entries;
mod many_entries;
mod model_entries;
mod probe_entries;
mod program_entries;
mod reason_entries;
mod remark_entries;
mod run_entries;
mod session_entries;
mod shown_entries;
mod survey_entries;
mod word_entries;
mod workpiece_entries;

use crate::about_entries::{block_about_entries, name_about_entries};
use crate::file_entries::{
    code_entries, image_entries, listing_entries, part_entries, placing_entries,
};
use crate::hardware_entries::{
    hardware_count_entries, hardware_entries, hardware_name_entries, hardware_part_entries,
};
use crate::line_entries::{
    result_entries, taken_entries, view_entries, whole_entries, why_entries,
};
use crate::many_entries::many_entries;
use crate::model_entries::{
    model_entries, model_line_entries, model_notice_entries, model_size_entries,
    model_writing_entries,
};
use crate::probe_entries::{
    box_entries, box_name_entries, clearance_entries, several_entries, turning_entries,
};
use crate::program_entries::{
    block_entries, line_entries, name_entries, size_entries, spelling_entries, value_entries,
};
use crate::reason_entries::{
    feature_left_entries, flow_left_entries, frame_put_entries, frame_untried_entries,
    machine_untried_entries, number_put_entries, point_put_entries, point_untried_entries,
    report_left_entries, value_untried_entries,
};
use crate::remark_entries::remark_entries;
use crate::run_entries::{arithmetic_entries, device_entries, motion_entries, notice_entries};
use crate::session_entries::session_entries;
use crate::shown_entries::{editor_entries, reply_entries, row_entries};
use crate::survey_entries::{caution_entries, reading_entries, survey_entries};
use crate::word_entries::{
    block_word_entries, frame_word_entries, front_word_entries, measuring_word_entries,
    moving_word_entries, probe_word_entries, value_word_entries,
};
use crate::workpiece_entries::{command_line_entries, refused_part_entries, workpiece_entries};
pub use entry::Entry;

/// All explanations: of programs, of part files, probe files, descriptions of what hangs on the head, models, images and listings, of the debugger, of runs, of the lines of answers, and of
/// the reasons of a survey. Where several explain one line, the first of them does: a longer name stands before a shorter one.
pub fn explanations() -> [&'static [Entry]; 58] {
    [
        line_entries(),
        spelling_entries(),
        value_entries(),
        name_entries(),
        block_entries(),
        size_entries(),
        name_about_entries(),
        block_about_entries(),
        part_entries(),
        placing_entries(),
        box_entries(),
        box_name_entries(),
        several_entries(),
        hardware_entries(),
        hardware_part_entries(),
        hardware_name_entries(),
        hardware_count_entries(),
        model_entries(),
        model_size_entries(),
        model_writing_entries(),
        frame_put_entries(),
        point_put_entries(),
        number_put_entries(),
        report_left_entries(),
        feature_left_entries(),
        flow_left_entries(),
        machine_untried_entries(),
        frame_untried_entries(),
        value_untried_entries(),
        point_untried_entries(),
        caution_entries(),
        reading_entries(),
        command_line_entries(),
        refused_part_entries(),
        survey_entries(),
        workpiece_entries(),
        model_line_entries(),
        model_notice_entries(),
        image_entries(),
        code_entries(),
        listing_entries(),
        session_entries(),
        many_entries(),
        motion_entries(),
        arithmetic_entries(),
        editor_entries(),
        whole_entries(),
        taken_entries(),
        notice_entries(),
        device_entries(),
        result_entries(),
        row_entries(),
        reply_entries(),
        why_entries(),
        view_entries(),
        clearance_entries(),
        turning_entries(),
        remark_entries(),
    ]
}

// The explanations of words of DMIS.
fn word_explanations() -> [&'static [Entry]; 7] {
    [
        front_word_entries(),
        moving_word_entries(),
        block_word_entries(),
        frame_word_entries(),
        measuring_word_entries(),
        probe_word_entries(),
        value_word_entries(),
    ]
}

// The words from the first one on that is no blank.
fn without_blanks(words: &[u8]) -> &[u8] {
    match words.iter().position(|byte| !byte.is_ascii_whitespace()) {
        Some(at) => &words[at..],
        None => &[],
    }
}

// The words behind the first one.
fn behind_word(words: &[u8]) -> &[u8] {
    match words.iter().position(|byte| byte.is_ascii_whitespace()) {
        Some(at) => without_blanks(&words[at..]),
        None => &[],
    }
}

// The words behind the first two.
fn behind_two(words: &[u8]) -> &[u8] {
    behind_word(behind_word(words))
}

// What stands behind the word STOP, with which a line, or the end of a line, tells of a stop.
fn behind_stop(words: &[u8]) -> &[u8] {
    let mut rest = words;
    for _ in 0..words.len() {
        match rest {
            [s, t, o, p, b' ', stop @ ..] if [*s, *t, *o, *p].eq_ignore_ascii_case(b"STOP") => {
                return stop;
            }
            [] => return words,
            _ => rest = behind_word(rest),
        }
    }
    words
}

// The explanation of what words begin with.
fn explained(words: &[u8]) -> Option<&'static Entry> {
    for entries in explanations() {
        if let Some(entry) = entries.iter().find(|entry| entry.explains(words)) {
            return Some(entry);
        }
    }
    None
}

// What stands behind a number at the beginning, as in a line that counts something.
fn behind_number(words: &[u8]) -> &[u8] {
    match words.iter().position(|byte| !byte.is_ascii_digit()) {
        Some(0) | None => words,
        Some(_) => behind_word(words),
    }
}

// What is counted in a notice that counts something; nothing in any other line.
fn noticed(words: &[u8]) -> &[u8] {
    match words {
        [n, o, t, i, c, e, b' ', count @ ..]
            if [*n, *o, *t, *i, *c, *e].eq_ignore_ascii_case(b"NOTICE") => match count {
            [b'0'..=b'9', ..] => behind_word(count),
            _ => &[],
        },
        _ => &[],
    }
}

// What stands behind the name of a box, in a line that tells of one; nothing in any other.
fn behind_box(words: &[u8]) -> &[u8] {
    match words {
        [b, o, x, b' ', ..] if [*b, *o, *x].eq_ignore_ascii_case(b"BOX") => {
            behind_word(behind_word(words))
        }
        _ => &[],
    }
}

// Whether words begin with these.
fn is_front(words: &[u8], front: &[u8]) -> bool {
    match words.get(..front.len()) {
        Some(words) => words.eq_ignore_ascii_case(front),
        None => false,
    }
}

// What stands behind the first word, in a line that tells of this word what a refusal is about, or for which name of a text it stands; nothing in any other.
fn behind_subject(words: &[u8]) -> &[u8] {
    if is_front(words, b"frame ") {
        return &[];
    }
    let rest = behind_word(words);
    if is_front(rest, b"of line ")
        || is_front(rest, b"is declared in line ")
        || is_front(rest, b"is the point of line ")
        || is_front(rest, b"stands in ")
        || is_front(rest, b"closes no ")
    {
        return rest;
    }
    &[]
}

// What stands behind the number of a source line, in a line that begins with one; nothing in any other.
fn behind_line(words: &[u8]) -> &[u8] {
    if is_front(words, b"line ") {
        return behind_two(words);
    }
    &[]
}

// What stands behind the number of a block and a colon, in a line that begins so; nothing in any other.
fn behind_block(words: &[u8]) -> &[u8] {
    if !is_front(words, b"block ") {
        return &[];
    }
    let rest = behind_word(words);
    match rest.iter().position(|byte| !byte.is_ascii_digit()) {
        Some(at) => match &rest[at..] {
            [b':', ..] => behind_word(rest),
            _ => &[],
        },
        None => &[],
    }
}

// What stands behind the class of a statement, in a line of a survey that begins with it: the reason, or the code of a fault; nothing in any other.
fn behind_class(words: &[u8]) -> &[u8] {
    if is_front(words, b"fault: ") {
        return behind_word(words);
    }
    if is_front(words, b"left out: ")
        || is_front(words, b"put otherwise: ")
        || is_front(words, b"not tried: ")
    {
        return behind_two(words);
    }
    &[]
}

// Whether the last byte is a colon.
fn ends_in_colon(word: &[u8]) -> bool {
    match word.last() {
        Some(byte) => *byte == b':',
        None => false,
    }
}

// Whether words begin with the name of a file: a word with a full stop in it, or a colon at its end, or one in front of a source line of which something is told.
fn is_named(words: &[u8]) -> bool {
    let rest = behind_word(words);
    if is_front(rest, b"line ") && !behind_two(rest).is_empty() {
        return true;
    }
    match words.iter().position(|byte| byte.is_ascii_whitespace()) {
        Some(at) => {
            let name = &words[..at];
            name.iter().any(|byte| *byte == b'.') || ends_in_colon(name)
        }
        None => false,
    }
}

// What stands behind the name of a file at the front of a line; nothing where there is none.
fn behind_name(words: &[u8]) -> &[u8] {
    if is_front(words, b"standard input ") {
        return behind_two(words);
    }
    if is_named(words) {
        return behind_word(words);
    }
    &[]
}

// What stands behind a comma; nothing where there is none.
fn behind_comma(words: &[u8]) -> &[u8] {
    match words.iter().position(|byte| *byte == b',') {
        Some(at) => match &words[at..] {
            [_, rest @ ..] => rest,
            [] => &[],
        },
        None => &[],
    }
}

// Whether words are a row of numbers and names with commas between them.
fn is_row(words: &[u8]) -> bool {
    match words.iter().position(|byte| !byte.is_ascii_digit()) {
        Some(0) | None => false,
        Some(at) => matches!(&words[at..], [b',', ..]),
    }
}

// The last field of a row, which in a trace tells a stop; nothing in any other line.
fn last_field(words: &[u8]) -> &[u8] {
    if !is_row(words) {
        return &[];
    }
    let mut rest = words;
    for _ in 0..words.len() {
        match behind_comma(rest) {
            [] => return rest,
            field => rest = field,
        }
    }
    rest
}

// By what a line is explained that has a number at the front: a row, or a statement of a listing, which has two.
fn by_number(words: &[u8]) -> &[u8] {
    match words.iter().position(|byte| !byte.is_ascii_digit()) {
        Some(0) | None => b"",
        Some(at) => match &words[at..] {
            [b',', ..] => b"row",
            [b' ', b'0'..=b'9', ..] => b"VCM-LISTING",
            _ => b"",
        },
    }
}

// By what a line is explained that shows a value: the point of a feature, or a variable, which has one word behind it, a number or a truth value.
fn by_value(words: &[u8]) -> &[u8] {
    let rest = behind_word(words);
    let has_sign = words.iter().any(|byte| *byte == b'=');
    if (is_front(words, b"FA(") && has_sign) || is_front(rest, b"undefined") {
        return b"FA(P1)=FEAT/POINT";
    }
    match rest {
        [b'0'..=b'9', ..] | [b'-', ..] | [b'.', ..] if behind_word(rest).is_empty() => b"show",
        _ => b"",
    }
}

// By what a line is explained that has these words at its front: the blocks of a part, or a name that stands for another one.
fn by_front(words: &[u8]) -> &[u8] {
    if is_front(words, b"blocks ") && is_front(behind_two(words), b"from ") {
        return b"blocks of a part";
    }
    let rest = behind_word(words);
    if is_front(rest, b"is ") && !behind_word(rest).is_empty() && behind_two(rest).is_empty() {
        return b"names";
    }
    b""
}

// By what a line is explained that has these words somewhere: a key that nothing uses, the size of a text, or where the probe stands in the debugger.
fn by_words(words: &[u8]) -> &[u8] {
    let mut rest = words;
    for _ in 0..words.len() {
        if is_front(rest, b"is not used") {
            return b"is not used";
        }
        if is_front(rest, b"lines, ") {
            return b"lines";
        }
        if is_front(rest, b"RETRCT ") {
            return b"pos";
        }
        match rest {
            [] => return b"",
            _ => rest = behind_word(rest),
        }
    }
    b""
}

// The explanation of a line without the name of a file at its front.
fn unnamed(words: &[u8]) -> Option<&'static Entry> {
    let told = behind_line(words);
    for line in [
        last_field(words),
        behind_stop(last_field(words)),
        by_number(words),
        by_front(words),
        by_words(words),
        behind_subject(words),
        behind_box(words),
        noticed(words),
        behind_class(told),
        behind_block(told),
        told,
        behind_block(words),
        behind_stop(words),
        words,
        behind_number(words),
        by_value(words),
    ] {
        if let Some(entry) = explained(line) {
            return Some(entry);
        }
    }
    None
}

/// The explanation of a code, a name or a whole line, whatever its case: the first one whose code, name or words stand at its beginning, behind
/// which nothing stands, or a blank, a colon, a comma, a semicolon or a full stop. A line that tells of a box is explained by what it tells of it, one about a name or a block by what it tells of that, one of a survey by its reason, one that tells of a stop by
/// that, also where other words stand in front of it, and one that counts something, with or without the word `notice`, by what is counted. The name of a file may stand in front.
pub fn explanation(words: &str) -> Option<&'static Entry> {
    let words = without_blanks(words.as_bytes());
    match unnamed(words) {
        Some(entry) => Some(entry),
        None => unnamed(behind_name(words)),
    }
}

/// The explanation of a word of DMIS, whatever its case: what it does, and what becomes of it in producers' texts.
pub fn word_explanation(word: &str) -> Option<&'static Entry> {
    for entries in word_explanations() {
        if let Some(entry) = entries.iter().find(|entry| entry.is_of(word.as_bytes())) {
            return Some(entry);
        }
    }
    None
}
