//! Verdicts as CSV.

use crate::text::put_length;
use crate::verdict::{Clearing, Measured, Ran, Verdict};
use std::alloc::{AllocError, Global};
use std::fmt::Write as _;

/// The first line.
pub fn csv_heading() -> &'static str {
    "program,part,status,words,statements,notices,steps,points,deviation,feature,line,margin,clearance,met,not tried,remarks\n"
}

// Whether a field is quoted.
fn is_quoted(field: &str) -> bool {
    for byte in field.as_bytes() {
        if *byte == b',' || *byte == b'"' || *byte < b' ' {
            return true;
        }
    }
    false
}

// Adds a field, in quotes where it has to be.
fn put_field(text: &mut String, field: &str) -> Result<(), AllocError> {
    if !is_quoted(field) {
        return text.push_str(field);
    }
    text.push('"')?;
    for letter in field.chars() {
        if letter == '"' {
            text.push('"')?;
        }
        text.push(letter)?;
    }
    text.push('"')
}

// Adds how far a point lies off, of which feature and on which line.
fn put_measured(text: &mut String, measured: &Option<Measured>) -> Result<(), AllocError> {
    match measured {
        Some(measured) => {
            put_length(text, measured.size)?;
            text.push(',')?;
            put_field(text, &measured.feature)?;
            let line = measured.line;
            write!(text, ",{line},")
        }
        None => text.push_str(",,,"),
    }
}

// Adds how the boxes of a probe go: the least room, and how many of them meet a block.
fn put_clearing(text: &mut String, clearing: Option<Clearing>) -> Result<(), AllocError> {
    match clearing {
        Some(Clearing::Met(count)) => write!(text, ",{count},"),
        Some(Clearing::Clear(room)) => {
            put_length(text, room)?;
            text.push_str(",0,")
        }
        Some(Clearing::Unknown) => text.push_str(",0,"),
        None => text.push_str(",,"),
    }
}

// Adds what a run came to.
fn put_ran(text: &mut String, ran: &Ran) -> Result<(), AllocError> {
    let steps = ran.steps;
    let points = ran.points;
    write!(text, "{steps},{points},")?;
    put_measured(text, &ran.greatest)?;
    if let Some(margin) = ran.margin {
        put_length(text, u64::from(margin))?;
    }
    text.push(',')?;
    put_clearing(text, ran.clearing)?;
    let untried = ran.untried;
    let remarks = ran.remarks;
    writeln!(text, "{untried},{remarks}")
}

// Adds the row of a verdict.
fn put_row(text: &mut String, verdict: &Verdict) -> Result<(), AllocError> {
    put_field(text, &verdict.program)?;
    text.push(',')?;
    put_field(text, &verdict.part)?;
    let status = verdict.outcome.status();
    write!(text, ",{status},")?;
    put_field(text, &verdict.words)?;
    text.push(',')?;
    if let Some(statements) = verdict.statements {
        write!(text, "{statements}")?;
    }
    let notices = verdict.notices;
    write!(text, ",{notices},")?;
    match &verdict.ran {
        Some(ran) => put_ran(text, ran),
        None => text.push_str(",,,,,,,,,\n"),
    }
}

/// The row of a verdict: program, part file, exit status, its words, statements, notices, steps, points, the greatest deviation in millimetres with its feature and
/// line, margin and clearance in millimetres, how many boxes are met, how many motions weren't tried, and how many remarks there are. What isn't there is empty.
///
/// # Errors
///
/// Out of memory.
pub fn csv_row(alloc: Global, verdict: &Verdict) -> Result<String, AllocError> {
    let mut text = String::new(alloc);
    put_row(&mut text, verdict)?;
    Ok(text)
}
