//! Verdicts and counts as lines.

use crate::counts::Counts;
use crate::text::{put_count, put_length};
use crate::verdict::{Clearing, Measured, Ran, Verdict};
use std::alloc::{AllocError, Global};
use std::fmt::Write as _;

// Adds how far a point lies off.
fn put_measured(text: &mut String, measured: &Measured) -> Result<(), AllocError> {
    text.push_str(", deviation ")?;
    put_length(text, measured.size)?;
    text.push_str(" at most")?;
    if measured.size != 0 {
        let feature = measured.feature.as_str();
        let line = measured.line;
        write!(text, ": {feature} line {line}")?;
    }
    Ok(())
}

// Adds how the boxes of a probe go.
fn put_clearing(text: &mut String, clearing: Clearing) -> Result<(), AllocError> {
    match clearing {
        Clearing::Met(count) => {
            text.push_str(", ")?;
            write!(text, "{count} of the boxes met")
        }
        Clearing::Clear(room) => {
            text.push_str(", clearance ")?;
            put_length(text, room)
        }
        Clearing::Unknown => text.push_str(", clearance not known"),
    }
}

// Adds what a run came to.
fn put_ran(text: &mut String, ran: &Ran) -> Result<(), AllocError> {
    text.push_str(", ")?;
    put_count(text, ran.points, "point")?;
    if let Some(measured) = &ran.greatest {
        put_measured(text, measured)?;
    }
    if let Some(margin) = ran.margin {
        text.push_str(", margin ")?;
        put_length(text, u64::from(margin))?;
    }
    if let Some(clearing) = ran.clearing {
        put_clearing(text, clearing)?;
    }
    if ran.untried != 0 {
        let untried = ran.untried;
        write!(text, ", not tried {untried}")?;
    }
    if ran.remarks != 0 {
        text.push_str(", ")?;
        put_count(text, ran.remarks, "remark")?;
    }
    Ok(())
}

/// Adds what came of a program.
pub(crate) fn put_told(text: &mut String, verdict: &Verdict) -> Result<(), AllocError> {
    text.push_str(&verdict.words)?;
    if let Some(statements) = verdict.statements {
        text.push_str(", ")?;
        put_count(text, statements, "statement")?;
    }
    if let Some(ran) = &verdict.ran {
        put_ran(text, ran)?;
    }
    if verdict.notices != 0 {
        text.push_str(", ")?;
        put_count(text, verdict.notices, "notice")?;
    }
    Ok(())
}

/// The line of a verdict: `square.dmi stop ENDED, 13 statements, 4 points, deviation 0.000 at most, margin 2.500`.
///
/// # Errors
///
/// Out of memory.
pub fn verdict_line(alloc: Global, verdict: &Verdict) -> Result<String, AllocError> {
    let mut text = String::new(alloc);
    text.push_str(&verdict.program)?;
    text.push(' ')?;
    put_told(&mut text, verdict)?;
    text.push('\n')?;
    Ok(text)
}

// Adds how many fared so, if any did.
fn put_some(text: &mut String, count: u64, words: &str) -> Result<(), AllocError> {
    if count != 0 {
        write!(text, ", {count} {words}")?;
    }
    Ok(())
}

// Adds the line of counts.
fn put_counts(text: &mut String, total: u64, counts: &Counts) -> Result<(), AllocError> {
    put_count(text, total, "program")?;
    let ended = counts.ended;
    write!(text, ": {ended} ended")?;
    put_some(text, counts.not_all_tried, "not all tried")?;
    put_some(text, counts.stopped, "stopped")?;
    put_some(text, counts.out_of_steps, "out of steps")?;
    put_some(text, counts.refused, "refused")?;
    put_some(text, counts.no_memory, "out of memory")?;
    put_some(text, counts.device, "not read")?;
    text.push('\n')
}

/// The line of counts: `3 programs: 1 ended, 1 stopped, 1 refused`.
///
/// # Errors
///
/// Out of memory.
pub fn counts_line(alloc: Global, total: usize, counts: &Counts) -> Result<String, AllocError> {
    let mut text = String::new(alloc);
    put_counts(&mut text, total as u64, counts)?;
    Ok(text)
}
