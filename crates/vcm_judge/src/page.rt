//! Verdicts as a page to be filed.

use crate::counts::Counts;
use crate::lines::{counts_line, put_told};
use crate::outcome::Outcome;
use crate::text::put_escaped;
use crate::verdict::Verdict;
use std::alloc::{AllocError, Global};
use std::fmt::Write as _;

const HEAD: &str =
    "<!DOCTYPE html>\n<html lang=\"en\">\n<head>\n<meta charset=\"utf-8\">\n<title>vcm judge</title>\n<style>\n\
body { font: 14px/1.4 sans-serif; margin: 2em; color: #222; background: #fff; }\n\
table { border-collapse: collapse; }\n\
th, td { border: 1px solid #bbb; padding: 4px 8px; text-align: left; vertical-align: top; }\n\
td.digest { font: 11px monospace; overflow-wrap: anywhere; max-width: 22em; }\n\
.well td:first-child { border-left: 6px solid #2a7d3f; }\n\
.amber td:first-child { border-left: 6px solid #c77700; }\n\
.red td:first-child { border-left: 6px solid #b3261e; }\n\
</style>\n</head>\n<body>\n<h1>What was tried</h1>\n";

const TABLE: &str =
    "<table>\n<tr><th>Program</th><th>Part file</th><th>What came of it</th><th>SHA-256 of the program</th><th>SHA-256 of the part file</th></tr>\n";

// The class of a row.
fn class_of(outcome: Outcome) -> &'static str {
    match outcome {
        Outcome::Ended => "well",
        Outcome::NotAllTried | Outcome::OutOfSteps => "amber",
        _ => "red",
    }
}

// Adds a cell.
fn put_cell(text: &mut String, words: &str) -> Result<(), AllocError> {
    text.push_str("<td>")?;
    put_escaped(text, words)?;
    text.push_str("</td>")
}

// Adds a cell with a digest.
fn put_digest(text: &mut String, digest: &str) -> Result<(), AllocError> {
    text.push_str("<td class=\"digest\">")?;
    text.push_str(digest)?;
    text.push_str("</td>")
}

// Adds the row of a program.
fn put_row(alloc: Global, text: &mut String, verdict: &Verdict) -> Result<(), AllocError> {
    let class = class_of(verdict.outcome);
    write!(text, "<tr class=\"{class}\">")?;
    put_cell(text, &verdict.program)?;
    put_cell(text, &verdict.part)?;
    let mut told = String::new(alloc);
    put_told(&mut told, verdict)?;
    put_cell(text, &told)?;
    put_digest(text, &verdict.program_digest)?;
    put_digest(text, &verdict.part_digest)?;
    text.push_str("</tr>\n")
}

// Adds what all programs share: the version, what was asked for, and the probe file with its digest.
fn put_head(
    text: &mut String,
    version: &str,
    asked: &str,
    probe: &str,
    probe_digest: &str,
) -> Result<(), AllocError> {
    text.push_str("<p>vcm ")?;
    put_escaped(text, version)?;
    text.push_str("</p>\n<p>Asked for: ")?;
    put_escaped(text, asked)?;
    text.push_str("</p>\n")?;
    if !probe.is_empty() {
        text.push_str("<p>Probe file: ")?;
        put_escaped(text, probe)?;
        text.push_str(", SHA-256 ")?;
        text.push_str(probe_digest)?;
        text.push_str("</p>\n")?;
    }
    Ok(())
}

/// The page: one file that loads nothing, with a row for each program and the digests of all files, so that it says what was tried, and by which version.
///
/// # Errors
///
/// Out of memory.
pub fn report_page(
    alloc: Global,
    verdicts: &[Verdict],
    counts: &Counts,
    version: &str,
    asked: &str,
    probe: &str,
    probe_digest: &str,
) -> Result<String, AllocError> {
    let mut text = String::new(alloc);
    text.push_str(HEAD)?;
    put_head(&mut text, version, asked, probe, probe_digest)?;
    text.push_str("<p>")?;
    let line = counts_line(alloc, verdicts.len(), counts)?;
    put_escaped(&mut text, line.trim_end())?;
    text.push_str("</p>\n")?;
    text.push_str(TABLE)?;
    for verdict in verdicts {
        put_row(alloc, &mut text, verdict)?;
    }
    text.push_str("</table>\n</body>\n</html>\n")?;
    Ok(text)
}
