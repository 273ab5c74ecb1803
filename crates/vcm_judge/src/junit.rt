//! Verdicts as a report in the XML of JUnit, as systems of continuous integration read it.

use crate::counts::Counts;
use crate::outcome::Outcome;
use crate::text::put_escaped;
use crate::verdict::Verdict;
use std::alloc::{AllocError, Global};
use std::fmt::Write as _;

// The element that tells that a program didn't fare well: a failure of its run, or an error that kept it from being tried.
fn element_of(outcome: Outcome) -> Option<&'static str> {
    match outcome {
        Outcome::Ended => None,
        Outcome::NotAllTried | Outcome::Stopped | Outcome::OutOfSteps => Some("failure"),
        Outcome::Refused | Outcome::NoMemory | Outcome::Device => Some("error"),
    }
}

// Adds the element of a program.
fn put_case(text: &mut String, verdict: &Verdict) -> Result<(), AllocError> {
    text.push_str("    <testcase classname=\"")?;
    put_escaped(text, &verdict.part)?;
    text.push_str("\" name=\"")?;
    put_escaped(text, &verdict.program)?;
    text.push_str("\" time=\"0\"")?;
    let Some(element) = element_of(verdict.outcome) else {
        return text.push_str("/>\n");
    };
    let status = verdict.outcome.status();
    write!(
        text,
        ">\n      <{element} type=\"status {status}\" message=\""
    )?;
    put_escaped(text, &verdict.words)?;
    text.push_str("\"/>\n    </testcase>\n")
}

// Adds the attributes that count programs.
fn put_counts(text: &mut String, total: u64, counts: &Counts) -> Result<(), AllocError> {
    let failures = counts.not_all_tried.saturating_add(counts.stopped);
    let failures = failures.saturating_add(counts.out_of_steps);
    let errors = counts.refused.saturating_add(counts.no_memory);
    let errors = errors.saturating_add(counts.device);
    write!(
        text,
        " tests=\"{total}\" failures=\"{failures}\" errors=\"{errors}\" time=\"0\">\n"
    )
}

// Adds the report.
fn put_report(text: &mut String, verdicts: &[Verdict], counts: &Counts) -> Result<(), AllocError> {
    let total = verdicts.len() as u64;
    text.push_str("<?xml version=\"1.0\" encoding=\"UTF-8\"?>\n<testsuites")?;
    put_counts(text, total, counts)?;
    text.push_str("  <testsuite name=\"vcm judge\" skipped=\"0\"")?;
    put_counts(text, total, counts)?;
    for verdict in verdicts {
        put_case(text, verdict)?;
    }
    text.push_str("  </testsuite>\n</testsuites>\n")
}

/// The report: a test case for each program, of the class that its part file names; a run that didn't end well is a failure, and what couldn't be run is an error.
///
/// # Errors
///
/// Out of memory.
pub fn junit_report(
    alloc: Global,
    verdicts: &[Verdict],
    counts: &Counts,
) -> Result<String, AllocError> {
    let mut text = String::new(alloc);
    put_report(&mut text, verdicts, counts)?;
    Ok(text)
}
