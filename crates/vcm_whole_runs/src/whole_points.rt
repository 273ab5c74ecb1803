//! Rows of points of a producer's text that weren't touched.

use std::alloc::{AllocError, Global};
use std::fmt::Write as _;
use vcm_items::Tables;
use vcm_loader::Loaded;
use vcm_report::name_at;
use vcm_untried::{About, Marked, Marking, point_before};

/// The row of a point that wasn't touched, and the step at which it wasn't.
#[derive(Drop)]
pub(crate) struct PointRow {
    step: u64,
    text: String,
}

// How many fields are empty in a row, without machine coordinates and with them.
const EMPTY: &str = ",,,,,,,,,,,,,\n";

const EMPTY_MACHINE: &str = ",,,,,,,,,,,,,,,,,,,\n";

// The row of a point that a step reports as not tried.
fn row_of(
    alloc: Global,
    is_machine: bool,
    marked: &Marked,
    name: &[u8],
) -> Result<PointRow, AllocError> {
    let mut text = String::new(alloc);
    let (step, line) = (marked.step, marked.line);
    let name = std::str::from_utf8(name).unwrap_or("?");
    write!(text, "{step},{line},{name}")?;
    text.push_str(if is_machine { EMPTY_MACHINE } else { EMPTY })?;
    Ok(PointRow { step, text })
}

// The feature of the point that a step reports as not tried, if it does.
fn untried_point(loaded: &Loaded<'_>, marked: &Marked) -> Option<u16> {
    let is_motion = matches!(marked.about, About::NotTried(_, _));
    if is_motion && (marked.number as usize) < loaded.statement_count() {
        point_before(loaded, marked.line, marked.number)
    } else {
        None
    }
}

/// The rows of the points that weren't touched in a run.
///
/// Errors: want of memory.
pub(crate) fn untried_points(
    alloc: Global,
    loaded: &Loaded<'_>,
    tables: &Tables,
    marking: &Marking,
    is_machine: bool,
) -> Result<Vec<PointRow>, AllocError> {
    let mut rows = Vec::new(alloc);
    for marked in &marking.marks {
        if let Some(feature) = untried_point(loaded, marked) {
            let name = name_at(tables.features(), feature);
            rows.push(row_of(alloc, is_machine, marked, name)?)?;
        }
    }
    Ok(rows)
}

// The step of a row, which is the number that it begins with; 0 where it begins with none, as the heading.
fn step_of(row: &str) -> u64 {
    match row.split_once(',') {
        Some((step, _)) => step.parse::<u64>().unwrap_or(0),
        None => 0,
    }
}

// Adds rows from a place on, as long as their steps stand before this one, and gives the place behind them.
fn put_before(
    out: &mut Vec<u8>,
    rows: &[PointRow],
    from: usize,
    step: u64,
) -> Result<usize, AllocError> {
    for at in from..rows.len() {
        if rows[at].step >= step {
            return Ok(at);
        }
        out.extend_from_slice(rows[at].text.as_bytes())?;
    }
    Ok(rows.len())
}

/// Rows of points, and among them these rows, in the order of their steps.
///
/// Errors: want of memory.
pub(crate) fn with_rows(
    alloc: Global,
    text: &[u8],
    rows: &[PointRow],
) -> Result<Vec<u8>, AllocError> {
    let mut out = Vec::new(alloc);
    let mut at = 0;
    for row in std::str::from_utf8(text)
        .unwrap_or("")
        .split_inclusive('\n')
    {
        at = put_before(&mut out, rows, at, step_of(row))?;
        out.extend_from_slice(row.as_bytes())?;
    }
    put_before(&mut out, rows, at, u64::MAX)?;
    Ok(out)
}
