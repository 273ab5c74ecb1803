//! A text whose points are touched one by one.

use std::alloc::Global;
use vcm_adapt::{Edit, put_line};
use vcm_num::NoMemory;
use vcm_rules::Row;
use vcm_sentences::Owner;

// Appends what becomes of the first line of a statement.
fn put_first(row: &Row, line: &[u8], out: &mut Vec<u8>) -> Result<(), NoMemory> {
    match &row.lines {
        Some(lines) => {
            out.extend_from_slice(lines.as_slice())?;
            Ok(())
        }
        None => put_line(out, &row.edit, line),
    }
}

// Appends what becomes of another line of a statement: where others stand in the place of that, nothing.
fn put_other(row: &Row, line: &[u8], out: &mut Vec<u8>) -> Result<(), NoMemory> {
    match (&row.lines, &row.edit) {
        (Some(_), _) => Ok(()),
        (None, Edit::Keep) => put_line(out, &Edit::Keep, line),
        (None, _) => put_line(out, &Edit::LeaveOut, line),
    }
}

// Appends what becomes of a line that belongs to this row, or to no statement.
fn put_owned(
    owner: Owner,
    row: Option<&Row>,
    line: &[u8],
    out: &mut Vec<u8>,
) -> Result<(), NoMemory> {
    match (owner, row) {
        (Owner::First, Some(row)) => put_first(row, line, out),
        (Owner::Other, Some(row)) => put_other(row, line, out),
        _ => put_line(out, &Edit::Keep, line),
    }
}

/// The text, each statement with what becomes of it, those of points that are touched in lines of their own.
pub(crate) fn touched(
    alloc: Global,
    owners: &[Owner],
    rows: &[Row],
    lines: &[&[u8]],
) -> Result<Vec<u8>, NoMemory> {
    let mut out = Vec::new(alloc);
    let mut begun = 0usize;
    for (owner, line) in owners.iter().zip(lines.iter()) {
        if matches!(owner, Owner::First) {
            begun = begun.saturating_add(1);
        }
        let row = rows.get(begun.wrapping_sub(1));
        put_owned(*owner, row, line, &mut out)?;
    }
    Ok(out)
}
