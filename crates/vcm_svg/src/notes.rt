//! What of a run wasn't tried, below the heading of a picture.

ghost use Rattle.std.specs.Prelude.{◌≡◌, ◌++◌, ◌≤◌, ◌≤ℤ◌, take, length, map, pos, OnOk};
ghost use Rattle.vcm_svg.specs.Notes.{note_label, note_text, notes_from, begins_row, begins_if, notes_text, notes_high};

use crate::legend::{Sign, put_row};
use crate::pieces::Fragment;
use crate::ranges::{BoundedSpot, Unit};
use crate::rect::Spot;
use crate::shapes::{Class, Lettering, Placement, put_text};
use crate::style::put_notes_style;
use vcm_num::NoMemory;

/// The most lines of what wasn't tried that are shown.
pub const MOST_NOTES: usize = 40;

/// How many units a line is high.
const PITCH: u16 = 18;

// Where a line stands, so many units from the top.
fn note_label(unit: Unit, down: u16) -> Placement
    ensures { result ≡ note_label unit down }
{
    Placement {
        at: Spot {
            x: unit.times(20).get(),
            y: unit.times(down).get(),
        },
        size: unit.get(),
        class: Lettering::Note,
    }
}

// Appends a line, so many units from the top.
fn put_note(out: &mut Vec<u8>, unit: Unit, down: u16, line: &[u8]) -> Result<(), NoMemory>
    ensures { OnOk result (out.new.items ≡ out.old.items ++ note_text unit down line.now) }
{
    put_text(out, note_label(unit, down), &[Fragment::Text(line)])
}

// Appends lines, the first so many units from the top.
fn put_lines(out: &mut Vec<u8>, unit: Unit, down: u16, lines: &[Vec<u8>]) -> Result<(), NoMemory>
    ensures { OnOk result (out.new.items ≡ out.old.items ++ notes_from unit down (map (λ line. line.items) lines.now)) }
{
    match lines.split_first() {
        None => Ok(()),
        Some((line, rest)) => {
            put_note(out, unit, down, line.as_slice())?;
            put_lines(out, unit, down.saturating_add(PITCH), rest)
        }
    }
}

/// The first of these lines, as many as are shown.
pub fn few_notes(lines: &[Vec<u8>]) -> &[Vec<u8>]
    ensures few { length result.now ≤ 40 }
    ensures first { result.now ≡ take 40 lines.now }
{
    &lines[..lines.len().min(MOST_NOTES)]
}

/// How many units the lines are high that are shown.
pub fn notes_high(lines: &[Vec<u8>]) -> i64
    ensures high { result ≡ notes_high (map (λ line. line.items) lines.now) }
    ensures from_below { pos 0 ≤ℤ result }
    ensures from_above { result ≤ℤ pos 720 }
{
    18 * few_notes(lines).len() as i64
}

// Appends the row of the legend for ways that begin elsewhere.
fn put_begins_row(out: &mut Vec<u8>, at: BoundedSpot, unit: Unit) -> Result<(), NoMemory>
    ensures { OnOk result (out.new.items ≡ out.old.items ++ begins_row at unit) }
{
    put_row(
        out,
        at,
        unit,
        165,
        Class::Elsewhere,
        Sign::Line,
        b"begins elsewhere",
    )
}

// The same, if some way does.
fn put_begins_if(
    out: &mut Vec<u8>,
    at: BoundedSpot,
    unit: Unit,
    begins: bool,
) -> Result<(), NoMemory>
    ensures { OnOk result (out.new.items ≡ out.old.items ++ begins_if at unit begins) }
{
    if begins {
        put_begins_row(out, at, unit)
    } else {
        Ok(())
    }
}

/// Appends lines of what wasn't tried, if there are any, with their style: the first so many units from the top. At the place of the legend its row for ways that
/// begin elsewhere is appended, if some way does.
pub fn put_notes(
    out: &mut Vec<u8>,
    unit: Unit,
    down: u16,
    lines: &[Vec<u8>],
    legend: BoundedSpot,
    begins: bool,
) -> Result<(), NoMemory>
    ensures { OnOk result (out.new.items ≡ out.old.items ++ notes_text unit down (map (λ line. line.items) lines.now) legend begins) }
{
    if lines.is_empty() {
        return Ok(());
    }
    put_notes_style(out, unit)?;
    put_lines(out, unit, down, few_notes(lines))?;
    put_begins_if(out, legend, unit, begins)
}
