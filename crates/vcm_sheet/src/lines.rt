//! Source lines, and the marks of a way that come from them.

ghost use Rattle.std.specs.Prelude.{◌≡◌, IfOk};
ghost use Rattle.std.specs.List.{filter};
ghost use Rattle.vcm_sheet.specs.Lines.{has_line, last_on, draws_end};

use std::alloc::Global;
use vcm_marks::PlacedMark;
use vcm_num::NoMemory;

/// Source lines, from the first to the last, both among them.
#[derive(Clone, Copy)]
pub struct Lines {
    pub first: u32,
    pub last: u32,
}

/// All lines of any program.
pub const ALL_LINES: Lines = Lines {
    first: 0,
    last: 4_294_967_295,
};

/// Whether a line is among some.
pub fn has_line(lines: Lines, line: u32) -> bool
    ensures { result ≡ has_line lines line }
{
    lines.first <= line && line <= lines.last
}

// Of marks those of some lines.
fn only_on(mut marks: Vec<PlacedMark>, lines: Lines) -> Vec<PlacedMark>
    ensures { result.items ≡ filter (λ m. has_line lines m.line) marks.items }
{
    marks.retain(|placed| has_line(lines, placed.line));
    marks
}

/// The marks of the statements on some lines, in the order of the run.
///
/// # Errors
///
/// Out of memory.
pub fn marks_on(
    alloc: Global,
    lines: Lines,
    marks: &[PlacedMark],
) -> Result<Vec<PlacedMark>, NoMemory>
    ensures { IfOk result (λ v. v.items ≡ filter (λ m. has_line lines m.line) marks.now) }
{
    let all = Vec::from_slice(alloc, marks)?;
    Ok(only_on(all, lines))
}

// Whether the last of some marks comes from one of some lines; where there is no mark, this.
fn last_on(lines: Lines, before: bool, marks: &[PlacedMark]) -> bool
    ensures { result ≡ last_on lines before marks.now }
{
    let mut is_on = before;
    for placed in marks {
        is_on = has_line(lines, placed.line);
    }
    is_on
}

/// Whether the end of a way with these marks is drawn where these lines are: with all lines it is, and else if the last mark comes from one of them.
pub fn draws_end(lines: Lines, marks: &[PlacedMark]) -> bool
    ensures { result ≡ draws_end lines marks.now }
{
    lines.first == 0 || last_on(lines, false, marks)
}
