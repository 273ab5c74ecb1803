//! The survey of a text.

ghost use Rattle.std.specs.Prelude.{◌≡◌};
ghost use Rattle.vcm_survey.specs.Faults.{is_too_long, too_many};

use crate::listing::{put_rows, whole_lines};
use crate::reading::read_text;
use crate::report::{count_of, put_all_groups, put_counts};
use std::alloc::Global;
use vcm_lines::{FaultCode, SourceFault};
use vcm_num::{MOST_STATEMENTS, NoMemory, whole_line};
use vcm_rules::{Class, Options, Row, Surveyed};

/// How a survey is told.
#[derive(Clone, Copy)]
pub enum Shape {
    /// Counts and groups.
    Groups,
    /// A line for each statement.
    Lines,
}

/// What a survey tells.
#[derive(Drop)]
pub struct Findings {
    /// The text of it.
    pub text: Vec<u8>,
    /// What is told beside it.
    pub warnings: Vec<u8>,
    /// Whether all statements fit or have a notice.
    pub is_clean: bool,
}

/// The refusal of a text with too many lines.
pub(crate) fn too_many() -> SourceFault
    ensures { result ≡ too_many }
{
    SourceFault {
        code: FaultCode::TooManyLines,
        line: MOST_STATEMENTS as u32 + 1,
    }
}

/// Whether a text has more lines than a program may have.
pub(crate) fn is_too_long(text: &[u8]) -> bool
    ensures { result ≡ is_too_long text.now }
{
    let mut rest = text;
    for count in 0..MOST_STATEMENTS {
        if rest.is_empty() {
            return false;
        }
        rest = whole_line(rest).1;
    }
    !rest.is_empty()
}

// Whether all statements fit or have a notice.
fn are_clean(rows: &[Row]) -> bool {
    count_of(rows, Class::Fits).saturating_add(count_of(rows, Class::Notice)) == rows.len()
}

// The text of a survey, whose name this is.
fn told(
    alloc: Global,
    name: &[u8],
    text: &[u8],
    surveyed: &Surveyed,
    shape: Shape,
) -> Result<Vec<u8>, NoMemory> {
    let lines = whole_lines(alloc, text)?;
    let rows = surveyed.rows.as_slice();
    let mut out = Vec::new(alloc);
    match shape {
        Shape::Groups => {
            put_counts(name, lines.len(), rows, &mut out)?;
            put_all_groups(alloc, surveyed, &mut out)?;
        }
        Shape::Lines => put_rows(rows, lines.as_slice(), &mut out)?,
    }
    Ok(out)
}

/// Surveys a text, whose name this is.
///
/// # Errors
///
/// A text of more than 20,000 lines; out of memory.
pub fn survey(
    alloc: Global,
    name: &[u8],
    text: &[u8],
    options: &Options,
    shape: Shape,
) -> Result<Result<Findings, SourceFault>, NoMemory> {
    if is_too_long(text) {
        return Ok(Err(too_many()));
    }
    let read = read_text(alloc, text, options)?;
    let is_clean = are_clean(read.surveyed.rows.as_slice());
    let text = told(alloc, name, text, &read.surveyed, shape)?;
    Ok(Ok(Findings {
        text,
        warnings: read.missing,
        is_clean,
    }))
}
