//! A survey as a line for each statement.

ghost use Rattle.std.specs.Prelude.{◌≡◌, map, Some, IfOk};
ghost use Rattle.vcm_num.specs.Lines.{whole_lines};
ghost use Rattle.vcm_survey.specs.Faults.{shown};

use crate::groups::reason_words;
use crate::words::class_words;
use std::alloc::Global;
use vcm_num::{NoMemory, whole_line, write_int};
use vcm_rules::{Class, Row};

/// The lines of a text, each with its line feed.
pub(crate) fn whole_lines(alloc: Global, text: &[u8]) -> Result<Vec<&[u8]>, NoMemory>
    ensures { IfOk result (λ lines. map (λ l. l.now) lines.items ≡ whole_lines text.now) }
{
    let mut lines = Vec::new(alloc);
    let mut rest = text;
    'lines: while !rest.is_empty() {
        let (line, after) = whole_line(rest);
        lines.push(line)?;
        rest = after;
    }
    Ok(lines)
}

/// A line as it is shown: without the blanks around it.
pub(crate) fn shown(line: &[u8]) -> &[u8]
    ensures { result.now ≡ shown (Some line.now) }
{
    line.trim_ascii()
}

// Appends the line of a statement.
fn put_row(row: &Row, lines: &[&[u8]], out: &mut Vec<u8>) -> Result<(), NoMemory> {
    out.extend_from_slice(b"line ")?;
    write_int(i64::from(row.line), out)?;
    out.extend_from_slice(b": ")?;
    out.extend_from_slice(class_words(row.class).as_bytes())?;
    out.extend_from_slice(b": ")?;
    out.extend_from_slice(reason_words(row).as_bytes())?;
    out.extend_from_slice(b": ")?;
    if let Some(line) = lines.get((row.line as usize).saturating_sub(1)) {
        out.extend_from_slice(shown(line))?;
    }
    out.push(b'\n')?;
    Ok(())
}

/// Appends a line for each statement that neither fits nor has a notice.
pub(crate) fn put_rows(rows: &[Row], lines: &[&[u8]], out: &mut Vec<u8>) -> Result<(), NoMemory> {
    for row in rows {
        if !row.class.is(Class::Fits) && !row.class.is(Class::Notice) {
            put_row(row, lines, out)?;
        }
    }
    Ok(())
}
