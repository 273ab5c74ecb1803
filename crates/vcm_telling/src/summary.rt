//! All notices of a program in one line.

use std::alloc::Global;
use std::fmt::Write as _;
use vcm_num::NoMemory;
use vcm_program::Noticed;

// Lines that follow one another, the first and the last.
#[derive(Clone, Copy)]
struct Span {
    first: u32,
    last: u32,
}

// Appends lines that follow one another.
fn put_span(text: &mut String, span: Span) -> Result<(), NoMemory> {
    let Span { first, last } = span;
    if first == last {
        Ok(write!(text, " {first}")?)
    } else {
        Ok(write!(text, " {first}-{last}")?)
    }
}

// Whether a line is the last one of these, or follows it.
fn goes_on(span: Span, line: u32) -> bool {
    line == span.last || line == span.last.saturating_add(1)
}

// Appends the lines of notices, which come in the order of lines.
fn put_lines(text: &mut String, notices: &[Noticed]) -> Result<(), NoMemory> {
    let Some((first, others)) = notices.split_first() else {
        return Ok(());
    };
    let mut span = Span {
        first: first.line,
        last: first.line,
    };
    for notice in others {
        if goes_on(span, notice.line) {
            span.last = notice.line;
        } else {
            put_span(text, span)?;
            span = Span {
                first: notice.line,
                last: notice.line,
            };
        }
    }
    put_span(text, span)
}

/// All notices of a program in one line, as `notices: 12 statements have no effect, lines 2 4-14`; nothing where there are none.
///
/// # Errors
///
/// Out of memory.
pub fn summary_line(alloc: Global, notices: &[Noticed]) -> Result<String, NoMemory> {
    let mut text = String::new(alloc);
    match notices {
        [] => return Ok(text),
        [_] => text.push_str("notices: 1 statement has no effect, line")?,
        _ => {
            let count = notices.len();
            write!(text, "notices: {count} statements have no effect, lines")?;
        }
    }
    put_lines(&mut text, notices)?;
    text.push_str("\n")?;
    Ok(text)
}
