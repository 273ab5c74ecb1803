//! Lines as they are listed.

ghost use Rattle.std.specs.Prelude.{◌≡◌, IfOk, OnOk};
ghost use Rattle.vcm_untried.specs.Spans.{alone, joins, longer, add_span, spans_of};

use crate::about::{About, same};
use crate::rows::Row;
use std::alloc::Global;
use vcm_num::NoMemory;

/// Adjacent lines, or one line alone, with how often each of them counts.
#[derive(Clone, Copy)]
pub struct Span {
    pub first: u32,
    pub last: u32,
    pub count: u64,
}

// One line alone.
fn alone(line: u32, count: u64) -> Span
    ensures { result ≡ alone line count }
{
    Span {
        first: line,
        last: line,
        count,
    }
}

// Whether a line joins those before it: it is the next one, and all count once.
fn joins(span: &Span, line: u32, count: u64) -> bool
    ensures { result ≡ joins span.now line count }
{
    u64::from(span.last) + 1 == u64::from(line) && span.count == 1 && count == 1
}

// One line more.
fn add_span(spans: &mut Vec<Span>, line: u32, count: u64) -> Result<(), NoMemory>
    ensures { OnOk result (spans.new.items ≡ add_span spans.old.items line count) }
{
    match spans.pop() {
        None => spans.push(alone(line, count))?,
        Some(last) => {
            if joins(&last, line, count) {
                spans.push(longer(&last, line))?;
            } else {
                spans.push(last)?;
                spans.push(alone(line, count))?;
            }
        }
    }
    Ok(())
}

// The same lines up to this one.
fn longer(span: &Span, line: u32) -> Span
    ensures { result ≡ longer span.now line }
{
    Span {
        first: span.first,
        last: line,
        count: span.count,
    }
}

/// The lines of which this is reported.
pub(crate) fn spans_of(alloc: Global, rows: &[Row], about: About) -> Result<Vec<Span>, NoMemory>
    ensures { IfOk result (λ spans. spans.items ≡ spans_of about rows.now) }
{
    let mut spans = Vec::new(alloc);
    for row in rows {
        if same(row.about, about) {
            add_span(&mut spans, row.line, row.count)?;
        }
    }
    Ok(spans)
}
