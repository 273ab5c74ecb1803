//! The CALLs that a statement comes from, in lines. Nothing here takes memory.

ghost use Rattle.std.specs.Prelude.{◌≡◌, true, slice_get, unwrap_or, flat_map};
ghost use Rattle.vcm_num.specs.Written.{Wrote};
ghost use Rattle.vcm_calls.specs.Chains.{chain, chain_of, macro_called};
ghost use Rattle.vcm_backtrace.specs.Calls.{numbered_line, call_front, call_line, line_if, depth_before, call_if, call_lines, number_in, number_if, first_after, numbers_in, calls_field};

use crate::source::Source;
use itoa::Buffer;
use std::io::Write;
use vcm_calls::{Called, depth_at, macro_called, source_line};
use vcm_forms::Statement;
use vcm_num::{WriteFault, write_all, write_pieces};
use vcm_trace::TellsCalls;

// Writes a line of the text with its number.
fn write_line<W: Write>(text: &[u8], line: u32, writer: &mut W) -> Result<(), WriteFault>
    ensures { Wrote (W.contents writer.old) (W.contents writer.new) (numbered_line text.now line) result }
{
    let mut number = Buffer::new();
    write_pieces(
        writer,
        &[
            b"line ",
            number.format(line).as_bytes(),
            b": ",
            source_line(text, line),
            b"\n",
        ],
    )
}

// Writes the name of the macro that the CALL on a line calls.
fn write_front<W: Write>(
    statements: &[Statement],
    line: u32,
    writer: &mut W,
) -> Result<(), WriteFault>
    ensures { Wrote (W.contents writer.old) (W.contents writer.new) (call_front (macro_called statements.now line)) result }
{
    match macro_called(statements, line) {
        Some(name) => write_pieces(writer, &[b"in M(", name.as_bytes(), b") from "]),
        None => write_pieces(writer, &[b"from "]),
    }
}

// Writes a CALL that a statement comes from.
fn write_call<W: Write>(
    text: &[u8],
    statements: &[Statement],
    line: u32,
    writer: &mut W,
) -> Result<(), WriteFault>
    ensures { Wrote (W.contents writer.old) (W.contents writer.new) (call_line text.now statements.now line) result }
{
    write_front(statements, line, writer)?;
    write_line(text, line, writer)
}

// The line of the CALL at a place, if it is nested so deep.
fn line_if(calls: &[Called], place: usize, depth: usize) -> Option<u32>
    ensures { result ≡ line_if (slice_get calls.now place) depth }
{
    match calls.get(place) {
        Some(call) => {
            if call.depth == depth {
                Some(call.line)
            } else {
                None
            }
        }
        None => None,
    }
}

// How deep the CALL before is to be nested, behind this one or none.
fn depth_before(line: Option<u32>, depth: usize) -> usize
    ensures { result ≡ depth_before line depth }
{
    match line {
        Some(_) => depth.saturating_sub(1),
        None => depth,
    }
}

// Writes the CALL on a line, if there is one.
fn write_if_called<W: Write>(
    text: &[u8],
    statements: &[Statement],
    line: Option<u32>,
    writer: &mut W,
) -> Result<(), WriteFault>
    ensures { Wrote (W.contents writer.old) (W.contents writer.new) (call_if text.now statements.now line) result }
{
    match line {
        Some(line) => write_call(text, statements, line, writer),
        None => Ok(()),
    }
}

// The expansion of the statement with this number, 0 where there is none.
fn expansion_at(expansions: &[u32], number: u32) -> u32
    ensures { result ≡ unwrap_or (slice_get expansions.now number) 0 }
{
    match expansions.get(number as usize) {
        Some(expansion) => *expansion,
        None => 0,
    }
}

// Writes the CALLs that an expansion comes from, the innermost first.
fn write_chain<W: Write>(
    text: &[u8],
    statements: &[Statement],
    calls: &[Called],
    expansion: u32,
    writer: &mut W,
) -> Result<(), WriteFault>
    ensures { Wrote (W.contents writer.old) (W.contents writer.new) (flat_map (call_line text.now statements.now) (chain calls.now expansion)) result }
{
    let mut left = expansion as usize;
    let mut depth = depth_at(calls, left.saturating_sub(1));
    while left > 0 {
        left -= 1;
        let line = line_if(calls, left, depth);
        write_if_called(text, statements, line, writer)?;
        depth = depth_before(line, depth);
    }
    Ok(())
}

/// Writes the line of the text with this number.
///
/// Errors: the writer failed, or took no byte; then it has taken a front of the line, and not all of it.
pub fn write_source_line<W: Write>(
    source: &Source<'_>,
    line: u32,
    writer: &mut W,
) -> Result<(), WriteFault>
    ensures { Wrote (W.contents writer.old) (W.contents writer.new) (numbered_line source.now.text line) result }
{
    write_line(source.text, line, writer)
}

/// Writes the CALLs that the statement with this number comes from, the innermost first.
///
/// Errors: the writer failed, or took no byte; then it has taken a front of the lines, and not all of them.
pub(crate) fn write_calls<W: Write>(
    source: &Source<'_>,
    number: u32,
    writer: &mut W,
) -> Result<(), WriteFault>
    ensures { Wrote (W.contents writer.old) (W.contents writer.new) (call_lines source.now number) result }
{
    let expansion = expansion_at(&source.expansions, number);
    write_chain(
        source.text,
        &source.statements,
        &source.calls,
        expansion,
        writer,
    )
}

// ---- as a field of a row

// Writes a line that stands first in a field, or after another one.
fn write_number<W: Write>(is_first: bool, line: u32, writer: &mut W) -> Result<(), WriteFault>
    ensures { Wrote (W.contents writer.old) (W.contents writer.new) (number_in is_first line) result }
{
    let mut digits = Buffer::new();
    if is_first {
        write_all(writer, digits.format(line).as_bytes())
    } else {
        write_pieces(writer, &[b" ", digits.format(line).as_bytes()])
    }
}

// The same, if there is one.
fn write_if_number<W: Write>(
    is_first: bool,
    line: Option<u32>,
    writer: &mut W,
) -> Result<(), WriteFault>
    ensures { Wrote (W.contents writer.old) (W.contents writer.new) (number_if is_first line) result }
{
    match line {
        Some(line) => write_number(is_first, line, writer),
        None => Ok(()),
    }
}

// Whether the next line stands first in a field.
fn first_after(is_first: bool, line: Option<u32>) -> bool
    ensures { result ≡ first_after is_first line }
{
    match line {
        Some(_) => false,
        None => is_first,
    }
}

// Writes the lines of the CALLs that an expansion comes from, the innermost first, with a blank between two.
fn write_numbers<W: Write>(
    calls: &[Called],
    expansion: u32,
    writer: &mut W,
) -> Result<(), WriteFault>
    ensures { Wrote (W.contents writer.old) (W.contents writer.new) (numbers_in true (chain calls.now expansion)) result }
{
    let mut left = expansion as usize;
    let mut depth = depth_at(calls, left.saturating_sub(1));
    let mut is_first = true;
    while left > 0 {
        left -= 1;
        let line = line_if(calls, left, depth);
        write_if_number(is_first, line, writer)?;
        is_first = first_after(is_first, line);
        depth = depth_before(line, depth);
    }
    Ok(())
}

// Writes the lines of the CALLs that the statement with this number comes from, the innermost first, with a blank between two.
fn write_field<W: Write>(source: &Source<'_>, number: u32, writer: &mut W) -> Result<(), WriteFault>
    ensures { Wrote (W.contents writer.old) (W.contents writer.new) (numbers_in true (chain_of source.now.statements number)) result }
{
    let expansion = expansion_at(&source.expansions, number);
    write_numbers(&source.calls, expansion, writer)
}

/// From which CALLs statements come, as fields of rows; of a code without a text nothing.
#[derive(Clone, Copy)]
pub struct CallFields<'a, 's> {
    pub source: &'a Option<Source<'s>>,
}

impl<W: Write> TellsCalls<W> for CallFields<'_, '_> {
    ghost Calls = { λ s. calls_field s.source.now };

    fn write_calls(&self, number: u32, writer: &mut W) -> Result<(), WriteFault> {
        match self.source {
            Some(source) => write_field(source, number, writer),
            None => Ok(()),
        }
    }
}
