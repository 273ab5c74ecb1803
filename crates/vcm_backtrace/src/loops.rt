//! The rounds of the loops round a statement. Nothing here takes memory.

ghost use Rattle.std.specs.Prelude.{◌≡◌, slice_get, unwrap_or, pos};
ghost use Rattle.vcm_num.specs.Written.{Wrote};
ghost use Rattle.vcm_backtrace.specs.Loops.{round_front, value_shown, index_text, loop_line, open_line, line_if_round, line_if_there, loop_lines};

use crate::standing::Standing;
use itoa::Buffer;
use std::io::Write;
use vcm_cause::round_of;
use vcm_code::Op;
use vcm_console::{write_variable, write_variable_value};
use vcm_fields::BorrowedStatement;
use vcm_loader::Loaded;
use vcm_num::{WriteFault, write_all, write_pieces};

// Writes which round of a loop it is.
fn write_round<W: Write>(round: u64, line: u32, writer: &mut W) -> Result<(), WriteFault>
    ensures { Wrote (W.contents writer.old) (W.contents writer.new) (round_front round line) result }
{
    let mut round_digits = Buffer::new();
    let mut line_digits = Buffer::new();
    let round = round_digits.format(round).as_bytes();
    let line = line_digits.format(line).as_bytes();
    write_pieces(writer, &[b"round ", round, b" of DO line ", line, b", "])
}

// The value of the variable of this index.
fn value_at(values: &[i64], index: u16) -> i64
    ensures { result ≡ unwrap_or (slice_get values.now index) (pos 0) }
{
    match values.get(index as usize) {
        Some(value) => *value,
        None => 0,
    }
}

// Writes a variable and its value.
fn write_value<W: Write>(
    standing: &Standing<'_>,
    index: u16,
    writer: &mut W,
) -> Result<(), WriteFault>
    ensures { Wrote (W.contents writer.old) (W.contents writer.new) (value_shown standing.now.tables.now standing.now.variables.now index) result }
{
    let value = value_at(standing.variables, index);
    write_variable(standing.tables, index, writer)?;
    write_all(writer, b" ")?;
    write_variable_value(standing.tables, index, value, writer)
}

// Writes the variable of a loop and its value, and the end of the line.
fn write_index<W: Write>(
    standing: &Standing<'_>,
    index: u16,
    writer: &mut W,
) -> Result<(), WriteFault>
    ensures { Wrote (W.contents writer.old) (W.contents writer.new) (index_text standing.now.tables.now standing.now.variables.now index) result }
{
    write_value(standing, index, writer)?;
    write_all(writer, b"\n")
}

// Writes the line of a loop.
fn write_loop<W: Write>(
    standing: &Standing<'_>,
    line: u32,
    variable: u16,
    pair: u8,
    writer: &mut W,
) -> Result<(), WriteFault>
    ensures { Wrote (W.contents writer.old) (W.contents writer.new) (loop_line standing.now.tables.now standing.now.variables.now standing.now.rounds.now line variable pair) result }
{
    write_round(round_of(standing.rounds, pair), line, writer)?;
    write_index(standing, variable, writer)
}

// Writes the line of a loop, if it doesn't end before the statement with this number.
fn write_open<W: Write>(
    standing: &Standing<'_>,
    number: u32,
    line: u32,
    variable: u16,
    pair: u8,
    exit: u32,
    writer: &mut W,
) -> Result<(), WriteFault>
    ensures { Wrote (W.contents writer.old) (W.contents writer.new) (open_line standing.now.tables.now standing.now.variables.now standing.now.rounds.now number line variable pair exit) result }
{
    if number < exit {
        write_loop(standing, line, variable, pair, writer)
    } else {
        Ok(())
    }
}

// Writes the line of a statement, if it is a DO round the statement with this number.
fn write_if_round<W: Write>(
    standing: &Standing<'_>,
    number: u32,
    statement: &BorrowedStatement<'_>,
    writer: &mut W,
) -> Result<(), WriteFault>
    ensures { Wrote (W.contents writer.old) (W.contents writer.new) (line_if_round standing.now.tables.now standing.now.variables.now standing.now.rounds.now number statement.now) result }
{
    let line = statement.line;
    match &statement.op {
        Op::Do(variable, pair, _, _, _, exit) => write_open(
            standing, number, line, *variable, *pair, *exit, writer,
        ),
        _ => Ok(()),
    }
}

// Writes the line of the statement of a place, if it is a DO round the statement with this number; nothing where there is no statement.
fn write_at<W: Write>(
    loaded: &Loaded<'_>,
    standing: &Standing<'_>,
    number: u32,
    place: u32,
    writer: &mut W,
) -> Result<(), WriteFault>
    ensures { Wrote (W.contents writer.old) (W.contents writer.new)
        (line_if_there standing.now.tables.now standing.now.variables.now standing.now.rounds.now number (slice_get loaded.now.statements place)) result }
{
    if (place as usize) < loaded.statement_count() {
        let statement = loaded.statement(place as usize);
        write_if_round(standing, number, &statement, writer)
    } else {
        Ok(())
    }
}

/// Writes a line for each loop round the statement with this number, the innermost first.
///
/// Errors: the writer failed, or took no byte; then it has taken a front of the lines, and not all of them.
pub(crate) fn write_loops<W: Write>(
    loaded: &Loaded<'_>,
    standing: &Standing<'_>,
    number: u32,
    writer: &mut W,
) -> Result<(), WriteFault>
    ensures { Wrote (W.contents writer.old) (W.contents writer.new)
        (loop_lines standing.now.tables.now standing.now.variables.now standing.now.rounds.now number loaded.now.statements number) result }
{
    let mut index = number;
    while index > 0 {
        index -= 1;
        write_at(loaded, standing, number, index, writer)?;
    }
    Ok(())
}
