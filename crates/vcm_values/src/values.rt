//! The lines of variables with their values.

ghost use Rattle.std.specs.Prelude.{◌≡◌};
ghost use Rattle.vcm_num.specs.Written.{Wrote};
ghost use Rattle.vcm_values.specs.Values.{value_at, line_with, value_line, values_text};

use std::io::Write;
use vcm_console::{write_variable, write_variable_value};
use vcm_items::Tables;
use vcm_num::{WriteFault, write_all};

// The value at an index, 0 where there is none.
fn value_at(values: &[i64], index: u16) -> i64
    ensures { result ≡ value_at values.now index }
{
    match values.get(index as usize) {
        Some(value) => *value,
        None => 0,
    }
}

// Writes a variable and its value.
fn write_value<W: Write>(
    tables: &Tables,
    index: u16,
    value: i64,
    writer: &mut W,
) -> Result<(), WriteFault>
    ensures { Wrote (W.contents writer.old) (W.contents writer.new) (line_with tables.now index value) result }
{
    write_variable(tables, index, writer)?;
    write_all(writer, b" ")?;
    write_variable_value(tables, index, value, writer)?;
    write_all(writer, b"\n")
}

// Writes the line of a variable.
fn write_line<W: Write>(
    tables: &Tables,
    values: &[i64],
    index: u16,
    writer: &mut W,
) -> Result<(), WriteFault>
    ensures { Wrote (W.contents writer.old) (W.contents writer.new) (value_line tables.now values.now index) result }
{
    let value = value_at(values, index);
    write_value(tables, index, value, writer)
}

/// Writes the lines of variables, given by where they stand, in this order: each with its name and its value, as the debugger's `show` writes them: `I 3`,
/// `X -1.500`.
///
/// # Errors
///
/// The writer failed, or took no byte; then it has taken a front of the lines, and not all of them.
pub fn write_values<W: Write>(
    tables: &Tables,
    values: &[i64],
    wanted: &[u16],
    writer: &mut W,
) -> Result<(), WriteFault>
    ensures { Wrote (W.contents writer.old) (W.contents writer.new) (values_text tables.now values.now wanted.now) result }
{
    for index in wanted {
        write_line(tables, values, *index, writer)?;
    }
    Ok(())
}
