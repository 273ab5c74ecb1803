//! The writing of statements.

ghost use Rattle.std.specs.Prelude.{◌≡◌, ◌<◌, ◌++◌, ◌∷◌, Some, length, slice_get, flat_map, decimal};
ghost use Rattle.vcm_num.specs.Written.{Wrote};
ghost use Rattle.vcm_code.specs.Code.{CodeStatement};
ghost use Rattle.vcm_fields.specs.Fields.{in_plain};
ghost use Rattle.vcm_words.specs.declared.row.Row.TheVariants.{Numbered};
ghost use Rattle.vcm_print.specs.inner.Written.{three_bytes, assigned_bytes, place_bytes, statement_bytes};
ghost use Rattle.vcm_print.specs.Listed.{listed};

use crate::branches::write_branches;
use crate::items::write_items;
use crate::tables::{axis, direction, setting, source, turn};
use crate::words::word;
use crate::writer::{write_marked, write_two};
use itoa::Buffer;
use std::io::Write;
use vcm_fields::{BorrowedField, BorrowedStatement, Field, ItemSlice, fields_of};
use vcm_loader::Loaded;
use vcm_num::{WriteFault, write_all, write_pieces};

// Writes a number behind a blank and a letter.
fn write_lettered<W: Write>(letter: u8, number: u32, writer: &mut W) -> Result<(), WriteFault>
    ensures { Wrote (W.contents writer.old) (W.contents writer.new) (32 ∷ letter ∷ decimal number) result }
{
    let mut buffer = Buffer::new();
    write_marked(b" ", letter, buffer.format(number).as_bytes(), writer)
}

// Writes a number behind a blank.
fn write_number<W: Write>(number: u32, writer: &mut W) -> Result<(), WriteFault>
    ensures { Wrote (W.contents writer.old) (W.contents writer.new) (32 ∷ decimal number) result }
{
    let mut buffer = Buffer::new();
    write_two(b" ", buffer.format(number).as_bytes(), writer)
}

// Writes three expressions, with a blank in front of each.
fn write_three<W: Write>(
    x: &ItemSlice<'_>,
    y: &ItemSlice<'_>,
    z: &ItemSlice<'_>,
    writer: &mut W,
) -> Result<(), WriteFault>
    ensures { Wrote (W.contents writer.old) (W.contents writer.new) (three_bytes x.now y.now z.now) result }
{
    write_items(x, writer)?;
    write_items(y, writer)?;
    write_items(z, writer)
}

// Writes an expression behind the index of its variable.
fn write_assigned<W: Write>(
    variable: u32,
    value: &ItemSlice<'_>,
    writer: &mut W,
) -> Result<(), WriteFault>
    ensures { Wrote (W.contents writer.old) (W.contents writer.new) (assigned_bytes variable value.now) result }
{
    write_lettered(b'V', variable, writer)?;
    write_items(value, writer)
}

// Writes what stands in one place, with a blank in front of each of its words.
#[tactic(auto, unfolding(crate::specs::inner::Written::place_bytes))]
fn write_field<W: Write>(field: &BorrowedField<'_, '_>, writer: &mut W) -> Result<(), WriteFault>
    ensures { Wrote (W.contents writer.old) (W.contents writer.new) (in_plain place_bytes field.now) result }
{
    match field {
        Field::Nothing => write_all(writer, b""),
        Field::Variable(_, index) => write_lettered(b'V', u32::from(*index), writer),
        Field::Feature(index) => write_lettered(b'F', u32::from(*index), writer),
        Field::Frame(index) => write_lettered(b'D', u32::from(*index), writer),
        Field::Pair(number) => write_lettered(b'L', u32::from(*number), writer),
        Field::Target(number) => write_lettered(b'@', *number, writer),
        Field::Items(_, items) => write_items(items, writer),
        Field::Three(_, x, y, z) => write_three(x, y, z, writer),
        Field::Assigned(variable, value) => write_assigned(u32::from(*variable), value, writer),
        Field::Toward(toward) => write_two(b" ", axis(*toward), writer),
        Field::Direction(toward) => write_two(b" ", direction(*toward), writer),
        Field::Setting(which) => write_two(b" ", setting(*which), writer),
        Field::Source(which) => write_two(b" ", source(*which), writer),
        Field::Turn(axis) => write_two(b" ", turn(*axis), writer),
        Field::Quarters(turns) => write_number(u32::from(turns.number()), writer),
        Field::Part(word) => write_number(u32::from(word.number()), writer),
        Field::Text(text) => write_pieces(writer, &[b" '", text.as_bytes(), b"'"]),
        Field::Branches(branches) => write_branches(branches, writer),
    }
}

// Writes what stands in places, one behind the other.
fn write_fields<W: Write>(
    fields: &[BorrowedField<'_, '_>],
    writer: &mut W,
) -> Result<(), WriteFault>
    ensures { Wrote (W.contents writer.old) (W.contents writer.new) (flat_map (in_plain place_bytes) fields.now) result }
{
    for field in fields {
        write_field(field, writer)?;
    }
    Ok(())
}

// Writes the number of a statement, its source line, and its word.
fn write_head<W: Write>(n: usize, line: u32, word: &[u8], writer: &mut W) -> Result<(), WriteFault>
    ensures { Wrote (W.contents writer.old) (W.contents writer.new) (decimal n ++ (32 ∷ decimal line ++ (32 ∷ word.now))) result }
{
    let mut number = Buffer::new();
    let mut text = Buffer::new();
    let number = number.format(n).as_bytes();
    let text = text.format(line).as_bytes();
    write_pieces(writer, &[number, b" ", text, b" ", word])
}

// Writes a statement's line and its end.
fn write_line<W: Write>(
    n: usize,
    statement: &BorrowedStatement<'_>,
    writer: &mut W,
) -> Result<(), WriteFault>
    ensures { Wrote (W.contents writer.old) (W.contents writer.new) (statement_bytes n statement.now) result }
{
    write_head(n, statement.line, word(&statement.op), writer)?;
    write_fields(&fields_of(&statement.op), writer)?;
    write_all(writer, b"\n")
}

/// Writes the line of statement `n` as it stands in the listing, with its end. It takes no memory.
///
/// # Errors
///
/// The writer failed, or took no byte; then it has taken a front of the line that is not all.
pub fn write_statement<W: Write>(
    loaded: &Loaded<'_>,
    n: usize,
    writer: &mut W,
) -> Result<(), WriteFault>
    requires { n < length loaded.now.statements }
    ensures { (s : CodeStatement) → slice_get loaded.now.statements n ≡ Some s → Wrote (W.contents writer.old) (W.contents writer.new) (listed (Numbered n s)) result }
{
    let statement = loaded.statement(n);
    write_line(n, &statement, writer)
}
