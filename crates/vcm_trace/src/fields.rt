//! The fields of a line. Nothing here takes memory.

ghost use Rattle.std.specs.Prelude.{◌≡◌, unwrap_or, slice_get, pos};
ghost use Rattle.vcm_num.specs.Written.{Wrote};
ghost use Rattle.vcm_spec.specs.Effect.{at_index};
ghost use Rattle.vcm_trace.specs.Lines.{line_numbers, line_front, next_text, value_shown, index_shown, bracketed, point_shown, touched_at, measured, setting_length, length_shown, count_shown, told_text};

use crate::told::Told;
use itoa::Buffer;
use std::io::Write;
use vcm_console::{write_variable, write_variable_value};
use vcm_num::{Point, WriteFault, thousandths_text, write_all, write_pieces};
use vcm_print::setting;
use vcm_probe::Settings;
use vcm_report::{name_at, write_point};
use vcm_spec::{Feature, Setting, Source};
use vcm_state::World;

// Writes how many steps were taken, the statement's number, its source line and its word.
fn write_numbers<W: Write>(
    count: u64,
    number: u32,
    line: u32,
    word: &[u8],
    writer: &mut W,
) -> Result<(), WriteFault>
    ensures { Wrote (W.contents writer.old) (W.contents writer.new) (line_numbers count number line word.now) result }
{
    let mut count_digits = Buffer::new();
    let mut number_digits = Buffer::new();
    let mut line_digits = Buffer::new();
    write_pieces(
        writer,
        &[
            count_digits.format(count).as_bytes(),
            b",",
            number_digits.format(number).as_bytes(),
            b",",
            line_digits.format(line).as_bytes(),
            b",",
            word,
            b",",
        ],
    )
}

/// Writes the fields of a line but for the last one, each with a comma after it: the count of steps, the statement's number, its source
/// line and its word, and the position in millimetres.
///
/// Errors: the writer failed, or took no byte; then it has taken a front of the fields, and not all of them.
pub fn write_front<W: Write>(
    count: u64,
    number: u32,
    line: u32,
    word: &[u8],
    at: Point,
    writer: &mut W,
) -> Result<(), WriteFault>
    ensures { Wrote (W.contents writer.old) (W.contents writer.new) (line_front count number line word.now at) result }
{
    write_numbers(count, number, line, word, writer)?;
    write_point(at, b",", writer)?;
    write_all(writer, b",")
}

// Writes the next statement.
fn write_next<W: Write>(next: u32, writer: &mut W) -> Result<(), WriteFault>
    ensures { Wrote (W.contents writer.old) (W.contents writer.new) (next_text next) result }
{
    let mut digits = Buffer::new();
    write_pieces(writer, &[b"next ", digits.format(next).as_bytes()])
}

// The value of the variable of this index.
fn value_at(values: &[i64], index: u16) -> i64
    ensures { result ≡ unwrap_or (slice_get values.now index) (pos 0) }
{
    match values.get(index as usize) {
        Some(value) => *value,
        None => 0,
    }
}

// Writes a variable and its value.
fn write_value<W: Write>(world: &World, index: u16, writer: &mut W) -> Result<(), WriteFault>
    ensures { Wrote (W.contents writer.old) (W.contents writer.new) (value_shown world.now.tables world.now.state index) result }
{
    let value = value_at(world.variables(), index);
    write_variable(world.tables(), index, writer)?;
    write_all(writer, b"=")?;
    write_variable_value(world.tables(), index, value, writer)
}

// Writes the index of a loop and its value, and the next statement.
fn write_index<W: Write>(
    world: &World,
    index: u16,
    next: u32,
    writer: &mut W,
) -> Result<(), WriteFault>
    ensures { Wrote (W.contents writer.old) (W.contents writer.new) (index_shown world.now.tables world.now.state index next) result }
{
    write_value(world, index, writer)?;
    write_all(writer, b" ")?;
    write_next(next, writer)
}

// Writes a name in brackets, whose first one stands behind the letters of its table.
fn write_bracketed<W: Write>(letters: &[u8], name: &[u8], writer: &mut W) -> Result<(), WriteFault>
    ensures { Wrote (W.contents writer.old) (W.contents writer.new) (bracketed letters.now name.now) result }
{
    write_pieces(writer, &[letters, name, b")"])
}

// The feature that stands at an index, if there is one.
fn feature_at(features: &[Option<Feature>], index: u16) -> Option<Feature>
    ensures { result ≡ at_index features.now index }
{
    match features.get(index as usize) {
        Some(feature) => *feature,
        None => None,
    }
}

// Writes where a feature was touched.
fn write_touched<W: Write>(feature: Option<Feature>, writer: &mut W) -> Result<(), WriteFault>
    ensures { Wrote (W.contents writer.old) (W.contents writer.new) (touched_at feature) result }
{
    match feature {
        Some(feature) => {
            write_all(writer, b" ")?;
            write_point(feature.at, b" ", writer)
        }
        None => Ok(()),
    }
}

// Writes the feature that was measured, and the touched point in part coordinates.
fn write_measured<W: Write>(world: &World, index: u16, writer: &mut W) -> Result<(), WriteFault>
    ensures { Wrote (W.contents writer.old) (W.contents writer.new) (measured world.now.tables world.now.state index) result }
{
    let feature = feature_at(world.actual(), index);
    write_bracketed(
        Source::Actual.letters(),
        name_at(world.tables().features(), index),
        writer,
    )?;
    write_touched(feature, writer)
}

// The length of a setting, in micrometres.
fn setting_length(settings: Settings, which: Setting) -> u32
    ensures { result ≡ setting_length settings which }
{
    match which {
        Setting::Approach => settings.approach(),
        Setting::Retract => settings.retract(),
        Setting::Search => settings.search(),
        Setting::Depth => settings.depth(),
    }
}

// Writes a setting and its length in millimetres.
fn write_length<W: Write>(
    settings: Settings,
    which: Setting,
    writer: &mut W,
) -> Result<(), WriteFault>
    ensures { Wrote (W.contents writer.old) (W.contents writer.new) (length_shown settings which) result }
{
    let length = thousandths_text(i64::from(setting_length(settings, which)));
    write_pieces(writer, &[setting(which), b"=", length.as_slice()])
}

// Writes how many output lines there are.
fn write_count<W: Write>(count: usize, writer: &mut W) -> Result<(), WriteFault>
    ensures { Wrote (W.contents writer.old) (W.contents writer.new) (count_shown count) result }
{
    let mut digits = Buffer::new();
    write_pieces(writer, &[b"output ", digits.format(count).as_bytes()])
}

/// Writes what is told of a statement, in the state behind it.
///
/// Errors: the writer failed, or took no byte; then it has taken a front of the text, and not all of it.
pub(crate) fn write_told<W: Write>(
    world: &World,
    next: u32,
    told: Told,
    writer: &mut W,
) -> Result<(), WriteFault>
    ensures { Wrote (W.contents writer.old) (W.contents writer.new) (told_text world.now.tables world.now.state next told) result }
{
    let tables = world.tables();
    match told {
        Told::Moved => write_all(writer, b"moved"),
        Told::Value(index) => write_value(world, index, writer),
        Told::Index(index) => write_index(world, index, next, writer),
        Told::Next => write_next(next, writer),
        Told::Declared(index) => {
            write_bracketed(
                Source::Nominal.letters(),
                name_at(tables.features(), index),
                writer,
            )
        }
        Told::Measured(index) => write_measured(world, index, writer),
        Told::Length(which) => write_length(world.settings(), which, writer),
        Told::Framed(index) => write_bracketed(b"D(", name_at(tables.frames(), index), writer),
        Told::Printed => write_count(world.lines().len(), writer),
        Told::Nothing => Ok(()),
    }
}
