//! The printed text of replies. Nothing here takes memory.

ghost use Rattle.std.specs.Prelude.{◌≡◌, ◌++◌, ◌<◌, ◌≤◌, ◌-◌, codes, slice_get, length, drop};
ghost use Rattle.vcm_num.specs.Written.{Wrote};
ghost use Rattle.vcm_report.specs.Output.{output_lines};
ghost use Rattle.vcm_report.specs.Printed.{feature_text};
ghost use Rattle.vcm_console.specs.Replies.{number_sign, kind_value, standing_end, standing_text, refusal_text, reason_text, variable_name, value_text, lines_head, statement_line, reply_text, halt_text, ReplyFits};
ghost use Rattle.vcm_spec.specs.declared.words.Source.TheVariants.{Nominal, Actual};

use crate::reply::{CommandRefusal, Reason, Reply, Standing};
use itoa::Buffer;
use std::io::Write;
use vcm_items::{Tables, Variable};
use vcm_loader::Loaded;
use vcm_num::{Kind, WriteFault, int_text, thousandths_text, write_all, write_pieces};
use vcm_print::write_statement;
use vcm_report::{Lines, write_feature, write_last_lines, write_stop_line};
use vcm_spec::{Feature, Source, StopPlace};

// Writes a variable's name.
fn write_name<W: Write>(variable: &Variable, writer: &mut W) -> Result<(), WriteFault>
    ensures { Wrote (W.contents writer.old) (W.contents writer.new) (variable.now.name ++ number_sign variable.now.expansion) result }
{
    let name = variable.name();
    if variable.expansion() == 0 {
        return write_pieces(writer, &[name.as_bytes()]);
    }
    let mut number = Buffer::new();
    let number = number.format(variable.expansion()).as_bytes();
    write_pieces(writer, &[name.as_bytes(), b"#", number])
}

// Writes a value as its kind prints it.
fn write_value<W: Write>(kind: Kind, value: i64, writer: &mut W) -> Result<(), WriteFault>
    ensures { Wrote (W.contents writer.old) (W.contents writer.new) (kind_value kind value) result }
{
    match kind {
        Kind::Int => write_pieces(writer, &[int_text(value).as_slice()]),
        Kind::Real => write_pieces(writer, &[thousandths_text(value).as_slice()]),
        Kind::Bool => {
            if value != 0 {
                write_pieces(writer, &[b".TRUE."])
            } else {
                write_pieces(writer, &[b".FALSE."])
            }
        }
    }
}

// Writes where a session stands, behind the steps.
fn write_standing_end<W: Write>(
    tables: &Tables,
    standing: Standing,
    stop: Option<StopPlace>,
    writer: &mut W,
) -> Result<(), WriteFault>
    ensures { Wrote (W.contents writer.old) (W.contents writer.new) (standing_end tables.now standing stop) result }
{
    match stop {
        Some(place) => write_stop_line(tables, place, writer),
        None => {
            let mut next = Buffer::new();
            let mut line = Buffer::new();
            let next = next.format(standing.next).as_bytes();
            let line = line.format(standing.line).as_bytes();
            write_pieces(writer, &[b"next ", next, b" line ", line, b"\n"])
        }
    }
}

// Writes where a session stands.
fn write_standing<W: Write>(
    tables: &Tables,
    standing: Standing,
    writer: &mut W,
) -> Result<(), WriteFault>
    ensures { Wrote (W.contents writer.old) (W.contents writer.new) (standing_text tables.now standing) result }
{
    let mut steps = Buffer::new();
    let steps = steps.format(standing.steps).as_bytes();
    write_pieces(writer, &[b"step ", steps, b" "])?;
    write_standing_end(tables, standing, standing.stop, writer)
}

// A refusal as text.
fn refusal_text(refusal: CommandRefusal) -> &'static [u8]
    ensures { result.now ≡ refusal_text refusal }
{
    match refusal {
        CommandRefusal::UnknownCommand => b"G01 UnknownCommand\n",
        CommandRefusal::NoSuchName => b"G02 NoSuchName\n",
        CommandRefusal::NoSuchStatement => b"G03 NoSuchStatement\n",
        CommandRefusal::CountOutOfRange => b"G04 CountOutOfRange\n",
        CommandRefusal::BeforeStart => b"G05 BeforeStart\n",
    }
}

// Writes why a run ended.
fn write_reason<W: Write>(tables: &Tables, why: Reason, writer: &mut W) -> Result<(), WriteFault>
    ensures { Wrote (W.contents writer.old) (W.contents writer.new) (reason_text tables.now why) result }
{
    match why {
        Reason::Stopped => Ok(()),
        Reason::Break => write_pieces(writer, &[b"break "]),
        Reason::Count => write_pieces(writer, &[b"count "]),
        Reason::Watch(v) => write_around(tables, b"watch ", v, b" ", writer),
    }
}

/// Writes the name of the variable of this index, with the number of its expansion where it has one: `I`, `T#2`.
///
/// Errors: the writer failed, or took no byte; then it has taken a front of the name, and not all of it.
pub fn write_variable<W: Write>(
    tables: &Tables,
    index: u16,
    writer: &mut W,
) -> Result<(), WriteFault>
    ensures { Wrote (W.contents writer.old) (W.contents writer.new) (variable_name tables.now index) result }
{
    match tables.variables().get(index as usize) {
        Some(variable) => write_name(variable, writer),
        None => Ok(()),
    }
}

// Writes the name of a variable between two texts.
fn write_around<W: Write>(
    tables: &Tables,
    before: &[u8],
    index: u16,
    behind: &[u8],
    writer: &mut W,
) -> Result<(), WriteFault>
    ensures { Wrote (W.contents writer.old) (W.contents writer.new) (before.now ++ (variable_name tables.now index ++ behind.now)) result }
{
    write_all(writer, before)?;
    write_variable(tables, index, writer)?;
    write_all(writer, behind)
}

/// Writes a value of the variable of this index as its kind prints it: `3`, `-1.500`, `.TRUE.`.
///
/// Errors: the writer failed, or took no byte; then it has taken a front of the value, and not all of it.
pub fn write_variable_value<W: Write>(
    tables: &Tables,
    index: u16,
    value: i64,
    writer: &mut W,
) -> Result<(), WriteFault>
    ensures { Wrote (W.contents writer.old) (W.contents writer.new) (value_text (slice_get tables.now.variables index) value) result }
{
    match tables.variables().get(index as usize) {
        Some(variable) => write_value(variable.kind(), value, writer),
        None => Ok(()),
    }
}

// Writes a variable and its value.
fn write_shown<W: Write>(
    tables: &Tables,
    index: u16,
    value: i64,
    writer: &mut W,
) -> Result<(), WriteFault>
    ensures { Wrote (W.contents writer.old) (W.contents writer.new)
        (variable_name tables.now index ++ (codes " " ++ (value_text (slice_get tables.now.variables index) value ++ codes "\n"))) result }
{
    write_variable(tables, index, writer)?;
    write_all(writer, b" ")?;
    write_variable_value(tables, index, value, writer)?;
    write_all(writer, b"\n")
}

// Writes why a run ended, and where the session stands.
fn write_ran<W: Write>(
    tables: &Tables,
    why: Reason,
    standing: Standing,
    writer: &mut W,
) -> Result<(), WriteFault>
    ensures { Wrote (W.contents writer.old) (W.contents writer.new)
        (reason_text tables.now why ++ standing_text tables.now standing) result }
{
    write_reason(tables, why, writer)?;
    write_standing(tables, standing, writer)
}

// Writes a feature, nominal and actual.
fn write_features<W: Write>(
    tables: &Tables,
    index: u16,
    nominal: Option<Feature>,
    actual: Option<Feature>,
    writer: &mut W,
) -> Result<(), WriteFault>
    requires { index < length tables.now.features }
    ensures { Wrote (W.contents writer.old) (W.contents writer.new)
        (feature_text tables.now Nominal index nominal ++ feature_text tables.now Actual index actual) result }
{
    write_feature(tables, Source::Nominal, index, nominal, writer)?;
    write_feature(tables, Source::Actual, index, actual, writer)
}

// Writes how many output lines there are, and the last of them.
fn write_last<W: Write>(
    lines: &Lines,
    count: usize,
    shown: usize,
    writer: &mut W,
) -> Result<(), WriteFault>
    requires { shown ≤ length lines.now }
    ensures { Wrote (W.contents writer.old) (W.contents writer.new) (lines_head count ++ output_lines (drop (length lines.now - shown) lines.now)) result }
{
    write_lines_head(count, writer)?;
    write_last_lines(lines, shown, writer)
}

// Writes how many output lines there are.
fn write_lines_head<W: Write>(count: usize, writer: &mut W) -> Result<(), WriteFault>
    ensures { Wrote (W.contents writer.old) (W.contents writer.new) (lines_head count) result }
{
    let mut number = Buffer::new();
    let number = number.format(count).as_bytes();
    write_pieces(writer, &[b"lines ", number, b"\n"])
}

// Writes the listing line of the statement with this number.
fn write_listed<W: Write>(
    loaded: &Loaded<'_>,
    number: u32,
    writer: &mut W,
) -> Result<(), WriteFault>
    requires { number < length loaded.now.statements }
    ensures { Wrote (W.contents writer.old) (W.contents writer.new) (statement_line (slice_get loaded.now.statements number) number) result }
{
    write_statement(loaded, number as usize, writer)
}

/// Writes that memory was refused, and where the session stands.
///
/// Errors: the writer failed, or took no byte; then it has taken a front of the text, and not all of it.
pub fn write_halt<W: Write>(
    tables: &Tables,
    standing: Standing,
    writer: &mut W,
) -> Result<(), WriteFault>
    ensures { Wrote (W.contents writer.old) (W.contents writer.new) (halt_text tables.now standing) result }
{
    write_all(writer, b"no memory ")?;
    write_standing(tables, standing, writer)
}

/// Writes the text of a reply in a session on a loaded image: its names, and the output lines so far.
///
/// Errors: the writer failed, or took no byte; then it has taken a front of the text, and not all of it.
pub fn write_reply<W: Write>(
    loaded: &Loaded<'_>,
    tables: &Tables,
    lines: &Lines,
    reply: Reply,
    writer: &mut W,
) -> Result<(), WriteFault>
    requires names { tables.now ≡ loaded.now.tables }
    requires fits { ReplyFits loaded.now lines.now reply }
    ensures { Wrote (W.contents writer.old) (W.contents writer.new) (reply_text loaded.now lines.now reply) result }
{
    match reply {
        Reply::Set(n) => {
            let mut number = Buffer::new();
            let number = number.format(n).as_bytes();
            write_pieces(writer, &[b"break ", number, b" set\n"])
        }
        Reply::Cleared(n) => {
            let mut number = Buffer::new();
            let number = number.format(n).as_bytes();
            write_pieces(writer, &[b"break ", number, b" cleared\n"])
        }
        Reply::Found(l, n) => {
            let mut line = Buffer::new();
            let mut number = Buffer::new();
            let line = line.format(l).as_bytes();
            let number = number.format(n).as_bytes();
            write_pieces(writer, &[b"line ", line, b" statement ", number, b"\n"])
        }
        Reply::Stands(standing) => write_standing(tables, standing, writer),
        Reply::Ran(why, standing) => write_ran(tables, why, standing, writer),
        Reply::Watched(v) => write_around(tables, b"watch ", v, b" set\n", writer),
        Reply::Unwatched(v) => write_around(tables, b"watch ", v, b" cleared\n", writer),
        Reply::Value(v, value) => write_shown(tables, v, value, writer),
        Reply::Features(f, nominal, actual) => write_features(tables, f, nominal, actual, writer),
        Reply::Listed(n) => write_listed(loaded, n, writer),
        Reply::Lines(count, shown) => write_last(lines, count, shown, writer),
        Reply::Bye => write_all(writer, b"bye\n"),
        Reply::Refused(refusal) => write_all(writer, refusal_text(refusal)),
    }
}
