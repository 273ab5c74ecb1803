//! A margin as text. Nothing here takes memory.

ghost use Rattle.vcm_num.specs.Written.{Wrote};
ghost use Rattle.vcm_margin.specs.Printed.{place_text, feature_text, difference_text, next_text, state_lines, reached_text, seen_text, difference_or_home, width_text, wider_text, met_text, margin_text};

use crate::difference::{Difference, Margin, Met, Seen, StatementPlace};
use itoa::Buffer;
use std::io::Write;
use vcm_items::Tables;
use vcm_num::{Point, WriteFault, write_all, write_pieces};
use vcm_report::{write_feature_words, write_position, write_steps, write_stop_line};
use vcm_spec::{Feature, Source};

// Writes which statement measures a point, and ends the line.
fn write_place<W: Write>(place: StatementPlace, writer: &mut W) -> Result<(), WriteFault>
    ensures { Wrote (W.contents writer.old) (W.contents writer.new) (place_text place) result }
{
    let mut number = Buffer::new();
    let mut line = Buffer::new();
    let number = number.format(place.number).as_bytes();
    let line = line.format(place.line).as_bytes();
    write_pieces(writer, &[b" at ", number, b" line ", line, b"\n"])
}

// Writes a point that is measured otherwise, or isn't measured, and by which statement.
fn write_measured<W: Write>(
    tables: &Tables,
    index: u16,
    feature: Option<Feature>,
    place: StatementPlace,
    writer: &mut W,
) -> Result<(), WriteFault>
    ensures { Wrote (W.contents writer.old) (W.contents writer.new) (feature_text tables.now index feature place) result }
{
    write_feature_words(tables, Source::Actual, index, feature, writer)?;
    write_place(place, writer)
}

// Writes which statement is next.
fn write_next<W: Write>(number: u32, writer: &mut W) -> Result<(), WriteFault>
    ensures { Wrote (W.contents writer.old) (W.contents writer.new) (next_text number) result }
{
    let mut text = Buffer::new();
    write_pieces(writer, &[b"next ", text.format(number).as_bytes(), b"\n"])
}

// Writes what differs.
fn write_difference<W: Write>(
    tables: &Tables,
    difference: Difference,
    writer: &mut W,
) -> Result<(), WriteFault>
    ensures { Wrote (W.contents writer.old) (W.contents writer.new) (difference_text tables.now difference) result }
{
    match difference {
        Difference::Stop(Some(place)) => write_stop_line(tables, place, writer),
        Difference::Stop(None) => write_all(writer, b"no stop\n"),
        Difference::Next(number) => write_next(number, writer),
        Difference::Feature(index, feature, place) => {
            write_measured(tables, index, feature, place, writer)
        }
    }
}

// Writes where the probe is, and how many steps were taken.
fn write_state<W: Write>(at: Point, steps: u64, writer: &mut W) -> Result<(), WriteFault>
    ensures { Wrote (W.contents writer.old) (W.contents writer.new) (state_lines at steps) result }
{
    write_position(at, writer)?;
    write_steps(steps, writer)
}

// Writes the backtrace of the statement, and where the run then stands.
fn write_place_reached<W: Write>(
    seen: &Seen,
    backtrace: &[u8],
    writer: &mut W,
) -> Result<(), WriteFault>
    ensures { Wrote (W.contents writer.old) (W.contents writer.new) (reached_text seen.now backtrace.now) result }
{
    write_all(writer, backtrace)?;
    write_state(seen.position, seen.steps, writer)
}

// Writes in what a run differs, and where.
fn write_seen<W: Write>(
    tables: &Tables,
    seen: &Seen,
    backtrace: &[u8],
    writer: &mut W,
) -> Result<(), WriteFault>
    ensures { Wrote (W.contents writer.old) (W.contents writer.new) (seen_text tables.now seen.now backtrace.now) result }
{
    write_difference(tables, seen.what, writer)?;
    write_place_reached(seen, backtrace, writer)
}

// Writes what is met.
fn write_difference_or_home<W: Write>(
    tables: &Tables,
    met: &Met,
    backtrace: &[u8],
    writer: &mut W,
) -> Result<(), WriteFault>
    ensures { Wrote (W.contents writer.old) (W.contents writer.new) (difference_or_home tables.now met.now backtrace.now) result }
{
    match met {
        Met::Home => write_all(writer, b"P06 HomeNotClear\n"),
        Met::Behind(seen) => write_seen(tables, seen, backtrace, writer),
    }
}

// Writes the half width.
fn write_width<W: Write>(tip: u32, writer: &mut W) -> Result<(), WriteFault>
    ensures { Wrote (W.contents writer.old) (W.contents writer.new) (width_text tip) result }
{
    let mut text = Buffer::new();
    write_pieces(writer, &[b"margin ", text.format(tip).as_bytes(), b"\n"])
}

// Writes the half width that is one micrometre more.
fn write_wider<W: Write>(tip: u32, writer: &mut W) -> Result<(), WriteFault>
    ensures { Wrote (W.contents writer.old) (W.contents writer.new) (wider_text tip) result }
{
    let wider = u64::from(tip) + 1;
    let mut text = Buffer::new();
    write_pieces(writer, &[b"at ", text.format(wider).as_bytes(), b" "])
}

// Writes what is met with one micrometre more.
fn write_met<W: Write>(
    tables: &Tables,
    tip: u32,
    met: Option<Met>,
    backtrace: &[u8],
    writer: &mut W,
) -> Result<(), WriteFault>
    ensures { Wrote (W.contents writer.old) (W.contents writer.new) (met_text tables.now tip met backtrace.now) result }
{
    match met {
        None => Ok(()),
        Some(met) => {
            write_wider(tip, writer)?;
            write_difference_or_home(tables, &met, backtrace, writer)
        }
    }
}

/// Writes a margin: its half width, and what is met with one micrometre more, with the lines of the backtrace of the statement at which it is met.
///
/// Errors: the writer failed, or took no byte; then it has taken a front of the text, and not all of it.
pub fn write_margin<W: Write>(
    tables: &Tables,
    margin: Margin,
    backtrace: &[u8],
    writer: &mut W,
) -> Result<(), WriteFault>
    ensures { Wrote (W.contents writer.old) (W.contents writer.new) (margin_text tables.now margin backtrace.now) result }
{
    write_width(margin.tip, writer)?;
    write_met(tables, margin.tip, margin.met, backtrace, writer)
}
