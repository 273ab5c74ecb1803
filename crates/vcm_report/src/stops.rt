//! Stops as text.

ghost use Rattle.std.specs.Prelude.{◌≡◌};
ghost use Rattle.vcm_num.specs.Written.{Wrote};
ghost use Rattle.vcm_report.specs.Printed.{missing_text, phase_text, stop_text, has_place, place_text, stopped_line, no_stop_line, end_line};

use crate::names::name_at;
use itoa::Buffer;
use std::io::Write;
use vcm_items::Tables;
use vcm_num::{WriteFault, write_pieces};
use vcm_spec::{Missing, MovePhase, Stop, StopPlace};

/// The word of a part of a motion.
pub fn phase_text(phase: MovePhase) -> &'static [u8]
    ensures { result.now ≡ phase_text phase }
{
    match phase {
        MovePhase::Move => b"MOVE",
        MovePhase::Approach => b"APPROACH",
        MovePhase::Search => b"SEARCH",
        MovePhase::Retract => b"RETRACT",
    }
}

// Writes what isn't there yet, by its name.
fn write_missing<W: Write>(
    tables: &Tables,
    missing: Missing,
    writer: &mut W,
) -> Result<(), WriteFault>
    ensures { Wrote (W.contents writer.old) (W.contents writer.new) (missing_text tables.now missing) result }
{
    match missing {
        Missing::Nominal(index) => {
            write_pieces(writer, &[b"F(", name_at(tables.features(), index), b")"])
        }
        Missing::Actual(index) => {
            write_pieces(writer, &[b"FA(", name_at(tables.features(), index), b")"])
        }
        Missing::Frame(index) => {
            write_pieces(writer, &[b"D(", name_at(tables.frames(), index), b")"])
        }
    }
}

// Writes why a run stopped.
fn write_stop<W: Write>(tables: &Tables, stop: Stop, writer: &mut W) -> Result<(), WriteFault>
    ensures { Wrote (W.contents writer.old) (W.contents writer.new) (stop_text tables.now stop) result }
{
    match stop {
        Stop::Ended => write_pieces(writer, &[b"stop ENDED"]),
        Stop::Collision(phase, hit) => {
            let mut block = Buffer::new();
            let mut permille = Buffer::new();
            let block = block.format(hit.block).as_bytes();
            let permille = permille.format(hit.permille).as_bytes();
            write_pieces(
                writer,
                &[
                    b"stop COLLISION ",
                    phase_text(phase),
                    b" block ",
                    block,
                    b" permille ",
                    permille,
                ],
            )
        }
        Stop::Missed => write_pieces(writer, &[b"stop MISSED"]),
        Stop::Travel(phase) => write_pieces(writer, &[b"stop TRAVEL ", phase_text(phase)]),
        Stop::Overflow => write_pieces(writer, &[b"stop OVERFLOW"]),
        Stop::DivZero => write_pieces(writer, &[b"stop DIVZERO"]),
        Stop::ZeroStep => write_pieces(writer, &[b"stop ZEROSTEP"]),
        Stop::Undefined(missing) => {
            write_pieces(writer, &[b"stop UNDEFINED "])?;
            write_missing(tables, missing, writer)
        }
        Stop::BadSetting => write_pieces(writer, &[b"stop BADSETTING"]),
        Stop::OutputFull => write_pieces(writer, &[b"stop OUTPUTFULL"]),
    }
}

// Whether the place of a stop is told.
fn has_place(stop: Stop) -> bool
    ensures { result ≡ has_place stop }
{
    !matches!(stop, Stop::Ended)
}

// Writes where a run stopped, and ends the line.
fn write_place<W: Write>(place: StopPlace, writer: &mut W) -> Result<(), WriteFault>
    ensures { Wrote (W.contents writer.old) (W.contents writer.new) (place_text place) result }
{
    if !has_place(place.stop) {
        return write_pieces(writer, &[b"\n"]);
    }
    let mut number = Buffer::new();
    let mut line = Buffer::new();
    let number = number.format(place.number).as_bytes();
    let line = line.format(place.line).as_bytes();
    write_pieces(writer, &[b" at ", number, b" line ", line, b"\n"])
}

/// Writes the line of a stop: why, and, but at the end of the program, at which statement and source line.
///
/// Errors: the writer failed, or took no byte; then it has taken a front of the line, and not all of it.
pub fn write_stop_line<W: Write>(
    tables: &Tables,
    place: StopPlace,
    writer: &mut W,
) -> Result<(), WriteFault>
    ensures { Wrote (W.contents writer.old) (W.contents writer.new) (stopped_line tables.now place) result }
{
    write_stop(tables, place.stop, writer)?;
    write_place(place, writer)
}

/// Writes the line that tells after how many steps there was no stop.
///
/// Errors: the writer failed, or took no byte; then it has taken a front of the line, and not all of it.
pub fn write_no_stop<W: Write>(done: u64, writer: &mut W) -> Result<(), WriteFault>
    ensures { Wrote (W.contents writer.old) (W.contents writer.new) (no_stop_line done) result }
{
    let mut steps = Buffer::new();
    let steps = steps.format(done).as_bytes();
    write_pieces(writer, &[b"no stop after ", steps, b" steps\n"])
}

/// Writes how a run ended: the line of its stop, or after how many steps there was none.
///
/// Errors: the writer failed, or took no byte; then it has taken a front of the line, and not all of it.
pub fn write_end_line<W: Write>(
    tables: &Tables,
    stop: Option<StopPlace>,
    done: u64,
    writer: &mut W,
) -> Result<(), WriteFault>
    ensures { Wrote (W.contents writer.old) (W.contents writer.new) (end_line tables.now stop done) result }
{
    match stop {
        Some(place) => write_stop_line(tables, place, writer),
        None => write_no_stop(done, writer),
    }
}
