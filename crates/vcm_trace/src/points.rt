//! The rows of measured points. Nothing here takes memory.

ghost use Rattle.std.specs.Prelude.{◌≡◌, ◌++◌};
ghost use Rattle.vcm_num.specs.Written.{Wrote};
ghost use Rattle.vcm_num.specs.Point.{coordinate};
ghost use Rattle.vcm_spec.specs.Effect.{at_index};
ghost use Rattle.vcm_spec.specs.Frame.{to_machine};
ghost use Rattle.vcm_spec.specs.Outcome.{point_at};
ghost use Rattle.vcm_report.specs.Printed.{name_at};
ghost use Rattle.vcm_trace.specs.Lines.{told_of};
ghost use Rattle.vcm_trace.specs.Deviations.{comparable};
ghost use Rattle.vcm_trace.specs.Points.{point_heading, length_text, place_fields, nominal_fields, direction_fields, frame_word, beside_fields, off_fields, actual_fields, machine_place, machine_fields, more_fields, row_end, row_front, measured_row, point_row, told_row, step_row};

use crate::calls::TellsCalls;
use crate::deviations::{beside, comparable, is_same_frame, off_by};
use crate::framed::{Frames, frame_of};
use crate::told::{Told, told_of};
use itoa::Buffer;
use std::io::Write;
use vcm_fields::BorrowedStatement;
use vcm_frame::Frame;
use vcm_num::{Axis, Point, WriteFault, int_text, thousandths_text, write_all, write_pieces};
use vcm_report::{name_at, write_point};
use vcm_spec::Feature;
use vcm_state::World;

/// The first line, without machine coordinates or with them.
pub(crate) fn point_heading(is_machine: bool) -> &'static [u8]
    ensures { result.now ≡ point_heading is_machine }
{
    if is_machine {
        b"step,line,feature,nx,ny,nz,ax,ay,az,i,j,k,deviation,aside,frame,mx,my,mz,mi,mj,mk,calls\n"
    } else {
        b"step,line,feature,nx,ny,nz,ax,ay,az,i,j,k,deviation,aside,frame,calls\n"
    }
}

// Writes a length in millimetres, if there is one.
fn write_length<W: Write>(length: Option<i64>, writer: &mut W) -> Result<(), WriteFault>
    ensures { Wrote (W.contents writer.old) (W.contents writer.new) (length_text length) result }
{
    match length {
        Some(length) => write_all(writer, thousandths_text(length).as_slice()),
        None => Ok(()),
    }
}

// Writes a place in millimetres.
fn write_place<W: Write>(at: Point, writer: &mut W) -> Result<(), WriteFault>
    ensures { Wrote (W.contents writer.old) (W.contents writer.new) (place_fields at) result }
{
    write_point(at, b",", writer)?;
    write_all(writer, b",")
}

// Writes the nominal place, if the feature was declared.
fn write_nominal<W: Write>(nominal: Option<Feature>, writer: &mut W) -> Result<(), WriteFault>
    ensures { Wrote (W.contents writer.old) (W.contents writer.new) (nominal_fields nominal) result }
{
    match nominal {
        Some(nominal) => write_place(nominal.at, writer),
        None => write_all(writer, b",,,"),
    }
}

// Writes a direction.
fn write_direction<W: Write>(toward: Axis, writer: &mut W) -> Result<(), WriteFault>
    ensures { Wrote (W.contents writer.old) (W.contents writer.new) (direction_fields toward) result }
{
    write_pieces(
        writer,
        &[
            int_text(toward.component(0)).as_slice(),
            b",",
            int_text(toward.component(1)).as_slice(),
            b",",
            int_text(toward.component(2)).as_slice(),
            b",",
        ],
    )
}

// Whether a feature was declared in the current frame, as a word.
fn frame_word(declared: Option<Frame>, current: Frame) -> &'static [u8]
    ensures { result.now ≡ frame_word declared current }
{
    match declared {
        Some(declared) => if is_same_frame(declared, current) {
            b"same"
        } else {
            b"other"
        },
        None => &[],
    }
}

// Writes how far a point lies beside the line through its nominal place, and in which frame its feature was declared, each behind a comma.
fn write_beside<W: Write>(aside: Option<i64>, word: &[u8], writer: &mut W) -> Result<(), WriteFault>
    ensures { Wrote (W.contents writer.old) (W.contents writer.new) (beside_fields aside word.now) result }
{
    match aside {
        Some(aside) => write_pieces(
            writer,
            &[b",", thousandths_text(aside).as_slice(), b",", word],
        ),
        None => write_pieces(writer, &[b",,", word]),
    }
}

// Writes how far a point lies off a declared one that it may be compared with, along its direction and beside it, and a word.
fn write_off<W: Write>(
    comparable: Option<Feature>,
    actual: Feature,
    word: &[u8],
    writer: &mut W,
) -> Result<(), WriteFault>
    ensures { Wrote (W.contents writer.old) (W.contents writer.new) (off_fields comparable actual word.now) result }
{
    write_length(off_by(comparable, actual), writer)?;
    write_beside(beside(comparable, actual), word, writer)
}

// Writes how many steps were taken, the source line and the name of the feature.
fn write_front<W: Write>(
    count: u64,
    line: u32,
    name: &[u8],
    writer: &mut W,
) -> Result<(), WriteFault>
    ensures { Wrote (W.contents writer.old) (W.contents writer.new) (row_front count line name.now) result }
{
    let mut count_digits = Buffer::new();
    let mut line_digits = Buffer::new();
    write_pieces(
        writer,
        &[
            count_digits.format(count).as_bytes(),
            b",",
            line_digits.format(line).as_bytes(),
            b",",
            name,
            b",",
        ],
    )
}

// Writes where a point was touched, in which direction it was measured, and how far it lies off.
fn write_actual<W: Write>(
    comparable: Option<Feature>,
    actual: Feature,
    word: &[u8],
    writer: &mut W,
) -> Result<(), WriteFault>
    ensures { Wrote (W.contents writer.old) (W.contents writer.new) (actual_fields comparable actual word.now) result }
{
    write_place(actual.at, writer)?;
    write_direction(actual.toward, writer)?;
    write_off(comparable, actual, word, writer)
}

// Writes where a point of a frame lies on the machine.
fn write_machine_place<W: Write>(frame: Frame, at: Point, writer: &mut W) -> Result<(), WriteFault>
    ensures { Wrote (W.contents writer.old) (W.contents writer.new) (machine_place (point_at (to_machine frame (coordinate at)))) result }
{
    match frame.apply(at) {
        Ok(at) => write_place(at, writer),
        Err(_) => write_all(writer, b",,,"),
    }
}

// Writes the machine coordinates of a point of a frame.
fn write_machine_fields<W: Write>(
    frame: Frame,
    actual: Feature,
    writer: &mut W,
) -> Result<(), WriteFault>
    ensures { Wrote (W.contents writer.old) (W.contents writer.new) (machine_fields frame actual) result }
{
    write_all(writer, b",")?;
    write_machine_place(frame, actual.at, writer)?;
    write_direction(frame.direction(actual.toward), writer)
}

// Writes what stands before the last field of a point of a frame.
fn write_more<W: Write>(
    is_machine: bool,
    frame: Frame,
    actual: Feature,
    writer: &mut W,
) -> Result<(), WriteFault>
    ensures { Wrote (W.contents writer.old) (W.contents writer.new) (more_fields is_machine frame actual) result }
{
    if is_machine {
        write_machine_fields(frame, actual, writer)
    } else {
        write_all(writer, b",")
    }
}

// Writes the last field of the row of the statement with this number, and its end.
fn write_row_end<W: Write, C: TellsCalls<W>>(
    calls: &C,
    number: u32,
    writer: &mut W,
) -> Result<(), WriteFault>
    ensures { Wrote (W.contents writer.old) (W.contents writer.new) (row_end (C.Calls calls.now number)) result }
{
    calls.write_calls(number, writer)?;
    write_all(writer, b"\n")
}

// Writes the row of a point that was measured, in part coordinates.
fn write_measured<W: Write>(
    count: u64,
    line: u32,
    name: &[u8],
    nominal: Option<Feature>,
    comparable: Option<Feature>,
    actual: Feature,
    word: &[u8],
    writer: &mut W,
) -> Result<(), WriteFault>
    ensures { Wrote (W.contents writer.old) (W.contents writer.new) (measured_row count line name.now nominal comparable actual word.now) result }
{
    write_front(count, line, name, writer)?;
    write_nominal(nominal, writer)?;
    write_actual(comparable, actual, word, writer)
}

// Writes the row of a point that was measured in the current frame, but for its last field.
fn write_row<W: Write>(
    is_machine: bool,
    current: Frame,
    count: u64,
    line: u32,
    name: &[u8],
    nominal: Option<Feature>,
    comparable: Option<Feature>,
    actual: Feature,
    word: &[u8],
    writer: &mut W,
) -> Result<(), WriteFault>
    ensures { Wrote (W.contents writer.old) (W.contents writer.new) (measured_row count line name.now nominal comparable actual word.now ++ more_fields is_machine current actual) result }
{
    write_measured(count, line, name, nominal, comparable, actual, word, writer)?;
    write_more(is_machine, current, actual, writer)
}

// The same with its last field.
fn write_whole_row<W: Write, C: TellsCalls<W>>(
    is_machine: bool,
    calls: &C,
    current: Frame,
    count: u64,
    number: u32,
    line: u32,
    name: &[u8],
    nominal: Option<Feature>,
    comparable: Option<Feature>,
    actual: Feature,
    word: &[u8],
    writer: &mut W,
) -> Result<(), WriteFault>
    ensures { Wrote (W.contents writer.old) (W.contents writer.new)
        ((measured_row count line name.now nominal comparable actual word.now ++ more_fields is_machine current actual) ++ row_end (C.Calls calls.now number)) result }
{
    write_row(
        is_machine, current, count, line, name, nominal, comparable, actual, word, writer,
    )?;
    write_row_end(calls, number, writer)
}

// The declared feature of this index, where it was declared in the current frame.
fn comparable_in(frames: &Frames, world: &World, index: u16) -> Option<Feature>
    ensures { result ≡ comparable (at_index frames.now index) world.now.state.frame (at_index world.now.state.nominal index) }
{
    comparable(
        frame_of(frames, index),
        world.frame(),
        feature_at(world.nominal(), index),
    )
}

// Whether it was, as a word.
fn word_in(frames: &Frames, world: &World, index: u16) -> &'static [u8]
    ensures { result.now ≡ frame_word (at_index frames.now index) world.now.state.frame }
{
    frame_word(frame_of(frames, index), world.frame())
}

// Writes the row of the point of this index, if it is there, in the state after its measurement.
fn write_point_fields<W: Write, C: TellsCalls<W>>(
    is_machine: bool,
    calls: &C,
    frames: &Frames,
    count: u64,
    number: u32,
    line: u32,
    world: &World,
    index: u16,
    writer: &mut W,
) -> Result<(), WriteFault>
    ensures { Wrote (W.contents writer.old) (W.contents writer.new)
        (point_row is_machine (at_index frames.now index) world.now.state.frame count line (name_at world.now.tables.features index) (at_index world.now.state.nominal index) (at_index world.now.state.actual index) (C.Calls calls.now number)) result }
{
    let name = name_at(world.tables().features(), index);
    let nominal = feature_at(world.nominal(), index);
    let told = comparable_in(frames, world, index);
    let word = word_in(frames, world, index);
    match feature_at(world.actual(), index) {
        Some(actual) => write_whole_row(
            is_machine,
            calls,
            world.frame(),
            count,
            number,
            line,
            name,
            nominal,
            told,
            actual,
            word,
            writer,
        ),
        None => Ok(()),
    }
}

/// The feature that stands at an index, if there is one.
pub fn feature_at(features: &[Option<Feature>], index: u16) -> Option<Feature>
    ensures { result ≡ at_index features.now index }
{
    match features.get(index as usize) {
        Some(feature) => *feature,
        None => None,
    }
}

// Writes the row of a statement that tells this, in the state behind it.
fn write_told<W: Write, C: TellsCalls<W>>(
    is_machine: bool,
    calls: &C,
    frames: &Frames,
    count: u64,
    number: u32,
    line: u32,
    world: &World,
    told: Told,
    writer: &mut W,
) -> Result<(), WriteFault>
    ensures { Wrote (W.contents writer.old) (W.contents writer.new) (told_row is_machine world.now.tables frames.now count line world.now.state told (C.Calls calls.now number)) result }
{
    match told {
        Told::Measured(index) => {
            write_point_fields(
                is_machine, calls, frames, count, number, line, world, index, writer,
            )
        }
        _ => Ok(()),
    }
}

/// Writes the row of a step, if it measured a point, without machine coordinates or with them: features were declared in these frames before it, with it so many
/// steps were taken, its statement has this number, and the state is that after it.
///
/// Errors: the writer failed, or took no byte; then it has taken a front of the row, and not all of it.
pub(crate) fn write_point_row<W: Write, C: TellsCalls<W>>(
    is_machine: bool,
    calls: &C,
    frames: &Frames,
    count: u64,
    number: u32,
    statement: &BorrowedStatement<'_>,
    world: &World,
    writer: &mut W,
) -> Result<(), WriteFault>
    ensures { Wrote (W.contents writer.old) (W.contents writer.new) (step_row is_machine world.now.tables frames.now count statement.now.line world.now.state world.now.state.stop (told_of statement.now.op) (C.Calls calls.now number)) result }
{
    match world.stop() {
        Some(_) => Ok(()),
        None => {
            let told = told_of(&statement.op);
            write_told(
                is_machine,
                calls,
                frames,
                count,
                number,
                statement.line,
                world,
                told,
                writer,
            )
        }
    }
}
