//! The rows of a state of the machine. Nothing here takes memory.

ghost use Rattle.std.specs.Prelude.{◌≡◌, ◌<◌, ◌++◌, length, unwrap_or, slice_get, pos, codes};
ghost use Rattle.vcm_num.specs.Written.{Wrote};
ghost use Rattle.vcm_spec.specs.Effect.{at_index};
ghost use Rattle.vcm_words.specs.Rows.{kind_text};
ghost use Rattle.vcm_report.specs.Printed.{feature_text};
ghost use Rattle.vcm_console.specs.Replies.{value_text};
ghost use Rattle.vcm_rows.specs.Rows.{rows_below, told_entries};
ghost use Rattle.vcm_story.specs.State.{kind_of, variable_row, setting_row, setting_rows, there_row, feature_rows, place_row, state_rows};
ghost use Rattle.vcm_rows.specs.Frames.{frame_end};

use itoa::Buffer;
use std::io::Write;
use vcm_console::{write_variable, write_variable_value};
use vcm_items::{Tables, Variable};
use vcm_num::{Kind, Point, WriteFault, int_text, thousandths_text, write_all, write_pieces};
use vcm_print::setting;
use vcm_probe::Settings;
use vcm_report::write_feature;
use vcm_rows::{Numbered, told_entries, write_frame, write_numbered};
use vcm_spec::{Feature, Setting, Source};
use vcm_state::World;

// The word of a kind.
fn kind_text(kind: Kind) -> &'static [u8]
    ensures { result.now ≡ kind_text kind }
{
    match kind {
        Kind::Int => b"INTGR",
        Kind::Real => b"REAL",
        Kind::Bool => b"BOOL",
    }
}

// Writes the kind of a variable between blanks.
fn write_kind<W: Write>(
    variables: &[Variable],
    index: usize,
    writer: &mut W,
) -> Result<(), WriteFault>
    ensures { Wrote (W.contents writer.old) (W.contents writer.new) (kind_of (slice_get variables.now index)) result }
{
    match variables.get(index) {
        Some(variable) => write_pieces(writer, &[b" ", kind_text(variable.kind()), b" "]),
        None => Ok(()),
    }
}

// The value of the variable of this index.
fn value_at(values: &[i64], index: usize) -> i64
    ensures { result ≡ unwrap_or (slice_get values.now index) (pos 0) }
{
    match values.get(index) {
        Some(value) => *value,
        None => 0,
    }
}

// Writes the value of the variable of this index.
fn write_value<W: Write>(world: &World, index: u16, writer: &mut W) -> Result<(), WriteFault>
    ensures { Wrote (W.contents writer.old) (W.contents writer.new)
        (value_text (slice_get world.now.tables.variables index) (unwrap_or (slice_get world.now.state.variables index) (pos 0))) result }
{
    let value = value_at(world.variables(), index as usize);
    write_variable_value(world.tables(), index, value, writer)
}

// Writes the row of the variable of this index.
fn write_variable_row<W: Write>(world: &World, index: u16, writer: &mut W) -> Result<(), WriteFault>
    ensures { Wrote (W.contents writer.old) (W.contents writer.new) (variable_row world.now.tables world.now.state index) result }
{
    write_all(writer, b"V ")?;
    write_variable(world.tables(), index, writer)?;
    write_kind(world.tables().variables(), index as usize, writer)?;
    write_value(world, index, writer)?;
    write_all(writer, b"\n")
}

// The rows of the variables.
#[derive(Clone, Copy)]
struct VariableRows<'a> {
    world: &'a World,
}

impl<'a, W: Write> Numbered<W> for VariableRows<'a> {
    ghost count = { λ s. told_entries (length s.world.now.tables.variables) };

    ghost row_at = { λ s n. variable_row s.world.now.tables s.world.now.state n };

    fn write_row_at(&self, number: usize, writer: &mut W) -> Result<(), WriteFault> {
        write_variable_row(self.world, number as u16, writer)
    }
}

// Writes the row of a setting of so many micrometres.
fn write_setting<W: Write>(which: Setting, length: u32, writer: &mut W) -> Result<(), WriteFault>
    ensures { Wrote (W.contents writer.old) (W.contents writer.new) (setting_row which length) result }
{
    let length = thousandths_text(i64::from(length));
    write_pieces(
        writer,
        &[b"S ", setting(which), b" ", length.as_slice(), b"\n"],
    )
}

// Writes the rows of the settings.
fn write_settings<W: Write>(settings: Settings, writer: &mut W) -> Result<(), WriteFault>
    ensures { Wrote (W.contents writer.old) (W.contents writer.new) (setting_rows settings) result }
{
    write_setting(Setting::Approach, settings.approach(), writer)?;
    write_setting(Setting::Retract, settings.retract(), writer)?;
    write_setting(Setting::Search, settings.search(), writer)?;
    write_setting(Setting::Depth, settings.depth(), writer)
}

/// The feature that stands at an index, if there is one.
pub(crate) fn feature_at(features: &[Option<Feature>], index: u16) -> Option<Feature>
    ensures { result ≡ at_index features.now index }
{
    match features.get(index as usize) {
        Some(feature) => *feature,
        None => None,
    }
}

/// Writes the row of a feature, behind these letters.
pub(crate) fn write_feature_row<W: Write>(
    letters: &[u8],
    tables: &Tables,
    source: Source,
    index: u16,
    feature: Option<Feature>,
    writer: &mut W,
) -> Result<(), WriteFault>
    ensures { Wrote (W.contents writer.old) (W.contents writer.new) (letters.now ++ feature_text tables.now source index feature) result }
{
    write_all(writer, letters)?;
    write_feature(tables, source, index, feature, writer)
}

// Writes the row of a feature that is there.
fn write_there<W: Write>(
    tables: &Tables,
    source: Source,
    index: u16,
    feature: Option<Feature>,
    writer: &mut W,
) -> Result<(), WriteFault>
    ensures { Wrote (W.contents writer.old) (W.contents writer.new) (there_row tables.now source index feature) result }
{
    match feature {
        Some(_) => write_feature_row(b"F ", tables, source, index, feature, writer),
        None => Ok(()),
    }
}

// Writes the rows of the feature of this index.
fn write_feature_rows<W: Write>(world: &World, index: u16, writer: &mut W) -> Result<(), WriteFault>
    ensures { Wrote (W.contents writer.old) (W.contents writer.new) (feature_rows world.now.tables world.now.state index) result }
{
    let nominal = feature_at(world.nominal(), index);
    let actual = feature_at(world.actual(), index);
    write_there(world.tables(), Source::Nominal, index, nominal, writer)?;
    write_there(world.tables(), Source::Actual, index, actual, writer)
}

// The rows of the features.
#[derive(Clone, Copy)]
struct FeatureRows<'a> {
    world: &'a World,
}

impl<'a, W: Write> Numbered<W> for FeatureRows<'a> {
    ghost count = { λ s. told_entries (length s.world.now.tables.features) };

    ghost row_at = { λ s n. feature_rows s.world.now.tables s.world.now.state n };

    fn write_row_at(&self, number: usize, writer: &mut W) -> Result<(), WriteFault> {
        write_feature_rows(self.world, number as u16, writer)
    }
}

// Writes how many steps were taken, and where the probe is.
fn write_place<W: Write>(steps: u64, at: Point, writer: &mut W) -> Result<(), WriteFault>
    ensures { Wrote (W.contents writer.old) (W.contents writer.new) (place_row steps at) result }
{
    let mut digits = Buffer::new();
    let Point([x, y, z]) = at;
    write_pieces(
        writer,
        &[
            b"K ",
            digits.format(steps).as_bytes(),
            b" ",
            int_text(x).as_slice(),
            b" ",
            int_text(y).as_slice(),
            b" ",
            int_text(z).as_slice(),
            b"\n",
        ],
    )
}

// Writes the rows of the variables.
fn write_variables<W: Write>(world: &World, writer: &mut W) -> Result<(), WriteFault>
    ensures { Wrote (W.contents writer.old) (W.contents writer.new)
        (rows_below (variable_row world.now.tables world.now.state) (told_entries (length world.now.tables.variables))) result }
{
    let count = told_entries(world.tables().variables().len());
    write_numbered(&VariableRows { world }, count, writer)
}

// Writes the rows of the features.
fn write_features<W: Write>(world: &World, writer: &mut W) -> Result<(), WriteFault>
    ensures { Wrote (W.contents writer.old) (W.contents writer.new)
        (rows_below (feature_rows world.now.tables world.now.state) (told_entries (length world.now.tables.features))) result }
{
    let count = told_entries(world.tables().features().len());
    write_numbered(&FeatureRows { world }, count, writer)
}

// Writes the row of the current frame, and that of the place.
fn write_standing<W: Write>(steps: u64, world: &World, writer: &mut W) -> Result<(), WriteFault>
    ensures { Wrote (W.contents writer.old) (W.contents writer.new)
        (codes "D " ++ (frame_end world.now.state.frame ++ place_row steps world.now.state.position)) result }
{
    write_all(writer, b"D ")?;
    write_frame(world.frame(), writer)?;
    write_place(steps, world.position(), writer)
}

/// Writes the rows of a state behind so many steps.
///
/// Errors: the writer failed, or took no byte; then it has taken a front of the rows, and not all of them.
pub(crate) fn write_state<W: Write>(
    steps: u64,
    world: &World,
    writer: &mut W,
) -> Result<(), WriteFault>
    ensures { Wrote (W.contents writer.old) (W.contents writer.new) (state_rows world.now.tables steps world.now.state) result }
{
    write_variables(world, writer)?;
    write_settings(world.settings(), writer)?;
    write_features(world, writer)?;
    write_standing(steps, world, writer)
}
