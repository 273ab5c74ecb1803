//! Features as text.

ghost use Rattle.std.specs.Prelude.{◌≡◌, [], ◌∷◌, codes};
ghost use Rattle.std.specs.Fmt.{signed_decimal};
ghost use Rattle.vcm_num.specs.Axis.{unit};
ghost use Rattle.vcm_num.specs.Written.{Wrote};
ghost use Rattle.vcm_report.specs.Printed.{in_a_row, feature_words, feature_text};
ghost use Rattle.vcm_spec.specs.Texts.{three_texts, feature_line};

use crate::names::name_at;
use crate::places::write_point;
use std::io::Write;
use vcm_items::Tables;
use vcm_num::{Axis, Text, WriteFault, int_text, write_all, write_pieces};
use vcm_spec::{Feature, Source};

// A coordinate of a direction's unit vector as text.
fn component_text(toward: Axis, axis: usize) -> Text
    ensures { result ≡ signed_decimal (unit toward axis) }
{
    int_text(toward.component(axis))
}

// Writes three texts with commas between them.
fn write_three<W: Write>(x: &Text, y: &Text, z: &Text, writer: &mut W) -> Result<(), WriteFault>
    ensures { Wrote (W.contents writer.old) (W.contents writer.new) (in_a_row (x.now ∷ codes "," ∷ y.now ∷ codes "," ∷ z.now ∷ [])) result }
{
    write_pieces(
        writer,
        &[x.as_slice(), b",", y.as_slice(), b",", z.as_slice()],
    )
}

// Writes a direction as its unit vector.
fn write_direction<W: Write>(toward: Axis, writer: &mut W) -> Result<(), WriteFault>
    ensures { Wrote (W.contents writer.old) (W.contents writer.new) (three_texts (λ k. signed_decimal (unit toward k))) result }
{
    write_three(
        &component_text(toward, 0),
        &component_text(toward, 1),
        &component_text(toward, 2),
        writer,
    )
}

// Writes the text of a feature as `OUTPUT` prints it, without a line feed.
fn write_feature_line<W: Write>(
    source: Source,
    name: &[u8],
    feature: Feature,
    writer: &mut W,
) -> Result<(), WriteFault>
    ensures { Wrote (W.contents writer.old) (W.contents writer.new) (feature_line source name.now feature) result }
{
    write_all(writer, source.letters())?;
    write_all(writer, name)?;
    write_all(writer, b")=FEAT/POINT,CART,")?;
    write_point(feature.at, b",", writer)?;
    write_all(writer, b",")?;
    write_direction(feature.toward, writer)
}

/// Writes the feature of this index as `OUTPUT` prints it, or that it is not defined, without a line feed.
///
/// Errors: the writer failed, or took no byte; then it has taken a front of the text, and not all of it.
pub fn write_feature_words<W: Write>(
    tables: &Tables,
    source: Source,
    index: u16,
    feature: Option<Feature>,
    writer: &mut W,
) -> Result<(), WriteFault>
    ensures { Wrote (W.contents writer.old) (W.contents writer.new) (feature_words tables.now source index feature) result }
{
    let name = name_at(tables.features(), index);
    match feature {
        Some(feature) => write_feature_line(source, name, feature, writer),
        None => {
            write_all(writer, source.letters())?;
            write_pieces(writer, &[name, b") undefined"])
        }
    }
}

/// Writes the line of the feature of this index, or that it is not defined.
///
/// Errors: the writer failed, or took no byte; then it has taken a front of the line, and not all of it.
pub fn write_feature<W: Write>(
    tables: &Tables,
    source: Source,
    index: u16,
    feature: Option<Feature>,
    writer: &mut W,
) -> Result<(), WriteFault>
    ensures { Wrote (W.contents writer.old) (W.contents writer.new) (feature_text tables.now source index feature) result }
{
    write_feature_words(tables, source, index, feature, writer)?;
    write_all(writer, b"\n")
}
