//! Looks names up in the statements of frames, settings, features and measurements.

ghost use Rattle.std.specs.Prelude.{◌≡◌, Ok, OnOk, IfOk, IfErr, MatchResult};
ghost use Rattle.vcm_lines.specs.Fault.{NoMemoryOr};
ghost use Rattle.vcm_tree.specs.Blocks.{nested};
ghost use Rattle.vcm_tree.specs.Features.{lengths, declared, opened_measure, touched, configured, shifts_of, no_shifts, with_shift, shifted, rotated, recalled, real_named, obtained, reported};
ghost use Rattle.vcm_program.specs.Titles.{with_name};
ghost use Rattle.vcm_program.specs.Telling.{ToldAt};
ghost use Rattle.vcm_tree.specs.inner.Growing.{blocks_of, Reads};
ghost use Rattle.vcm_tree.specs.inner.Shifting.{shifts};

use crate::builder::{Builder, Head, bad_body};
use std::alloc::Global;
use vcm_expr::{Expr, Names, Typed, Want, type_expr};
use vcm_forms::{Coordinates, Offset, Target};
use vcm_items::Name;
use vcm_lines::{FaultCode, SourceFault};
use vcm_nodes::Action;
use vcm_num::{Axis, Kind};
use vcm_program::Titles;
use vcm_spec::{FeatureWord, FrameAxis, Operand, Quarters, Setting, Simple, Source};

/// Three lengths, from the left.
pub(crate) fn lengths(
    alloc: Global,
    line: u32,
    names: &Names,
    place: &Coordinates,
) -> Result<(Typed, Typed, Typed), SourceFault>
    ensures ok { IfOk result (λ t. lengths names.now place.now ≡ Ok (t.0, t.1, t.2)) }
    ensures fault { IfErr result (NoMemoryOr (ToldAt line (lengths names.now place.now))) }
{
    let x = type_expr(alloc, &place.x, line, names, Want::Length)?;
    let y = type_expr(alloc, &place.y, line, names, Want::Length)?;
    let z = type_expr(alloc, &place.z, line, names, Want::Length)?;
    Ok((x, y, z))
}

/// `FEAT`.
pub(crate) fn declare_feature(
    alloc: Global,
    line: u32,
    features: &mut Titles,
    names: &Names,
    name: Name,
    place: &Coordinates,
    toward: Axis,
) -> Result<Action, SourceFault>
    ensures ok { IfOk result (λ a. declared features.old names.now name place.now toward ≡ Ok a) }
    ensures features { OnOk result (features.new ≡ with_name features.old name) }
    ensures fault { IfErr result (NoMemoryOr (ToldAt line (declared features.old names.now name place.now toward))) }
{
    let feature = features.enter(line, name)?;
    let (x, y, z) = lengths(alloc, line, names, place)?;
    Ok(Simple::Feat(feature, x, y, z, toward))
}

/// `MEAS`.
pub(crate) fn measure(
    alloc: Global,
    line: u32,
    features: &Titles,
    builder: &mut Builder,
    name: &Name,
) -> Result<(), SourceFault>
    ensures ok { OnOk result (Reads (nested (blocks_of builder.old) (opened_measure features.now name.now)) line builder.old builder.new) }
    ensures fault { IfErr result (NoMemoryOr (ToldAt line (nested (blocks_of builder.old) (opened_measure features.now name.now)))) }
{
    builder.room(line)?;
    let feature = features.known(line, name)?;
    builder.open(alloc, Head::Measuring(line, feature))?;
    Ok(())
}

/// `PTMEAS`, in a block that has one already or not.
pub(crate) fn touch(
    alloc: Global,
    line: u32,
    builder: &Builder,
    has_touched: bool,
    names: &Names,
    place: &Coordinates,
    toward: Option<Axis>,
) -> Result<Action, SourceFault>
    ensures ok { IfOk result (λ a. touched (blocks_of builder.now) has_touched names.now place.now toward ≡ Ok a) }
    ensures fault { IfErr result (NoMemoryOr (ToldAt line (touched (blocks_of builder.now) has_touched names.now place.now toward))) }
{
    let Some(feature) = builder.measuring() else {
        return Err(bad_body(line));
    };
    if has_touched {
        return Err(bad_body(line));
    }
    let (x, y, z) = lengths(alloc, line, names, place)?;
    Ok(Simple::PtMeas(feature, x, y, z, toward))
}

/// `SNSET`.
pub(crate) fn configure(
    alloc: Global,
    line: u32,
    names: &Names,
    setting: Setting,
    length: &Expr,
) -> Result<Action, SourceFault>
    ensures ok { IfOk result (λ a. configured names.now setting length.now ≡ Ok a) }
    ensures fault { IfErr result (NoMemoryOr (ToldAt line (configured names.now setting length.now))) }
{
    let length = type_expr(alloc, length, line, names, Want::Length)?;
    Ok(Simple::SnSet(setting, length))
}

/// The shifts of a frame along its axes.
#[derive(Drop)]
pub(crate) struct Along {
    pub(crate) x: Typed,
    pub(crate) y: Typed,
    pub(crate) z: Typed,
}

impl Along {
    /// No shift.
    fn none() -> Along
        ensures { shifts result ≡ no_shifts }
    {
        Along {
            x: Typed::leaf(Operand::Thousandths(0)),
            y: Typed::leaf(Operand::Thousandths(0)),
            z: Typed::leaf(Operand::Thousandths(0)),
        }
    }

    /// With this shift along an axis.
    fn with(self, axis: FrameAxis, length: Typed) -> Along
        ensures { shifts result ≡ with_shift (shifts self) axis length }
    {
        match axis {
            FrameAxis::X => Along { x: length, ..self },
            FrameAxis::Y => Along { y: length, ..self },
            FrameAxis::Z => Along { z: length, ..self },
        }
    }
}

/// The shifts of `TRANS`.
fn shifts_along(
    alloc: Global,
    line: u32,
    names: &Names,
    offsets: &[Offset],
) -> Result<Along, SourceFault>
    ensures ok { IfOk result (λ a. shifts_of names.now no_shifts offsets.now ≡ Ok (shifts a)) }
    ensures fault { IfErr result (NoMemoryOr (ToldAt line (shifts_of names.now no_shifts offsets.now))) }
{
    let mut along = Along::none();
    for offset in offsets {
        let length = type_expr(alloc, &offset.length, line, names, Want::Length)?;
        along = along.with(offset.axis, length);
    }
    Ok(along)
}

/// `TRANS`.
pub(crate) fn shift(
    alloc: Global,
    line: u32,
    frames: &mut Titles,
    names: &Names,
    name: Name,
    offsets: &[Offset],
) -> Result<Action, SourceFault>
    ensures ok { IfOk result (λ a. shifted frames.old names.now name offsets.now ≡ Ok a) }
    ensures frames { OnOk result (frames.new ≡ with_name frames.old name) }
    ensures fault { IfErr result (NoMemoryOr (ToldAt line (shifted frames.old names.now name offsets.now))) }
{
    let frame = frames.enter(line, name)?;
    let along = shifts_along(alloc, line, names, offsets)?;
    Ok(Simple::Trans(frame, along.x, along.y, along.z))
}

/// `ROTATE`.
pub(crate) fn rotate(
    line: u32,
    frames: &mut Titles,
    name: Name,
    axis: FrameAxis,
    quarters: Quarters,
) -> Result<Action, SourceFault>
    ensures ok { IfOk result (λ a. rotated frames.old name axis quarters ≡ Ok a) }
    ensures frames { OnOk result (frames.new ≡ with_name frames.old name) }
    ensures fault { IfErr result (NoMemoryOr (ToldAt line (rotated frames.old name axis quarters))) }
{
    let frame = frames.enter(line, name)?;
    Ok(Simple::Rotate(frame, axis, quarters))
}

/// `RECALL`.
pub(crate) fn recall(line: u32, frames: &Titles, name: &Name) -> Result<Action, SourceFault>
    ensures { MatchResult result (λ a. recalled frames.now name.now ≡ Ok a) (ToldAt line (recalled frames.now name.now)) }
{
    let frame = frames.known(line, name)?;
    Ok(Simple::Recall(frame))
}

/// The variable of an `OBTAIN`.
fn real(line: u32, names: &Names, target: &Target) -> Result<u16, SourceFault>
    ensures { MatchResult result (λ i. real_named names.now target.now ≡ Ok i) (ToldAt line (real_named names.now target.now)) }
{
    match names.find(target.expansion, &target.name) {
        None => Err(SourceFault {
            code: FaultCode::UnknownName,
            line,
        }),
        Some((variable, Kind::Real)) => Ok(variable),
        Some(_) => Err(SourceFault {
            code: FaultCode::BadType,
            line,
        }),
    }
}

/// `OBTAIN`.
pub(crate) fn obtain(
    line: u32,
    features: &Titles,
    names: &Names,
    target: &Target,
    source: Source,
    name: &Name,
    word: FeatureWord,
) -> Result<Action, SourceFault>
    ensures { MatchResult result (λ a. obtained features.now names.now target.now source name.now word ≡ Ok a)
        (ToldAt line (obtained features.now names.now target.now source name.now word)) }
{
    let variable = real(line, names, target)?;
    let feature = features.known(line, name)?;
    Ok(Simple::Obtain(variable, source, feature, word))
}

/// `OUTPUT`.
pub(crate) fn report(
    line: u32,
    features: &Titles,
    source: Source,
    name: &Name,
) -> Result<Action, SourceFault>
    ensures { MatchResult result (λ a. reported features.now source name.now ≡ Ok a) (ToldAt line (reported features.now source name.now)) }
{
    let feature = features.known(line, name)?;
    Ok(Simple::Output(source, feature))
}
