//! Reads the fields of the statements of frames, settings, features and measurements, each statement in its form, from the left.

ghost use Rattle.std.specs.Prelude.{Some};
ghost use Rattle.vcm_expr.specs.Parsing.{ReadAs};
ghost use Rattle.vcm_syntax.specs.Measuring.{offsets_of, feat_of, meas_of, given_of, ptmeas_of, snset_of, trans_of, rotate_of, recall_of, obtain_of, no_more, output_of};
ghost use Rattle.vcm_syntax.specs.inner.Steps.{feature_of};

use crate::figures::{angle, feature_word, one, vector};
use crate::heads::{Letter, Prefix};
use crate::named::{axis, named, setting, source};
use crate::offsets::offsets;
use crate::places::{
    behind, complete, expression, some_field, spot, system, target, unsupported, word_at,
};
use std::alloc::Global;
use vcm_forms::Form;
use vcm_items::Name;
use vcm_lines::{FaultCode, Phrase, SourceFault};
use vcm_num::Axis;

/// The place of a feature and the direction there, behind the first two fields.
fn feature(
    alloc: Global,
    line: u32,
    name: &Name,
    fields: &[Phrase<'_>],
) -> Result<Form, SourceFault>
    ensures { ReadAs line (λ f. f) result (feature_of name.now fields.now) }
{
    let place = spot(alloc, line, behind(fields, 2))?;
    let out = vector(line, behind(fields, 5))?;
    let form = Form::Feature(name.copy(), place, out);
    complete(line, behind(fields, 8), form)
}

/// The declaration of a feature.
pub(crate) fn feat(
    alloc: Global,
    line: u32,
    name: &Name,
    fields: &[Phrase<'_>],
) -> Result<Form, SourceFault>
    ensures { ReadAs line (λ f. f) result (feat_of (Prefix.Titled (Some Letter.F) name.now) fields.now) }
{
    word_at(line, fields, 0, b"POINT", FaultCode::Unsupported)?;
    system(line, fields, 1)?;
    feature(alloc, line, name, fields)
}

/// The measurement of a feature.
pub(crate) fn meas(line: u32, fields: &[Phrase<'_>]) -> Result<Form, SourceFault>
    ensures { ReadAs line (λ f. f) result (meas_of Prefix.Bare fields.now) }
{
    word_at(line, fields, 0, b"POINT", FaultCode::BadSyntax)?;
    let name = named(line, fields, 1, b"F")?;
    one(line, fields, 2)?;
    complete(line, behind(fields, 3), Form::Measure(name))
}

/// A direction, if fields are left.
fn given(line: u32, fields: &[Phrase<'_>]) -> Result<Option<Axis>, SourceFault>
    ensures { ReadAs line (λ d. d) result (given_of fields.now) }
{
    match fields {
        [] => Ok(None),
        [_, rest @ ..] => {
            let axis = vector(line, fields)?;
            complete(line, behind(rest, 2), Some(axis))
        }
    }
}

/// A touch.
pub(crate) fn ptmeas(alloc: Global, line: u32, fields: &[Phrase<'_>]) -> Result<Form, SourceFault>
    ensures { ReadAs line (λ f. f) result (ptmeas_of Prefix.Bare fields.now) }
{
    word_at(line, fields, 0, b"CART", FaultCode::BadSyntax)?;
    let place = spot(alloc, line, behind(fields, 1))?;
    let out = given(line, behind(fields, 4))?;
    Ok(Form::Touch(place, out))
}

/// A setting of the probe.
pub(crate) fn snset(alloc: Global, line: u32, fields: &[Phrase<'_>]) -> Result<Form, SourceFault>
    ensures { ReadAs line (λ f. f) result (snset_of Prefix.Bare fields.now) }
{
    let which = setting(line, fields, 0)?;
    let length = expression(alloc, line, fields, 1)?;
    complete(line, behind(fields, 2), Form::Configure(which, length))
}

/// The shifts of a frame.
pub(crate) fn trans(
    alloc: Global,
    line: u32,
    name: &Name,
    fields: &[Phrase<'_>],
) -> Result<Form, SourceFault>
    ensures { ReadAs line (λ f. f) result (trans_of (Prefix.Titled (Some Letter.D) name.now) fields.now) }
{
    some_field(line, fields)?;
    Ok(Form::Shift(name.copy(), offsets(alloc, line, fields)?))
}

/// The turn of a frame.
pub(crate) fn rotate(line: u32, name: &Name, fields: &[Phrase<'_>]) -> Result<Form, SourceFault>
    ensures { ReadAs line (λ f. f) result (rotate_of (Prefix.Titled (Some Letter.D) name.now) fields.now) }
{
    let axis = axis(line, fields, 0)?;
    let turns = angle(line, fields, 1)?;
    complete(
        line,
        behind(fields, 2),
        Form::Rotation(name.copy(), axis, turns),
    )
}

/// A frame that is used again.
pub(crate) fn recall(line: u32, fields: &[Phrase<'_>]) -> Result<Form, SourceFault>
    ensures { ReadAs line (λ f. f) result (recall_of Prefix.Bare fields.now) }
{
    let name = named(line, fields, 0, b"D")?;
    complete(line, behind(fields, 1), Form::Restore(name))
}

/// A word of a feature, for a variable.
pub(crate) fn obtain(line: u32, variable: &Name, fields: &[Phrase<'_>]) -> Result<Form, SourceFault>
    ensures { ReadAs line (λ f. f) result (obtain_of (Prefix.Assigned variable.now) fields.now) }
{
    let (which, name) = source(line, fields, 0)?;
    let word = feature_word(line, fields, 1)?;
    complete(
        line,
        behind(fields, 2),
        Form::Query(target(variable), which, name, word),
    )
}

/// No field; more of them are a form that is left out.
fn no_more(line: u32, fields: &[Phrase<'_>]) -> Result<(), SourceFault>
    ensures { ReadAs line (λ u. u) result (no_more fields.now) }
{
    match fields {
        [] => Ok(()),
        [_, ..] => Err(unsupported(line)),
    }
}

/// A feature that is told.
pub(crate) fn output(line: u32, fields: &[Phrase<'_>]) -> Result<Form, SourceFault>
    ensures { ReadAs line (λ f. f) result (output_of Prefix.Bare fields.now) }
{
    let (which, name) = source(line, fields, 0)?;
    no_more(line, behind(fields, 1))?;
    Ok(Form::Report(which, name))
}
