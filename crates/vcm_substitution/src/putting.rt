//! Substitution in statements.

ghost use Rattle.std.specs.Prelude.{◌≡◌, true, map, IfOk, OnOk, IfErr};
ghost use Rattle.vcm_lines.specs.Fault.{NoMemoryOr, no_memory};
ghost use Rattle.vcm_substitution.specs.Kept.{is_kept};
ghost use Rattle.vcm_substitution.specs.Sizes.{is_small_option, is_small_spot, are_small_rounds, are_small_offsets, are_small, IsTooDeep};
ghost use Rattle.std.specs.Option.{option_map};
ghost use Rattle.vcm_substitution.specs.Substitution.{put, put_name, put_spot, put_rounds, put_offset, put_form};
ghost use Rattle.vcm_substitution.specs.inner.Plain.{is_plain};
ghost use Rattle.vcm_forms.specs.declared.statement.Form.{Form};

use crate::bindings::Bindings;
use std::alloc::Global;
use vcm_expr::Expr;
use vcm_forms::{Coordinates, Form, Offset, OperatorText, Rounds};
use vcm_items::{Name, VariableName};
use vcm_lines::SourceFault;
use vcm_num::{Axis, Items};

// The same names.
fn copied_names(alloc: Global, names: &[VariableName]) -> Result<Items<VariableName>, SourceFault>
    ensures ok { IfOk result (λ copies. copies ≡ names.now) }
    ensures fault { IfErr result (λ f. f ≡ no_memory) }
{
    let mut copies = Items::new(alloc);
    for name in names {
        copies.push(name.copy())?;
    }
    Ok(copies)
}

// The same text.
fn copied_text(alloc: Global, text: &OperatorText) -> Result<OperatorText, SourceFault>
    ensures ok { IfOk result (λ copy. copy ≡ text.now) }
    ensures fault { IfErr result (λ f. f ≡ no_memory) }
{
    Ok(OperatorText::copied(alloc, text.as_bytes())?)
}

// What a place says in the expansion.
fn put_spot(
    alloc: Global,
    line: u32,
    bindings: &Bindings<'_>,
    place: &Coordinates,
) -> Result<Coordinates, SourceFault>
    ensures ok { IfOk result (λ p. p ≡ put_spot bindings.now place.now) }
    ensures small { OnOk result (is_small_spot (put_spot bindings.now place.now) ≡ true) }
    ensures fault { IfErr result (NoMemoryOr (IsTooDeep line (is_small_spot (put_spot bindings.now place.now)))) }
{
    let x = bindings.put(alloc, line, &place.x)?;
    let y = bindings.put(alloc, line, &place.y)?;
    let z = bindings.put(alloc, line, &place.z)?;
    Ok(Coordinates { x, y, z })
}

// What an expression says there, where there is one.
fn put_option(
    alloc: Global,
    line: u32,
    bindings: &Bindings<'_>,
    value: &Option<Expr>,
) -> Result<Option<Expr>, SourceFault>
    ensures ok { IfOk result (λ e. e ≡ option_map (put bindings.now) value.now) }
    ensures small { OnOk result (is_small_option (option_map (put bindings.now) value.now) ≡ true) }
    ensures fault { IfErr result (NoMemoryOr (IsTooDeep line (is_small_option (option_map (put bindings.now) value.now)))) }
{
    match value {
        None => Ok(None),
        Some(value) => Ok(Some(bindings.put(alloc, line, value)?)),
    }
}

// What the words of DO say there.
fn put_rounds(
    alloc: Global,
    line: u32,
    bindings: &Bindings<'_>,
    rounds: &Rounds,
) -> Result<Rounds, SourceFault>
    ensures ok { IfOk result (λ r. r ≡ put_rounds bindings.now rounds.now) }
    ensures small { OnOk result (are_small_rounds (put_rounds bindings.now rounds.now) ≡ true) }
    ensures fault { IfErr result (NoMemoryOr (IsTooDeep line (are_small_rounds (put_rounds bindings.now rounds.now)))) }
{
    let initial = bindings.put(alloc, line, &rounds.initial)?;
    let limit = bindings.put(alloc, line, &rounds.limit)?;
    let increment = put_option(alloc, line, bindings, &rounds.increment)?;
    Ok(Rounds {
        variable: bindings.put_target(&rounds.variable),
        initial,
        limit,
        increment,
    })
}

// What the shifts of a frame say there.
fn put_offsets(
    alloc: Global,
    line: u32,
    bindings: &Bindings<'_>,
    written: &[Offset],
) -> Result<Items<Offset>, SourceFault>
    ensures ok { IfOk result (λ os. os ≡ map (put_offset bindings.now) written.now) }
    ensures small { OnOk result (are_small_offsets (map (put_offset bindings.now) written.now) ≡ true) }
    ensures fault { IfErr result (NoMemoryOr (IsTooDeep line (are_small_offsets (map (put_offset bindings.now) written.now)))) }
{
    let mut offsets = Items::new(alloc);
    for offset in written {
        let length = bindings.put(alloc, line, &offset.length)?;
        let axis = offset.axis;
        offsets.push(Offset { axis, length })?;
    }
    Ok(offsets)
}

// What a feature's declaration says there.
fn put_feature(
    alloc: Global,
    line: u32,
    bindings: &Bindings<'_>,
    name: &Name,
    place: &Coordinates,
    out: Axis,
) -> Result<Form, SourceFault>
    ensures ok { IfOk result (λ f. f ≡ Form.Feature (put_name bindings.now name.now) (put_spot bindings.now place.now) out) }
    ensures small { OnOk result (is_small_spot (put_spot bindings.now place.now) ≡ true) }
    ensures fault { IfErr result (NoMemoryOr (IsTooDeep line (is_small_spot (put_spot bindings.now place.now)))) }
{
    let place = put_spot(alloc, line, bindings, place)?;
    Ok(Form::Feature(bindings.put_name(name), place, out))
}

// What a statement without expressions says in the expansion.
fn put_plain(alloc: Global, bindings: &Bindings<'_>, form: &Form) -> Result<Form, SourceFault>
    requires { is_plain form.now ≡ true }
    ensures ok { IfOk result (λ f. f ≡ put_form bindings.now form.now) }
    ensures kept { is_kept (put_form bindings.now form.now) ≡ true }
    ensures small { are_small (put_form bindings.now form.now) ≡ true }
    ensures fault { IfErr result (λ f. f ≡ no_memory) }
{
    match form {
        Form::Declaration(kind, names) => {
            let names = copied_names(alloc, names.as_slice())?;
            Ok(Form::Declaration(*kind, names))
        }
        Form::Say(text) => Ok(Form::Say(copied_text(alloc, text)?)),
        Form::Measure(name) => Ok(Form::Measure(bindings.put_name(name))),
        Form::Rotation(name, axis, turns) => {
            Ok(Form::Rotation(bindings.put_name(name), *axis, *turns))
        }
        Form::Restore(name) => Ok(Form::Restore(bindings.put_name(name))),
        Form::Query(target, which, name, word) => {
            let target = bindings.put_target(target);
            Ok(Form::Query(target, *which, bindings.put_name(name), *word))
        }
        Form::Report(which, name) => Ok(Form::Report(*which, bindings.put_name(name))),
        Form::Mark(name) => Ok(Form::Mark(name.copy())),
        Form::Leap(name) => Ok(Form::Leap(name.copy())),
        Form::Home => Ok(Form::Home),
        Form::Otherwise => Ok(Form::Otherwise),
        Form::TestEnd => Ok(Form::TestEnd),
        Form::RepeatEnd => Ok(Form::RepeatEnd),
        Form::MeasureEnd => Ok(Form::MeasureEnd),
        Form::Case(value) => Ok(Form::Case(*value)),
        Form::CaseEnd => Ok(Form::CaseEnd),
        Form::Default => Ok(Form::Default),
        Form::ChooseEnd => Ok(Form::ChooseEnd),
        Form::Ending => Ok(Form::Ending),
        _ => unreachable!(),
    }
}

/// What a statement of the expanded program, on this line, says in the expansion.
///
/// # Errors
///
/// An expression that becomes too deep or too large, told at `line`; want of memory.
pub fn put_form(
    alloc: Global,
    line: u32,
    bindings: &Bindings<'_>,
    form: &Form,
) -> Result<Form, SourceFault>
    requires { is_kept form.now ≡ true }
    ensures ok { IfOk result (λ f. f ≡ put_form bindings.now form.now) }
    ensures kept { is_kept (put_form bindings.now form.now) ≡ true }
    ensures small { OnOk result (are_small (put_form bindings.now form.now) ≡ true) }
    ensures fault { IfErr result (NoMemoryOr (IsTooDeep line (are_small (put_form bindings.now form.now)))) }
{
    match form {
        Form::Assignment(target, value) => {
            let value = bindings.put(alloc, line, value)?;
            Ok(Form::Assignment(bindings.put_target(target), value))
        }
        Form::Move(place) => Ok(Form::Move(put_spot(alloc, line, bindings, place)?)),
        Form::Test(value) => Ok(Form::Test(bindings.put(alloc, line, value)?)),
        Form::Choose(value) => Ok(Form::Choose(bindings.put(alloc, line, value)?)),
        Form::Repeat(rounds) => Ok(Form::Repeat(put_rounds(alloc, line, bindings, rounds)?)),
        Form::Feature(name, place, out) => { put_feature(alloc, line, bindings, name, place, *out) }
        Form::Touch(place, out) => {
            Ok(Form::Touch(put_spot(alloc, line, bindings, place)?, *out))
        }
        Form::Configure(which, value) => {
            Ok(Form::Configure(*which, bindings.put(alloc, line, value)?))
        }
        Form::Shift(name, offsets) => {
            let offsets = put_offsets(alloc, line, bindings, offsets.as_slice())?;
            Ok(Form::Shift(bindings.put_name(name), offsets))
        }
        _ => put_plain(alloc, bindings, form),
    }
}
