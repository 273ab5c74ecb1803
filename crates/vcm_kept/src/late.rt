//! Frames, features and variables that a text makes below in writing.

ghost use Rattle.std.specs.Prelude.{◌≡◌, ◌++◌, ◌∷◌, [], map, is_some, Some, None, OnOk, IfOk};
ghost use Rattle.std.specs.List.{list_any, flat_map};
ghost use Rattle.vcm_expr.specs.Source.{leaf_in};
ghost use Rattle.vcm_spec.specs.Program.{is_same_name};
ghost use Rattle.vcm_events.specs.Spots.{spot_named};
ghost use Rattle.vcm_kept.specs.Late.{Made as AllMade, shift_made, frame_made, feature_named, is_unknown, feature_made, variables_made, made_by, is_late, is_this, is_late_variable, late_frame, late_feature, late_variable};
ghost use Rattle.vcm_kept.specs.inner.Making.{made_of};

use crate::named::drop_frames;
use crate::points::index_among;
use std::alloc::Global;
use vcm_events::{Spot, slanted_name};
use vcm_expr::{Expr, Names, Term};
use vcm_forms::{Form, Offset, Target};
use vcm_items::{Name, VariableName};
use vcm_macro::Placed;
use vcm_num::{NoMemory, is};
use vcm_program::Titles;
use vcm_templates::{Carried, FEATURES_STEP, Guarded, raise};

/// What a text makes anywhere.
#[derive(Drop)]
pub(crate) struct Made {
    pub(crate) frames: Vec<Name>,
    pub(crate) features: Vec<Name>,
    pub(crate) variables: Vec<Target>,
}

// The frame that shifts make, if they are none of a slanted point.
fn add_shift(out: &mut Vec<Name>, label: &Name, offsets: &[Offset]) -> Result<(), NoMemory>
    ensures { OnOk result (out.new.items ≡ out.old.items ++ shift_made label.now offsets.now) }
{
    if offsets.is_empty() || slanted_name() == *label {
        return Ok(());
    }
    out.push(label.copy())?;
    Ok(())
}

// The frame that a statement makes.
fn add_frame(out: &mut Vec<Name>, form: &Form) -> Result<(), NoMemory>
    ensures { OnOk result (out.new.items ≡ out.old.items ++ frame_made form.now) }
{
    match form {
        Form::Shift(label, offsets) => add_shift(out, label, offsets.as_slice()),
        Form::Rotation(label, _, _) => {
            out.push(label.copy())?;
            Ok(())
        }
        _ => Ok(()),
    }
}

// Whether an expression is one whose value is never known.
fn is_unknown(value: &Expr) -> bool
    ensures { result ≡ is_unknown (leaf_in value.now) }
{
    match value.as_leaf() {
        Some(Term::Variable(name, _)) => is(name.as_bytes(), b"0"),
        _ => false,
    }
}

// A feature, if it is none that a place is kept by.
fn add_named(out: &mut Vec<Name>, label: &Name) -> Result<(), NoMemory>
    ensures { OnOk result (out.new.items ≡ out.old.items ++ feature_named label.now (spot_named label.now)) }
{
    if Spot::named(label.as_bytes()).is_none() {
        out.push(label.copy())?;
    }
    Ok(())
}

// The feature that a statement declares.
fn add_feature(out: &mut Vec<Name>, form: &Form) -> Result<(), NoMemory>
    ensures { OnOk result (out.new.items ≡ out.old.items ++ feature_made form.now) }
{
    match form {
        Form::Feature(label, place, _) => {
            if is_unknown(&place.x) {
                Ok(())
            } else {
                add_named(out, label)
            }
        }
        _ => Ok(()),
    }
}

// Variables that are declared in an expansion.
fn add_names(out: &mut Vec<Target>, expansion: u32, names: &[VariableName]) -> Result<(), NoMemory>
    ensures { OnOk result (out.new.items ≡ out.old.items ++ map (λ name. record { name = name; expansion = expansion }) names.now) }
{
    for name in names {
        out.push(Target {
            name: name.copy().into_name(),
            expansion,
        })?;
    }
    Ok(())
}

// The variables that a statement declares.
fn add_variables(out: &mut Vec<Target>, expansion: u32, form: &Form) -> Result<(), NoMemory>
    ensures { OnOk result (out.new.items ≡ out.old.items ++ variables_made expansion form.now) }
{
    match form {
        Form::Declaration(_, names) => add_names(out, expansion, names.as_slice()),
        _ => Ok(()),
    }
}

// The frames that statements make.
fn frames_of(alloc: Global, all: &[Placed]) -> Result<Vec<Name>, NoMemory>
    ensures { IfOk result (λ names. names.items ≡ flat_map (λ p. frame_made p.statement.form) all.now) }
{
    let mut out = Vec::new(alloc);
    for placed in all {
        add_frame(&mut out, &placed.statement.form)?;
    }
    Ok(out)
}

// The features that they declare.
fn features_of(alloc: Global, all: &[Placed]) -> Result<Vec<Name>, NoMemory>
    ensures { IfOk result (λ names. names.items ≡ flat_map (λ p. feature_made p.statement.form) all.now) }
{
    let mut out = Vec::new(alloc);
    for placed in all {
        add_feature(&mut out, &placed.statement.form)?;
    }
    Ok(out)
}

// And their variables.
fn variables_of(alloc: Global, all: &[Placed]) -> Result<Vec<Target>, NoMemory>
    ensures { IfOk result (λ names. names.items ≡ flat_map (λ p. variables_made p.expansion p.statement.form) all.now) }
{
    let mut out = Vec::new(alloc);
    for placed in all {
        add_variables(&mut out, placed.expansion, &placed.statement.form)?;
    }
    Ok(out)
}

impl Made {
    /// What the statements of a text make.
    pub(crate) fn of(alloc: Global, all: &[Placed]) -> Result<Made, NoMemory>
        ensures { IfOk result (λ made. made_of made ≡ made_by all.now) }
    {
        Ok(Made {
            frames: frames_of(alloc, all)?,
            features: features_of(alloc, all)?,
            variables: variables_of(alloc, all)?,
        })
    }
}

// Whether one of the names is this one.
fn has_name(all: &[Name], label: &Name) -> bool
    ensures { result ≡ list_any (is_same_name label.now) all.now }
{
    all.iter().any(|name| *label == *name)
}

/// Whether a name is one of these and has no index here.
pub(crate) fn is_late(here: &Titles, all: &[Name], label: &Name) -> bool
    ensures { result ≡ is_late here.now all.now label.now }
{
    match index_among(here, label) {
        Some(_) => false,
        None => has_name(all, label),
    }
}

// Whether a variable is this one.
fn is_this(target: &Target, other: &Target) -> bool
    ensures { result ≡ is_this target.now other.now }
{
    target.expansion == other.expansion && is(target.name.as_bytes(), other.name.as_bytes())
}

// Whether one of the variables is.
fn has_variable(all: &[Target], target: &Target) -> bool
    ensures { result ≡ list_any (is_this target.now) all.now }
{
    all.iter().any(|other| is_this(target, other))
}

/// Whether a variable is declared below alone.
pub(crate) fn is_late_variable(names: &Names, all: &[Target], target: &Target) -> bool
    ensures { result ≡ is_late_variable names.now all.now target.now }
{
    match names.find(target.expansion, &target.name) {
        Some(_) => false,
        None => has_variable(all, target),
    }
}

/// The frames that are saved aren't known, where one of them is made below.
pub(crate) fn late_frame(out: &mut Vec<Guarded>, line: u32, late: bool) -> Result<(), NoMemory>
    ensures { OnOk result (out.new.items ≡ out.old.items ++ late_frame line late) }
{
    if late { drop_frames(out, line) } else { Ok(()) }
}

/// Nor are the values of features.
pub(crate) fn late_feature(
    alloc: Global,
    out: &mut Vec<Guarded>,
    line: u32,
    late: bool,
) -> Result<(), NoMemory>
    ensures { OnOk result (out.new.items ≡ out.old.items ++ late_feature line late) }
{
    if late {
        raise(alloc, out, line, Carried::Features, FEATURES_STEP)
    } else {
        Ok(())
    }
}

/// Nor those of variables.
pub(crate) fn late_variable(
    alloc: Global,
    out: &mut Vec<Guarded>,
    line: u32,
    late: bool,
) -> Result<(), NoMemory>
    ensures { OnOk result (out.new.items ≡ out.old.items ++ late_variable line late) }
{
    if late {
        raise(alloc, out, line, Carried::Values, 1)
    } else {
        Ok(())
    }
}
