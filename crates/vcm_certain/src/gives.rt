//! What a statement gives.

ghost use Rattle.std.specs.Prelude.{◌≡◌, ◌++◌, OnOk};
ghost use Rattle.vcm_events.specs.Events.{event_named};
ghost use Rattle.vcm_certain.specs.Certain.{gives_variable, assignment_gives, gives, gives_if, is_jump, feature_target};

use crate::certain::FEATURE;
use crate::sure::{is_given, setting_target};
use vcm_events::Event;
use vcm_forms::{Form, Target};
use vcm_items::Name;
use vcm_num::NoMemory;

/// A variable again.
pub(crate) fn again(target: &Target) -> Target
    ensures { result ≡ target.now }
{
    Target {
        name: target.name.copy(),
        expansion: target.expansion,
    }
}

// A variable, if it is the index of no loop.
fn give_variable(
    given: &mut Vec<Target>,
    indices: &[Target],
    target: &Target,
) -> Result<(), NoMemory>
    ensures { OnOk result (given.new.items ≡ given.old.items ++ gives_variable indices.now target.now) }
{
    if !is_given(indices, &target.name, target.expansion) {
        given.push(again(target))?;
    }
    Ok(())
}

// What an assignment gives.
fn give_assigned(
    given: &mut Vec<Target>,
    indices: &[Target],
    target: &Target,
) -> Result<(), NoMemory>
    ensures { OnOk result (given.new.items ≡ given.old.items ++ assignment_gives indices.now target.now (event_named target.now.name)) }
{
    match Event::named(target.name.as_bytes()) {
        Some(_) => Ok(()),
        None => give_variable(given, indices, target),
    }
}

// A feature.
fn feature_target(label: &Name) -> Target
    ensures { result ≡ feature_target label.now }
{
    Target {
        name: label.copy(),
        expansion: FEATURE,
    }
}

// What a statement gives.
fn give_form(given: &mut Vec<Target>, indices: &[Target], form: &Form) -> Result<(), NoMemory>
    ensures { OnOk result (given.new.items ≡ given.old.items ++ gives indices.now form.now) }
{
    match form {
        Form::Assignment(target, _) => give_assigned(given, indices, target),
        Form::Query(target, _, _, _) => give_variable(given, indices, target),
        Form::Configure(which, _) => {
            given.push(setting_target(*which))?;
            Ok(())
        }
        Form::Feature(label, _, _) => {
            given.push(feature_target(label))?;
            Ok(())
        }
        _ => Ok(()),
    }
}

/// What a statement gives, where no label and no jump stands above.
pub(crate) fn give(
    given: &mut Vec<Target>,
    straight: bool,
    indices: &[Target],
    form: &Form,
) -> Result<(), NoMemory>
    ensures { OnOk result (given.new.items ≡ given.old.items ++ gives_if straight (gives indices.now form.now)) }
{
    if straight {
        give_form(given, indices, form)
    } else {
        Ok(())
    }
}

/// Whether a statement is a label or a jump.
pub(crate) fn is_jump(form: &Form) -> bool
    ensures { result ≡ is_jump form.now }
{
    match form {
        Form::Mark(_) | Form::Leap(_) => true,
        _ => false,
    }
}
