//! What has to be given for the parameters of a macro.

ghost use Rattle.std.specs.Prelude.{◌≡◌, ◌<◌, false, length, map, get_or, IfOk};
ghost use Rattle.std.specs.List.{list_any};
ghost use Rattle.vcm_substitution.specs.Sizes.{is_small_option};
ghost use Rattle.vcm_substitution.specs.Substitution.{Scope, put_argument};
ghost use Rattle.vcm_macro.specs.Rules.{assigns, wanted_by, suits};
ghost use Rattle.vcm_macro.specs.inner.Suiting.{all_suit};

use std::alloc::{AllocError, Global};
use vcm_forms::{Argument, Form, Parameter, Statement};
use vcm_items::Name;
use vcm_substitution::variable_of;

/// What has to be given for a parameter.
#[derive(Clone, Copy)]
pub(crate) enum Wanted {
    /// A name, for a quoted one.
    Name,
    /// A variable, for one that the body assigns.
    Variable,
    /// An expression, for any other.
    Value,
}

// Whether a statement assigns the variable of this name.
fn assigns(name: &Name, form: &Form) -> bool
    ensures { result ≡ assigns name.now form.now }
{
    match form {
        Form::Assignment(target, _) => target.name == *name,
        Form::Query(target, _, _, _) => target.name == *name,
        Form::Repeat(rounds) => rounds.variable.name == *name,
        _ => false,
    }
}

// Whether one of the statements does.
fn is_assigned(name: &Name, body: &[Statement]) -> bool
    ensures { result ≡ list_any (λ s. assigns name.now s.form) body.now }
{
    body.iter().any(|statement| assigns(name, &statement.form))
}

// What has to be given for a parameter of this body.
fn wanted_by(body: &[Statement], parameter: &Parameter) -> Wanted
    ensures { result ≡ wanted_by body.now parameter.now }
{
    if parameter.quoted {
        Wanted::Name
    } else if is_assigned(&parameter.name, body) {
        Wanted::Variable
    } else {
        Wanted::Value
    }
}

/// What has to be given for each of these.
pub(crate) fn all_wanted(
    alloc: Global,
    body: &[Statement],
    parameters: &[Parameter],
) -> Result<Vec<Wanted>, AllocError>
    ensures { IfOk result (λ all. all.items ≡ map (wanted_by body.now) parameters.now) }
{
    let mut all = Vec::new(alloc);
    for parameter in parameters {
        all.push(wanted_by(body, parameter))?;
    }
    Ok(all)
}

/// What has to be given in this place.
pub(crate) fn wanted_at(all: &[Wanted], place: usize) -> Wanted
    requires { place < length all.now }
    ensures { result ≡ get_or all.now place result }
{
    all[place]
}

/// Whether an argument will do.
pub(crate) fn suits(wanted: Wanted, argument: &Argument) -> bool
    ensures { result ≡ suits wanted argument.now }
{
    match wanted {
        Wanted::Name => argument.name.is_some(),
        Wanted::Variable => variable_of(argument.value.as_ref()).is_some(),
        Wanted::Value => argument.value.is_some(),
    }
}

/// Whether an argument that becomes too deep or too large will do otherwise.
#[tactic(auto, using(crate::proofs::Sizes::deep_name, crate::proofs::Sizes::deep_variable, crate::proofs::Sizes::deep_value))]
pub(crate) fn suits_deep(wanted: Wanted, argument: &Argument) -> bool
    ensures { (sc : Scope) → is_small_option (put_argument sc argument.now).value ≡ false → result ≡ suits wanted (put_argument sc argument.now) }
{
    match wanted {
        Wanted::Name => argument.name.is_some(),
        Wanted::Variable => false,
        Wanted::Value => true,
    }
}

/// Whether there are as many arguments as are wanted, and each will do.
pub(crate) fn all_suit(all: &[Wanted], arguments: &[Argument]) -> bool
    ensures { result ≡ all_suit all.now arguments.now }
{
    let mut rest = all;
    let mut arguments = arguments;
    'each: while let Some((wanted, others)) = rest.split_first() {
        let Some((argument, left)) = arguments.split_first() else {
            return false;
        };
        if !suits(*wanted, argument) {
            return false;
        }
        rest = others;
        arguments = left;
    }
    arguments.is_empty()
}
