//! The names of a macro's parameters.

ghost use Rattle.std.specs.Prelude.{◌≡◌};
ghost use Rattle.std.specs.List.{list_any};
ghost use Rattle.vcm_macro.specs.Rules.{is_parameter, has_twins, redeclares};

use vcm_forms::{Form, Parameter};
use vcm_items::{Name, VariableName};

// Whether a parameter of these has the name.
fn is_parameter(parameters: &[Parameter], name: &Name) -> bool
    ensures { result ≡ is_parameter parameters.now name.now }
{
    parameters.iter().any(|parameter| parameter.name == *name)
}

/// Whether two of these parameters have one name.
pub(crate) fn has_twins(parameters: &[Parameter]) -> bool
    ensures { result ≡ has_twins parameters.now }
{
    let mut rest = parameters;
    'each: while let Some((parameter, others)) = rest.split_first() {
        if is_parameter(others, &parameter.name) {
            return true;
        }
        rest = others;
    }
    false
}

// Whether a parameter of these has one of the names.
fn names_parameter(parameters: &[Parameter], names: &[VariableName]) -> bool
    ensures { result ≡ list_any (is_parameter parameters.now) names.now }
{
    names
        .iter()
        .any(|name| is_parameter(parameters, name.name()))
}

/// Whether a declaration takes the name of a parameter.
pub(crate) fn redeclares(parameters: &[Parameter], form: &Form) -> bool
    ensures { result ≡ redeclares parameters.now form.now }
{
    match form {
        Form::Declaration(_, names) => names_parameter(parameters, names.as_slice()),
        _ => false,
    }
}
