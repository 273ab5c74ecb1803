//! That statements declare variables by names that variables may have.

ghost use Rattle.std.specs.List.{AllByRecursion};
ghost use Rattle.vcm_items.specs.NameBytes.{IsVariableName};
ghost use Rattle.vcm_tree.specs.Declaring.{DeclaresVariables, DeclareVariables};

use vcm_forms::{Form, Statement};
use vcm_items::VariableName;

// Names are so.
fn are_named(names: &[VariableName])
    ensures { AllByRecursion IsVariableName names.now }
{
    for variable in names {
        let _ = variable.name();
    }
}

// What a statement declares is named so.
fn declares(form: &Form)
    ensures { DeclaresVariables form.now }
{
    match form {
        Form::Declaration(_, names) => are_named(names.as_slice()),
        _ => {}
    }
}

/// What statements declare is named so.
pub(crate) fn declare(all: &[Statement])
    ensures { DeclareVariables all.now }
{
    for statement in all {
        declares(&statement.form);
    }
}
