//! Macros as they stand in the text of a program.

ghost use Rattle.std.specs.Prelude.{◌≡◌, ◌≤◌, length, drop, suc, Some, None, MatchOption};
ghost use Rattle.vcm_calls.specs.Carried.{is_macro_end, body_size};
ghost use Rattle.vcm_calls.specs.Chains.{name_called, macro_called};

use std::marker::Model;
use vcm_forms::{Form, Statement};
use vcm_items::Name;

/// A macro as it is written. Contracts see it as a `Written`.
#[derive(Drop)]
pub(crate) struct Macro<'a> {
    pub(crate) name: &'a Name,
    pub(crate) body: &'a [Statement],
}

impl<'a> Model for Macro<'a> {
    ghost use Rattle.std.specs.Coded.{codes};
    ghost use Rattle.vcm_calls.specs.Carried.{Written};
    ghost use Rattle.vcm_forms.specs.contracts.statement.Statement as statement;

    ghost Value = { Written };

    ghost coded = { Prim.hlevel (codes, statement.the_row.coded) };

    ghost view = { λ m. record { name = m.name.now; body = m.body.now } };
}

// Whether a statement is ENDMAC.
fn is_macro_end(form: &Form) -> bool
    ensures { result ≡ is_macro_end form.now }
{
    matches!(form, Form::MacroEnd)
}

/// How many of these statements stand before the first ENDMAC.
pub(crate) fn body_size(statements: &[Statement]) -> usize
    ensures is { result ≡ body_size statements.now }
    ensures within { result ≤ length statements.now }
{
    let mut size = 0;
    while size < statements.len() {
        if is_macro_end(&statements[size].form) {
            return size;
        }
        size += 1;
    }
    size
}

/// What stands behind so many statements and one more.
pub(crate) fn behind(statements: &[Statement], size: usize) -> &[Statement]
    ensures { result.now ≡ drop (suc size) statements.now }
{
    if size < statements.len() {
        &statements[size + 1..]
    } else {
        &[]
    }
}

// The name of the macro that a statement calls, if it is a CALL on this line.
fn name_called(statement: &Statement, line: u32) -> Option<&Name>
    ensures { MatchOption result (name_called statement.now line ≡ None) (λ name. name_called statement.now line ≡ Some name.now) }
{
    if statement.line != line {
        return None;
    }
    match &statement.form {
        Form::Call(name, _) => Some(name),
        _ => None,
    }
}

/// The name of the macro that the first CALL on a line calls, if there is one.
pub fn macro_called(statements: &[Statement], line: u32) -> Option<&Name>
    ensures { MatchOption result (macro_called statements.now line ≡ None) (λ name. macro_called statements.now line ≡ Some name.now) }
{
    for statement in statements {
        match name_called(statement, line) {
            Some(name) => return Some(name),
            None => {}
        }
    }
    None
}
