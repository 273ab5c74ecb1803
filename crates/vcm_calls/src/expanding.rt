//! The CALLs that a program carries out, in their order.

ghost use Rattle.std.specs.Prelude.{◌≡◌, ◌+◌, ◌<◌, ◌≤◌, ◌^◌, ◌∷◌, ◌++◌, None, length, reverse, IfOk, OnOk};
ghost use Rattle.vcm_calls.specs.Carried.{carried, carried_in, carried_text, carried_out};

use crate::called::Called;
use crate::macros::{Macro, behind, body_size};
use std::alloc::{AllocError, Global};
use vcm_forms::{Form, Statement};
use vcm_items::Name;

/// A CALL where these macros stand above, with all that it carries out.
#[cycle(expanding)]
pub(crate) fn call(
    macros: &[Macro<'_>],
    line: u32,
    depth: usize,
    name: &Name,
    calls: &mut Vec<Called>,
) -> Result<(), AllocError>
    requires { depth + length macros.now < 2 ^ 64 }
    ensures { OnOk result (calls.new.items ≡ calls.old.items ++ carried (reverse macros.now) line depth name.now) }
{
    match macros.split_last() {
        Some((last, above)) => {
            if last.name == name {
                calls.push(Called { line, depth })?;
                body(above, depth + 1, last.body, calls)
            } else {
                call(above, line, depth, name, calls)
            }
        }
        None => {
            calls.push(Called { line, depth })?;
            Ok(())
        }
    }
}

/// The CALLs of a body.
#[cycle(expanding)]
fn body(
    macros: &[Macro<'_>],
    depth: usize,
    statements: &[Statement],
    calls: &mut Vec<Called>,
) -> Result<(), AllocError>
    requires { depth + length macros.now < 2 ^ 64 }
    ensures { OnOk result (calls.new.items ≡ calls.old.items ++ carried_in (carried (reverse macros.now)) depth statements.now) }
{
    for statement in statements {
        if let Form::Call(name, _) = &statement.form {
            call(macros, statement.line, depth, name, calls)?;
        }
    }
    Ok(())
}

// One statement outside macros, or a whole macro: what is left behind it.
fn read<'a>(
    macros: &mut Vec<Macro<'a>>,
    statement: &'a Statement,
    others: &'a [Statement],
    calls: &mut Vec<Called>,
) -> Result<&'a [Statement], AllocError>
    ensures read { IfOk result (λ rest. calls.new.items ++ carried_text (reverse macros.new.items) None rest.now
        ≡ calls.old.items ++ carried_text (reverse macros.old.items) None (statement.now ∷ others.now)) }
    ensures shorter { IfOk result (λ rest. length rest.now ≤ length others.now) }
{
    match &statement.form {
        Form::Macro(name, _) => {
            let size = body_size(others);
            let body = &others[..size];
            macros.push(Macro { name, body })?;
            Ok(behind(others, size))
        }
        Form::Call(name, _) => {
            call(macros, statement.line, 1, name, calls)?;
            Ok(others)
        }
        _ => Ok(others),
    }
}

/// The CALLs that a program of these statements carries out.
///
/// Errors: want of memory.
pub(crate) fn carried_out(
    alloc: Global,
    statements: &[Statement],
) -> Result<Vec<Called>, AllocError>
    ensures { IfOk result (λ calls. calls.items ≡ carried_out statements.now) }
{
    let mut calls = Vec::new(alloc);
    let mut macros = Vec::new(alloc);
    let mut rest = statements;
    while let Some((statement, others)) = rest.split_first() {
        rest = read(&mut macros, statement, others, &mut calls)?;
    }
    Ok(calls)
}
