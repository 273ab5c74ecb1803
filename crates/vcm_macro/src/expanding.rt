//! Carries calls out.

ghost use Rattle.std.specs.Prelude.{◌≡◌, [], Some, length, map, reverse, OnOk, IfOk, IfErr};
ghost use Rattle.vcm_lines.specs.Fault.{NoMemoryOr};
ghost use Rattle.vcm_substitution.specs.Substitution.{put_argument};
ghost use Rattle.vcm_macro.specs.Walk.{call_in, body_in};
ghost use Rattle.vcm_macro.specs.Rules.{argument_codes, each_argument_codes, called_codes};
ghost use Rattle.vcm_macro.specs.inner.Staying.{given};
ghost use Rattle.vcm_macro.specs.inner.Expanding.{Walked, TellsLeftmost, TellsFirst};

use crate::definition::{Definition, find};
use crate::expansion::Expansion;
use crate::fitting::{Wanted, all_suit, suits, suits_deep, wanted_at};
use crate::staying::{Given, all_stay};
use std::alloc::Global;
use vcm_forms::{Argument, Form, Statement};
use vcm_items::Name;
use vcm_lines::{FaultCode, SourceFault};
use vcm_substitution::Bindings;

// The refusal of a call, at its line.
fn refused(code: FaultCode, line: u32) -> SourceFault
    ensures { result ≡ record { code = code; line = line } }
{
    SourceFault { code, line }
}

// What an argument says in the expansion, where that is what is wanted there.
fn put_one(
    alloc: Global,
    line: u32,
    bindings: &Bindings<'_>,
    wanted: Wanted,
    argument: &Argument,
) -> Result<Argument, SourceFault>
    ensures ok { IfOk result (λ a. a ≡ put_argument bindings.now argument.now) }
    ensures fine { OnOk result (argument_codes wanted (put_argument bindings.now argument.now) ≡ []) }
    ensures fault { IfErr result (NoMemoryOr (TellsLeftmost line (argument_codes wanted (put_argument bindings.now argument.now)))) }
{
    match bindings.put_argument(alloc, line, argument) {
        Ok(put) => {
            if suits(wanted, &put) {
                Ok(put)
            } else {
                Err(refused(FaultCode::BadArguments, line))
            }
        }
        Err(fault) => match fault.code {
            FaultCode::TooDeep if !suits_deep(wanted, argument) => {
                Err(refused(FaultCode::BadArguments, line))
            }
            _ => Err(fault),
        },
    }
}

// What arguments say in the expansion, as many as are wanted, where each is what is wanted in its place.
fn put_all<'a>(
    alloc: Global,
    line: u32,
    bindings: &Bindings<'_>,
    wanted: &[Wanted],
    written: &'a [Argument],
) -> Result<Given<'a>, SourceFault>
    requires { length wanted.now ≡ length written.now }
    ensures ok { IfOk result (λ a. given a ≡ map (put_argument bindings.now) written.now) }
    ensures fine { OnOk result (each_argument_codes wanted.now (map (put_argument bindings.now) written.now) ≡ []) }
    ensures fault { IfErr result (NoMemoryOr (TellsLeftmost line (each_argument_codes wanted.now (map (put_argument bindings.now) written.now)))) }
{
    if all_stay(bindings, written) {
        return if all_suit(wanted, written) {
            Ok(Given::Written(written))
        } else {
            Err(refused(FaultCode::BadArguments, line))
        };
    }
    let mut arguments = Vec::with_capacity(alloc, written.len())?;
    for argument in written {
        let wanted = wanted_at(wanted, arguments.len());
        let argument = put_one(alloc, line, bindings, wanted, argument)?;
        arguments.push(argument)?;
    }
    Ok(Given::Put(arguments))
}

// What the arguments of a call of this macro say in the expansion.
fn put_arguments<'a>(
    alloc: Global,
    line: u32,
    bindings: &Bindings<'_>,
    definition: &Definition,
    written: &'a [Argument],
) -> Result<Given<'a>, SourceFault>
    ensures ok { IfOk result (λ a. given a ≡ map (put_argument bindings.now) written.now) }
    ensures fine { OnOk result (called_codes (Some definition.now) (map (put_argument bindings.now) written.now) ≡ []) }
    ensures fault { IfErr result (NoMemoryOr (TellsLeftmost line (called_codes (Some definition.now) (map (put_argument bindings.now) written.now)))) }
{
    if !definition.takes(written.len()) {
        return Err(refused(FaultCode::BadArguments, line));
    }
    put_all(alloc, line, bindings, definition.wanted(), written)
}

/// A call in a body that is expanded with these bindings, behind these macros.
#[cycle(expanding)]
pub(crate) fn call(
    alloc: Global,
    macros: &[Definition],
    bindings: &Bindings<'_>,
    line: u32,
    depth: u32,
    name: &Name,
    written: &[Argument],
    done: &mut Expansion,
) -> Result<(), SourceFault>
    ensures ok { OnOk result (Walked done.old done.new (call_in (reverse macros.now) line depth done.old.calls name.now (map (put_argument bindings.now) written.now))) }
    ensures fault { IfErr result (NoMemoryOr (TellsFirst done.old.count (call_in (reverse macros.now) line depth done.old.calls name.now (map (put_argument bindings.now) written.now)))) }
{
    done.count_call(line, depth)?;
    let Some(place) = find(macros, name) else {
        return Err(refused(FaultCode::UnknownName, line));
    };
    let definition = &macros[place];
    let arguments = put_arguments(alloc, line, bindings, definition, written)?;
    let inner = Bindings::new(definition.parameters(), arguments.as_slice(), done.calls());
    body(
        alloc,
        &macros[..place],
        &inner,
        depth + 1,
        definition.statements(),
        done,
    )
}

/// The statements of a body that is expanded with these bindings, behind these macros.
#[cycle(expanding)]
fn body(
    alloc: Global,
    macros: &[Definition],
    bindings: &Bindings<'_>,
    depth: u32,
    statements: &[Statement],
    done: &mut Expansion,
) -> Result<(), SourceFault>
    ensures ok { OnOk result (Walked done.old done.new (body_in (call_in (reverse macros.now)) bindings.now depth done.old.calls statements.now)) }
    ensures fault { IfErr result (NoMemoryOr (TellsFirst done.old.count (body_in (call_in (reverse macros.now)) bindings.now depth done.old.calls statements.now))) }
{
    for statement in statements {
        match &statement.form {
            Form::Call(name, written) => {
                let line = statement.line;
                let written = written.as_slice();
                call(alloc, macros, bindings, line, depth, name, written, done)?;
            }
            _ => done.stand(alloc, bindings, statement)?,
        }
    }
    Ok(())
}
