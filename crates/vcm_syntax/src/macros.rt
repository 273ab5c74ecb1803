//! Reads the fields of the statements of macros, each statement in its form, from the left.

ghost use Rattle.std.specs.Prelude.{◌≡◌, ◌∷◌, [], true, false, Some, IfOk, IfErr, MatchOption};
ghost use Rattle.vcm_lines.specs.Fault.{no_memory};
ghost use Rattle.vcm_lines.specs.Lexemes.{Quoted};
ghost use Rattle.vcm_items.specs.NameBytes.{is_name};
ghost use Rattle.vcm_expr.specs.Parsing.{ReadAs, expr_of};
ghost use Rattle.vcm_syntax.specs.Readers.{each_of};
ghost use Rattle.vcm_syntax.specs.Macros.{raised, parameter_of, if_read, valued_of, argument_of, macro_of, call_of};

use crate::heads::{Letter, Prefix};
use crate::named::named;
use crate::places::{behind, only};
use std::alloc::Global;
use vcm_expr::{Expr, read_expr};
use vcm_forms::{Argument, Form, Parameter};
use vcm_items::{Name, is_name, is_variable_name};
use vcm_lines::{FaultCode, Phrase, SourceFault, Token, bad_syntax};
use vcm_num::{Items, LONGEST_NAME};

/// The name that a text is with its letters in upper case, none where it is no name then.
fn raised(text: &[u8]) -> Option<Name>
    ensures { MatchOption result (is_name (raised text.now) ≡ false)
        (λ name. (is_name (raised text.now) ≡ true) × (name ≡ raised text.now)) }
{
    if text.len() > LONGEST_NAME {
        return None;
    }
    let mut own = [0; LONGEST_NAME];
    own[..text.len()].copy_from_slice(text);
    own[..text.len()].make_ascii_uppercase();
    let bytes = &own[..text.len()];
    if is_name(bytes) {
        Some(Name::new(bytes))
    } else {
        None
    }
}

/// A parameter that stands for a name, by what stands between its apostrophes.
fn quoted_parameter(line: u32, text: &[u8]) -> Result<Parameter, SourceFault>
    ensures { ReadAs line (λ p. p) result (parameter_of (Quoted text.now ∷ [])) }
{
    match raised(text) {
        None => Err(bad_syntax(line)),
        Some(name) => {
            if is_variable_name(name.as_bytes()) {
                Ok(Parameter { name, quoted: true })
            } else {
                Err(bad_syntax(line))
            }
        }
    }
}

/// A parameter.
fn parameter(line: u32, words: &Phrase<'_>) -> Result<Parameter, SourceFault>
    ensures { ReadAs line (λ p. p) result (parameter_of words.now) }
{
    match only(words) {
        Some(Token::Run(bytes)) => {
            if is_variable_name(bytes) {
                Ok(Parameter {
                    name: Name::new(bytes),
                    quoted: false,
                })
            } else {
                Err(bad_syntax(line))
            }
        }
        Some(Token::Quoted(text)) => quoted_parameter(line, text),
        _ => Err(bad_syntax(line)),
    }
}

/// Parameters, one in each field.
fn parameters(
    alloc: Global,
    line: u32,
    fields: &[Phrase<'_>],
) -> Result<Items<Parameter>, SourceFault>
    ensures { ReadAs line (λ ps. ps) result (each_of parameter_of fields.now) }
{
    let mut parameters = Items::new(alloc);
    for field in fields {
        let parameter = parameter(line, field)?;
        parameters.push(parameter)?;
    }
    Ok(parameters)
}

/// An expression, none where the words spell none.
#[tactic(auto, using(vcm_expr::proofs::Whole::never_memory))]
fn value(alloc: Global, line: u32, words: &Phrase<'_>) -> Result<Option<Expr>, SourceFault>
    ensures ok { IfOk result (λ v. v ≡ if_read (expr_of words.now)) }
    ensures fault { IfErr result (λ f. f ≡ no_memory) }
{
    match read_expr(alloc, line, words) {
        Ok(value) => Ok(Some(value)),
        Err(fault) => match fault.code {
            FaultCode::NoMemory => Err(fault),
            _ => Ok(None),
        },
    }
}

/// An argument that is a name, and its value if it has one as an expression.
fn named_argument(
    alloc: Global,
    line: u32,
    words: &Phrase<'_>,
    name: Name,
) -> Result<Argument, SourceFault>
    ensures ok { IfOk result (λ a. a ≡ record { name = Some name; value = if_read (expr_of words.now) }) }
    ensures fault { IfErr result (λ f. f ≡ no_memory) }
{
    let value = value(alloc, line, words)?;
    let name = Some(name);
    Ok(Argument { name, value })
}

/// An argument that is a name, by what stands between its apostrophes.
fn quoted_argument(line: u32, text: &[u8]) -> Result<Argument, SourceFault>
    ensures { ReadAs line (λ a. a) result (argument_of (Quoted text.now ∷ [])) }
{
    match raised(text) {
        None => Err(bad_syntax(line)),
        Some(name) => Ok(Argument {
            name: Some(name),
            value: None,
        }),
    }
}

/// An argument that is an expression alone.
fn plain_argument(alloc: Global, line: u32, words: &Phrase<'_>) -> Result<Argument, SourceFault>
    ensures { ReadAs line (λ a. a) result (valued_of words.now) }
{
    let value = read_expr(alloc, line, words)?;
    Ok(Argument {
        name: None,
        value: Some(value),
    })
}

/// An argument.
fn argument(alloc: Global, line: u32, words: &Phrase<'_>) -> Result<Argument, SourceFault>
    ensures { ReadAs line (λ a. a) result (argument_of words.now) }
{
    match only(words) {
        Some(Token::Run(bytes)) => {
            if is_name(bytes) {
                named_argument(alloc, line, words, Name::new(bytes))
            } else {
                plain_argument(alloc, line, words)
            }
        }
        Some(Token::Quoted(text)) => quoted_argument(line, text),
        _ => plain_argument(alloc, line, words),
    }
}

/// Arguments, one in each field.
fn arguments(
    alloc: Global,
    line: u32,
    fields: &[Phrase<'_>],
) -> Result<Items<Argument>, SourceFault>
    ensures { ReadAs line (λ args. args) result (each_of argument_of fields.now) }
{
    let mut arguments = Items::new(alloc);
    for field in fields {
        let argument = argument(alloc, line, field)?;
        arguments.push(argument)?;
    }
    Ok(arguments)
}

/// The beginning of a macro.
pub(crate) fn macro_form(
    alloc: Global,
    line: u32,
    name: &Name,
    fields: &[Phrase<'_>],
) -> Result<Form, SourceFault>
    ensures { ReadAs line (λ f. f) result (macro_of (Prefix.Titled (Some Letter.M) name.now) fields.now) }
{
    Ok(Form::Macro(name.copy(), parameters(alloc, line, fields)?))
}

/// A call of a macro.
pub(crate) fn call(alloc: Global, line: u32, fields: &[Phrase<'_>]) -> Result<Form, SourceFault>
    ensures { ReadAs line (λ f. f) result (call_of Prefix.Bare fields.now) }
{
    let name = named(line, fields, 0, b"M")?;
    Ok(Form::Call(name, arguments(alloc, line, behind(fields, 1))?))
}
