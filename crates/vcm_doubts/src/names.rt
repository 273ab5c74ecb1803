//! Names that statements set, share or stand for.

ghost use Rattle.std.specs.Prelude.{◌≡◌, ◌++◌, [], nat_eq, if◌then◌else◌, false, IfOk, OnOk};
ghost use Rattle.std.specs.List.{list_any};
ghost use Rattle.vcm_macro.specs.Order.{is_open_behind};
ghost use Rattle.vcm_heads.specs.Rows.{words_of};
ghost use Rattle.vcm_doubts.specs.Doubts.{is_among, sets, set_within, is_one_set, sets_parameter, sets_parameters, is_sharing, sharing_lines, declared_by, shared_within, parameter_names, name_of, listed_name, names_by, names_in};

use std::alloc::Global;
use vcm_forms::{Form, Parameter, Statement};
use vcm_heads::{first_field, major_at};
use vcm_items::{Name, VariableName};
use vcm_lines::{Logical, Phrase};
use vcm_num::{Items, NoMemory, is};

/// Whether a name is one of these.
pub(crate) fn is_among(names: &[Name], name: &[u8]) -> bool
    ensures { result ≡ is_among names.now name.now }
{
    names.iter().any(|one| is(name, one.as_bytes()))
}

/// Whether a MACRO is open behind a statement.
pub(crate) fn is_open_behind(opened: bool, form: &Form) -> bool
    ensures { result ≡ is_open_behind opened form.now }
{
    match form {
        Form::Macro(_, _) => true,
        Form::MacroEnd => false,
        _ => opened,
    }
}

/// The variable that a statement sets, if it sets one.
pub(crate) fn add_set(names: &mut Items<Name>, form: &Form) -> Result<(), NoMemory>
    ensures { OnOk result (names.new ≡ names.old ++ sets form.now) }
{
    match form {
        Form::Assignment(target, _) => {
            names.push(target.name.copy())?;
            Ok(())
        }
        Form::Query(target, _, _, _) => {
            names.push(target.name.copy())?;
            Ok(())
        }
        Form::Repeat(rounds) => {
            names.push(rounds.variable.name.copy())?;
            Ok(())
        }
        _ => Ok(()),
    }
}

/// The variables that statements within macros set.
pub(crate) fn set_within(alloc: Global, statements: &[Statement]) -> Result<Items<Name>, NoMemory>
    ensures { IfOk result (λ names. names ≡ set_within false statements.now) }
{
    let mut names = Items::new(alloc);
    let mut opened = false;
    for statement in statements {
        if opened {
            add_set(&mut names, &statement.form)?;
        }
        opened = is_open_behind(opened, &statement.form);
    }
    Ok(names)
}

// Whether one of the parameters is among these names.
fn is_one_set(names: &[Name], parameters: &[Parameter]) -> bool
    ensures { result ≡ is_one_set names.now parameters.now }
{
    parameters
        .iter()
        .any(|parameter| is_among(names, parameter.name.as_bytes()))
}

// Whether a statement is a MACRO with a parameter among these names.
fn sets_parameter(names: &[Name], form: &Form) -> bool
    ensures { result ≡ sets_parameter names.now form.now }
{
    match form {
        Form::Macro(_, parameters) => is_one_set(names, parameters.as_slice()),
        _ => false,
    }
}

/// Whether one of the statements is a MACRO with a parameter among these names.
pub(crate) fn sets_parameters(names: &[Name], statements: &[Statement]) -> bool
    ensures { result ≡ sets_parameters names.now statements.now }
{
    statements
        .iter()
        .any(|statement| sets_parameter(names, &statement.form))
}

// Whether a statement declares variables that other programs and macros share.
fn is_sharing(logical: &Logical) -> bool
    ensures { result ≡ is_sharing (words_of logical.now) }
{
    let (major, behind) = major_at(&Phrase::of(logical));
    let field = first_field(&behind);
    is(major, b"DECL") && (is(field, b"GLOBAL") || is(field, b"COMMON"))
}

/// The lines of statements that declare such variables.
pub(crate) fn sharing_lines(alloc: Global, lines: &[Logical]) -> Result<Items<u32>, NoMemory>
    ensures { IfOk result (λ ns. ns ≡ sharing_lines lines.now) }
{
    let mut numbers = Items::new(alloc);
    for logical in lines {
        if is_sharing(logical) {
            numbers.push(logical.line)?;
        }
    }
    Ok(numbers)
}

/// Whether a line is one of these.
pub(crate) fn is_line(lines: &[u32], line: u32) -> bool
    ensures { result ≡ list_any (nat_eq line) lines.now }
{
    lines.iter().any(|one| line == *one)
}

// The names of variables.
fn add_variables(names: &mut Items<Name>, variables: &[VariableName]) -> Result<(), NoMemory>
    ensures { OnOk result (names.new ≡ names.old ++ variables.now) }
{
    for variable in variables {
        names.push(variable.name().copy())?;
    }
    Ok(())
}

/// The variables of a declaration.
pub(crate) fn add_declared(names: &mut Items<Name>, form: &Form) -> Result<(), NoMemory>
    ensures { OnOk result (names.new ≡ names.old ++ declared_by form.now) }
{
    match form {
        Form::Declaration(_, variables) => add_variables(names, variables.as_slice()),
        _ => Ok(()),
    }
}

// The variables that a statement declares, where it stands on one of these lines.
fn add_shared(names: &mut Items<Name>, lines: &[u32], statement: &Statement) -> Result<(), NoMemory>
    ensures { OnOk result (names.new ≡ names.old ++ (if list_any (nat_eq statement.now.line) lines.now then declared_by statement.now.form else [])) }
{
    if is_line(lines, statement.line) {
        add_declared(names, &statement.form)
    } else {
        Ok(())
    }
}

// The variables that statements within macros declare on these lines.
fn shared_on(
    alloc: Global,
    lines: &[u32],
    statements: &[Statement],
) -> Result<Items<Name>, NoMemory>
    ensures { IfOk result (λ names. names ≡ shared_within lines.now false statements.now) }
{
    let mut names = Items::new(alloc);
    let mut opened = false;
    for statement in statements {
        if opened {
            add_shared(&mut names, lines, statement)?;
        }
        opened = is_open_behind(opened, &statement.form);
    }
    Ok(names)
}

/// The variables that statements within macros share with other programs.
pub(crate) fn shared_within(
    alloc: Global,
    lines: &[Logical],
    statements: &[Statement],
) -> Result<Items<Name>, NoMemory>
    ensures { IfOk result (λ names. names ≡ shared_within (sharing_lines lines.now) false statements.now) }
{
    let numbers = sharing_lines(alloc, lines)?;
    shared_on(alloc, numbers.as_slice(), statements)
}

// The name that a statement has.
fn name_of(form: &Form) -> Option<Name>
    ensures { result ≡ name_of form.now }
{
    match form {
        Form::Assignment(target, _) => Some(target.name.copy()),
        Form::Repeat(rounds) => Some(rounds.variable.name.copy()),
        Form::Feature(name, _, _) => Some(name.copy()),
        Form::Measure(name) => Some(name.copy()),
        Form::Report(_, name) => Some(name.copy()),
        Form::Shift(name, _) => Some(name.copy()),
        Form::Rotation(name, _, _) => Some(name.copy()),
        Form::Restore(name) => Some(name.copy()),
        Form::Mark(name) => Some(name.copy()),
        Form::Leap(name) => Some(name.copy()),
        Form::Call(name, _) => Some(name.copy()),
        _ => None,
    }
}

// One more name, or none.
fn add_name(names: &mut Items<Name>, name: Option<Name>) -> Result<(), NoMemory>
    ensures { OnOk result (names.new ≡ names.old ++ listed_name name) }
{
    match name {
        Some(name) => {
            names.push(name)?;
            Ok(())
        }
        None => Ok(()),
    }
}

/// The names of parameters.
pub(crate) fn add_parameters(
    names: &mut Items<Name>,
    parameters: &[Parameter],
) -> Result<(), NoMemory>
    ensures { OnOk result (names.new ≡ names.old ++ parameter_names parameters.now) }
{
    for parameter in parameters {
        names.push(parameter.name.copy())?;
    }
    Ok(())
}

// The names that a statement has.
fn add_names(names: &mut Items<Name>, form: &Form) -> Result<(), NoMemory>
    ensures { OnOk result (names.new ≡ names.old ++ names_by form.now) }
{
    match form {
        Form::Declaration(_, variables) => add_variables(names, variables.as_slice()),
        Form::Query(target, _, label, _) => {
            names.push(target.name.copy())?;
            names.push(label.copy())?;
            Ok(())
        }
        Form::Macro(name, parameters) => {
            names.push(name.copy())?;
            add_parameters(names, parameters.as_slice())
        }
        form => add_name(names, name_of(form)),
    }
}

/// The names that statements have.
pub(crate) fn names_in(alloc: Global, statements: &[Statement]) -> Result<Items<Name>, NoMemory>
    ensures { IfOk result (λ names. names ≡ names_in statements.now) }
{
    let mut names = Items::new(alloc);
    for statement in statements {
        add_names(&mut names, &statement.form)?;
    }
    Ok(names)
}

/// Whether a word is one of these.
pub(crate) fn is_word(words: &[Items<u8>], word: &[u8]) -> bool
    ensures { result ≡ is_among words.now word.now }
{
    words.iter().any(|one| is(word, one.as_slice()))
}

// Whether one of the parameters is among these words.
fn is_one_word(words: &[Items<u8>], parameters: &[Parameter]) -> bool
    ensures { result ≡ is_one_set words.now parameters.now }
{
    parameters
        .iter()
        .any(|parameter| is_word(words, parameter.name.as_bytes()))
}

// Whether a statement is a MACRO with a parameter among these words.
fn has_word(words: &[Items<u8>], form: &Form) -> bool
    ensures { result ≡ sets_parameter words.now form.now }
{
    match form {
        Form::Macro(_, parameters) => is_one_word(words, parameters.as_slice()),
        _ => false,
    }
}

/// Whether one of the statements is a MACRO with a parameter among these words.
pub(crate) fn have_word(words: &[Items<u8>], statements: &[Statement]) -> bool
    ensures { result ≡ sets_parameters words.now statements.now }
{
    statements
        .iter()
        .any(|statement| has_word(words, &statement.form))
}
