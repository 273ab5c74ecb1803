//! That what is told of another line stands there.

ghost use Rattle.std.specs.Prelude.{◌≡◌, ◌==◌, ◌&&◌, nat_eq, IsTrue};
ghost use Rattle.std.specs.List.{list_any};
ghost use Rattle.vcm_diagnosis.specs.Told.{is_test, is_repeat, is_measure, is_choice, is_case, is_default, is_macro, opens, opens_any, is_same, names_one, has_parameter, declares, is_macro_of, opened_in, declared_in, told_in};

use crate::about::{About, Block, Sort};
use vcm_forms::{Form, Parameter, Statement};
use vcm_items::{Name, VariableName};

// Whether a statement is IF.
fn is_test(form: &Form) -> bool
    ensures { result ≡ is_test form.now }
{
    matches!(form, Form::Test(_))
}

// Whether it is DO.
fn is_repeat(form: &Form) -> bool
    ensures { result ≡ is_repeat form.now }
{
    matches!(form, Form::Repeat(_))
}

// Whether it is MEAS.
fn is_measure(form: &Form) -> bool
    ensures { result ≡ is_measure form.now }
{
    matches!(form, Form::Measure(_))
}

// Whether it is SELECT.
fn is_choice(form: &Form) -> bool
    ensures { result ≡ is_choice form.now }
{
    matches!(form, Form::Choose(_))
}

// Whether it is CASE.
fn is_case(form: &Form) -> bool
    ensures { result ≡ is_case form.now }
{
    matches!(form, Form::Case(_))
}

// Whether it is DFTCAS.
fn is_default(form: &Form) -> bool
    ensures { result ≡ is_default form.now }
{
    matches!(form, Form::Default)
}

// Whether it is MACRO.
fn is_macro(form: &Form) -> bool
    ensures { result ≡ is_macro form.now }
{
    matches!(form, Form::Macro(_, _))
}

// Whether a statement opens such a block.
fn opens(form: &Form, block: Block) -> bool
    ensures { result ≡ opens block form.now }
{
    match block {
        Block::If => is_test(form),
        Block::Else => is_test(form),
        Block::Do => is_repeat(form),
        Block::Meas => is_measure(form),
        Block::Select => is_choice(form),
        Block::Last => is_choice(form),
        Block::Case => is_case(form),
        Block::Default => is_default(form),
        Block::Macro => is_macro(form),
    }
}

// Whether it opens a block that labels stand in.
fn opens_any(form: &Form) -> bool
    ensures { result ≡ opens_any form.now }
{
    is_test(form) || is_repeat(form) || is_measure(form) || is_case(form) || is_default(form)
}

// Whether the statement of a line opens such a block.
fn opened_in(all: &[Statement], block: Block, line: u32) -> bool
    ensures { result ≡ opened_in all.now block line }
{
    all.iter()
        .any(|one| one.line == line && opens(&one.form, block))
}

// Whether the statement of a line opens a block that labels stand in.
fn opened_any(all: &[Statement], line: u32) -> bool
    ensures { result ≡ list_any (λ s. s.line == line && opens_any s.form) all.now }
{
    all.iter()
        .any(|one| one.line == line && opens_any(&one.form))
}

// Whether one of these variables has the name.
fn names_one(names: &[VariableName], name: &Name) -> bool
    ensures { result ≡ names_one names.now name.now }
{
    names.iter().any(|one| *one.name() == *name)
}

// Whether one of these parameters has it.
fn has_parameter(parameters: &[Parameter], name: &Name) -> bool
    ensures { result ≡ has_parameter parameters.now name.now }
{
    parameters.iter().any(|one| one.name == *name)
}

// Whether a statement declares a name of this sort.
fn declares(form: &Form, sort: Sort, name: &Name) -> bool
    ensures { result ≡ declares sort name.now form.now }
{
    match form {
        Form::Declaration(_, names) => {
            matches!(sort, Sort::Variable) && names_one(names.as_slice(), name)
        }
        Form::Mark(own) => matches!(sort, Sort::Label) && *own == *name,
        Form::Macro(own, parameters) => match sort {
            Sort::Variable => has_parameter(parameters.as_slice(), name),
            Sort::Macro => *own == *name,
            _ => false,
        },
        _ => false,
    }
}

// Whether the statement of a line declares it.
fn declared_in(all: &[Statement], sort: Sort, name: &Name, line: u32) -> bool
    ensures { result ≡ declared_in all.now sort name.now line }
{
    all.iter()
        .any(|one| one.line == line && declares(&one.form, sort, name))
}

// Whether a statement is the MACRO of this name with so many parameters.
fn is_macro_of(form: &Form, name: &Name, count: usize) -> bool
    ensures { result ≡ is_macro_of name.now count form.now }
{
    match form {
        Form::Macro(own, parameters) => *own == *name && parameters.len() == count,
        _ => false,
    }
}

// Whether the statement of a line is.
fn macro_in(all: &[Statement], name: &Name, count: usize, line: u32) -> bool
    ensures { result ≡ list_any (λ s. s.line == line && is_macro_of name.now count s.form) all.now }
{
    all.iter().any(|one| one.line == line && is_macro_of(&one.form, name, count))
}

// Whether what is told of another line of these statements stands there.
fn told_in(all: &[Statement], about: &About) -> bool
    ensures { result ≡ told_in all.now about.now }
{
    match about {
        About::Declared(sort, name, line) => declared_in(all, *sort, name, *line),
        About::Unended(block, line) => opened_in(all, *block, *line),
        About::Inside(_, block, line) => opened_in(all, *block, *line),
        About::Has(block, line, _) => opened_in(all, *block, *line),
        About::Touches(line, _) => opened_in(all, Block::Meas, *line),
        About::Inward(name, line, block) => {
            declared_in(all, Sort::Label, name, *line) && opened_any(all, *block)
        }
        About::Count(name, line, count, _) => macro_in(all, name, *count, *line),
        About::Argument(_, name, line, _) => declared_in(all, Sort::Macro, name, *line),
        _ => true,
    }
}

/// What is told, where what it tells of another line of these statements stands there; else nothing.
pub(crate) fn certain(all: &[Statement], about: About) -> About
    ensures { IsTrue (told_in all.now result) }
{
    if told_in(all, &about) {
        about
    } else {
        About::Nothing
    }
}
