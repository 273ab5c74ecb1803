//! Statements of small texts that are read in two ways.

use std::alloc::Global;
use vcm_doubts::settle;
use vcm_events::Event;
use vcm_expr::{Expr, Term};
use vcm_forms::{Argument, Form, Parameter, Statement, Target};
use vcm_items::{Name, is_name};
use vcm_lines::logical_lines;
use vcm_num::{Items, Literal, is};

// What is asked of the last statement that a text is put as, which says these.
fn of_last<F: FnOnce(&Form) -> bool>(
    alloc: Global,
    text: &str,
    said: Vec<Statement>,
    ask: F,
) -> Option<bool>
    requires { F.IsAlwaysCallable ask }
{
    let bytes = text.as_bytes();
    let lines = logical_lines(alloc, bytes).ok()?;
    let settled = settle(alloc, bytes, lines.as_slice(), said).ok()?;
    Some(ask(&settled.last()?.form))
}

// One statement.
fn alone(alloc: Global, form: Form) -> Option<Vec<Statement>> {
    let mut said = Vec::new(alloc);
    said.push(Statement { line: 1, form }).ok()?;
    Some(said)
}

// A variable of no expansion.
fn variable(name: &[u8]) -> Option<Target> {
    if !is_name(name) {
        return None;
    }
    let name = Name::new(name);
    Some(Target { name, expansion: 0 })
}

// Whether a value is one that isn't known.
fn is_unknown(value: &Expr) -> bool {
    match value.as_leaf() {
        Some(Term::Variable(name, _)) => is(name.as_bytes(), b"0"),
        _ => false,
    }
}

// Whether a statement says that a value isn't known.
fn has_unknown(form: &Form) -> bool {
    match form {
        Form::Assignment(_, value) | Form::Test(value) => is_unknown(value),
        _ => false,
    }
}

// Whether a statement says this of what is known.
fn says(form: &Form, event: Event) -> bool {
    match form {
        Form::Assignment(target, _) => is(target.name.as_bytes(), event.name()),
        _ => false,
    }
}

// The depth is 1.
fn set_depth(alloc: Global) -> Option<Vec<Statement>> {
    let value = Expr::leaf(Term::Number(Literal::Int(1)));
    alone(alloc, Form::Assignment(variable(b"DEPTH")?, value))
}

// Whether the depth isn't known in a text.
fn loses_depth(alloc: Global, text: &str) -> Option<bool> {
    of_last(alloc, text, set_depth(alloc)?, |form| has_unknown(form))
}

#[test]
fn a_name_in_two_spellings_has_no_value(rt: HostRuntime) {
    let alloc = rt.alloc();
    assert!(rt; loses_depth(alloc, "Depth=ASSIGN/1\nDEPTH=ASSIGN/2\n") == Some(true));
    assert!(rt; loses_depth(alloc, "Depth=ASSIGN/1\n'DEPTH' $$ DEPTH\n") == Some(false));
    assert!(rt; loses_depth(alloc, "Dep$\nth=ASSIGN/1\nGoto/DEPTH\n") == Some(true));
    assert!(rt; loses_depth(alloc, "Goto/DEPTH\nGOTO/DEPTH\n") == Some(false));
}

// An argument that is a variable.
fn argument(name: &[u8]) -> Option<Argument> {
    let target = variable(name)?;
    let value = Expr::leaf(Term::Variable(target.name.copy(), 0));
    Some(Argument {
        name: Some(target.name),
        value: Some(value),
    })
}

// One that is a name in quotes.
fn quoted(name: &[u8]) -> Option<Argument> {
    Some(Argument {
        name: Some(variable(name)?.name),
        value: None,
    })
}

// One that is a number.
fn number() -> Argument {
    Argument {
        name: None,
        value: Some(Expr::leaf(Term::Number(Literal::Int(1)))),
    }
}

// A call of the macro M.
fn call(alloc: Global, argument: Argument) -> Option<Statement> {
    let mut arguments = Items::new(alloc);
    arguments.push(argument).ok()?;
    Some(Statement {
        line: 4,
        form: Form::Call(variable(b"M")?.name, arguments),
    })
}

// The macro M, which has the parameter P and sets this variable, and a call of it.
fn macro_and_call(
    alloc: Global,
    is_quoted: bool,
    changed: &[u8],
    argument: Argument,
) -> Option<Vec<Statement>> {
    let mut parameters = Items::new(alloc);
    parameters
        .push(Parameter {
            name: variable(b"P")?.name,
            quoted: is_quoted,
        })
        .ok()?;
    let mut said = alone(alloc, Form::Macro(variable(b"M")?.name, parameters))?;
    let value = Expr::leaf(Term::Number(Literal::Int(1)));
    said.push(Statement {
        line: 2,
        form: Form::Assignment(variable(changed)?, value),
    })
    .ok()?;
    said.push(Statement {
        line: 3,
        form: Form::MacroEnd,
    })
    .ok()?;
    said.push(call(alloc, argument)?).ok()?;
    Some(said)
}

// Whether such a call stands.
fn call_stands(alloc: Global, is_quoted: bool, changed: &[u8], argument: Argument) -> Option<bool> {
    let said = macro_and_call(alloc, is_quoted, changed, argument)?;
    of_last(alloc, "", said, |form| matches!(form, Form::Call(_, _)))
}

// Whether all is lost by it.
fn call_loses_all(
    alloc: Global,
    is_quoted: bool,
    changed: &[u8],
    argument: Argument,
) -> Option<bool> {
    let said = macro_and_call(alloc, is_quoted, changed, argument)?;
    of_last(alloc, "", said, |form| says(form, Event::All))
}

// Whether calls stand whose arguments are what the macro wants.
fn calls_stand(alloc: Global) -> Option<bool> {
    Some(
        call_stands(alloc, false, b"V", argument(b"DEPTH")?)?
            && call_stands(alloc, false, b"V", number())?
            && call_stands(alloc, true, b"V", quoted(b"A")?)?,
    )
}

#[test]
fn a_call_of_a_macro_above_stands(rt: HostRuntime) {
    assert!(rt; calls_stand(rt.alloc()) == Some(true));
}

// Whether all is lost by calls with a name for a value, a value for a name, and a value for a variable that the macro sets.
fn calls_lose_all(alloc: Global) -> Option<bool> {
    Some(
        call_loses_all(alloc, false, b"V", quoted(b"A")?)?
            && call_loses_all(alloc, true, b"V", number())?
            && call_loses_all(alloc, false, b"P", number())?,
    )
}

#[test]
fn a_call_that_its_macro_does_not_fit_loses_all(rt: HostRuntime) {
    assert!(rt; calls_lose_all(rt.alloc()) == Some(true));
}

// Whether all is lost by a call of a macro that stands nowhere.
fn no_macro_loses_all(alloc: Global) -> Option<bool> {
    let said = alone(alloc, call(alloc, number())?.form)?;
    of_last(alloc, "", said, |form| says(form, Event::All))
}

#[test]
fn a_call_of_no_macro_loses_all(rt: HostRuntime) {
    assert!(rt; no_macro_loses_all(rt.alloc()) == Some(true));
}

// Whether it isn't known in a text how a test goes.
fn loses_test(alloc: Global, text: &str) -> Option<bool> {
    let said = alone(alloc, Form::Test(Expr::leaf(Term::Truth(true))))?;
    of_last(alloc, text, said, |form| has_unknown(form))
}

#[test]
fn a_word_that_stands_alone_may_split_a_block(rt: HostRuntime) {
    let alloc = rt.alloc();
    assert!(rt; loses_test(alloc, "IF/(.TRUE.)\nOTHER\nENDIF\n") == Some(true));
    assert!(rt; loses_test(alloc, "IF/(.TRUE.)\nOTHER/1\nENDIF\n") == Some(false));
}

// Whether a program ends at a jump to a label that stands nowhere.
fn leap_ends(alloc: Global) -> Option<bool> {
    let said = alone(alloc, Form::Leap(variable(b"L")?.name))?;
    of_last(alloc, "", said, |form| says(form, Event::Ends))
}

#[test]
fn a_jump_to_no_label_ends(rt: HostRuntime) {
    assert!(rt; leap_ends(rt.alloc()) == Some(true));
}
