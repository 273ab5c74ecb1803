//! What becomes of statements that are read in two ways.

ghost use Rattle.std.specs.Prelude.{◌≡◌, ◌++◌, map, IfOk, OnOk};
ghost use Rattle.std.specs.List.{list_any};
ghost use Rattle.vcm_forms.specs.declared.statement.Form.TheVariants.{Assignment};
ghost use Rattle.vcm_events.specs.Unknown.{unknown};
ghost use Rattle.vcm_doubts.specs.Settled.{no_macros, macros_behind, is_doubtful_piece, is_doubtful_value, is_doubtful_name, is_doubtful, is_doubtful_call, settled_form, settled_from, settled};
ghost use Rattle.vcm_doubts.specs.inner.Instead.{is_doubtful_point, is_in_doubt, instead, listed, becomes};

use crate::doubts::Doubts;
use crate::macros::Macros;
use std::alloc::Global;
use vcm_events::{Event, gained, lost, unknown, unknown_rounds};
use vcm_expr::{Expr, Piece};
use vcm_forms::{Argument, Form, Statement, Target};
use vcm_items::Name;
use vcm_lines::Logical;
use vcm_num::{Axis, NoMemory};

// Whether a part of an argument is a variable that has another value by name than by value, or isn't followed.
fn is_doubtful_piece(doubts: &Doubts, piece: &Piece) -> bool
    ensures { result ≡ is_doubtful_piece doubts.now piece.now }
{
    match piece {
        Piece::Variable(name, _) => {
            let name = name.as_bytes();
            doubts.is_changed(name) || doubts.is_unfollowed(name)
        }
        _ => false,
    }
}

// Whether one of these parts is.
fn has_doubtful_piece(doubts: &Doubts, pieces: &[Piece]) -> bool
    ensures { result ≡ list_any (is_doubtful_piece doubts.now) pieces.now }
{
    pieces.iter().any(|piece| is_doubtful_piece(doubts, piece))
}

// Whether a value that an argument may be is doubtful.
fn is_doubtful_value(doubts: &Doubts, value: &Option<Expr>) -> bool
    ensures { result ≡ is_doubtful_value doubts.now value.now }
{
    match value {
        Some(value) => has_doubtful_piece(doubts, value.pieces()),
        None => false,
    }
}

// Whether a name that an argument may be is spelled in two ways.
fn is_doubtful_name(doubts: &Doubts, name: &Option<Name>) -> bool
    ensures { result ≡ is_doubtful_name doubts.now name.now }
{
    match name {
        Some(name) => doubts.is_spelled_twice(name.as_bytes()),
        None => false,
    }
}

// Whether an argument is read in two ways.
fn is_doubtful(doubts: &Doubts, argument: &Argument) -> bool
    ensures { result ≡ is_doubtful doubts.now argument.now }
{
    is_doubtful_name(doubts, &argument.name) || is_doubtful_value(doubts, &argument.value)
}

// Whether one of these arguments is.
fn has_doubtful(doubts: &Doubts, arguments: &[Argument]) -> bool
    ensures { result ≡ list_any (is_doubtful doubts.now) arguments.now }
{
    arguments
        .iter()
        .any(|argument| is_doubtful(doubts, argument))
}

// Whether it isn't known what a CALL does: a parameter is spelled in two ways, no macro above takes these arguments, the macro has a parameter in quotes outside labels, its name is spelled in two ways, or an argument is read in two ways.
fn is_doubtful_call(doubts: &Doubts, macros: &Macros, name: &Name, arguments: &[Argument]) -> bool
    ensures { result ≡ is_doubtful_call doubts.now macros.now.above name.now arguments.now }
{
    let name = name.as_bytes();
    doubts.is_twofold()
        || !macros.have(name, arguments)
        || macros.have_loose(doubts.loose(), name)
        || doubts.is_spelled_twice(name)
        || has_doubtful(doubts, arguments)
}

// Whether a point isn't tried: it is given no direction, and a name is spelled in two ways.
fn is_doubtful_point(doubts: &Doubts, given: &Option<Axis>) -> bool
    ensures { result ≡ is_doubtful_point doubts.now given.now }
{
    match given {
        Some(_) => false,
        None => doubts.has_spelled(),
    }
}

// Whether something of a statement is in doubt.
fn is_in_doubt(doubts: &Doubts, macros: &Macros, form: &Form) -> bool
    ensures { result ≡ is_in_doubt doubts.now macros.now form.now }
{
    match form {
        Form::Assignment(target, _) => doubts.is_unfollowed(target.name.as_bytes()),
        Form::Query(target, _, label, _) => {
            doubts.is_unfollowed(target.name.as_bytes())
                || doubts.is_spelled_twice(label.as_bytes())
        }
        Form::Test(_) => doubts.splits(),
        Form::Choose(_) => doubts.splits(),
        Form::Repeat(rounds) => {
            doubts.splits() || doubts.is_unfollowed(rounds.variable.name.as_bytes())
        }
        Form::Restore(label) => doubts.is_spelled_twice(label.as_bytes()),
        Form::Report(_, label) => doubts.is_spelled_twice(label.as_bytes()),
        Form::Touch(_, given) => is_doubtful_point(doubts, given),
        Form::Leap(name) => {
            let name = name.as_bytes();
            !doubts.reaches(macros.blocks(), name) || doubts.is_spelled_twice(name)
        }
        Form::Call(name, arguments) => {
            is_doubtful_call(doubts, macros, name, arguments.as_slice())
        }
        _ => false,
    }
}

// A value for a variable that isn't known.
fn loses_value(target: &Target) -> Form
    ensures { result ≡ Assignment target.now unknown }
{
    let name = target.name.copy();
    let expansion = target.expansion;
    Form::Assignment(Target { name, expansion }, unknown())
}

// What a statement is put as that is in doubt, if it is put as anything.
fn instead(form: &Form) -> Option<Form>
    ensures { result ≡ instead form.now }
{
    match form {
        Form::Assignment(target, _) => Some(loses_value(target)),
        Form::Query(target, _, _, _) => Some(loses_value(target)),
        Form::Test(_) => Some(Form::Test(unknown())),
        Form::Choose(_) => Some(Form::Choose(unknown())),
        Form::Repeat(_) => Some(Form::Repeat(unknown_rounds())),
        Form::Restore(_) => Some(lost(Event::Frame)),
        Form::Touch(_, _) => Some(gained(Event::UntriedPoint)),
        Form::Leap(_) => Some(gained(Event::Ends)),
        Form::Report(_, _) => Some(gained(Event::Unreported)),
        Form::Call(_, _) => Some(lost(Event::All)),
        _ => None,
    }
}

// A statement that is in doubt.
fn put_instead(out: &mut Vec<Statement>, statement: &Statement) -> Result<(), NoMemory>
    ensures { OnOk result (out.new.items ≡ out.old.items ++ map (λ f. record { line = statement.now.line; form = f }) (listed (instead statement.now.form))) }
{
    match instead(&statement.form) {
        Some(form) => {
            let line = statement.line;
            out.push(Statement { line, form })?;
            Ok(())
        }
        None => Ok(()),
    }
}

// A statement, by what is in doubt.
fn put(out: &mut Vec<Statement>, doubtful: bool, statement: Statement) -> Result<(), NoMemory>
    ensures { OnOk result (out.new.items ≡ out.old.items ++ map (λ f. record { line = statement.line; form = f }) (becomes doubtful statement.form)) }
{
    if doubtful {
        put_instead(out, &statement)
    } else {
        out.push(statement)?;
        Ok(())
    }
}

// One statement more.
#[tactic(auto, using(crate::proofs::Settles::settles))]
fn settle_statement(
    alloc: Global,
    out: &mut Vec<Statement>,
    doubts: &Doubts,
    macros: &mut Macros,
    statement: Statement,
) -> Result<(), NoMemory>
    ensures put { OnOk result (out.new.items ≡ out.old.items ++ map (λ f. record { line = statement.line; form = f }) (settled_form doubts.now macros.old statement.form)) }
    ensures macros { OnOk result (macros.new ≡ macros_behind macros.old statement.line statement.form) }
{
    let doubtful = is_in_doubt(doubts, macros, &statement.form);
    macros.pass(alloc, statement.line, &statement.form)?;
    put(out, doubtful, statement)
}

// All statements, one behind the other.
fn settle_all(
    alloc: Global,
    doubts: &Doubts,
    said: Vec<Statement>,
) -> Result<Vec<Statement>, NoMemory>
    ensures { IfOk result (λ ss. ss.items ≡ settled_from doubts.now no_macros said.items) }
{
    let mut out = Vec::new(alloc);
    let mut macros = Macros::new(alloc)?;
    for statement in said {
        settle_statement(alloc, &mut out, doubts, &mut macros, statement)?;
    }
    Ok(out)
}

/// What becomes of the statements that the lines of a text say: those that hang on something that is read in two ways are put as something that isn't known.
///
/// # Errors
///
/// Out of memory.
pub fn settle(
    alloc: Global,
    text: &[u8],
    lines: &[Logical],
    said: Vec<Statement>,
) -> Result<Vec<Statement>, NoMemory>
    ensures { IfOk result (λ ss. ss.items ≡ settled text.now lines.now said.items) }
{
    let doubts = Doubts::of(alloc, text, lines, &said)?;
    settle_all(alloc, &doubts, said)
}
