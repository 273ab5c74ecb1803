//! Reads statements, one behind the other: what each of them does to a program.

ghost use Rattle.std.specs.Prelude.{◌≡◌, ◌&&◌, Some, None, IfOk, IfErr};
ghost use Rattle.vcm_lines.specs.Fault.{NoMemoryOr};
ghost use Rattle.vcm_spec.specs.declared.simple.Simple.TheVariants.{Text};
ghost use Rattle.vcm_tree.specs.Resolving.{is_measuring, is_barred, is_in_block, acted, stated, resolved_here};
ghost use Rattle.vcm_program.specs.Telling.{ToldAt};
ghost use Rattle.vcm_tree.specs.inner.Growing.{blocks_of};
ghost use Rattle.vcm_tree.specs.inner.Taking.{behind_with, behind_of, Acts, ActedAt, unselected, Takes, TakesStated};

use crate::builder::{Builder, bad_body, unbalanced};
use crate::measuring::{
    configure, declare_feature, measure, obtain, recall, report, rotate, shift, touch,
};
use crate::resolving::{assign, declare_all, go_to, mark, repeat, select, test};
use crate::selection::Selection;
use std::alloc::{AllocError, Global};
use vcm_expr::Names;
use vcm_forms::{Form, OperatorText, Statement};
use vcm_lines::SourceFault;
use vcm_nodes::{Action, Label, Labels};
use vcm_program::Titles;
use vcm_spec::Simple;

/// What is read of a program: its variables, its features and frames, its jump labels, its blocks, and whether the `MEAS` block that is open
/// has its `PTMEAS`.
#[derive(Drop)]
pub(crate) struct Progress {
    pub(crate) names: Names,
    pub(crate) features: Titles,
    pub(crate) frames: Titles,
    pub(crate) touched: bool,
    pub(crate) labels: Labels,
    pub(crate) builder: Builder,
}

// Whether a statement is one that doesn't stand in a `MEAS` block.
fn is_barred(form: &Form) -> bool
    ensures { result ≡ is_barred form.now }
{
    match form {
        Form::Assignment(_, _) | Form::Say(_) | Form::Test(_) | Form::Repeat(_) => true,
        Form::Mark(_) | Form::Leap(_) | Form::Feature(_, _, _) | Form::Measure(_) => true,
        Form::Configure(_, _) | Form::Shift(_, _) | Form::Rotation(_, _, _) => true,
        Form::Restore(_) | Form::Query(_, _, _, _) | Form::Report(_, _) => true,
        Form::Choose(_) => true,
        _ => false,
    }
}

// Whether a statement is one that stands in a block only, where a SELECT is open.
fn is_in_block(form: &Form) -> bool
    ensures { result ≡ is_in_block form.now }
{
    match form {
        Form::Declaration(_, _) => true,
        Form::Case(_) | Form::Default | Form::ChooseEnd => false,
        _ => form.is_counted(),
    }
}

/// Reads one statement more, where the next block of a `SELECT` is waited for or not. Gives the `SELECT` whose next block is waited for
/// behind it.
pub(crate) fn take(
    alloc: Global,
    read: &mut Progress,
    selection: Option<Selection>,
    statement: &Statement,
    expansion: u32,
) -> Result<Option<Selection>, SourceFault>
    ensures ok { IfOk result (Takes (record { statement = statement.now; expansion = expansion }) read.old selection read.new) }
    ensures fault { IfErr result (NoMemoryOr (ToldAt statement.now.line (resolved_here (behind_with read.old selection) (record { statement = statement.now; expansion = expansion })))) }
{
    match selection {
        Some(selection) => take_choosing(alloc, read, selection, statement, expansion),
        None => take_placed(alloc, read, statement, expansion),
    }
}

// Reads one statement more where a SELECT is open and none of its blocks.
fn take_choosing(
    alloc: Global,
    read: &mut Progress,
    selection: Selection,
    statement: &Statement,
    expansion: u32,
) -> Result<Option<Selection>, SourceFault>
    ensures ok { IfOk result (Takes (record { statement = statement.now; expansion = expansion }) read.old (Some selection) read.new) }
    ensures fault { IfErr result (NoMemoryOr (ToldAt statement.now.line (resolved_here (behind_with read.old (Some selection)) (record { statement = statement.now; expansion = expansion })))) }
{
    let line = statement.line;
    if is_in_block(&statement.form) {
        return Err(unbalanced(line));
    }
    match &statement.form {
        Form::Case(value) => {
            let value = Some(*value);
            read.builder.begin_case(alloc, line, selection, value)?;
            Ok(None)
        }
        Form::Default => {
            read.builder.begin_case(alloc, line, selection, None)?;
            Ok(None)
        }
        Form::ChooseEnd => {
            read.builder.end_select(line, selection)?;
            Ok(None)
        }
        _ => Ok(Some(selection)),
    }
}

// Whether the innermost block is that of a MEAS where a statement doesn't stand.
fn is_barred_in(builder: &Builder, form: &Form) -> bool
    ensures { result ≡ (is_measuring (blocks_of builder.now) && is_barred form.now) }
{
    builder.measuring().is_some() && is_barred(form)
}

// Reads one statement more in a block.
#[tactic(auto, using(crate::proofs::Choosing::placed_is))]
fn take_placed(
    alloc: Global,
    read: &mut Progress,
    statement: &Statement,
    expansion: u32,
) -> Result<Option<Selection>, SourceFault>
    ensures ok { IfOk result (Takes (record { statement = statement.now; expansion = expansion }) read.old None read.new) }
    ensures fault { IfErr result (NoMemoryOr (ToldAt statement.now.line (resolved_here (behind_of read.old) (record { statement = statement.now; expansion = expansion })))) }
{
    if is_barred_in(&read.builder, &statement.form) {
        return Err(bad_body(statement.line));
    }
    take_stated(alloc, read, statement, expansion)
}

// Reads one statement more in a block where it may stand.
fn take_stated(
    alloc: Global,
    read: &mut Progress,
    statement: &Statement,
    expansion: u32,
) -> Result<Option<Selection>, SourceFault>
    ensures ok { IfOk result (TakesStated (record { statement = statement.now; expansion = expansion }) read.old None read.new) }
    ensures fault { IfErr result (NoMemoryOr (ToldAt statement.now.line (stated (behind_of read.old) expansion statement.now.form))) }
{
    match simple(alloc, read, statement)? {
        Some(action) => {
            read.builder.act(statement.line, action)?;
            Ok(None)
        }
        None => take_structured(alloc, read, statement, expansion),
    }
}

// A text that is shown.
fn say(alloc: Global, text: &OperatorText) -> Result<Action, AllocError>
    ensures { IfOk result (λ a. a ≡ Text text.now) }
{
    let text = OperatorText::copied(alloc, text.as_bytes())?;
    Ok(Simple::Text(text))
}

// The simple statement that a statement is, if it is one.
fn simple(
    alloc: Global,
    read: &mut Progress,
    statement: &Statement,
) -> Result<Option<Action>, SourceFault>
    ensures ok { IfOk result (Acts statement.now read.old read.new) }
    ensures fault { IfErr result (NoMemoryOr (ActedAt statement.now (behind_of read.old))) }
{
    let line = statement.line;
    let names = &read.names;
    match &statement.form {
        Form::Assignment(target, value) => Ok(Some(assign(alloc, line, names, target, value)?)),
        Form::Move(place) => Ok(Some(go_to(alloc, line, names, place)?)),
        Form::Home => Ok(Some(Simple::GoHome)),
        Form::Say(text) => Ok(Some(say(alloc, text)?)),
        Form::Feature(name, place, toward) => {
            let (features, name) = (&mut read.features, name.copy());
            let action = declare_feature(alloc, line, features, names, name, place, *toward)?;
            Ok(Some(action))
        }
        Form::Touch(place, toward) => {
            let builder = &read.builder;
            let action = touch(alloc, line, builder, read.touched, names, place, *toward)?;
            read.touched = true;
            Ok(Some(action))
        }
        Form::Configure(which, length) => {
            Ok(Some(configure(alloc, line, names, *which, length)?))
        }
        Form::Shift(name, offsets) => {
            let frames = &mut read.frames;
            let offsets = offsets.as_slice();
            let action = shift(alloc, line, frames, names, name.copy(), offsets)?;
            Ok(Some(action))
        }
        Form::Rotation(name, axis, quarters) => {
            let frames = &mut read.frames;
            Ok(Some(rotate(line, frames, name.copy(), *axis, *quarters)?))
        }
        Form::Restore(name) => Ok(Some(recall(line, &read.frames, name)?)),
        Form::Query(target, source, name, word) => {
            let features = &read.features;
            let action = obtain(line, features, names, target, *source, name, *word)?;
            Ok(Some(action))
        }
        Form::Report(source, name) => Ok(Some(report(line, &read.features, *source, name)?)),
        _ => Ok(None),
    }
}

// No SELECT waits for its next block behind a statement that is read so.
fn unselected(read: Result<(), SourceFault>) -> Result<Option<Selection>, SourceFault>
    ensures { result ≡ unselected read }
{
    read?;
    Ok(None)
}

// Reads a statement that isn't simple.
#[tactic(auto, using(crate::proofs::Choosing::case_fails, crate::proofs::Choosing::select_end_fails))]
fn take_structured(
    alloc: Global,
    read: &mut Progress,
    statement: &Statement,
    expansion: u32,
) -> Result<Option<Selection>, SourceFault>
    requires { acted (behind_of read.old) statement.now.form ≡ None }
    ensures ok { IfOk result (TakesStated (record { statement = statement.now; expansion = expansion }) read.old None read.new) }
    ensures fault { IfErr result (NoMemoryOr (ToldAt statement.now.line (stated (behind_of read.old) expansion statement.now.form))) }
{
    let line = statement.line;
    match &statement.form {
        Form::Declaration(kind, declared) => {
            declare_all(line, &mut read.names, expansion, *kind, declared.as_slice())?;
            Ok(None)
        }
        Form::Test(e) => unselected(test(alloc, line, &read.names, &mut read.builder, e)),
        Form::Otherwise => unselected(read.builder.divide(alloc, line)),
        Form::TestEnd => unselected(read.builder.end_test(line)),
        Form::Repeat(r) => unselected(repeat(alloc, line, &read.names, &mut read.builder, r)),
        Form::RepeatEnd => unselected(read.builder.end_repeat(line)),
        Form::Mark(name) => {
            let label = Label::new(name.copy(), expansion);
            mark(line, &mut read.labels, &mut read.builder, label)?;
            Ok(None)
        }
        Form::Leap(name) => {
            read.builder.leap(line, Label::new(name.copy(), expansion))?;
            Ok(None)
        }
        Form::Measure(name) => {
            measure(alloc, line, &read.features, &mut read.builder, name)?;
            read.touched = false;
            Ok(None)
        }
        Form::MeasureEnd => unselected(read.builder.end_measure(line, read.touched)),
        Form::Choose(value) => Ok(Some(select(alloc, line, &read.names, value)?)),
        Form::CaseEnd => Ok(Some(read.builder.end_case(line)?)),
        Form::Case(_) => Err(unbalanced(line)),
        Form::Default => Err(unbalanced(line)),
        Form::ChooseEnd => Err(unbalanced(line)),
        Form::Ending => unselected(read.builder.end(line)),
        _ => Ok(None),
    }
}
