//! Reads a statement's fields, each statement in its form, from the left: of several faults the leftmost is told.

ghost use Rattle.vcm_expr.specs.Parsing.{ReadAs};
ghost use Rattle.vcm_syntax.specs.Readers.{each_of};
ghost use Rattle.vcm_syntax.specs.Places.{variable_of};
ghost use Rattle.vcm_syntax.specs.Forms.{declaration_of, decl_of, assign_of, place_of, goto_of, say_of, form_of};
ghost use Rattle.vcm_syntax.specs.inner.Steps.{ignored_of};

use crate::control::{case, iff, jumpto, repeat, select};
use crate::heads::{Letter, Major, Prefix};
use crate::macros::{call, macro_form};
use crate::measuring::{feat, meas, obtain, output, ptmeas, recall, rotate, snset, trans};
use crate::named::{kind, lengths, unscoped, variable};
use crate::opening::{dmismn, units};
use crate::places::{behind, complete, expression, message, some_field, spot, target, word_at};
use std::alloc::Global;
use vcm_forms::{Form, Notice};
use vcm_items::{Name, VariableName};
use vcm_lines::{FaultCode, Phrase, SourceFault, bad_syntax};
use vcm_num::Items;

/// Variables' names, one in each field.
fn variables(
    alloc: Global,
    line: u32,
    fields: &[Phrase<'_>],
) -> Result<Items<VariableName>, SourceFault>
    ensures { ReadAs line (λ names. names) result (each_of variable_of fields.now) }
{
    let mut names = Items::new(alloc);
    for field in fields {
        let name = variable(line, field)?;
        names.push(name)?;
    }
    Ok(names)
}

/// A kind, and the names of variables.
fn declaration(alloc: Global, line: u32, fields: &[Phrase<'_>]) -> Result<Form, SourceFault>
    ensures { ReadAs line (λ f. f) result (declaration_of fields.now) }
{
    let kind = kind(line, fields, 0)?;
    let names = behind(fields, 1);
    some_field(line, names)?;
    let names = variables(alloc, line, names)?;
    Ok(Form::Declaration(kind, names))
}

fn decl(alloc: Global, line: u32, fields: &[Phrase<'_>]) -> Result<Form, SourceFault>
    ensures { ReadAs line (λ f. f) result (decl_of Prefix.Bare fields.now) }
{
    declaration(alloc, line, unscoped(fields))
}

fn assign(
    alloc: Global,
    line: u32,
    variable: &Name,
    fields: &[Phrase<'_>],
) -> Result<Form, SourceFault>
    ensures { ReadAs line (λ f. f) result (assign_of (Prefix.Assigned variable.now) fields.now) }
{
    let value = expression(alloc, line, fields, 0)?;
    let form = Form::Assignment(target(variable), value);
    complete(line, behind(fields, 1), form)
}

/// Three expressions, and nothing more.
fn place(alloc: Global, line: u32, fields: &[Phrase<'_>]) -> Result<Form, SourceFault>
    ensures { ReadAs line (λ f. f) result (place_of fields.now) }
{
    let spot = spot(alloc, line, fields)?;
    complete(line, behind(fields, 3), Form::Move(spot))
}

fn goto(alloc: Global, line: u32, fields: &[Phrase<'_>]) -> Result<Form, SourceFault>
    ensures { ReadAs line (λ f. f) result (goto_of Prefix.Bare fields.now) }
{
    place(alloc, line, lengths(fields))
}

fn say(alloc: Global, line: u32, fields: &[Phrase<'_>]) -> Result<Form, SourceFault>
    ensures { ReadAs line (λ f. f) result (say_of Prefix.Bare fields.now) }
{
    word_at(line, fields, 0, b"OPER", FaultCode::Unsupported)?;
    let text = message(alloc, line, fields, 1)?;
    complete(line, behind(fields, 2), Form::Say(text))
}

/// A word without effect, behind what may stand before it.
fn passed(line: u32, notice: Notice, fields: &[Phrase<'_>]) -> Result<Form, SourceFault>
    ensures { ReadAs line (λ f. f) result (ignored_of notice fields.now) }
{
    some_field(line, fields)?;
    Ok(Form::Ignored(notice))
}

/// The statement of a major word with nothing before it.
fn bare_form(
    alloc: Global,
    line: u32,
    major: Major,
    fields: &[Phrase<'_>],
) -> Result<Form, SourceFault>
    ensures { ReadAs line (λ f. f) result (form_of major Prefix.Bare fields.now) }
{
    match major {
        Major::Dmismn => dmismn(line, fields),
        Major::Units => units(line, fields),
        Major::Decl => decl(alloc, line, fields),
        Major::Goto => goto(alloc, line, fields),
        Major::Gohome => complete(line, fields, Form::Home),
        Major::Text => say(alloc, line, fields),
        Major::Endfil => complete(line, fields, Form::Ending),
        Major::If => iff(alloc, line, fields),
        Major::Else => complete(line, fields, Form::Otherwise),
        Major::Endif => complete(line, fields, Form::TestEnd),
        Major::Do => repeat(alloc, line, fields),
        Major::Enddo => complete(line, fields, Form::RepeatEnd),
        Major::Jumpto => jumpto(line, fields),
        Major::Select => select(alloc, line, fields),
        Major::Case => case(line, fields),
        Major::Endcas => complete(line, fields, Form::CaseEnd),
        Major::Dftcas => complete(line, fields, Form::Default),
        Major::Endsel => complete(line, fields, Form::ChooseEnd),
        Major::Meas => meas(line, fields),
        Major::Ptmeas => ptmeas(alloc, line, fields),
        Major::Endmes => complete(line, fields, Form::MeasureEnd),
        Major::Snset => snset(alloc, line, fields),
        Major::Recall => recall(line, fields),
        Major::Output => output(line, fields),
        Major::Endmac => complete(line, fields, Form::MacroEnd),
        Major::Call => call(alloc, line, fields),
        Major::Passed(Notice::Snsdef | Notice::Vform) => Err(bad_syntax(line)),
        Major::Passed(notice) => passed(line, notice, fields),
        Major::Assign | Major::Obtain => Err(bad_syntax(line)),
        Major::Feat | Major::Trans | Major::Rotate | Major::Macro => Err(bad_syntax(line)),
    }
}

/// The statement of a major word behind a variable and an equals sign.
fn assigned_form(
    alloc: Global,
    line: u32,
    major: Major,
    variable: &Name,
    fields: &[Phrase<'_>],
) -> Result<Form, SourceFault>
    ensures { ReadAs line (λ f. f) result (form_of major (Prefix.Assigned variable.now) fields.now) }
{
    match major {
        Major::Assign => assign(alloc, line, variable, fields),
        Major::Obtain => obtain(line, variable, fields),
        _ => Err(bad_syntax(line)),
    }
}

/// The statement of a major word behind a title.
fn titled_form(
    alloc: Global,
    line: u32,
    major: Major,
    letter: Option<Letter>,
    name: &Name,
    fields: &[Phrase<'_>],
) -> Result<Form, SourceFault>
    ensures { ReadAs line (λ f. f) result (form_of major (Prefix.Titled letter name.now) fields.now) }
{
    match (letter, major) {
        (Some(Letter::F), Major::Feat) => feat(alloc, line, name, fields),
        (Some(Letter::D), Major::Trans) => trans(alloc, line, name, fields),
        (Some(Letter::D), Major::Rotate) => rotate(line, name, fields),
        (Some(Letter::M), Major::Macro) => macro_form(alloc, line, name, fields),
        (Some(Letter::S), Major::Passed(Notice::Snsdef)) => passed(line, Notice::Snsdef, fields),
        (Some(Letter::V), Major::Passed(Notice::Vform)) => passed(line, Notice::Vform, fields),
        _ => Err(bad_syntax(line)),
    }
}

/// The statement of a major word.
pub(crate) fn read_form(
    alloc: Global,
    line: u32,
    major: Major,
    prefix: &Prefix,
    fields: &[Phrase<'_>],
) -> Result<Form, SourceFault>
    ensures { ReadAs line (λ f. f) result (form_of major prefix.now fields.now) }
{
    match prefix {
        Prefix::Bare => bare_form(alloc, line, major, fields),
        Prefix::Assigned(variable) => assigned_form(alloc, line, major, variable, fields),
        Prefix::Titled(letter, name) => titled_form(alloc, line, major, *letter, name, fields),
    }
}
