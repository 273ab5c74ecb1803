//! Reads the fields of choices, loops and jumps, each statement in its form, from the left.

ghost use Rattle.vcm_expr.specs.Parsing.{ReadAs};
ghost use Rattle.vcm_syntax.specs.Forms.{if_of, step_of, do_of, jumpto_of, select_of, case_of};

use crate::figures::integer;
use crate::heads::Prefix;
use crate::named::{aim, index};
use crate::places::{behind, complete, expression, field, test};
use std::alloc::Global;
use vcm_expr::{Expr, read_expr};
use vcm_forms::{Form, Rounds};
use vcm_lines::{Phrase, SourceFault};

pub(crate) fn iff(alloc: Global, line: u32, fields: &[Phrase<'_>]) -> Result<Form, SourceFault>
    ensures { ReadAs line (λ f. f) result (if_of Prefix.Bare fields.now) }
{
    let condition = test(alloc, line, fields, 0)?;
    complete(line, behind(fields, 1), Form::Test(condition))
}

/// The increment of rounds, if a field is left.
fn step(alloc: Global, line: u32, fields: &[Phrase<'_>]) -> Result<Option<Expr>, SourceFault>
    ensures { ReadAs line (λ e. e) result (step_of fields.now) }
{
    match fields {
        [] => Ok(None),
        [increment, rest @ ..] => {
            let increment = read_expr(alloc, line, increment)?;
            complete(line, rest, Some(increment))
        }
    }
}

pub(crate) fn repeat(alloc: Global, line: u32, fields: &[Phrase<'_>]) -> Result<Form, SourceFault>
    ensures { ReadAs line (λ f. f) result (do_of Prefix.Bare fields.now) }
{
    let variable = index(line, fields, 0)?;
    let initial = expression(alloc, line, fields, 1)?;
    let limit = expression(alloc, line, fields, 2)?;
    let increment = step(alloc, line, behind(fields, 3))?;
    Ok(Form::Repeat(Rounds {
        variable,
        initial,
        limit,
        increment,
    }))
}

pub(crate) fn jumpto(line: u32, fields: &[Phrase<'_>]) -> Result<Form, SourceFault>
    ensures { ReadAs line (λ f. f) result (jumpto_of Prefix.Bare fields.now) }
{
    let name = aim(line, field(line, fields, 0)?)?;
    complete(line, behind(fields, 1), Form::Leap(name))
}

pub(crate) fn select(alloc: Global, line: u32, fields: &[Phrase<'_>]) -> Result<Form, SourceFault>
    ensures { ReadAs line (λ f. f) result (select_of Prefix.Bare fields.now) }
{
    let value = expression(alloc, line, fields, 0)?;
    complete(line, behind(fields, 1), Form::Choose(value))
}

pub(crate) fn case(line: u32, fields: &[Phrase<'_>]) -> Result<Form, SourceFault>
    ensures { ReadAs line (λ f. f) result (case_of Prefix.Bare fields.now) }
{
    let value = integer(line, fields, 0)?;
    complete(line, behind(fields, 1), Form::Case(value))
}
