//! The text of a program, as its statements and the CALLs that it carries out.

ghost use Rattle.std.specs.Prelude.{◌≡◌, IfOk};
ghost use Rattle.vcm_backtrace.specs.Sources.{AreReadAs, IsSource};

use std::alloc::Global;
use std::marker::Model;
use vcm_calls::{Called, Calls, calls_of};
use vcm_forms::Statement;
use vcm_lines::{Logical, SourceFault, logical_lines};
use vcm_syntax::parse_statement;

/// The text of a program, its statements, the CALLs that it carries out, and the expansion that each of its numbered statements stands in. Contracts see it as a `Sourced`.
#[derive(Drop)]
pub struct Source<'a> {
    pub(crate) text: &'a [u8],
    pub(crate) statements: Vec<Statement>,
    pub(crate) calls: Vec<Called>,
    pub(crate) expansions: Vec<u32>,
}

impl<'a> Model for Source<'a> {
    ghost use Rattle.std.specs.Coded.{codes};
    ghost use Rattle.std.specs.Prelude.{◌≡◌};
    ghost use Rattle.vcm_macro.specs.Rules.{kept};
    ghost use Rattle.vcm_macro.specs.Walk.{walk};
    ghost use Rattle.vcm_calls.specs.Carried.{carried_out};
    ghost use Rattle.vcm_calls.specs.Chains.{expansions as expansions_in};
    ghost use Rattle.vcm_backtrace.specs.Sources.{Sourced};
    ghost use Rattle.vcm_forms.specs.contracts.statement.Statement as statement;

    ghost Value = { Sourced };

    ghost coded = { Prim.hlevel (codes, statement.the_row.coded) };

    ghost view = { λ s. record { text = s.text.now; statements = s.statements.items } };

    ghost invariant = { λ s. (s.calls.items ≡ carried_out s.statements.items) × (s.expansions.items ≡ expansions_in (kept (walk s.statements.items))) };
}

// The statements of lines.
fn read_all(alloc: Global, lines: &[Logical]) -> Result<Vec<Statement>, SourceFault>
    ensures { IfOk result (λ ss. AreReadAs lines.now ss.items) }
{
    let mut statements = Vec::with_capacity(alloc, lines.len())?;
    for line in lines {
        let statement = parse_statement(alloc, line)?;
        statements.push(statement)?;
    }
    Ok(statements)
}

/// The source that a text is.
///
/// Errors: want of memory; the refusal of a text whose lines, statements or macros have a fault.
pub fn source_of(alloc: Global, text: &[u8]) -> Result<Source<'_>, SourceFault>
    ensures { IfOk result (λ s. IsSource text.now s) }
{
    let lines = logical_lines(alloc, text)?;
    let known = lines.as_slice();
    let Calls { calls, expansions } = calls_of(alloc, read_all(alloc, known)?)?;
    let statements = read_all(alloc, known)?;
    Ok(Source {
        text,
        statements,
        calls,
        expansions,
    })
}
