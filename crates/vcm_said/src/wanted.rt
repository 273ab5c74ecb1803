//! Expressions of fields, whose values may not be known.

ghost use Rattle.std.specs.Prelude.{◌≡◌, IfOk};
ghost use Rattle.vcm_expr.specs.Parsing.{expr_of};
ghost use Rattle.vcm_said.specs.Said.{known_or, wanted_in};

use std::alloc::Global;
use vcm_events::unknown;
use vcm_expr::{Expr, read_expr};
use vcm_lines::{FaultCode, Phrase};
use vcm_num::NoMemory;

// The expression that words spell, or one whose value isn't known.
fn known_or(alloc: Global, words: &Phrase<'_>) -> Result<Expr, NoMemory>
    ensures { IfOk result (λ e. e ≡ known_or (expr_of words.now)) }
{
    match read_expr(alloc, 1, words) {
        Ok(value) => Ok(value),
        Err(fault) => match fault.code {
            FaultCode::NoMemory => Err(NoMemory),
            _ => Ok(unknown()),
        },
    }
}

/// How many points are wanted.
pub(crate) fn wanted(alloc: Global, words: Option<Phrase<'_>>) -> Result<Expr, NoMemory>
    ensures { IfOk result (λ e. e ≡ wanted_in words.entry) }
{
    match words {
        Some(words) => known_or(alloc, &words),
        None => Ok(unknown()),
    }
}
