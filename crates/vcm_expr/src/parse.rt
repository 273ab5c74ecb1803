//! Expressions from the words of a statement.

ghost use Rattle.std.specs.Prelude.{◌≡◌, ◌≤◌, length, slice_range, IfOk, IfErr};
ghost use Rattle.vcm_lines.specs.Fault.{NoMemoryOr};
ghost use Rattle.vcm_lines.specs.Lexemes.{lexemes};
ghost use Rattle.vcm_expr.specs.Parsing.{IsExpr, BreaksExpr, At, ReadAs, expr_of};

use crate::expression::Expr;
use crate::parser::whole;
use crate::symbol::Symbols;
use std::alloc::Global;
use vcm_lines::{Logical, Phrase, SourceFault};

/// The expression that the words of a statement spell, from the place `from` to before the place `to`; the first word stands at 0.
///
/// # Errors
///
/// The leftmost fault, told at the statement's first line: words that are no expression (bad syntax), a number that is too fine or too large,
/// parentheses more than 32 deep, an expression more than 32 deep or of more than 512 nodes. Want of memory.
pub fn parse_expr(
    alloc: Global,
    logical: &Logical,
    from: usize,
    to: usize,
) -> Result<Expr, SourceFault>
    requires { (from ≤ to) × (to ≤ length logical.now.words) }
    ensures ok { IfOk result (IsExpr (slice_range (lexemes logical.now.text logical.now.words) from to)) }
    ensures fault { IfErr result (NoMemoryOr
        (At logical.now.line (BreaksExpr (slice_range (lexemes logical.now.text logical.now.words) from to)))) }
    ensures read { ReadAs logical.now.line (λ e. e) result (expr_of (slice_range (lexemes logical.now.text logical.now.words) from to)) }
{
    read_expr(alloc, logical.line, &Phrase::of(logical).part(from, to))
}

/// The expression that words spell.
///
/// # Errors
///
/// As those of `parse_expr`, told at `line`.
pub fn read_expr(alloc: Global, line: u32, words: &Phrase<'_>) -> Result<Expr, SourceFault>
    ensures { ReadAs line (λ e. e) result (expr_of words.now) }
{
    whole(alloc, line, Symbols::new(words.copy()))
}
