//! Whether a code in memory is valid.

ghost use Rattle.std.specs.Prelude.{length};
ghost use Rattle.std.specs.List.{AllByRecursion};
ghost use Rattle.vcm_code.specs.Deciding.{Tells};
ghost use Rattle.vcm_code.specs.Valid.{Ends, IsValid};
ghost use Rattle.vcm_code.specs.Checks.{AllHold, op_checks};
ghost use Rattle.vcm_loader.specs.inner.Holding.{LineHolds};

use crate::judging::{is_end, judge_operation};
use vcm_code::{Code, OwnedOp, OwnedStatement};
use vcm_num::Kind;

// Whether a statement fits.
fn holds(op: &OwnedOp, kinds: &[Kind], features: usize, frames: usize, statements: usize) -> bool
    ensures { Tells result (AllHold (op_checks (record { kinds = kinds.now; features = features; frames = frames; statements = statements }) op.now)) }
{
    match judge_operation(op, kinds, features, frames, statements) {
        Ok(()) => true,
        Err(_) => false,
    }
}

// Whether all statements do.
fn all_hold(statements: &[OwnedStatement], kinds: &[Kind], features: usize, frames: usize) -> bool
    ensures { Tells result (AllByRecursion (LineHolds (record { kinds = kinds.now; features = features; frames = frames; statements = length statements.now })) statements.now) }
{
    let count = statements.len();
    for statement in statements {
        if !holds(&statement.op, kinds, features, frames, count) {
            return false;
        }
    }
    true
}

// Whether there is a last statement, and it is ENDFIL.
fn ends(statements: &[OwnedStatement]) -> bool
    ensures { Tells result (Ends statements.now) }
{
    match statements.last() {
        Some(last) => is_end(&last.op),
        None => false,
    }
}

/// Whether a code is valid: the indexes of its statements stand in its tables, targets are numbers of statements, expressions and variables
/// have the kinds that their places want, no stack of an expression holds more than 32, and there is a last statement, which is ENDFIL. Takes
/// no memory.
pub fn is_valid(code: &Code) -> bool
    ensures { Tells result (IsValid code.now) }
{
    let tables = &code.tables;
    let statements = code.statements.as_slice();
    all_hold(
        statements,
        tables.kinds(),
        tables.features().len(),
        tables.frames().len(),
    ) && ends(statements)
}
