//! The versions of codes.

ghost use Rattle.std.specs.Prelude.{◌≡◌};
ghost use Rattle.vcm_code.specs.Words.{is_of_select, word_of};
ghost use Rattle.vcm_code.specs.Ranges.{has_selection, version_for};

use crate::op::{OwnedOp, OwnedStatement};

/// The version of a code, which its image and its listing tell: the second one has SELECT, CASE, ENDCAS, DFTCAS and ENDSEL, the first one has all
/// else.
#[derive(Clone, Copy)]
pub enum Version {
    One,
    Two,
}

// Whether a statement is SELECT, CASE, ENDCAS, DFTCAS or ENDSEL.
fn is_selection(op: &OwnedOp) -> bool
    ensures { result ≡ is_of_select (word_of op.now) }
{
    match op {
        OwnedOp::Select(_, _, _) | OwnedOp::Case | OwnedOp::EndCas(_) => true,
        OwnedOp::DftCas | OwnedOp::EndSel => true,
        _ => false,
    }
}

/// Whether one of these statements is SELECT, CASE, ENDCAS, DFTCAS or ENDSEL, which the first version doesn't have.
pub fn has_selection(statements: &[OwnedStatement]) -> bool
    ensures { result ≡ has_selection statements.now }
{
    for statement in statements {
        if is_selection(&statement.op) {
            return true;
        }
    }
    false
}

/// The first version that has all these statements.
pub fn version_for(statements: &[OwnedStatement]) -> Version
    ensures { result ≡ version_for statements.now }
{
    if has_selection(statements) {
        Version::Two
    } else {
        Version::One
    }
}
