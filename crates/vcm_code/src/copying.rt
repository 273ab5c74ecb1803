//! Copies of statements whose expressions, texts and branches are read in place.

ghost use Rattle.std.specs.Prelude.{◌≡◌, IfOk};
ghost use Rattle.vcm_spec.specs.Simple.{with_forms};

use crate::branch::Branch;
use crate::op::{CodeStatement, Op, OwnedOp, OwnedSimple, OwnedStatement};
use std::alloc::Global;
use vcm_num::{Items, NoMemory};
use vcm_spec::{Item, Simple};

/// An expression, however its items are kept.
pub trait Expression {
    ghost use Rattle.std.specs.Prelude.{List};
    ghost use Rattle.vcm_spec.specs.declared.expression.Item.{Item};

    /// Its postfix items.
    ghost items: { Self → List Item };

    /// Its items, on their own.
    ///
    /// Errors: want of memory.
    fn to_items(&self, alloc: Global) -> Result<Items<Item>, NoMemory>
        ensures { IfOk result (λ copy. copy ≡ items self.now) };
}

/// An output line, however its bytes are kept.
pub trait OutputLine {
    ghost use Rattle.std.specs.Prelude.{List, ℕ};

    /// Its bytes.
    ghost bytes: { Self → List ℕ };

    /// Its bytes, on their own.
    ///
    /// Errors: want of memory.
    fn to_bytes(&self, alloc: Global) -> Result<Items<u8>, NoMemory>
        ensures { IfOk result (λ copy. copy ≡ bytes self.now) };
}

/// The branches of a SELECT, however they are kept.
pub trait Branches {
    ghost use Rattle.std.specs.Prelude.{List};
    ghost use Rattle.vcm_code.specs.declared.branch.Branch.{Branch};

    /// Its branches.
    ghost branches: { Self → List Branch };

    /// Its branches, on their own.
    ///
    /// Errors: want of memory.
    fn to_branches(&self, alloc: Global) -> Result<Items<Branch>, NoMemory>
        ensures { IfOk result (λ copy. copy ≡ branches self.now) };
}

// Three expressions.
#[derive(Drop)]
struct Triple {
    x: Items<Item>,
    y: Items<Item>,
    z: Items<Item>,
}

fn three<E: Expression>(alloc: Global, x: &E, y: &E, z: &E) -> Result<Triple, NoMemory>
    ensures x { IfOk result (λ t. t.x ≡ E.items x.now) }
    ensures y { IfOk result (λ t. t.y ≡ E.items y.now) }
    ensures z { IfOk result (λ t. t.z ≡ E.items z.now) }
{
    let x = x.to_items(alloc)?;
    let y = y.to_items(alloc)?;
    let z = z.to_items(alloc)?;
    Ok(Triple { x, y, z })
}

// A simple statement, with items and a text of its own.
fn simple<E: Expression, T: OutputLine>(
    alloc: Global,
    what: &Simple<E, T>,
) -> Result<OwnedSimple, NoMemory>
    ensures { IfOk result (λ copy. copy ≡ with_forms E.items T.bytes what.now) }
{
    match what {
        Simple::Goto(x, y, z) => {
            let to = three(alloc, x, y, z)?;
            Ok(Simple::Goto(to.x, to.y, to.z))
        }
        Simple::GoHome => Ok(Simple::GoHome),
        Simple::Assign(variable, e) => Ok(Simple::Assign(*variable, e.to_items(alloc)?)),
        Simple::Feat(feature, x, y, z, toward) => {
            let point = three(alloc, x, y, z)?;
            Ok(Simple::Feat(*feature, point.x, point.y, point.z, *toward))
        }
        Simple::PtMeas(feature, x, y, z, toward) => {
            let point = three(alloc, x, y, z)?;
            Ok(Simple::PtMeas(*feature, point.x, point.y, point.z, *toward))
        }
        Simple::SnSet(setting, length) => Ok(Simple::SnSet(*setting, length.to_items(alloc)?)),
        Simple::Trans(frame, x, y, z) => {
            let by = three(alloc, x, y, z)?;
            Ok(Simple::Trans(*frame, by.x, by.y, by.z))
        }
        Simple::Rotate(frame, axis, quarters) => Ok(Simple::Rotate(*frame, *axis, *quarters)),
        Simple::Recall(frame) => Ok(Simple::Recall(*frame)),
        Simple::Obtain(target, of, feature, word) => {
            Ok(Simple::Obtain(*target, *of, *feature, *word))
        }
        Simple::Output(source, feature) => Ok(Simple::Output(*source, *feature)),
        Simple::Text(text) => Ok(Simple::Text(text.to_bytes(alloc)?)),
    }
}

impl<E: Expression, T: OutputLine, B: Branches> Op<E, T, B> {
    ghost use Rattle.vcm_code.specs.Copies.{listed};

    /// The same, with items, a text and branches of its own.
    ///
    /// Errors: want of memory.
    pub fn to_owned(&self, alloc: Global) -> Result<OwnedOp, NoMemory>
        ensures { IfOk result (λ op. op ≡ listed E.items T.bytes B.branches self.now) }
    {
        match self {
            Op::Plain(what) => Ok(Op::Plain(simple(alloc, what)?)),
            Op::If(test, target) => Ok(Op::If(test.to_items(alloc)?, *target)),
            Op::Else(target) => Ok(Op::Else(*target)),
            Op::EndIf => Ok(Op::EndIf),
            Op::Do(variable, pair, initial, limit, increment, exit) => {
                let values = three(alloc, initial, limit, increment)?;
                Ok(Op::Do(*variable, *pair, values.x, values.y, values.z, *exit))
            }
            Op::EndDo(variable, pair, target) => Ok(Op::EndDo(*variable, *pair, *target)),
            Op::Label => Ok(Op::Label),
            Op::JumpTo(target) => Ok(Op::JumpTo(*target)),
            Op::Meas(feature) => Ok(Op::Meas(*feature)),
            Op::EndMes => Ok(Op::EndMes),
            Op::Select(value, branches, target) => {
                let value = value.to_items(alloc)?;
                let branches = branches.to_branches(alloc)?;
                Ok(Op::Select(value, branches, *target))
            }
            Op::Case => Ok(Op::Case),
            Op::EndCas(target) => Ok(Op::EndCas(*target)),
            Op::DftCas => Ok(Op::DftCas),
            Op::EndSel => Ok(Op::EndSel),
            Op::EndFil => Ok(Op::EndFil),
        }
    }
}

impl<E: Expression, T: OutputLine, B: Branches> CodeStatement<E, T, B> {
    ghost use Rattle.vcm_code.specs.Copies.{listed_statement};

    /// The same, with items, a text and branches of its own.
    ///
    /// Errors: want of memory.
    pub fn to_owned(&self, alloc: Global) -> Result<OwnedStatement, NoMemory>
        ensures { IfOk result (λ s. s ≡ listed_statement E.items T.bytes B.branches self.now) }
    {
        let op = self.op.to_owned(alloc)?;
        Ok(CodeStatement {
            line: self.line,
            op,
        })
    }
}
