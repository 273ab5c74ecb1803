//! Statements as they are written.

ghost use Rattle.std.specs.Prelude.{◌≡◌, ◌≤◌, ◌<◌, [], ◌∷◌, ◌++◌, length, IfOk, OnOk};
ghost use Rattle.vcm_code.specs.Code.{statement};
ghost use Rattle.vcm_asm.specs.inner.Targets.{with_target, Retargets};

use std::alloc::Global;
use std::marker::Model;
use vcm_code::{CodeStatement, Op, OwnedOp, OwnedStatement};
use vcm_num::{Items, NoMemory};

/// The statements that are written so far. Contracts see them as a list.
#[derive(Drop)]
pub(crate) struct Emitted {
    statements: Vec<OwnedStatement>,
}

impl Model for Emitted {
    ghost use Rattle.std.specs.Prelude.{List};
    ghost use Rattle.vcm_code.specs.Code.{CodeStatement as Meaning};

    ghost Value = { List Meaning };

    ghost view = { λ e. e.statements.items };
}

impl Emitted {
    /// No statements, and memory for so many.
    pub(crate) fn with_capacity(alloc: Global, capacity: usize) -> Result<Emitted, NoMemory>
        ensures { IfOk result (λ e. e ≡ []) }
    {
        let statements = Vec::with_capacity(alloc, capacity)?;
        Ok(Emitted { statements })
    }

    /// The number of the next statement.
    pub(crate) fn next(&self) -> u32
        requires { length self.now ≤ 20000 }
        ensures { result ≡ length self.now }
    {
        self.statements.len() as u32
    }

    /// One more statement, with its source line.
    pub(crate) fn put(&mut self, line: u32, op: OwnedOp) -> Result<(), NoMemory>
        ensures { OnOk result (self.new ≡ self.old ++ statement line op ∷ []) }
    {
        self.statements.push(CodeStatement { line, op })?;
        Ok(())
    }

    /// Writes the target of a statement again.
    pub(crate) fn set_target(&mut self, number: u32, target: u32)
        requires { number < length self.old }
        ensures length_same { length self.new ≡ length self.old }
        ensures writes { Retargets self.old number target self.new }
    {
        retarget(&mut self.statements[number as usize], target);
    }

    /// The statements alone.
    pub(crate) fn into_statements(self) -> Items<OwnedStatement>
        ensures { result ≡ self }
    {
        Items::from_vec(self.statements)
    }
}

// The same statement with another target.
fn retarget(statement: &mut OwnedStatement, target: u32)
    ensures { statement.new ≡ with_target statement.old target }
{
    match &mut statement.op {
        Op::If(_, to) => *to = target,
        Op::Else(to) => *to = target,
        Op::Do(_, _, _, _, _, to) => *to = target,
        _ => {}
    }
}
