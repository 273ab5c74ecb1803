//! What a text is put as, as a program and its remarks.

ghost use Rattle.std.specs.Prelude.{◌≡◌, ◌++◌, ◌+◌, ◌<◌, ◌≤◌, length, suc, IfOk, IfErr, OnOk};
ghost use Rattle.vcm_kept.specs.Guarding.{guarded};
ghost use Rattle.vcm_kept.specs.Put.{placed_in, remark_at, remarks_from, remarks_in, number_behind};

use crate::guarding::guarded;
use std::alloc::Global;
use vcm_macro::Placed;
use vcm_num::NoMemory;
use vcm_remarks::{NumberedRemark, Remark};
use vcm_templates::Guarded;

/// A program that a text is put as, and the remarks on its statements, in order.
#[derive(Drop)]
pub struct Put {
    pub all: Vec<Placed>,
    pub remarks: Vec<NumberedRemark>,
}

// The remark on a statement, if it has one.
fn note(
    remarks: &mut Vec<NumberedRemark>,
    number: u32,
    line: u32,
    remark: Option<Remark>,
) -> Result<(), NoMemory>
    ensures { OnOk result (remarks.new.items ≡ remarks.old.items ++ remark_at number line remark) }
{
    if let Some(remark) = remark {
        remarks.push(NumberedRemark {
            number,
            line,
            remark,
        })?;
    }
    Ok(())
}

// The number of the statement behind this one; more than fit have the last one.
fn number_behind(number: u32, statement: &Guarded) -> u32
    ensures { number < 4294967295 → result ≡ number_behind number statement.now }
{
    if statement.placed.statement.form.is_counted() {
        number.saturating_add(1)
    } else {
        number
    }
}

// The remarks on statements.
fn remarks_of(alloc: Global, statements: &[Guarded]) -> Result<Vec<NumberedRemark>, NoMemory>
    requires { length statements.now ≤ 4294967295 }
    ensures { IfOk result (λ rs. rs.items ≡ remarks_in statements.now) }
{
    let mut remarks = Vec::new(alloc);
    let mut number = 0;
    for statement in statements {
        let line = statement.placed.statement.line;
        note(&mut remarks, number, line, statement.remark)?;
        number = number_behind(number, statement);
    }
    Ok(remarks)
}

// The statements alone.
fn placed_in(alloc: Global, statements: Vec<Guarded>) -> Result<Vec<Placed>, NoMemory>
    ensures { IfOk result (λ ps. ps.items ≡ placed_in statements.items) }
{
    let mut all = Vec::with_capacity(alloc, statements.len())?;
    for statement in statements {
        all.push(statement.placed)?;
    }
    Ok(all)
}

/// What an expanded text is put as.
///
/// # Errors
///
/// Out of memory.
pub fn put_text(alloc: Global, expanded: Vec<Placed>) -> Result<Put, NoMemory>
    ensures all { IfOk result (λ p. p.all.items ≡ placed_in (guarded expanded.items)) }
    ensures remarks { IfOk result (λ p. p.remarks.items ≡ remarks_in (guarded expanded.items)) }
{
    let statements = guarded(alloc, expanded)?;
    if statements.len() > u32::MAX as usize {
        return Err(NoMemory);
    }
    let remarks = remarks_of(alloc, &statements)?;
    let all = placed_in(alloc, statements)?;
    Ok(Put { all, remarks })
}
