//! The tables of a program's names.

ghost use Rattle.std.specs.Prelude.{◌≡◌, Some, IfOk, OnOk, IfSome, IfNone, length, ◌≤◌, slice_get};
ghost use Rattle.vcm_program.specs.Program.{AreNames};

use crate::titles::Titles;
use std::alloc::Global;
use vcm_expr::Names;
use vcm_items::{Name, Tables, Variable};
use vcm_num::{Items, NoMemory};

// The variable at an index, if there is one.
fn variable_at(names: &Names, index: usize) -> Option<Variable>
    ensures some { IfSome result (λ v. slice_get names.now index ≡ Some v) }
    ensures none { IfNone result (length names.now ≤ index) }
{
    let (expansion, name, kind) = names.get(index)?;
    Some(Variable::new(name.copy(), kind, expansion))
}

// The variables in their order.
fn variables_of(alloc: Global, names: &Names) -> Result<Items<Variable>, NoMemory>
    ensures same { IfOk result (λ vs. vs ≡ names.now) }
    ensures few { OnOk result (length names.now ≤ 4096) }
{
    let mut variables = Items::from_vec(Vec::with_capacity(alloc, names.len())?);
    let mut index = 0;
    while let Some(variable) = variable_at(names, index) {
        variables.push(variable)?;
        index += 1;
    }
    Ok(variables)
}

// The names in their order.
fn names_of(alloc: Global, titles: &Titles) -> Result<Items<Name>, NoMemory>
    ensures same { IfOk result (λ ns. ns ≡ titles.now) }
    ensures names { OnOk result (AreNames titles.now) }
{
    let mut names = Items::from_vec(Vec::with_capacity(alloc, titles.len())?);
    let mut index = 0;
    while let Some(name) = titles.get(index) {
        names.push(name.copy())?;
        index += 1;
    }
    Ok(names)
}

/// The tables of a program with these variables, features and frames.
///
/// Errors: want of memory.
pub(crate) fn tables_of(
    alloc: Global,
    names: &Names,
    features: &Titles,
    frames: &Titles,
) -> Result<Tables, NoMemory>
    ensures tables { IfOk result (λ t. t ≡ record { variables = names.now; features = features.now; frames = frames.now }) }
    ensures variables { OnOk result (length names.now ≤ 4096) }
    ensures features { OnOk result (AreNames features.now) }
    ensures frames { OnOk result (AreNames frames.now) }
{
    let variables = variables_of(alloc, names)?;
    let features = names_of(alloc, features)?;
    let frames = names_of(alloc, frames)?;
    Tables::new(alloc, variables, features, frames)
}
