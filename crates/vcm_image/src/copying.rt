//! Copies of what an image has, on their own.

ghost use Rattle.std.specs.Prelude.{◌≡◌, IfOk};
ghost use Rattle.vcm_items.specs.NameBytes.{IsName, IsVariableName};

use crate::scanned::Scanned;
use std::alloc::Global;
use vcm_code::OwnedStatement;
use vcm_fields::{BorrowedVariable, TextSlice};
use vcm_items::{Name, Tables, Variable};
use vcm_num::{Items, NoMemory};

/// The statements of an image.
pub(crate) fn statements(
    alloc: Global,
    image: &Scanned<'_>,
) -> Result<Items<OwnedStatement>, NoMemory>
    ensures { IfOk result (λ ss. ss ≡ image.now.statements) }
{
    let mut copies = Items::new(alloc);
    for n in 0..image.statement_count() {
        copies.push(image.statement(n).to_owned(alloc)?)?;
    }
    Ok(copies)
}

// A name.
fn name(from: &TextSlice<'_>) -> Name
    requires { IsName from.now }
    ensures { result ≡ from.now }
{
    Name::new(from.as_bytes())
}

// A variable.
#[tactic(auto, using(vcm_items::proofs::NameLemmas::variable_name_is_name))]
fn variable(from: &BorrowedVariable<'_>) -> Variable
    requires { IsVariableName from.now.name }
    ensures { result ≡ from.now }
{
    let name = name(&from.name());
    Variable::new(name, from.kind(), from.expansion())
}

// The variables of an image.
fn variables(alloc: Global, image: &Scanned<'_>) -> Result<Items<Variable>, NoMemory>
    ensures { IfOk result (λ vs. vs ≡ image.now.tables.variables) }
{
    let mut copies = Items::new(alloc);
    for n in 0..image.variable_count() {
        copies.push(variable(&image.variable(n)))?;
    }
    Ok(copies)
}

// The names of the features of an image.
fn features(alloc: Global, image: &Scanned<'_>) -> Result<Items<Name>, NoMemory>
    ensures { IfOk result (λ ns. ns ≡ image.now.tables.features) }
{
    let mut copies = Items::new(alloc);
    for n in 0..image.feature_count() {
        copies.push(name(&image.feature(n)))?;
    }
    Ok(copies)
}

// The names of the frames of an image.
fn frames(alloc: Global, image: &Scanned<'_>) -> Result<Items<Name>, NoMemory>
    ensures { IfOk result (λ ns. ns ≡ image.now.tables.frames) }
{
    let mut copies = Items::new(alloc);
    for n in 0..image.frame_count() {
        copies.push(name(&image.frame(n)))?;
    }
    Ok(copies)
}

/// The tables of names of an image.
pub(crate) fn tables(alloc: Global, image: &Scanned<'_>) -> Result<Tables, NoMemory>
    ensures { IfOk result (λ t. t ≡ image.now.tables) }
{
    let variables = variables(alloc, image)?;
    let features = features(alloc, image)?;
    let frames = frames(alloc, image)?;
    Tables::new(alloc, variables, features, frames)
}
