//! Looks names up in the statements of variables, moves, blocks and labels.

ghost use Rattle.std.specs.Prelude.{◌≡◌, ◌∷◌, ◌++◌, [], Ok, Err, OnOk, IfOk, IfErr, MatchResult};
ghost use Rattle.vcm_lines.specs.Fault.{NoMemoryOr};
ghost use Rattle.vcm_tree.specs.Variables.{is_declared, with_one, with_all, want_of, assigned, moved};
ghost use Rattle.vcm_tree.specs.Blocks.{indexed, increment_of, repeated, nested, tested, selected, marked};
ghost use Rattle.vcm_program.specs.Telling.{ToldAt};
ghost use Rattle.vcm_tree.specs.inner.Growing.{blocks_of, Reads};
ghost use Rattle.vcm_tree.specs.inner.Taking.{IsBody, IsSelected};

use crate::builder::{Builder, Head};
use crate::cases::CaseBlocks;
use crate::measuring::lengths;
use crate::selection::Selection;
use std::alloc::Global;
use vcm_expr::{Expr, Names, Typed, Want, type_expr};
use vcm_forms::{Coordinates, Rounds, Target};
use vcm_items::{Name, VariableName};
use vcm_lines::{FaultCode, SourceFault};
use vcm_nodes::{Action, Label, Labels};
use vcm_num::{Kind, MOST_NAMES};
use vcm_spec::{Operand, Simple};

// Whether a variable of this very expansion has this name.
fn is_declared(names: &Names, expansion: u32, name: &Name) -> bool
    ensures { result ≡ is_declared names.now expansion name.now }
{
    let Some((index, _)) = names.find(expansion, name) else {
        return false;
    };
    match names.get(usize::from(index)) {
        Some((found, _, _)) => found == expansion,
        None => false,
    }
}

// A variable more in the table.
fn declare(
    line: u32,
    names: &mut Names,
    expansion: u32,
    kind: Kind,
    name: &VariableName,
) -> Result<(), SourceFault>
    ensures ok { OnOk result (with_one names.old expansion kind name.now ≡ Ok names.new) }
    ensures fault { IfErr result (NoMemoryOr (ToldAt line (with_one names.old expansion kind name.now))) }
{
    if is_declared(names, expansion, name.name()) {
        let code = FaultCode::DuplicateName;
        return Err(SourceFault { code, line });
    }
    if names.len() >= MOST_NAMES {
        let code = FaultCode::TooManyNames;
        return Err(SourceFault { code, line });
    }
    match names.declare(expansion, name.copy(), kind) {
        Ok(_) => Ok(()),
        Err(_) => Err(SourceFault {
            code: FaultCode::NoMemory,
            line: 0,
        }),
    }
}

/// All variables of a declaration, in order.
pub(crate) fn declare_all(
    line: u32,
    names: &mut Names,
    expansion: u32,
    kind: Kind,
    declared: &[VariableName],
) -> Result<(), SourceFault>
    ensures ok { OnOk result (with_all names.old expansion kind declared.now ≡ Ok names.new) }
    ensures fault { IfErr result (NoMemoryOr (ToldAt line (with_all names.old expansion kind declared.now))) }
{
    for name in declared {
        declare(line, names, expansion, kind, name)?;
    }
    Ok(())
}

// What may be assigned to a variable of this kind.
fn want_of(kind: Kind) -> Want
    ensures { result ≡ want_of kind }
{
    match kind {
        Kind::Int => Want::Int,
        Kind::Real => Want::Length,
        Kind::Bool => Want::Bool,
    }
}

/// An assignment to a variable.
pub(crate) fn assign(
    alloc: Global,
    line: u32,
    names: &Names,
    target: &Target,
    value: &Expr,
) -> Result<Action, SourceFault>
    ensures ok { IfOk result (λ a. assigned names.now target.now value.now ≡ Ok a) }
    ensures fault { IfErr result (NoMemoryOr (ToldAt line (assigned names.now target.now value.now))) }
{
    let Some((variable, kind)) = names.find(target.expansion, &target.name) else {
        let code = FaultCode::UnknownName;
        return Err(SourceFault { code, line });
    };
    let value = type_expr(alloc, value, line, names, want_of(kind))?;
    Ok(Simple::Assign(variable, value))
}

/// A move to a place.
pub(crate) fn go_to(
    alloc: Global,
    line: u32,
    names: &Names,
    place: &Coordinates,
) -> Result<Action, SourceFault>
    ensures ok { IfOk result (λ a. moved names.now place.now.x place.now.y place.now.z ≡ Ok a) }
    ensures fault { IfErr result (NoMemoryOr (ToldAt line (moved names.now place.now.x place.now.y place.now.z))) }
{
    let (x, y, z) = lengths(alloc, line, names, place)?;
    Ok(Simple::Goto(x, y, z))
}

/// The variable of a loop.
fn index(line: u32, names: &Names, target: &Target) -> Result<u16, SourceFault>
    ensures { MatchResult result (λ i. indexed names.now target.now ≡ Ok i) (ToldAt line (indexed names.now target.now)) }
{
    match names.find(target.expansion, &target.name) {
        None => Err(SourceFault {
            code: FaultCode::UnknownName,
            line,
        }),
        Some((variable, Kind::Int)) => Ok(variable),
        Some(_) => Err(SourceFault {
            code: FaultCode::BadType,
            line,
        }),
    }
}

/// The increment of a loop.
fn increment(
    alloc: Global,
    line: u32,
    names: &Names,
    value: &Option<Expr>,
) -> Result<Typed, SourceFault>
    ensures ok { IfOk result (λ t. increment_of names.now value.now ≡ Ok t) }
    ensures fault { IfErr result (NoMemoryOr (ToldAt line (increment_of names.now value.now))) }
{
    match value {
        None => Ok(Typed::leaf(Operand::Integer(1))),
        Some(value) => type_expr(alloc, value, line, names, Want::Int),
    }
}

/// What opens the body of a loop.
fn body(alloc: Global, line: u32, names: &Names, rounds: &Rounds) -> Result<Head, SourceFault>
    ensures ok { IfOk result (λ h. IsBody names.now rounds.now line h) }
    ensures fault { IfErr result (NoMemoryOr (ToldAt line (repeated names.now rounds.now))) }
{
    let variable = index(line, names, &rounds.variable)?;
    let initial = type_expr(alloc, &rounds.initial, line, names, Want::Int)?;
    let limit = type_expr(alloc, &rounds.limit, line, names, Want::Int)?;
    let increment = increment(alloc, line, names, &rounds.increment)?;
    Ok(Head::Body(line, variable, initial, limit, increment))
}

/// `IF`.
pub(crate) fn test(
    alloc: Global,
    line: u32,
    names: &Names,
    builder: &mut Builder,
    condition: &Expr,
) -> Result<(), SourceFault>
    ensures ok { OnOk result (Reads (nested (blocks_of builder.old) (tested names.now condition.now)) line builder.old builder.new) }
    ensures fault { IfErr result (NoMemoryOr (ToldAt line (nested (blocks_of builder.old) (tested names.now condition.now)))) }
{
    builder.room(line)?;
    let test = type_expr(alloc, condition, line, names, Want::Bool)?;
    builder.open(alloc, Head::First(line, test))?;
    Ok(())
}

/// `DO`.
pub(crate) fn repeat(
    alloc: Global,
    line: u32,
    names: &Names,
    builder: &mut Builder,
    rounds: &Rounds,
) -> Result<(), SourceFault>
    ensures ok { OnOk result (Reads (nested (blocks_of builder.old) (repeated names.now rounds.now)) line builder.old builder.new) }
    ensures fault { IfErr result (NoMemoryOr (ToldAt line (nested (blocks_of builder.old) (repeated names.now rounds.now)))) }
{
    builder.room(line)?;
    let head = body(alloc, line, names, rounds)?;
    builder.open(alloc, head)?;
    Ok(())
}

/// `SELECT`.
pub(crate) fn select(
    alloc: Global,
    line: u32,
    names: &Names,
    value: &Expr,
) -> Result<Selection, SourceFault>
    ensures ok { IfOk result (λ s. IsSelected names.now value.now line s) }
    ensures fault { IfErr result (NoMemoryOr (ToldAt line (selected names.now value.now))) }
{
    let value = type_expr(alloc, value, line, names, Want::Int)?;
    Ok(Selection::Plain(line, value, CaseBlocks::new(alloc)))
}

/// A jump label.
pub(crate) fn mark(
    line: u32,
    labels: &mut Labels,
    builder: &mut Builder,
    label: Label,
) -> Result<(), SourceFault>
    ensures ok { OnOk result (Reads (marked labels.old label) line builder.old builder.new) }
    ensures labels { OnOk result (labels.new ≡ labels.old ++ label ∷ []) }
    ensures fault { IfErr result (NoMemoryOr (ToldAt line (marked labels.old label))) }
{
    let is_new = labels.add(label.copy())?;
    if !is_new {
        return Err(SourceFault {
            code: FaultCode::DuplicateName,
            line,
        });
    }
    builder.mark(line, label)?;
    Ok(())
}
