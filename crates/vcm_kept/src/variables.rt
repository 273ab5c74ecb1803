//! Variables, and what is known of their values.

ghost use Rattle.std.specs.Prelude.{◌≡◌, ◌++◌, ◌∷◌, [], pos, Some, None, OnOk, IfOk, List, slice_get};
ghost use Rattle.vcm_expr.specs.Source.{Plain};
ghost use Rattle.vcm_spec.specs.Setup.{kinds_of};
ghost use Rattle.vcm_items.specs.Names.{variable_of};
ghost use Rattle.vcm_templates.specs.Expressions.{number};
ghost use Rattle.vcm_templates.specs.Templates.{elsewhere, ends};
ghost use Rattle.vcm_kept.specs.Guarding.{with_variable, with_variables, declares_variable, declares_one, declares_all, know_variable, lose_variable, assigned_where, assigned};

use crate::exactly::want_of;
use std::alloc::Global;
use vcm_expr::{Expr, Names};
use vcm_forms::{Form, Target};
use vcm_items::VariableName;
use vcm_num::{Kind, MOST_NAMES, NoMemory};
use vcm_templates::{
    Carried, FAR, Guarded, Item, ask, ask_value, declare_bound, declare_item, elsewhere, end,
    has_form, is_carried, lose_item, set_bound, set_item, stand, truth, where_known,
};

// What is carried of the variable at an index is declared with it, its bound too if that is.
#[tactic(auto, unfolding(crate::specs::Guarding::declares_variable))]
fn declare_variable(
    alloc: Global,
    out: &mut Vec<Guarded>,
    line: u32,
    carried: bool,
    index: u16,
) -> Result<(), NoMemory>
    ensures { OnOk result (out.new.items ≡ out.old.items ++ declares_variable line carried index) }
{
    declare_item(alloc, out, line, Item::Known, index)?;
    lose_item(out, line, Item::Known, index)?;
    declare_bound(alloc, out, line, carried, index)
}

// A variable that is declared.
fn declare_one(
    alloc: Global,
    out: &mut Vec<Guarded>,
    line: u32,
    names: &mut Names,
    expansion: u32,
    kind: Kind,
    name: &VariableName,
) -> Result<(), NoMemory>
    ensures put { OnOk result (out.new.items ≡ out.old.items ++ declares_one line names.old expansion kind name.now) }
    ensures names { OnOk result (names.new ≡ with_variable names.old expansion kind name.now) }
{
    let index = names.len();
    if index >= MOST_NAMES {
        return Ok(());
    }
    let carried = is_carried(names, kind);
    if !names.declare(expansion, name.copy(), kind)? {
        return Ok(());
    }
    declare_variable(alloc, out, line, carried, index as u16)
}

/// The variables of a declaration, one by one.
pub(crate) fn declare_all(
    alloc: Global,
    out: &mut Vec<Guarded>,
    line: u32,
    names: &mut Names,
    expansion: u32,
    kind: Kind,
    declared: &[VariableName],
) -> Result<(), NoMemory>
    ensures put { OnOk result (out.new.items ≡ out.old.items ++ declares_all line names.old expansion kind declared.now) }
    ensures names { OnOk result (names.new ≡ with_variables names.old expansion kind declared.now) }
{
    for name in declared {
        declare_one(alloc, out, line, names, expansion, kind, name)?;
    }
    Ok(())
}

/// The value of a variable at an index is known.
pub(crate) fn know_variable(out: &mut Vec<Guarded>, line: u32, index: u16) -> Result<(), NoMemory>
    ensures { OnOk result (out.new.items ≡ out.old.items ++ know_variable line index ∷ []) }
{
    let values = Expr::leaf(Carried::Values.term());
    set_item(out, line, Item::Known, index, values)
}

/// The value of a variable at an index isn't known.
pub(crate) fn lose_variable(out: &mut Vec<Guarded>, line: u32, index: u16) -> Result<(), NoMemory>
    ensures { OnOk result (out.new.items ≡ out.old.items ++ lose_variable line index ∷ []) }
{
    lose_item(out, line, Item::Known, index)
}

// Where the value of an assignment isn't known, its variable isn't.
fn lose_elsewhere(out: &mut Vec<Guarded>, line: u32, index: u16) -> Result<(), NoMemory>
    ensures { OnOk result (out.new.items ≡ out.old.items ++ elsewhere line ∷ lose_variable line index ∷ ends line ∷ []) }
{
    elsewhere(out, line)?;
    lose_variable(out, line, index)?;
    end(out, line)
}

// An assignment to the variable at an index.
#[tactic(auto, unfolding(crate::specs::Guarding::assigned_where))]
fn assign_where(
    alloc: Global,
    out: &mut Vec<Guarded>,
    line: u32,
    expansion: u32,
    names: &Names,
    target: Target,
    kind: Kind,
    index: u16,
    value: Expr,
) -> Result<(), NoMemory>
    ensures { OnOk result (out.new.items ≡ out.old.items ++ assigned_where line expansion names.now target kind index value) }
{
    ask(out, line, truth(true))?;
    ask_value(alloc, out, line, names, FAR, &value)?;
    where_known(out, line)?;
    set_bound(alloc, out, line, names, kind, index, &value)?;
    stand(out, line, expansion, Form::Assignment(target, value))?;
    know_variable(out, line, index)?;
    lose_elsewhere(out, line, index)
}

/// An assignment to a variable of the text.
pub(crate) fn assign(
    alloc: Global,
    out: &mut Vec<Guarded>,
    line: u32,
    expansion: u32,
    names: &Names,
    target: Target,
    value: Expr,
) -> Result<(), NoMemory>
    ensures { OnOk result (out.new.items ≡ out.old.items ++ assigned line expansion names.now target value) }
{
    match names.find(target.expansion, &target.name) {
        Some((index, kind)) => {
            if has_form(alloc, names, want_of(kind), &value)? {
                assign_where(
                    alloc, out, line, expansion, names, target, kind, index, value,
                )
            } else {
                lose_variable(out, line, index)
            }
        }
        None => Ok(()),
    }
}

/// Where a value of a feature isn't known, its variable isn't.
pub(crate) fn otherwise_lose(out: &mut Vec<Guarded>, line: u32, index: u16) -> Result<(), NoMemory>
    ensures { OnOk result (out.new.items ≡ out.old.items ++ know_variable line index ∷ elsewhere line ∷ lose_variable line index ∷ ends line ∷ []) }
{
    know_variable(out, line, index)?;
    lose_elsewhere(out, line, index)
}
