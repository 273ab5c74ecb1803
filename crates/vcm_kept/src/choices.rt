//! SELECT in a text where a CASE has several values.

ghost use Rattle.std.specs.Prelude.{◌≡◌, ◌++◌, ◌∷◌, [], pos, Some, None, true, false, OnOk, IfOk, List};
ghost use Rattle.std.specs.List.{flat_map};
ghost use Rattle.vcm_expr.specs.Source.{leaf_in};
ghost use Rattle.vcm_kept.specs.Choices.{deeper, next_depth, inner_depth, declares_choice, declares_choices, chosen_by, chooses_known, chooses_nothing, choice_end, is_chosen, opens_case, cases, defaults, adds_value, begins_case, case_ends};
ghost use Rattle.vcm_kept.specs.Guarding.{adds_number, begins_block};

use crate::reached::{MOST_DEPTH, OpenBlock};
use std::alloc::Global;
use vcm_events::pair;
use vcm_expr::{BinaryOp, Expr, Relation, Term};
use vcm_forms::Form;
use vcm_items::BoundedStack;
use vcm_num::NoMemory;
use vcm_templates::{
    Carried, Guarded, Item, ask, declare_item, either, end, number, set_item, stand, truth,
    where_known,
};

// One block deeper; the deepest aren't told apart.
fn deeper(depth: u16) -> u16
    ensures { result ≡ deeper depth }
{
    if depth < MOST_DEPTH { depth + 1 } else { depth }
}

/// How deep one more block is.
pub(crate) fn next_depth(blocks: &BoundedStack<OpenBlock>) -> u16
    ensures { result ≡ next_depth blocks.now }
{
    if blocks.len() > 0 {
        deeper(blocks.top().depth)
    } else {
        0
    }
}

/// How deep the innermost block is.
pub(crate) fn inner_depth(blocks: &BoundedStack<OpenBlock>) -> u16
    ensures { result ≡ inner_depth blocks.now }
{
    if blocks.len() > 0 {
        blocks.top().depth
    } else {
        0
    }
}

// What is carried of a SELECT at a depth is declared.
fn declare_choice(alloc: Global, out: &mut Vec<Guarded>, depth: u16) -> Result<(), NoMemory>
    ensures { OnOk result (out.new.items ≡ out.old.items ++ declares_choice depth) }
{
    declare_item(alloc, out, 1, Item::Chosen, depth)?;
    declare_item(alloc, out, 1, Item::Open, depth)
}

// The same at these depths.
fn declare_at(alloc: Global, out: &mut Vec<Guarded>, depths: &[u16]) -> Result<(), NoMemory>
    ensures { OnOk result (out.new.items ≡ out.old.items ++ flat_map declares_choice depths.now) }
{
    for depth in depths {
        declare_choice(alloc, out, *depth)?;
    }
    Ok(())
}

/// What is carried of a SELECT is declared, at all depths.
#[tactic(auto, unfolding(crate::specs::Choices::declares_choices))]
pub(crate) fn declare_choices(
    alloc: Global,
    out: &mut Vec<Guarded>,
    several: bool,
) -> Result<(), NoMemory>
    ensures { OnOk result (out.new.items ≡ out.old.items ++ declares_choices several) }
{
    if !several {
        return Ok(());
    }
    let depths = [
        0, 1, 2, 3, 4, 5, 6, 7, 8, 9, 10, 11, 12, 13, 14, 15, 16, 17, 18, 19, 20, 21, 22, 23, 24,
        25, 26, 27, 28, 29, 30, 31, 32,
    ];
    declare_at(alloc, out, &depths)
}

// SELECT by a value that is known.
#[tactic(auto, unfolding(crate::specs::Choices::chosen_by))]
fn choose_by(out: &mut Vec<Guarded>, line: u32, depth: u16, value: Expr) -> Result<(), NoMemory>
    ensures { OnOk result (out.new.items ≡ out.old.items ++ chosen_by line depth value) }
{
    set_item(out, line, Item::Chosen, depth, value)?;
    set_item(out, line, Item::Open, depth, Expr::leaf(number(1)))?;
    stand(out, line, 0, Form::Test(truth(true)))
}

/// SELECT by a value that is known, in a text where a CASE has several values or not.
pub(crate) fn choose_known(
    out: &mut Vec<Guarded>,
    several: bool,
    line: u32,
    expansion: u32,
    depth: u16,
    value: Expr,
) -> Result<(), NoMemory>
    ensures { OnOk result (out.new.items ≡ out.old.items ++ chooses_known several line expansion depth value) }
{
    if several {
        choose_by(out, line, depth, value)
    } else {
        stand(out, line, expansion, Form::Choose(value))
    }
}

/// SELECT by a value that isn't known.
pub(crate) fn choose_nothing(
    out: &mut Vec<Guarded>,
    several: bool,
    line: u32,
    expansion: u32,
) -> Result<(), NoMemory>
    ensures { OnOk result (out.new.items ≡ out.old.items ++ chooses_nothing several line expansion ∷ []) }
{
    if several {
        stand(out, line, 0, Form::Test(truth(false)))
    } else {
        stand(out, line, expansion, Form::Choose(Expr::leaf(number(0))))
    }
}

/// How a SELECT ends.
pub(crate) fn choice_end(several: bool) -> Form
    ensures { result ≡ choice_end several }
{
    if several {
        Form::TestEnd
    } else {
        Form::ChooseEnd
    }
}

// Whether the value of a SELECT is this one.
fn is_chosen(alloc: Global, depth: u16, value: Term) -> Result<Expr, NoMemory>
    ensures { IfOk result (λ e. e ≡ is_chosen depth value) }
{
    let op = BinaryOp::Compare(Relation::Equal);
    pair(alloc, op, Item::Chosen.term(depth), value)
}

// Where no block of a SELECT is taken so far this is asked.
#[tactic(auto, unfolding(crate::specs::Choices::opens_case))]
fn open_case(
    alloc: Global,
    out: &mut Vec<Guarded>,
    line: u32,
    depth: u16,
    asked: Expr,
) -> Result<(), NoMemory>
    ensures { OnOk result (out.new.items ≡ out.old.items ++ opens_case line depth asked) }
{
    let op = BinaryOp::Compare(Relation::Equal);
    let open = pair(alloc, op, Item::Open.term(depth), number(1))?;
    stand(out, line, 0, Form::Test(open))?;
    ask(out, line, asked)
}

/// CASE.
pub(crate) fn begin_case(
    alloc: Global,
    out: &mut Vec<Guarded>,
    several: bool,
    line: u32,
    expansion: u32,
    depth: u16,
    value: i64,
) -> Result<(), NoMemory>
    ensures { OnOk result (out.new.items ≡ out.old.items ++ cases several line expansion depth value) }
{
    if several {
        let asked = is_chosen(alloc, depth, number(value))?;
        open_case(alloc, out, line, depth, asked)
    } else {
        stand(out, line, expansion, Form::Case(value))
    }
}

/// DFTCAS.
pub(crate) fn begin_default(
    alloc: Global,
    out: &mut Vec<Guarded>,
    several: bool,
    line: u32,
    expansion: u32,
    depth: u16,
) -> Result<(), NoMemory>
    ensures { OnOk result (out.new.items ≡ out.old.items ++ defaults several line expansion depth) }
{
    if several {
        open_case(alloc, out, line, depth, truth(true))
    } else {
        stand(out, line, expansion, Form::Default)
    }
}

// One value more of a CASE.
#[tactic(auto, unfolding(crate::specs::Choices::adds_value))]
fn add_term(
    alloc: Global,
    out: &mut Vec<Guarded>,
    line: u32,
    depth: u16,
    value: Term,
) -> Result<(), NoMemory>
    ensures { OnOk result (out.new.items ≡ out.old.items ++ adds_value line depth value) }
{
    let asked = Expr::leaf(Carried::Asked.term());
    let chosen = is_chosen(alloc, depth, value)?;
    ask(out, line, either(alloc, &asked, &chosen)?)
}

/// One value more of a CASE, if it is one.
pub(crate) fn add_value(
    alloc: Global,
    out: &mut Vec<Guarded>,
    line: u32,
    depth: u16,
    value: &Expr,
) -> Result<(), NoMemory>
    ensures { OnOk result (out.new.items ≡ out.old.items ++ adds_number line depth (leaf_in value.now)) }
{
    match value.as_leaf() {
        Some(term) => add_term(alloc, out, line, depth, term),
        None => Ok(()),
    }
}

// The block of a CASE begins, behind its values.
#[tactic(auto, unfolding(crate::specs::Choices::begins_case))]
fn take_case(out: &mut Vec<Guarded>, line: u32, depth: u16) -> Result<(), NoMemory>
    ensures { OnOk result (out.new.items ≡ out.old.items ++ begins_case line depth) }
{
    where_known(out, line)?;
    set_item(out, line, Item::Open, depth, Expr::leaf(number(0)))
}

/// The same, in a text where one has several values.
pub(crate) fn begin_block(
    out: &mut Vec<Guarded>,
    several: bool,
    line: u32,
    depth: u16,
) -> Result<(), NoMemory>
    ensures { OnOk result (out.new.items ≡ out.old.items ++ begins_block several line depth) }
{
    if several {
        take_case(out, line, depth)
    } else {
        Ok(())
    }
}

/// ENDCAS.
pub(crate) fn end_case(
    out: &mut Vec<Guarded>,
    several: bool,
    line: u32,
    expansion: u32,
) -> Result<(), NoMemory>
    ensures { OnOk result (out.new.items ≡ out.old.items ++ case_ends several line expansion) }
{
    if several {
        end(out, line)?;
        end(out, line)
    } else {
        stand(out, line, expansion, Form::CaseEnd)
    }
}
