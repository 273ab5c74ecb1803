//! Blocks: choices, loops, the end.

ghost use Rattle.std.specs.Prelude.{◌≡◌, ◌++◌, ◌∷◌, [], pos, Some, None, true, false, OnOk, IfOk, List, drop};
ghost use Rattle.vcm_kept.specs.Guarding.{unknown_asks, tests, chooses, has_increment, asks_increment, loop_index, loops_by, asks_rounds, repeats, first_block, closed, closes, loop_ends, repeats_end, chooses_end, ending};
ghost use Rattle.vcm_templates.specs.Templates.{stands};

use crate::choices::{choose_known, choose_nothing};
use crate::effects::{Effects, lose_block};
use crate::reached::{OpenBlock, note_effects};
use crate::variables::{know_variable, lose_variable};
use std::alloc::Global;
use vcm_expr::{Expr, Names, Want};
use vcm_forms::{Form, Rounds};
use vcm_items::{BoundedStack, Name};
use vcm_num::{Kind, NoMemory};
use vcm_templates::{
    Guarded, IMPLICIT, ask, ask_all, elsewhere, end, has_form, stand, truth, where_known,
};

// A choice by something that isn't known.
#[tactic(auto, unfolding(crate::specs::Guarding::unknown_asks))]
fn ask_nothing(out: &mut Vec<Guarded>, line: u32) -> Result<(), NoMemory>
    ensures { OnOk result (out.new.items ≡ out.old.items ++ unknown_asks line) }
{
    ask(out, line, truth(false))?;
    where_known(out, line)
}

/// IF.
pub(crate) fn test(
    alloc: Global,
    out: &mut Vec<Guarded>,
    line: u32,
    expansion: u32,
    names: &Names,
    condition: Expr,
) -> Result<(), NoMemory>
    ensures { OnOk result (out.new.items ≡ out.old.items ++ tests line expansion names.now condition) }
{
    if !has_form(alloc, names, Want::Bool, &condition)? {
        ask_nothing(out, line)?;
        return stand(out, line, expansion, Form::Test(truth(false)));
    }
    ask(out, line, truth(true))?;
    ask_all(alloc, out, line, names, &condition)?;
    where_known(out, line)?;
    stand(out, line, expansion, Form::Test(condition))
}

/// SELECT.
pub(crate) fn choose(
    alloc: Global,
    out: &mut Vec<Guarded>,
    several: bool,
    line: u32,
    expansion: u32,
    depth: u16,
    names: &Names,
    value: Expr,
) -> Result<(), NoMemory>
    ensures { OnOk result (out.new.items ≡ out.old.items ++ chooses several line expansion depth names.now value) }
{
    if !has_form(alloc, names, Want::Int, &value)? {
        ask_nothing(out, line)?;
        return choose_nothing(out, several, line, expansion);
    }
    ask(out, line, truth(true))?;
    ask_all(alloc, out, line, names, &value)?;
    where_known(out, line)?;
    choose_known(out, several, line, expansion, depth, value)
}

// Whether an increment has a form, or is left out.
fn has_increment(alloc: Global, names: &Names, increment: &Option<Expr>) -> Result<bool, NoMemory>
    ensures { IfOk result (λ b. b ≡ has_increment names.now increment.now) }
{
    match increment {
        None => Ok(true),
        Some(value) => has_form(alloc, names, Want::Int, value),
    }
}

/// The index of the variable of a loop that has a form.
pub(crate) fn loops_by(
    alloc: Global,
    names: &Names,
    rounds: &Rounds,
) -> Result<Option<u16>, NoMemory>
    ensures { IfOk result (λ i. i ≡ loops_by names.now rounds.now) }
{
    if !has_form(alloc, names, Want::Int, &rounds.initial)? {
        return Ok(None);
    }
    if !has_form(alloc, names, Want::Int, &rounds.limit)? {
        return Ok(None);
    }
    if !has_increment(alloc, names, &rounds.increment)? {
        return Ok(None);
    }
    match names.find(rounds.variable.expansion, &rounds.variable.name) {
        Some((index, Kind::Int)) => Ok(Some(index)),
        _ => Ok(None),
    }
}

// What has to be known of an increment.
fn ask_increment(
    alloc: Global,
    out: &mut Vec<Guarded>,
    line: u32,
    names: &Names,
    increment: &Option<Expr>,
) -> Result<(), NoMemory>
    ensures { OnOk result (out.new.items ≡ out.old.items ++ asks_increment line names.now increment.now) }
{
    match increment {
        None => Ok(()),
        Some(value) => ask_all(alloc, out, line, names, value),
    }
}

// What has to be known of rounds.
#[tactic(auto, unfolding(crate::specs::Guarding::asks_rounds))]
fn ask_rounds(
    alloc: Global,
    out: &mut Vec<Guarded>,
    line: u32,
    names: &Names,
    rounds: &Rounds,
) -> Result<(), NoMemory>
    ensures { OnOk result (out.new.items ≡ out.old.items ++ asks_rounds line names.now rounds.now) }
{
    ask(out, line, truth(true))?;
    ask_all(alloc, out, line, names, &rounds.initial)?;
    ask_all(alloc, out, line, names, &rounds.limit)?;
    ask_increment(alloc, out, line, names, &rounds.increment)
}

/// DO, by the index of its variable if it has a form.
pub(crate) fn repeat(
    alloc: Global,
    out: &mut Vec<Guarded>,
    line: u32,
    expansion: u32,
    names: &Names,
    rounds: Rounds,
    index: Option<u16>,
) -> Result<(), NoMemory>
    ensures { OnOk result (out.new.items ≡ out.old.items ++ repeats line expansion names.now rounds index) }
{
    let Some(index) = index else {
        ask_nothing(out, line)?;
        return stand(out, line, expansion, Form::Test(truth(false)));
    };
    ask_rounds(alloc, out, line, names, &rounds)?;
    where_known(out, line)?;
    stand(out, line, expansion, Form::Repeat(rounds))?;
    know_variable(out, line, index)
}

// The end of a loop whose variable stands at an index, or of a choice that it is put as.
fn end_loop(
    out: &mut Vec<Guarded>,
    line: u32,
    expansion: u32,
    index: Option<u16>,
) -> Result<(), NoMemory>
    ensures { OnOk result (out.new.items ≡ out.old.items ++ loop_ends line expansion index) }
{
    match index {
        Some(index) => {
            stand(out, line, expansion, Form::RepeatEnd)?;
            lose_variable(out, line, index)
        }
        None => stand(out, line, expansion, Form::TestEnd),
    }
}

// The end of blocks that hang on something that may not be known.
#[tactic(auto, unfolding(crate::specs::Guarding::closes))]
fn close(
    alloc: Global,
    out: &mut Vec<Guarded>,
    line: u32,
    effects: Effects,
    indices: &[u16],
) -> Result<(), NoMemory>
    ensures { OnOk result (out.new.items ≡ out.old.items ++ closes line effects indices.now) }
{
    elsewhere(out, line)?;
    lose_block(alloc, out, line, effects, indices)?;
    end(out, line)
}

// The variables that are set behind so many.
fn set_since(assigned: &[u16], since: usize) -> &[u16]
    ensures { result.now ≡ drop since assigned.now }
{
    assigned.get(since..).unwrap_or(&[])
}

/// ENDDO, by the block that is open, if one is.
pub(crate) fn end_repeat(
    alloc: Global,
    out: &mut Vec<Guarded>,
    line: u32,
    expansion: u32,
    block: Option<OpenBlock>,
    assigned: &[u16],
) -> Result<(), NoMemory>
    ensures { OnOk result (out.new.items ≡ out.old.items ++ repeats_end line expansion block assigned.now) }
{
    match block {
        Some(block) => {
            end_loop(out, line, expansion, block.index)?;
            let set = set_since(assigned, block.since);
            close(alloc, out, block.line, block.effects, set)
        }
        None => stand(out, line, expansion, Form::RepeatEnd),
    }
}

/// ENDIF and ENDSEL, by the block that is open, if one is: a choice may hang on something that isn't known.
pub(crate) fn end_choice(
    alloc: Global,
    out: &mut Vec<Guarded>,
    line: u32,
    expansion: u32,
    block: Option<OpenBlock>,
    assigned: &[u16],
    form: Form,
) -> Result<(), NoMemory>
    ensures { OnOk result (out.new.items ≡ out.old.items ++ chooses_end line expansion form block assigned.now) }
{
    stand(out, line, expansion, form)?;
    match block {
        Some(block) => {
            let set = set_since(assigned, block.since);
            close(alloc, out, block.line, block.effects, set)
        }
        None => close(alloc, out, line, Effects::none(), &[]),
    }
}

/// ENDFIL, behind the label that leads here.
pub(crate) fn end_program(
    out: &mut Vec<Guarded>,
    line: u32,
    expansion: u32,
    jumps: bool,
) -> Result<(), NoMemory>
    ensures { OnOk result (out.new.items ≡ out.old.items ++ ending jumps line expansion) }
{
    if jumps {
        stand(out, line, IMPLICIT, Form::Mark(Name::new(b"END")))?;
    }
    stand(out, line, expansion, Form::Ending)
}

/// The innermost block that is open, which is open no more: what may be done in it may be done in the one around it.
pub(crate) fn end_block(blocks: &mut BoundedStack<OpenBlock>) -> Option<OpenBlock>
    ensures top { result ≡ first_block blocks.old }
    ensures rest { blocks.new ≡ closed blocks.old }
{
    match blocks.pop() {
        Some(block) => {
            note_effects(blocks, block.effects);
            Some(block)
        }
        None => None,
    }
}
