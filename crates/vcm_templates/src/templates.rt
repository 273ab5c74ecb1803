//! How statements are put: what is asked first, what is done where it is known, what is told elsewhere.

ghost use Rattle.std.specs.Prelude.{◌≡◌, ◌++◌, ◌∷◌, [], pos, ℤ, Some, None, OnOk, IfOk, List, option_map};
ghost use Rattle.std.specs.List.{flat_map};
ghost use Rattle.vcm_expr.specs.Source.{parts};
ghost use Rattle.vcm_forms.specs.declared.statement.Form.TheVariants.{Assignment};
ghost use Rattle.vcm_expr.specs.Source.{Plain};
ghost use Rattle.vcm_templates.specs.Carried.{carried_target, item_target};
ghost use Rattle.vcm_events.specs.Joined.{pair};
ghost use Rattle.vcm_templates.specs.Expressions.{number};
ghost use Rattle.vcm_templates.specs.Templates.{stands, remarks, set, set_item, lose, know, raise, declare_item, untried, asks, asks_variable, asks_piece, asks_variables, asks_formula, asks_near, asks_within, asks_value, asks_all, is_carried, declares_bound, bound_in, sets_bound, sets_near, where_known, elsewhere, ends, goes, gone, untried_point, touched, lose_epoch, lose_places, lose_all, to_the_end, lose_frame, new_frame, saves_frame, frame_gone};

use crate::besides::{Beside, Formula, at_most, beside_of, bound_value, carries_bounds};
use crate::carried::{Carried, FEATURES_STEP, IMPLICIT, Item, UNKNOWN_SENSOR};
use crate::expressions::{both, is_known, number, truth};
use crate::guarded::Guarded;
use std::alloc::Global;
use vcm_events::pair;
use vcm_expr::{BinaryOp, Expr, Names, Piece, Relation, Term};
use vcm_forms::{Form, Statement, Target};
use vcm_items::Name;
use vcm_macro::Placed;
use vcm_num::{Items, Kind, Literal, NoMemory};
use vcm_remarks::{Cause, Remark};

/// How many thousandths a length may lie from the machine's.
pub const NEAR: i64 = 5;

/// How many thousandths a value that is kept may lie from the machine's.
pub const FAR: i64 = 1_000_000;

/// A statement of a line, in an expansion.
pub fn stand(out: &mut Vec<Guarded>, line: u32, expansion: u32, form: Form) -> Result<(), NoMemory>
    ensures { OnOk result (out.new.items ≡ out.old.items ++ stands line expansion form ∷ []) }
{
    let statement = Statement { line, form };
    let placed = Placed {
        statement,
        expansion,
    };
    out.push(Guarded {
        placed,
        remark: None,
    })?;
    Ok(())
}

/// A statement of a line with a remark.
pub fn remark(
    out: &mut Vec<Guarded>,
    line: u32,
    expansion: u32,
    form: Form,
    remark: Remark,
) -> Result<(), NoMemory>
    ensures { OnOk result (out.new.items ≡ out.old.items ++ remarks line expansion form remark ∷ []) }
{
    let statement = Statement { line, form };
    let placed = Placed {
        statement,
        expansion,
    };
    out.push(Guarded {
        placed,
        remark: Some(remark),
    })?;
    Ok(())
}

/// What is carried gets a value.
pub fn set(out: &mut Vec<Guarded>, line: u32, carried: Carried, value: Expr) -> Result<(), NoMemory>
    ensures { OnOk result (out.new.items ≡ out.old.items ++ set line carried value ∷ []) }
{
    stand(out, line, 0, Form::Assignment(carried.target(), value))
}

/// What is carried gets a number.
pub fn set_number(
    out: &mut Vec<Guarded>,
    line: u32,
    carried: Carried,
    value: i64,
) -> Result<(), NoMemory>
    ensures { OnOk result (out.new.items ≡ out.old.items ++ set line carried (Plain (number value)) ∷ []) }
{
    set(out, line, carried, Expr::leaf(number(value)))
}

/// What is carried of an item gets a value.
pub fn set_item(
    out: &mut Vec<Guarded>,
    line: u32,
    item: Item,
    index: u16,
    value: Expr,
) -> Result<(), NoMemory>
    ensures { OnOk result (out.new.items ≡ out.old.items ++ set_item line item index value ∷ []) }
{
    stand(out, line, 0, Form::Assignment(item.target(index), value))
}

/// What is carried of an item isn't known any more.
pub fn lose_item(out: &mut Vec<Guarded>, line: u32, item: Item, index: u16) -> Result<(), NoMemory>
    ensures { OnOk result (out.new.items ≡ out.old.items ++ set_item line item index (Plain (number (pos 0))) ∷ []) }
{
    set_item(out, line, item, index, Expr::leaf(number(0)))
}

/// What is carried isn't known any more, and is told.
pub fn lose(
    out: &mut Vec<Guarded>,
    line: u32,
    carried: Carried,
    cause: Cause,
) -> Result<(), NoMemory>
    ensures { OnOk result (out.new.items ≡ out.old.items ++ lose line carried cause ∷ []) }
{
    let form = Form::Assignment(carried.target(), Expr::leaf(number(0)));
    remark(out, line, 0, form, Remark::Loses(cause))
}

/// What is carried is known in this epoch.
pub fn know(out: &mut Vec<Guarded>, line: u32, carried: Carried) -> Result<(), NoMemory>
    ensures { OnOk result (out.new.items ≡ out.old.items ++ know line carried ∷ []) }
{
    set(out, line, carried, Expr::leaf(Carried::Epoch.term()))
}

/// What is carried goes up.
pub fn raise(
    alloc: Global,
    out: &mut Vec<Guarded>,
    line: u32,
    carried: Carried,
    by: i64,
) -> Result<(), NoMemory>
    ensures { OnOk result (out.new.items ≡ out.old.items ++ raise line carried by ∷ []) }
{
    let value = pair(alloc, BinaryOp::Add, carried.term(), number(by))?;
    set(out, line, carried, value)
}

/// The variable that carries something of an item is declared.
pub fn declare_item(
    alloc: Global,
    out: &mut Vec<Guarded>,
    line: u32,
    item: Item,
    index: u16,
) -> Result<(), NoMemory>
    ensures { OnOk result (out.new.items ≡ out.old.items ++ declare_item line item index ∷ []) }
{
    let mut names = Items::new(alloc);
    names.push(item.variable())?;
    let expansion = item.target(index).expansion;
    stand(out, line, expansion, Form::Declaration(Kind::Int, names))
}

/// A motion isn't tried.
pub fn untried(out: &mut Vec<Guarded>, line: u32) -> Result<(), NoMemory>
    ensures { OnOk result (out.new.items ≡ out.old.items ++ untried line ∷ []) }
{
    let form = Form::Assignment(Carried::Place.target(), Expr::leaf(number(0)));
    remark(out, line, 0, form, Remark::NotTried)
}

/// What is asked for is known.
pub fn ask(out: &mut Vec<Guarded>, line: u32, value: Expr) -> Result<(), NoMemory>
    ensures { OnOk result (out.new.items ≡ out.old.items ++ asks line value ∷ []) }
{
    set(out, line, Carried::Asked, value)
}

// And the variable at an index.
fn ask_variable(
    alloc: Global,
    out: &mut Vec<Guarded>,
    line: u32,
    index: u16,
) -> Result<(), NoMemory>
    ensures { OnOk result (out.new.items ≡ out.old.items ++ asks_variable line (Some index)) }
{
    let asked = Expr::leaf(Carried::Asked.term());
    let value = both(alloc, &asked, &is_known(alloc, index)?)?;
    ask(out, line, value)
}

// And the variable that a part of an expression is.
fn ask_piece(
    alloc: Global,
    out: &mut Vec<Guarded>,
    line: u32,
    names: &Names,
    piece: &Piece,
) -> Result<(), NoMemory>
    ensures { OnOk result (out.new.items ≡ out.old.items ++ asks_piece line names.now piece.now) }
{
    match piece {
        Piece::Variable(name, expansion) => match names.find(*expansion, name) {
            Some((index, _)) => ask_variable(alloc, out, line, index),
            None => Ok(()),
        },
        _ => Ok(()),
    }
}

// And all variables among the parts of an expression.
fn ask_pieces(
    alloc: Global,
    out: &mut Vec<Guarded>,
    line: u32,
    names: &Names,
    pieces: &[Piece],
) -> Result<(), NoMemory>
    ensures { OnOk result (out.new.items ≡ out.old.items ++ flat_map (asks_piece line names.now) pieces.now) }
{
    for piece in pieces {
        ask_piece(alloc, out, line, names, piece)?;
    }
    Ok(())
}

// And all variables of an expression.
#[tactic(auto, unfolding(crate::specs::Templates::asks_variables))]
fn ask_variables(
    alloc: Global,
    out: &mut Vec<Guarded>,
    line: u32,
    names: &Names,
    value: &Expr,
) -> Result<(), NoMemory>
    ensures { OnOk result (out.new.items ≡ out.old.items ++ asks_variables line names.now value.now) }
{
    ask_pieces(alloc, out, line, names, value.pieces())
}

// And a formula.
fn ask_formula(
    alloc: Global,
    out: &mut Vec<Guarded>,
    line: u32,
    formula: &Formula,
) -> Result<(), NoMemory>
    ensures { OnOk result (out.new.items ≡ out.old.items ++ asks_formula line formula.now) }
{
    match formula {
        Formula::Nothing => Ok(()),
        Formula::This(value) => {
            let asked = Expr::leaf(Carried::Asked.term());
            ask(out, line, both(alloc, &asked, value)?)
        }
        Formula::TooLarge => ask(out, line, truth(false)),
    }
}

// And two formulas.
fn ask_formulas(
    alloc: Global,
    out: &mut Vec<Guarded>,
    line: u32,
    first: &Formula,
    second: &Formula,
) -> Result<(), NoMemory>
    ensures { OnOk result (out.new.items ≡ out.old.items ++ (asks_formula line first.now ++ asks_formula line second.now)) }
{
    ask_formula(alloc, out, line, first)?;
    ask_formula(alloc, out, line, second)
}

// And that a value lies this many thousandths from the machine's at most.
fn ask_near(
    alloc: Global,
    out: &mut Vec<Guarded>,
    line: u32,
    number: i64,
    value: Option<Beside>,
) -> Result<(), NoMemory>
    ensures { OnOk result (out.new.items ≡ out.old.items ++ asks_near line number value) }
{
    match value {
        Some(value) => {
            let near = at_most(alloc, number, &value.bound)?;
            ask_formulas(alloc, out, line, &near, &value.asked)
        }
        None => ask(out, line, truth(false)),
    }
}

// And that the value of an expression does, where this is carried.
#[tactic(auto, unfolding(crate::specs::Templates::asks_within))]
fn ask_within(
    alloc: Global,
    out: &mut Vec<Guarded>,
    line: u32,
    names: &Names,
    number: i64,
    value: &Expr,
) -> Result<(), NoMemory>
    ensures { OnOk result (out.new.items ≡ out.old.items ++ asks_within line names.now number value.now) }
{
    if !carries_bounds(names) {
        return Ok(());
    }
    let beside = beside_of(alloc, names, value)?;
    ask_near(alloc, out, line, number, beside)
}

/// And a value: all its variables, and that it lies this many thousandths from the machine's at most.
pub fn ask_value(
    alloc: Global,
    out: &mut Vec<Guarded>,
    line: u32,
    names: &Names,
    number: i64,
    value: &Expr,
) -> Result<(), NoMemory>
    ensures { OnOk result (out.new.items ≡ out.old.items ++ asks_value line names.now number value.now) }
{
    ask_variables(alloc, out, line, names, value)?;
    ask_within(alloc, out, line, names, number, value)
}

/// And a length.
#[tactic(auto, unfolding(crate::specs::Templates::asks_all))]
pub fn ask_all(
    alloc: Global,
    out: &mut Vec<Guarded>,
    line: u32,
    names: &Names,
    value: &Expr,
) -> Result<(), NoMemory>
    ensures { OnOk result (out.new.items ≡ out.old.items ++ asks_all line names.now value.now) }
{
    ask_value(alloc, out, line, names, NEAR, value)
}

/// Whether how far values of this kind may lie from the machine's is carried.
pub fn is_carried(names: &Names, kind: Kind) -> bool
    ensures { result ≡ is_carried names.now kind }
{
    match kind {
        Kind::Real => carries_bounds(names),
        Kind::Int | Kind::Bool => false,
    }
}

/// The variable that carries how far the variable at an index may lie from the machine's is declared, if it is carried.
#[tactic(auto, unfolding(crate::specs::Templates::declares_bound))]
pub fn declare_bound(
    alloc: Global,
    out: &mut Vec<Guarded>,
    line: u32,
    carried: bool,
    index: u16,
) -> Result<(), NoMemory>
    ensures { OnOk result (out.new.items ≡ out.old.items ++ declares_bound line carried index) }
{
    if !carried {
        return Ok(());
    }
    let mut declared = Items::new(alloc);
    declared.push(Item::Beside.variable())?;
    let expansion = Item::Beside.target(index).expansion;
    stand(
        out,
        line,
        expansion,
        Form::Declaration(Kind::Real, declared),
    )
}

// A bound as an expression.
fn bound_in(beside: Option<Beside>) -> Expr
    ensures { result ≡ bound_in beside }
{
    match beside {
        Some(beside) => bound_value(beside.bound),
        None => bound_value(Formula::Nothing),
    }
}

/// The variable of this kind at an index lies so far from the machine's as this value, where this is carried.
#[tactic(auto, unfolding(crate::specs::Templates::sets_bound))]
pub fn set_bound(
    alloc: Global,
    out: &mut Vec<Guarded>,
    line: u32,
    names: &Names,
    kind: Kind,
    index: u16,
    value: &Expr,
) -> Result<(), NoMemory>
    ensures { OnOk result (out.new.items ≡ out.old.items ++ sets_bound line names.now kind index value.now) }
{
    if !is_carried(names, kind) {
        return Ok(());
    }
    let bound = bound_in(beside_of(alloc, names, value)?);
    set_item(out, line, Item::Beside, index, bound)
}

/// The variable of this kind at an index lies as far from the machine's as a length may.
#[tactic(auto, unfolding(crate::specs::Templates::sets_near))]
pub fn set_near(
    out: &mut Vec<Guarded>,
    line: u32,
    names: &Names,
    kind: Kind,
    index: u16,
) -> Result<(), NoMemory>
    ensures { OnOk result (out.new.items ≡ out.old.items ++ sets_near line names.now kind index) }
{
    if !is_carried(names, kind) {
        return Ok(());
    }
    let near = Expr::leaf(Term::Number(Literal::Thousandths(NEAR)));
    set_item(out, line, Item::Beside, index, near)
}

/// Where it is known.
pub fn where_known(out: &mut Vec<Guarded>, line: u32) -> Result<(), NoMemory>
    ensures { OnOk result (out.new.items ≡ out.old.items ++ where_known line ∷ []) }
{
    stand(out, line, 0, Form::Test(Expr::leaf(Carried::Asked.term())))
}

/// Where it isn't.
pub fn elsewhere(out: &mut Vec<Guarded>, line: u32) -> Result<(), NoMemory>
    ensures { OnOk result (out.new.items ≡ out.old.items ++ elsewhere line ∷ []) }
{
    stand(out, line, 0, Form::Otherwise)
}

/// In both cases again.
pub fn end(out: &mut Vec<Guarded>, line: u32) -> Result<(), NoMemory>
    ensures { OnOk result (out.new.items ≡ out.old.items ++ ends line ∷ []) }
{
    stand(out, line, 0, Form::TestEnd)
}

/// A motion where it is known.
#[tactic(auto, unfolding(crate::specs::Templates::goes))]
pub fn go(alloc: Global, out: &mut Vec<Guarded>, line: u32) -> Result<(), NoMemory>
    ensures { OnOk result (out.new.items ≡ out.old.items ++ goes line) }
{
    let op = BinaryOp::Compare(Relation::Equal);
    let test = pair(alloc, op, Carried::Place.term(), number(0))?;
    where_known(out, line)?;
    stand(out, line, 0, Form::Test(test))?;
    let form = Form::Assignment(Carried::Place.target(), Expr::leaf(number(1)));
    remark(out, line, 0, form, Remark::BeginsElsewhere)?;
    end(out, line)
}

/// Behind it.
#[tactic(auto, unfolding(crate::specs::Templates::gone))]
pub fn gone(out: &mut Vec<Guarded>, line: u32) -> Result<(), NoMemory>
    ensures { OnOk result (out.new.items ≡ out.old.items ++ gone line) }
{
    set_number(out, line, Carried::Place, 1)?;
    elsewhere(out, line)?;
    untried(out, line)?;
    end(out, line)
}

/// A point that isn't tried.
#[tactic(auto, unfolding(crate::specs::Templates::untried_point))]
pub fn untried_point(alloc: Global, out: &mut Vec<Guarded>, line: u32) -> Result<(), NoMemory>
    ensures { OnOk result (out.new.items ≡ out.old.items ++ untried_point line) }
{
    untried(out, line)?;
    set_number(out, line, Carried::Single, 0)?;
    raise(alloc, out, line, Carried::Points, 1)
}

/// Behind a point.
#[tactic(auto, unfolding(crate::specs::Templates::touched))]
pub fn touched(alloc: Global, out: &mut Vec<Guarded>, line: u32) -> Result<(), NoMemory>
    ensures { OnOk result (out.new.items ≡ out.old.items ++ touched line) }
{
    raise(alloc, out, line, Carried::Points, 1)?;
    set_number(out, line, Carried::Place, 1)?;
    elsewhere(out, line)?;
    untried_point(alloc, out, line)?;
    end(out, line)
}

// No value, and no state of the machine, is known any more.
#[tactic(auto, unfolding(crate::specs::Templates::lose_epoch))]
fn lose_epoch(alloc: Global, out: &mut Vec<Guarded>, line: u32) -> Result<(), NoMemory>
    ensures { OnOk result (out.new.items ≡ out.old.items ++ lose_epoch line) }
{
    let epoch = pair(alloc, BinaryOp::Add, Carried::Epoch.term(), number(1))?;
    let form = Form::Assignment(Carried::Epoch.target(), epoch);
    remark(out, line, 0, form, Remark::Loses(Cause::All))?;
    raise(alloc, out, line, Carried::Values, 1)?;
    raise(alloc, out, line, Carried::Features, FEATURES_STEP)
}

// No frame, no place and no sensor is known any more.
#[tactic(auto, unfolding(crate::specs::Templates::lose_places))]
fn lose_places(out: &mut Vec<Guarded>, line: u32) -> Result<(), NoMemory>
    ensures { OnOk result (out.new.items ≡ out.old.items ++ lose_places line) }
{
    set_number(out, line, Carried::Frame, 0)?;
    set(
        out,
        line,
        Carried::Floor,
        Expr::leaf(Carried::Latest.term()),
    )?;
    set_number(out, line, Carried::Place, 0)?;
    set_number(out, line, Carried::Sensor, UNKNOWN_SENSOR)
}

/// Nothing is known any more.
#[tactic(auto, unfolding(crate::specs::Templates::lose_all))]
pub fn lose_all(alloc: Global, out: &mut Vec<Guarded>, line: u32) -> Result<(), NoMemory>
    ensures { OnOk result (out.new.items ≡ out.old.items ++ lose_all line) }
{
    lose_epoch(alloc, out, line)?;
    lose_places(out, line)
}

/// The way to the end of the program, where it isn't known how it goes on.
pub fn go_to_end(out: &mut Vec<Guarded>, line: u32) -> Result<(), NoMemory>
    ensures { OnOk result (out.new.items ≡ out.old.items ++ to_the_end line ∷ []) }
{
    let form = Form::Leap(Name::new(b"END"));
    remark(out, line, IMPLICIT, form, Remark::Ends)
}

/// The current frame isn't known.
pub fn lose_frame(out: &mut Vec<Guarded>, line: u32) -> Result<(), NoMemory>
    ensures { OnOk result (out.new.items ≡ out.old.items ++ lose_frame line ∷ []) }
{
    lose(out, line, Carried::Frame, Cause::Frame)
}

/// The current frame is a new one.
#[tactic(auto, unfolding(crate::specs::Templates::new_frame))]
pub fn new_frame(alloc: Global, out: &mut Vec<Guarded>, line: u32) -> Result<(), NoMemory>
    ensures { OnOk result (out.new.items ≡ out.old.items ++ new_frame line) }
{
    raise(alloc, out, line, Carried::Latest, 1)?;
    set(
        out,
        line,
        Carried::Frame,
        Expr::leaf(Carried::Latest.term()),
    )
}

/// And is saved at an index.
#[tactic(auto, unfolding(crate::specs::Templates::saves_frame))]
pub fn save_frame(
    alloc: Global,
    out: &mut Vec<Guarded>,
    line: u32,
    index: u16,
) -> Result<(), NoMemory>
    ensures { OnOk result (out.new.items ≡ out.old.items ++ saves_frame line index) }
{
    let op = BinaryOp::Mul;
    let number = pair(alloc, op, Carried::Frame.term(), Carried::Saving.term())?;
    new_frame(alloc, out, line)?;
    set_item(out, line, Item::Saved, index, number)
}

/// A frame that is saved at an index isn't known, nor is the current one.
#[tactic(auto, unfolding(crate::specs::Templates::frame_gone))]
pub fn frame_gone(out: &mut Vec<Guarded>, line: u32, index: Option<u16>) -> Result<(), NoMemory>
    ensures { OnOk result (out.new.items ≡ out.old.items ++ frame_gone line index) }
{
    lose_frame(out, line)?;
    match index {
        Some(index) => lose_item(out, line, Item::Saved, index),
        None => Ok(()),
    }
}
