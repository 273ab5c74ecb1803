//! Datums that are points, and frames whose origins lie on them.

ghost use Rattle.std.specs.Prelude.{◌≡◌, ◌++◌, ◌∷◌, [], map, pos, Some, None, true, false, OnOk, IfOk, List};
ghost use Rattle.vcm_program.specs.Titles.{index_of};
ghost use Rattle.vcm_templates.specs.Carried.{length_target};
ghost use Rattle.vcm_templates.specs.Templates.{elsewhere, ends};
ghost use Rattle.vcm_kept.specs.Datums.{binds_at, binds, unbinds, declares_bound_at, keeps_axes, recalls_axes, straightens, turns_axes, declares_axes, origin_of, origin_by, along_by, begins_origins, origin_lost, origin_asks, goes_along, asks_origin, keeps_origin, originates_at, originates, shift_of, frame_asks, declares_datums};

use crate::approaches::length_names;
use crate::places::length_asks;
use crate::points::{index_among, is_measured};
use std::alloc::Global;
use vcm_events::pair;
use vcm_expr::{BinaryOp, Expr, Relation, Term};
use vcm_forms::{Form, Offset, Target};
use vcm_items::Name;
use vcm_num::{Items, Kind, Literal, NoMemory};
use vcm_program::Titles;
use vcm_spec::{FeatureWord, FrameAxis, Source};
use vcm_templates::{
    Carried, Guarded, IMPLICIT, Item, Length, ask, both, declare_item, elsewhere, end, lose_item,
    number, same_as, set, set_item, set_number, stand, where_known,
};

// The feature at an index is a datum from here on.
fn bind_at(out: &mut Vec<Guarded>, line: u32, index: u16) -> Result<(), NoMemory>
    ensures { OnOk result (out.new.items ≡ out.old.items ++ binds_at line index) }
{
    let measured = Expr::leaf(Item::Measured.term(index));
    set_item(out, line, Item::Bound, index, measured)
}

/// DATDEF of a feature.
pub(crate) fn bind(
    out: &mut Vec<Guarded>,
    line: u32,
    declared: &Titles,
    label: &Name,
) -> Result<(), NoMemory>
    ensures { OnOk result (out.new.items ≡ out.old.items ++ binds line (index_of declared.now label.now)) }
{
    match index_among(declared, label) {
        Some(index) => bind_at(out, line, index),
        None => Ok(()),
    }
}

/// A feature that is measured again is the datum that it was on some machines alone.
pub(crate) fn unbind(
    out: &mut Vec<Guarded>,
    datums: bool,
    line: u32,
    index: u16,
) -> Result<(), NoMemory>
    ensures { OnOk result (out.new.items ≡ out.old.items ++ unbinds datums line index) }
{
    if datums {
        lose_item(out, line, Item::Bound, index)
    } else {
        Ok(())
    }
}

/// Whether a feature is a datum is carried with it.
pub(crate) fn declare_bound(
    alloc: Global,
    out: &mut Vec<Guarded>,
    datums: bool,
    line: u32,
    index: u16,
) -> Result<(), NoMemory>
    ensures { OnOk result (out.new.items ≡ out.old.items ++ declares_bound_at datums line index) }
{
    if datums {
        declare_item(alloc, out, line, Item::Bound, index)
    } else {
        Ok(())
    }
}

/// The axes of the frame at an index are those of the current one.
pub(crate) fn keep_axes(
    out: &mut Vec<Guarded>,
    datums: bool,
    line: u32,
    index: u16,
) -> Result<(), NoMemory>
    ensures { OnOk result (out.new.items ≡ out.old.items ++ keeps_axes datums line index) }
{
    if datums {
        let axes = Expr::leaf(Carried::Straight.term());
        set_item(out, line, Item::Axes, index, axes)
    } else {
        Ok(())
    }
}

/// The current frame has the axes of the frame at an index.
pub(crate) fn recall_axes(
    out: &mut Vec<Guarded>,
    datums: bool,
    line: u32,
    index: u16,
) -> Result<(), NoMemory>
    ensures { OnOk result (out.new.items ≡ out.old.items ++ recalls_axes datums line index) }
{
    if datums {
        let axes = Expr::leaf(Item::Axes.term(index));
        set(out, line, Carried::Straight, axes)
    } else {
        Ok(())
    }
}

/// It has those of the machine.
pub(crate) fn straighten(out: &mut Vec<Guarded>, datums: bool, line: u32) -> Result<(), NoMemory>
    ensures { OnOk result (out.new.items ≡ out.old.items ++ straightens datums line) }
{
    if datums {
        set_number(out, line, Carried::Straight, 1)
    } else {
        Ok(())
    }
}

/// It has others.
pub(crate) fn turn_axes(out: &mut Vec<Guarded>, datums: bool, line: u32) -> Result<(), NoMemory>
    ensures { OnOk result (out.new.items ≡ out.old.items ++ turns_axes datums line) }
{
    if datums {
        set_number(out, line, Carried::Straight, 0)
    } else {
        Ok(())
    }
}

/// They are carried with each frame.
pub(crate) fn declare_axes(
    alloc: Global,
    out: &mut Vec<Guarded>,
    datums: bool,
    line: u32,
    index: u16,
) -> Result<(), NoMemory>
    ensures { OnOk result (out.new.items ≡ out.old.items ++ declares_axes datums line index) }
{
    if datums {
        declare_item(alloc, out, line, Item::Axes, index)
    } else {
        Ok(())
    }
}

// Where a frame's origin along an axis is carried.
fn origin_of(axis: FrameAxis) -> Length
    ensures { result ≡ origin_of axis }
{
    match axis {
        FrameAxis::X => Length::OriginX,
        FrameAxis::Y => Length::OriginY,
        FrameAxis::Z => Length::OriginZ,
    }
}

// Where the coordinate that a word of a feature says is carried.
fn origin_target(word: FeatureWord) -> Target
    ensures { result ≡ length_target (origin_by word) }
{
    match word {
        FeatureWord::X => Length::OriginX.target(),
        FeatureWord::Y => Length::OriginY.target(),
        FeatureWord::Z => Length::OriginZ.target(),
        FeatureWord::I => Length::OriginX.target(),
        FeatureWord::J => Length::OriginX.target(),
        FeatureWord::K => Length::OriginX.target(),
    }
}

// The component of its direction along the same axis.
fn along_by(word: FeatureWord) -> FeatureWord
    ensures { result ≡ along_by word }
{
    match word {
        FeatureWord::X => FeatureWord::I,
        FeatureWord::Y => FeatureWord::J,
        FeatureWord::Z => FeatureWord::K,
        other => other,
    }
}

/// A frame by its origins begins.
pub(crate) fn begin_origins(out: &mut Vec<Guarded>, datums: bool, line: u32) -> Result<(), NoMemory>
    ensures { OnOk result (out.new.items ≡ out.old.items ++ begins_origins datums line) }
{
    if datums {
        set_number(out, line, Carried::Origins, 1)
    } else {
        Ok(())
    }
}

// What has to be known of a datum.
#[tactic(auto, unfolding(crate::specs::Datums::origin_asks))]
fn origin_asks(alloc: Global, index: u16) -> Result<Expr, NoMemory>
    ensures { IfOk result (λ e. e ≡ origin_asks index) }
{
    let op = BinaryOp::Compare(Relation::Equal);
    let straight = pair(alloc, op, Carried::Straight.term(), number(1))?;
    let frame = both(alloc, &straight, &length_asks(alloc)?)?;
    let bound = same_as(alloc, Item::Bound.term(index))?;
    let state = both(alloc, &bound, &frame)?;
    both(alloc, &same_as(alloc, Item::Measured.term(index))?, &state)
}

// Whether a point's direction goes along the axis of the origin.
fn goes_along(alloc: Global) -> Result<Expr, NoMemory>
    ensures { IfOk result (λ e. e ≡ goes_along) }
{
    let op = BinaryOp::Compare(Relation::NotEqual);
    let nothing = Term::Number(Literal::Thousandths(0));
    pair(alloc, op, Length::Along.term(), nothing)
}

// The direction of the point of a datum.
#[tactic(auto, unfolding(crate::specs::Datums::asks_origin))]
fn ask_origin(
    alloc: Global,
    out: &mut Vec<Guarded>,
    line: u32,
    expansion: u32,
    index: u16,
    label: &Name,
    word: FeatureWord,
) -> Result<(), NoMemory>
    ensures { OnOk result (out.new.items ≡ out.old.items ++ asks_origin line expansion index label.now word) }
{
    ask(out, line, origin_asks(alloc, index)?)?;
    where_known(out, line)?;
    let along = Length::Along.target();
    let form = Form::Query(along, Source::Actual, label.copy(), along_by(word));
    stand(out, line, expansion, form)?;
    ask(out, line, goes_along(alloc)?)?;
    end(out, line)
}

// Elsewhere an origin isn't known.
fn otherwise_lose(out: &mut Vec<Guarded>, line: u32) -> Result<(), NoMemory>
    ensures { OnOk result (out.new.items ≡ out.old.items ++ elsewhere line ∷ origin_lost line ∷ ends line ∷ []) }
{
    elsewhere(out, line)?;
    set_number(out, line, Carried::Origins, 0)?;
    end(out, line)
}

// The coordinate of an origin, where it is known.
#[tactic(auto, unfolding(crate::specs::Datums::keeps_origin))]
fn keep_origin(
    out: &mut Vec<Guarded>,
    line: u32,
    expansion: u32,
    label: Name,
    word: FeatureWord,
) -> Result<(), NoMemory>
    ensures { OnOk result (out.new.items ≡ out.old.items ++ keeps_origin line expansion label word) }
{
    where_known(out, line)?;
    let form = Form::Query(origin_target(word), Source::Actual, label, word);
    stand(out, line, expansion, form)?;
    otherwise_lose(out, line)
}

// An origin of a frame lies on the point of the feature at an index.
fn originate_at(
    alloc: Global,
    out: &mut Vec<Guarded>,
    line: u32,
    expansion: u32,
    index: u16,
    label: Name,
    word: FeatureWord,
) -> Result<(), NoMemory>
    ensures { OnOk result (out.new.items ≡ out.old.items ++ originates_at line expansion index label word) }
{
    ask_origin(alloc, out, line, expansion, index, &label, word)?;
    keep_origin(out, line, expansion, label, word)
}

/// An origin of a frame, on a feature.
pub(crate) fn originate(
    alloc: Global,
    out: &mut Vec<Guarded>,
    line: u32,
    expansion: u32,
    declared: &Titles,
    label: Name,
    word: FeatureWord,
) -> Result<(), NoMemory>
    ensures { OnOk result (out.new.items ≡ out.old.items ++ originates line expansion label word (index_of declared.now label)) }
{
    match index_among(declared, &label) {
        Some(index) => originate_at(alloc, out, line, expansion, index, label, word),
        None => set_number(out, line, Carried::Origins, 0),
    }
}

// The shift to an origin, as it is carried.
fn shift_of(offset: &Offset) -> Offset
    ensures { result ≡ shift_of offset.now }
{
    Offset {
        axis: offset.axis,
        length: Expr::leaf(origin_of(offset.axis).term()),
    }
}

/// The shifts to origins, as they are carried.
pub(crate) fn shifts_of(alloc: Global, offsets: &[Offset]) -> Result<Items<Offset>, NoMemory>
    ensures { IfOk result (λ os. os ≡ map shift_of offsets.now) }
{
    let mut shifts = Items::new(alloc);
    for offset in offsets {
        shifts.push(shift_of(offset))?;
    }
    Ok(shifts)
}

/// What has to be known for a frame by its origins.
#[tactic(auto, unfolding(crate::specs::Datums::frame_asks))]
pub(crate) fn frame_asks(alloc: Global) -> Result<Expr, NoMemory>
    ensures { IfOk result (λ e. e ≡ frame_asks) }
{
    let op = BinaryOp::Compare(Relation::Equal);
    let known = pair(alloc, op, Carried::Origins.term(), number(1))?;
    both(alloc, &known, &length_asks(alloc)?)
}

/// What is carried of datums is declared.
#[tactic(auto, unfolding(crate::specs::Datums::declares_datums))]
pub(crate) fn declare_datums(
    alloc: Global,
    out: &mut Vec<Guarded>,
    datums: bool,
) -> Result<(), NoMemory>
    ensures { OnOk result (out.new.items ≡ out.old.items ++ declares_datums datums) }
{
    if !datums {
        return Ok(());
    }
    let origins = [
        Length::Along,
        Length::OriginX,
        Length::OriginY,
        Length::OriginZ,
    ];
    let lengths = length_names(alloc, &origins)?;
    let mut numbers = Items::new(alloc);
    numbers.push(Carried::Straight.variable())?;
    numbers.push(Carried::Origins.variable())?;
    stand(out, 1, IMPLICIT, Form::Declaration(Kind::Real, lengths))?;
    stand(out, 1, IMPLICIT, Form::Declaration(Kind::Int, numbers))?;
    set_number(out, 1, Carried::Straight, 1)
}
