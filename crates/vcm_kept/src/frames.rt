//! Settings and frames.

ghost use Rattle.std.specs.Prelude.{◌≡◌, ◌++◌, ◌∷◌, [], pos, Some, None, OnOk, IfOk, List, if◌then◌else◌};
ghost use Rattle.std.specs.List.{flat_map, list_all};
ghost use Rattle.vcm_program.specs.Titles.{index_of, entered};
ghost use Rattle.vcm_expr.specs.declared.typing.Want.TheVariants as wants;
ghost use Rattle.vcm_forms.specs.declared.statement.Form.TheVariants as form;
ghost use Rattle.vcm_remarks.specs.declared.remark.Cause.TheVariants as causes;
ghost use Rattle.vcm_templates.specs.Templates.{asks, asks_all, where_known, stands, elsewhere, lose, know, ends, frame_gone};
ghost use Rattle.vcm_kept.specs.Guarding.{carried_setting, configures, setting_where, declares_frame, made_where, found_in, has_shifts, has_shift, asks_shifts, shifts_in, shifts, origins_in, turn_asks, turns_in, recalls_at, recalled_where, makes_frame, with_known};

use crate::approaches::keep_setting;
use crate::datums::{declare_axes, frame_asks, keep_axes, recall_axes, shifts_of, turn_axes};
use crate::named::{declare_stored, keep_stored};
use crate::places::{copied, length_asks};
use crate::points::index_among;
use crate::text::Text;
use std::alloc::Global;
use vcm_events::{are_origins, pair};
use vcm_expr::{BinaryOp, Expr, Names, Relation, Want};
use vcm_forms::{Form, Offset};
use vcm_items::Name;
use vcm_num::{Items, MOST_NAMES, NoMemory};
use vcm_program::Titles;
use vcm_remarks::Cause;
use vcm_spec::{FrameAxis, Quarters, Setting};
use vcm_templates::{
    Carried, Guarded, Item, are_current, ask, ask_all, both, declare_item, elsewhere, end,
    frame_gone, has_form, is_current, know, knows_frame, lose, lose_frame, save_frame, set, stand,
    where_known,
};

// The variable of a setting.
fn carried_setting(which: Setting) -> Carried
    ensures { result ≡ carried_setting which }
{
    match which {
        Setting::Approach => Carried::Approach,
        Setting::Search | Setting::Depth => Carried::Search,
        Setting::Retract => Carried::Retract,
    }
}

// Behind a setting it is known, elsewhere it isn't.
#[tactic(auto, unfolding(crate::specs::Guarding::setting_where))]
fn setting_where(out: &mut Vec<Guarded>, line: u32, carried: Carried) -> Result<(), NoMemory>
    ensures { OnOk result (out.new.items ≡ out.old.items ++ setting_where line carried) }
{
    know(out, line, carried)?;
    elsewhere(out, line)?;
    lose(out, line, carried, Cause::Setting)?;
    end(out, line)
}

/// SNSET.
pub(crate) fn configure(
    alloc: Global,
    out: &mut Vec<Guarded>,
    slanted: bool,
    line: u32,
    expansion: u32,
    names: &Names,
    which: Setting,
    value: Expr,
) -> Result<(), NoMemory>
    ensures { OnOk result (out.new.items ≡ out.old.items ++ configures slanted line expansion names.now which value) }
{
    let carried = carried_setting(which);
    if !has_form(alloc, names, Want::Length, &value)? {
        return lose(out, line, carried, Cause::Setting);
    }
    ask(out, line, are_current(alloc, &[Carried::Unit])?)?;
    ask_all(alloc, out, line, names, &value)?;
    where_known(out, line)?;
    let length = copied(alloc, &value)?;
    stand(out, line, expansion, Form::Configure(which, value))?;
    keep_setting(alloc, out, slanted, line, which, &length)?;
    setting_where(out, line, carried)
}

// What is carried of a frame is declared with it, where it is new.
fn declare_carried(
    alloc: Global,
    out: &mut Vec<Guarded>,
    text: Text,
    line: u32,
    index: u16,
    was: Option<u16>,
) -> Result<(), NoMemory>
    ensures { OnOk result (out.new.items ≡ out.old.items ++ declares_frame text line index was) }
{
    match was {
        Some(_) => Ok(()),
        None => {
            declare_item(alloc, out, line, Item::Saved, index)?;
            declare_stored(alloc, out, text.saving, line, index)?;
            declare_axes(alloc, out, text.datums, line, index)
        }
    }
}

// Behind a frame that is made it is a new one, elsewhere it isn't known.
#[tactic(auto, unfolding(crate::specs::Guarding::made_where))]
fn made_where(
    alloc: Global,
    out: &mut Vec<Guarded>,
    text: Text,
    line: u32,
    index: u16,
) -> Result<(), NoMemory>
    ensures { OnOk result (out.new.items ≡ out.old.items ++ made_where text line index) }
{
    save_frame(alloc, out, line, index)?;
    keep_stored(alloc, out, text.saving, line, index)?;
    keep_axes(out, text.datums, line, index)?;
    elsewhere(out, line)?;
    frame_gone(out, line, Some(index))?;
    end(out, line)
}

// The index of a frame, which is entered where it is new; none where there is no room.
fn entered(frames: &mut Titles, label: &Name) -> Result<Option<u16>, NoMemory>
    ensures index { IfOk result (λ i. i ≡ found_in (entered frames.old label.now)) }
    ensures frames { OnOk result (frames.new ≡ with_known frames.old label.now) }
{
    if let Some(index) = index_among(frames, label) {
        return Ok(Some(index));
    }
    if frames.len() >= MOST_NAMES {
        return Ok(None);
    }
    match frames.enter(1, label.copy()) {
        Ok(index) => Ok(Some(index)),
        Err(_) => Err(NoMemory),
    }
}

// Whether the shifts of TRANS have forms.
fn have_forms(alloc: Global, names: &Names, offsets: &[Offset]) -> Result<bool, NoMemory>
    ensures { IfOk result (λ b. b ≡ list_all (has_shift names.now) offsets.now) }
{
    for offset in offsets {
        if !has_form(alloc, names, Want::Length, &offset.length)? {
            return Ok(false);
        }
    }
    Ok(true)
}

// Whether TRANS has shifts, all of them with forms.
fn has_shifts(alloc: Global, names: &Names, offsets: &[Offset]) -> Result<bool, NoMemory>
    ensures { IfOk result (λ b. b ≡ has_shifts names.now offsets.now) }
{
    if offsets.is_empty() {
        return Ok(false);
    }
    have_forms(alloc, names, offsets)
}

/// Whether a frame is made by these shifts.
pub(crate) fn makes_frame(
    alloc: Global,
    names: &Names,
    offsets: &[Offset],
) -> Result<bool, NoMemory>
    ensures { IfOk result (λ b. b ≡ makes_frame names.now offsets.now) }
{
    if are_origins(offsets) {
        Ok(true)
    } else {
        has_shifts(alloc, names, offsets)
    }
}

// What has to be known of the variables of shifts.
fn ask_shifts(
    alloc: Global,
    out: &mut Vec<Guarded>,
    line: u32,
    names: &Names,
    offsets: &[Offset],
) -> Result<(), NoMemory>
    ensures { OnOk result (out.new.items ≡ out.old.items ++ flat_map (asks_shifts line names.now) offsets.now) }
{
    for offset in offsets {
        ask_all(alloc, out, line, names, &offset.length)?;
    }
    Ok(())
}

// TRANS whose shifts have forms.
fn shift_in(
    alloc: Global,
    out: &mut Vec<Guarded>,
    text: Text,
    line: u32,
    expansion: u32,
    names: &Names,
    frames: &mut Titles,
    label: Name,
    offsets: Items<Offset>,
) -> Result<(), NoMemory>
    ensures put { OnOk result (out.new.items ≡ out.old.items ++ shifts_in text line expansion names.now frames.old label offsets) }
    ensures frames { OnOk result (frames.new ≡ with_known frames.old label) }
{
    let was = index_among(frames, &label);
    let Some(index) = entered(frames, &label)? else {
        return stand(out, line, expansion, Form::Shift(label, offsets));
    };
    declare_carried(alloc, out, text, line, index, was)?;
    ask(out, line, length_asks(alloc)?)?;
    ask_shifts(alloc, out, line, names, offsets.as_slice())?;
    where_known(out, line)?;
    stand(out, line, expansion, Form::Shift(label, offsets))?;
    made_where(alloc, out, text, line, index)
}

/// TRANS.
pub(crate) fn shift(
    alloc: Global,
    out: &mut Vec<Guarded>,
    text: Text,
    line: u32,
    expansion: u32,
    names: &Names,
    frames: &mut Titles,
    label: Name,
    offsets: Items<Offset>,
) -> Result<(), NoMemory>
    ensures put { OnOk result (out.new.items ≡ out.old.items ++ shifts text line expansion names.now frames.old label offsets) }
    ensures frames { OnOk result (frames.new ≡ (if has_shifts names.now offsets then with_known frames.old label else frames.old)) }
{
    if has_shifts(alloc, names, offsets.as_slice())? {
        shift_in(
            alloc, out, text, line, expansion, names, frames, label, offsets,
        )
    } else {
        frame_gone(out, line, index_among(frames, &label))
    }
}

/// A frame by its origins.
pub(crate) fn originated(
    alloc: Global,
    out: &mut Vec<Guarded>,
    text: Text,
    line: u32,
    expansion: u32,
    frames: &mut Titles,
    label: Name,
    offsets: &[Offset],
) -> Result<(), NoMemory>
    ensures put { OnOk result (out.new.items ≡ out.old.items ++ origins_in text line expansion frames.old label offsets.now) }
    ensures frames { OnOk result (frames.new ≡ with_known frames.old label) }
{
    let shifts = shifts_of(alloc, offsets)?;
    let was = index_among(frames, &label);
    let Some(index) = entered(frames, &label)? else {
        return stand(out, line, expansion, Form::Shift(label, shifts));
    };
    declare_carried(alloc, out, text, line, index, was)?;
    ask(out, line, frame_asks(alloc)?)?;
    where_known(out, line)?;
    stand(out, line, expansion, Form::Shift(label, shifts))?;
    made_where(alloc, out, text, line, index)
}

// What has to be known for a turn.
fn turn_asks(alloc: Global, angles: bool) -> Result<Expr, NoMemory>
    ensures { IfOk result (λ e. e ≡ turn_asks angles) }
{
    let asked = length_asks(alloc)?;
    if angles {
        both(alloc, &asked, &is_current(alloc, Carried::Angle)?)
    } else {
        Ok(asked)
    }
}

/// ROTATE.
pub(crate) fn rotate(
    alloc: Global,
    out: &mut Vec<Guarded>,
    text: Text,
    line: u32,
    expansion: u32,
    frames: &mut Titles,
    label: Name,
    axis: FrameAxis,
    turns: Quarters,
) -> Result<(), NoMemory>
    ensures put { OnOk result (out.new.items ≡ out.old.items ++ turns_in text line expansion frames.old label axis turns) }
    ensures frames { OnOk result (frames.new ≡ with_known frames.old label) }
{
    let was = index_among(frames, &label);
    let Some(index) = entered(frames, &label)? else {
        return stand(out, line, expansion, Form::Rotation(label, axis, turns));
    };
    declare_carried(alloc, out, text, line, index, was)?;
    ask(out, line, turn_asks(alloc, text.polar)?)?;
    where_known(out, line)?;
    stand(out, line, expansion, Form::Rotation(label, axis, turns))?;
    turn_axes(out, text.datums, line)?;
    made_where(alloc, out, text, line, index)
}

// Behind a frame that is recalled it is the current one, elsewhere this isn't known.
#[tactic(auto, unfolding(crate::specs::Guarding::recalled_where))]
fn recalled_where(
    out: &mut Vec<Guarded>,
    datums: bool,
    line: u32,
    index: u16,
) -> Result<(), NoMemory>
    ensures { OnOk result (out.new.items ≡ out.old.items ++ recalled_where datums line index) }
{
    set(
        out,
        line,
        Carried::Frame,
        Expr::leaf(Item::Saved.term(index)),
    )?;
    recall_axes(out, datums, line, index)?;
    elsewhere(out, line)?;
    lose_frame(out, line)?;
    end(out, line)
}

/// RECALL.
pub(crate) fn recall(
    alloc: Global,
    out: &mut Vec<Guarded>,
    datums: bool,
    line: u32,
    expansion: u32,
    frames: &Titles,
    label: Name,
) -> Result<(), NoMemory>
    ensures { OnOk result (out.new.items ≡ out.old.items ++ recalls_at datums line expansion label (index_of frames.now label)) }
{
    let Some(index) = index_among(frames, &label) else {
        return lose_frame(out, line);
    };
    let op = BinaryOp::Compare(Relation::Greater);
    let test = pair(alloc, op, Item::Saved.term(index), Carried::Floor.term())?;
    stand(out, line, 0, Form::Test(test))?;
    stand(out, line, expansion, Form::Restore(label))?;
    recalled_where(out, datums, line, index)
}
