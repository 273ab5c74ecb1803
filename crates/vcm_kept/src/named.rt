//! What happens to frames and features by their names.

ghost use Rattle.std.specs.Prelude.{◌≡◌, ◌++◌, OnOk};
ghost use Rattle.vcm_program.specs.Titles.{index_of};
ghost use Rattle.vcm_kept.specs.Named.{drops_frames, drops_frame, drops_feature, remakes_feature, stores_frame, declares_stored, keeps_stored};

use crate::datums::unbind;
use crate::points::index_among;
use std::alloc::Global;
use vcm_events::{join, pair};
use vcm_expr::{BinaryOp, Expr};
use vcm_items::Name;
use vcm_num::NoMemory;
use vcm_program::Titles;
use vcm_templates::{
    Carried, FEATURES_STEP, Guarded, Item, declare_item, lose_item, number, raise, set, set_item,
    set_number,
};

/// No frame that is saved is known.
pub(crate) fn drop_frames(out: &mut Vec<Guarded>, line: u32) -> Result<(), NoMemory>
    ensures { OnOk result (out.new.items ≡ out.old.items ++ drops_frames line) }
{
    let latest = Expr::leaf(Carried::Latest.term());
    set(out, line, Carried::Floor, latest)
}

/// A frame is deleted.
pub(crate) fn drop_frame(
    out: &mut Vec<Guarded>,
    line: u32,
    frames: &Titles,
    label: &Name,
) -> Result<(), NoMemory>
    ensures { OnOk result (out.new.items ≡ out.old.items ++ drops_frame line (index_of frames.now label.now)) }
{
    match index_among(frames, label) {
        None => drop_frames(out, line),
        Some(index) => lose_item(out, line, Item::Saved, index),
    }
}

/// A feature is deleted, or changes.
pub(crate) fn drop_feature(
    alloc: Global,
    out: &mut Vec<Guarded>,
    datums: bool,
    line: u32,
    declared: &Titles,
    label: &Name,
) -> Result<(), NoMemory>
    ensures { OnOk result (out.new.items ≡ out.old.items ++ drops_feature datums line (index_of declared.now label.now)) }
{
    match index_among(declared, label) {
        None => raise(alloc, out, line, Carried::Features, FEATURES_STEP),
        Some(index) => {
            lose_item(out, line, Item::Nominal, index)?;
            lose_item(out, line, Item::Measured, index)?;
            unbind(out, datums, line, index)
        }
    }
}

/// A feature is made of others.
pub(crate) fn remake_feature(
    alloc: Global,
    out: &mut Vec<Guarded>,
    datums: bool,
    line: u32,
    declared: &Titles,
    label: &Name,
) -> Result<(), NoMemory>
    ensures { OnOk result (out.new.items ≡ out.old.items ++ remakes_feature datums line (index_of declared.now label.now)) }
{
    match index_among(declared, label) {
        None => raise(alloc, out, line, Carried::Features, FEATURES_STEP),
        Some(index) => {
            lose_item(out, line, Item::Measured, index)?;
            unbind(out, datums, line, index)
        }
    }
}

/// A frame is kept elsewhere.
pub(crate) fn store_frame(
    out: &mut Vec<Guarded>,
    line: u32,
    frames: &Titles,
    label: &Name,
) -> Result<(), NoMemory>
    ensures { OnOk result (out.new.items ≡ out.old.items ++ stores_frame line (index_of frames.now label.now)) }
{
    match index_among(frames, label) {
        None => set_number(out, line, Carried::Saving, 0),
        Some(index) => set_item(out, line, Item::Stored, index, Expr::leaf(number(1))),
    }
}

/// Whether a frame was kept elsewhere is carried with it.
pub(crate) fn declare_stored(
    alloc: Global,
    out: &mut Vec<Guarded>,
    saving: bool,
    line: u32,
    index: u16,
) -> Result<(), NoMemory>
    ensures { OnOk result (out.new.items ≡ out.old.items ++ declares_stored saving line index) }
{
    if saving {
        declare_item(alloc, out, line, Item::Stored, index)
    } else {
        Ok(())
    }
}

/// A frame that is made again after it was kept elsewhere isn't known by its name.
pub(crate) fn keep_stored(
    alloc: Global,
    out: &mut Vec<Guarded>,
    saving: bool,
    line: u32,
    index: u16,
) -> Result<(), NoMemory>
    ensures { OnOk result (out.new.items ≡ out.old.items ++ keeps_stored saving line index) }
{
    if !saving {
        return Ok(());
    }
    let op = BinaryOp::Sub;
    let is_free = pair(alloc, op, number(1), Item::Stored.term(index))?;
    let saved = Expr::leaf(Item::Saved.term(index));
    match join(alloc, BinaryOp::Mul, &saved, &is_free)? {
        Some(kept) => set_item(out, line, Item::Saved, index, kept),
        None => Err(NoMemory),
    }
}
