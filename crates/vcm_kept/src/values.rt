//! Values of features.

ghost use Rattle.std.specs.Prelude.{◌≡◌, ◌++◌, ◌∷◌, [], Some, None, OnOk, IfOk, List};
ghost use Rattle.vcm_items.specs.Names.{variable_of};
ghost use Rattle.vcm_program.specs.Titles.{index_of};
ghost use Rattle.vcm_kept.specs.Guarding.{is_here, obtains_by, obtains_here, queries, unreported, reports_at};
ghost use Rattle.vcm_events.specs.Events.{event_named};

use crate::datums::{bind, originate};
use crate::named::{drop_feature, drop_frame, remake_feature, store_frame};
use crate::places::length_asks;
use crate::points::{index_among, is_measured, is_nominal};
use crate::variables::{lose_variable, otherwise_lose};
use std::alloc::Global;
use vcm_events::Event;
use vcm_expr::{Expr, Names};
use vcm_forms::{Form, Target};
use vcm_items::Name;
use vcm_num::{Kind, NoMemory};
use vcm_program::Titles;
use vcm_remarks::Remark;
use vcm_spec::{FeatureWord, Source};
use vcm_templates::{
    Carried, Guarded, ask, both, elsewhere, end, knows_frame, remark, set_near, stand, truth,
    where_known,
};

// The frame in which a feature's value is known is the current one.
fn is_here(alloc: Global, side: Source, index: u16) -> Result<Expr, NoMemory>
    ensures { IfOk result (λ e. e ≡ is_here side index) }
{
    match side {
        Source::Nominal => is_nominal(alloc, index),
        Source::Actual => is_measured(alloc, index),
    }
}

// OBTAIN for the REAL at an index, of the feature at an index.
#[tactic(auto, unfolding(crate::specs::Guarding::obtains_here))]
fn obtain_here(
    alloc: Global,
    out: &mut Vec<Guarded>,
    line: u32,
    expansion: u32,
    names: &Names,
    target: Target,
    side: Source,
    label: Name,
    word: FeatureWord,
    index: u16,
    feature: u16,
) -> Result<(), NoMemory>
    ensures { OnOk result (out.new.items ≡ out.old.items ++ obtains_here line expansion names.now target side label word index feature) }
{
    let here = is_here(alloc, side, feature)?;
    ask(out, line, both(alloc, &here, &length_asks(alloc)?)?)?;
    where_known(out, line)?;
    stand(out, line, expansion, Form::Query(target, side, label, word))?;
    set_near(out, line, names, Kind::Real, index)?;
    otherwise_lose(out, line, index)
}

// OBTAIN.
fn obtain(
    alloc: Global,
    out: &mut Vec<Guarded>,
    line: u32,
    expansion: u32,
    names: &Names,
    declared: &Titles,
    target: Target,
    side: Source,
    label: Name,
    word: FeatureWord,
) -> Result<(), NoMemory>
    ensures { OnOk result (out.new.items ≡ out.old.items ++ obtains_by line expansion names.now declared.now target side label word (variable_of names.now target.expansion target.name)) }
{
    let Some((index, kind)) = names.find(target.expansion, &target.name) else {
        return Ok(());
    };
    match (kind, index_among(declared, &label)) {
        (Kind::Real, Some(feature)) => obtain_here(
            alloc, out, line, expansion, names, target, side, label, word, index, feature,
        ),
        _ => lose_variable(out, line, index),
    }
}

/// OBTAIN, or a statement about a datum, or what happens to a feature or a frame by its name.
pub(crate) fn query(
    alloc: Global,
    out: &mut Vec<Guarded>,
    datums: bool,
    line: u32,
    expansion: u32,
    names: &Names,
    declared: &Titles,
    frames: &Titles,
    target: Target,
    side: Source,
    label: Name,
    word: FeatureWord,
) -> Result<(), NoMemory>
    ensures { OnOk result (out.new.items ≡ out.old.items ++ queries datums line expansion names.now declared.now frames.now target side label word (event_named target.name)) }
{
    match Event::named(target.name.as_bytes()) {
        Some(Event::Bind) => bind(out, line, declared, &label),
        Some(Event::Origin) => originate(alloc, out, line, expansion, declared, label, word),
        Some(Event::DropFeature) => drop_feature(alloc, out, datums, line, declared, &label),
        Some(Event::Remake) => remake_feature(alloc, out, datums, line, declared, &label),
        Some(Event::DropFrame) => drop_frame(out, line, frames, &label),
        Some(Event::StoreFrame) => store_frame(out, line, frames, &label),
        _ => obtain(
            alloc, out, line, expansion, names, declared, target, side, label, word,
        ),
    }
}

/// An output line isn't written.
pub(crate) fn leave_out(out: &mut Vec<Guarded>, line: u32) -> Result<(), NoMemory>
    ensures { OnOk result (out.new.items ≡ out.old.items ++ unreported line ∷ []) }
{
    let asked = Form::Assignment(Carried::Asked.target(), truth(false));
    remark(out, line, 0, asked, Remark::NotReported)
}

/// OUTPUT.
pub(crate) fn report(
    alloc: Global,
    out: &mut Vec<Guarded>,
    line: u32,
    expansion: u32,
    declared: &Titles,
    side: Source,
    label: Name,
) -> Result<(), NoMemory>
    ensures { OnOk result (out.new.items ≡ out.old.items ++ reports_at line expansion side label (index_of declared.now label)) }
{
    let Some(index) = index_among(declared, &label) else {
        return Ok(());
    };
    let here = is_here(alloc, side, index)?;
    ask(out, line, both(alloc, &knows_frame(alloc)?, &here)?)?;
    where_known(out, line)?;
    stand(out, line, expansion, Form::Report(side, label))?;
    elsewhere(out, line)?;
    leave_out(out, line)?;
    end(out, line)
}
