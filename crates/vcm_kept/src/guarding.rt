//! What each statement of an expanded text is put as, behind those above it.

ghost use Rattle.std.specs.Prelude.{◌≡◌, ◌++◌, ◌∷◌, [], map, pos, Some, None, true, false, not, OnOk, IfOk, List};
ghost use Rattle.std.specs.List.{list_any};
ghost use Rattle.vcm_templates.specs.Carried.{carried_name};
ghost use Rattle.std.specs.Prelude.{ℕ};
ghost use Rattle.vcm_spec.specs.Program.{is_same_name};
ghost use Rattle.vcm_forms.specs.declared.statement.Coordinates.{Coordinates as Place};
ghost use Rattle.vcm_forms.specs.declared.statement.Form.TheVariants as form;
ghost use Rattle.vcm_expr.specs.Source.{leaf_in};
ghost use Rattle.vcm_events.specs.Events.{event_named};
ghost use Rattle.vcm_events.specs.Spots.{spot_named, slanted_name};
ghost use Rattle.vcm_kept.specs.Effects.{listed_index};
ghost use Rattle.vcm_kept.specs.Guarding.{spots_by, features_or, shifts_or, reaches_spot, reaches_feature, reaches_shift, spot_in, is_spotted, is_from, is_step, is_slanted_placed, has_several, is_pointed_placed, are_three, is_touch, is_literal, sets_way_back, is_way_back, may_lose_placed, is_unled, may_halt, is_polar_event, is_polar_placed, opens_polar, around, is_several_placed, first_block, doubted, branched, left, measuring_from, is_aimed, late_shift, late_place, late_touch, late_end, late_value, late_report, lates, guards_late, is_datum_event, is_dated_placed, is_storing_event, is_storing_placed, block, opened, noted, reaches_form, begun, guards, reaches, guards_from, is_jump_placed, names_machine_placed, first_names, last_names, text_of, opens, declares_carried, keeps_machine, opening, declares_first, opens_first, guarded, measures, measured, first_variables};
ghost use Rattle.vcm_kept.specs.inner.Making.{made_of};
ghost use Rattle.vcm_kept.specs.Choices.{next_depth};
ghost use Rattle.vcm_kept.specs.Exactly.{exact_form, is_cut_placed};
ghost use Rattle.vcm_kept.specs.inner.Reaching.{reached, is_block, is_other, is_state, passing_of, passes};

use crate::approaches::{declare_kept, declare_slanted, slant_or};
use crate::blocks::{
    choose, end_block, end_choice, end_program, end_repeat, loops_by, repeat, test,
};
use crate::choices::{
    begin_case, begin_default, choice_end, declare_choices, end_case, inner_depth, next_depth,
};
use crate::datums::declare_datums;
use crate::effects::{Effects, set_by};
use crate::events::{Around, assign_or, is_nothing, machine_name};
use crate::exactly::{exact_form, has_cut};
use crate::frames::{configure, makes_frame, originated, recall, rotate, shift};
use crate::late::{Made, is_late, is_late_variable, late_feature, late_frame, late_variable};
use crate::places::{go_home, go_to, has_place, keep, step_by};
use crate::points::{declare, end_measure, measure, measured_index, touch_or};
use crate::reached::{OpenBlock, begin_block, note_effects};
use crate::text::Text;
use crate::values::{leave_out, query, report};
use crate::variables::declare_all;
use std::alloc::Global;
use std::mem::replace;
use vcm_events::{Event, Spot, are_origins, slanted_name};
use vcm_expr::{BinaryOp, Expr, Names, Term};
use vcm_forms::{Coordinates, Form, Offset, Target};
use vcm_items::{BoundedStack, Name, VariableName};
use vcm_macro::Placed;
use vcm_num::{Axis, Items, Kind, Literal, NoMemory, is};
use vcm_program::Titles;
use vcm_remarks::Cause;
use vcm_spec::{FrameAxis, Setting};
use vcm_templates::{Carried, Guarded, IMPLICIT, Item, Kept, lose, set_number, stand};

/// What statements leave behind them in writing.
#[derive(Drop)]
pub(crate) struct Above {
    pub(crate) names: Names,
    pub(crate) frames: Titles,
    pub(crate) features: Titles,
    pub(crate) within: bool,
    pub(crate) since: usize,
    pub(crate) measuring: Option<Name>,
    pub(crate) aiming: bool,
    pub(crate) assigned: Vec<u16>,
    pub(crate) blocks: BoundedStack<OpenBlock>,
}

// One more block is open.
fn open_block(above: &mut Above, line: u32, index: Option<u16>)
    ensures { reached above.new ≡ record (reached above.old) { blocks = opened (block line index (next_depth above.old.blocks) above.old.assigned.items) above.old.blocks } }
{
    let block = OpenBlock {
        line,
        index,
        depth: next_depth(&above.blocks),
        since: above.assigned.len(),
        effects: Effects::none(),
    };
    begin_block(&mut above.blocks, block);
}

// It isn't sure any more which feature is measured.
fn doubt(above: &mut Above)
    ensures { reached above.new ≡ doubted (reached above.old) }
{
    drop(replace(&mut above.measuring, None));
}

// The same behind another branch of a block in which the measurement begins.
fn branch(above: &mut Above)
    ensures { reached above.new ≡ branched (reached above.old) }
{
    if above.since >= above.blocks.len() {
        doubt(above);
    }
}

// The innermost block ends.
fn leave_block(above: &mut Above) -> Option<OpenBlock>
    ensures block { result ≡ first_block above.old.blocks }
    ensures above { reached above.new ≡ left (reached above.old) }
{
    branch(above);
    end_block(&mut above.blocks)
}

// A statement that opens a block, goes on with one or closes one.
fn guard_block(
    alloc: Global,
    out: &mut Vec<Guarded>,
    text: Text,
    above: &mut Above,
    line: u32,
    expansion: u32,
    form: Form,
) -> Result<(), NoMemory>
    requires { is_block form ≡ true }
    ensures put { OnOk result (out.new.items ≡ out.old.items ++ guards text (reached above.old) line expansion form) }
    ensures above { OnOk result (reached above.new ≡ reaches_form (reached above.old) line expansion form) }
{
    match form {
        Form::Test(condition) => {
            test(alloc, out, line, expansion, &above.names, condition)?;
            open_block(above, line, None);
            Ok(())
        }
        Form::Choose(value) => {
            let depth = next_depth(&above.blocks);
            let several = text.several;
            choose(
                alloc,
                out,
                several,
                line,
                expansion,
                depth,
                &above.names,
                value,
            )?;
            open_block(above, line, None);
            Ok(())
        }
        Form::Repeat(rounds) => {
            let index = loops_by(alloc, &above.names, &rounds)?;
            repeat(alloc, out, line, expansion, &above.names, rounds, index)?;
            open_block(above, line, index);
            Ok(())
        }
        Form::RepeatEnd => {
            let block = leave_block(above);
            end_repeat(alloc, out, line, expansion, block, &above.assigned)
        }
        Form::ChooseEnd => {
            let block = leave_block(above);
            let form = choice_end(text.several);
            end_choice(alloc, out, line, expansion, block, &above.assigned, form)
        }
        form => {
            let block = leave_block(above);
            end_choice(alloc, out, line, expansion, block, &above.assigned, form)
        }
    }
}

// Whether a statement opens a block of a choice or a loop, or closes one.
fn is_block(form: &Form) -> bool
    ensures { result ≡ is_block form.now }
{
    match form {
        Form::Test(_) | Form::TestEnd | Form::Choose(_) | Form::ChooseEnd => true,
        Form::Repeat(_) | Form::RepeatEnd => true,
        _ => false,
    }
}

/// What a statement that opens no block and closes none does to what stands above.
#[derive(Clone, Copy)]
pub enum Passing {
    /// Another branch of a block begins, or one ends.
    Branch,
    /// A label, to which control may come from elsewhere.
    Label,
    /// Nothing.
    Nothing,
}

// What such a statement does.
fn passing_of(form: &Form) -> Passing
    ensures { result ≡ passing_of form.now }
{
    match form {
        Form::Case(_) | Form::Default | Form::CaseEnd | Form::Otherwise => Passing::Branch,
        Form::Mark(_) => Passing::Label,
        _ => Passing::Nothing,
    }
}

// The same is done.
fn pass(above: &mut Above, passing: Passing)
    ensures { reached above.new ≡ passes passing (reached above.old) }
{
    match passing {
        Passing::Branch => branch(above),
        Passing::Label => doubt(above),
        Passing::Nothing => {}
    }
}

// What a statement about blocks is put as, or one that stands as it is.
fn put_other(
    alloc: Global,
    out: &mut Vec<Guarded>,
    text: Text,
    above: &Above,
    line: u32,
    expansion: u32,
    form: Form,
) -> Result<(), NoMemory>
    requires other { is_other form ≡ true }
    requires block { is_block form ≡ false }
    ensures { OnOk result (out.new.items ≡ out.old.items ++ guards text (reached above.now) line expansion form) }
{
    let several = text.several;
    match form {
        Form::Case(value) => {
            let depth = inner_depth(&above.blocks);
            begin_case(alloc, out, several, line, expansion, depth, value)
        }
        Form::Default => {
            let depth = inner_depth(&above.blocks);
            begin_default(alloc, out, several, line, expansion, depth)
        }
        Form::CaseEnd => end_case(out, several, line, expansion),
        Form::Ending => end_program(out, line, expansion, text.jumps),
        form => stand(out, line, expansion, form),
    }
}

// A statement about blocks, or one that stands as it is.
fn guard_other(
    alloc: Global,
    out: &mut Vec<Guarded>,
    text: Text,
    above: &mut Above,
    line: u32,
    expansion: u32,
    form: Form,
) -> Result<(), NoMemory>
    requires { is_other form ≡ true }
    ensures put { OnOk result (out.new.items ≡ out.old.items ++ guards text (reached above.old) line expansion form) }
    ensures above { OnOk result (reached above.new ≡ reaches_form (reached above.old) line expansion form) }
{
    if is_block(&form) {
        return guard_block(alloc, out, text, above, line, expansion, form);
    }
    let passing = passing_of(&form);
    put_other(alloc, out, text, above, line, expansion, form)?;
    pass(above, passing);
    Ok(())
}

// TRANS, or a slanted point.
fn guard_shift(
    alloc: Global,
    out: &mut Vec<Guarded>,
    text: Text,
    above: &mut Above,
    line: u32,
    expansion: u32,
    label: Name,
    offsets: Items<Offset>,
) -> Result<(), NoMemory>
    ensures put { OnOk result (out.new.items ≡ out.old.items ++ shifts_or text (reached above.old) line expansion label offsets (is_same_name slanted_name label)) }
    ensures above { OnOk result (reached above.new ≡ reaches_shift (reached above.old) label offsets (is_same_name slanted_name label)) }
{
    if slanted_name() == label {
        let index = measured_index(&above.features, &above.measuring);
        let legs = offsets.as_slice();
        return slant_or(alloc, out, text, line, &above.names, index, legs);
    }
    if are_origins(offsets.as_slice()) {
        let frames = &mut above.frames;
        return originated(
            alloc,
            out,
            text,
            line,
            expansion,
            frames,
            label,
            offsets.as_slice(),
        );
    }
    let names = &above.names;
    shift(
        alloc,
        out,
        text,
        line,
        expansion,
        names,
        &mut above.frames,
        label,
        offsets,
    )
}

// A frame, a setting or a value of a feature.
fn guard_state(
    alloc: Global,
    out: &mut Vec<Guarded>,
    text: Text,
    above: &mut Above,
    line: u32,
    expansion: u32,
    form: Form,
) -> Result<(), NoMemory>
    requires { is_state form ≡ true }
    ensures put { OnOk result (out.new.items ≡ out.old.items ++ guards text (reached above.old) line expansion form) }
    ensures above { OnOk result (reached above.new ≡ reaches_form (reached above.old) line expansion form) }
{
    let e = expansion;
    match form {
        Form::Configure(which, value) => {
            configure(alloc, out, text.slants, line, e, &above.names, which, value)
        }
        Form::Shift(label, offsets) => {
            guard_shift(alloc, out, text, above, line, e, label, offsets)
        }
        Form::Rotation(label, axis, turns) => {
            let frames = &mut above.frames;
            rotate(alloc, out, text, line, e, frames, label, axis, turns)
        }
        Form::Restore(label) => {
            let frames = &above.frames;
            recall(alloc, out, text.datums, line, e, frames, label)
        }
        Form::Query(target, side, label, word) => {
            let (names, features) = (&above.names, &above.features);
            let (datums, frames) = (text.datums, &above.frames);
            query(
                alloc, out, datums, line, e, names, features, frames, target, side, label, word,
            )
        }
        Form::Report(side, label) => { report(alloc, out, line, e, &above.features, side, label) }
        form => guard_other(alloc, out, text, above, line, expansion, form),
    }
}

// MEAS.
fn begin_measure(
    out: &mut Vec<Guarded>,
    line: u32,
    above: &mut Above,
    label: Name,
) -> Result<(), NoMemory>
    ensures put { OnOk result (out.new.items ≡ out.old.items ++ measures line) }
    ensures above { OnOk result (reached above.new ≡ measuring_from (reached above.old) label) }
{
    measure(out, line)?;
    drop(replace(&mut above.measuring, Some(label)));
    above.within = true;
    above.since = above.blocks.len();
    Ok(())
}

// ENDMES.
fn finish_measure(
    alloc: Global,
    out: &mut Vec<Guarded>,
    datums: bool,
    line: u32,
    above: &mut Above,
) -> Result<(), NoMemory>
    ensures put { OnOk result (out.new.items ≡ out.old.items ++ measured datums line above.old.features above.old.measuring) }
    ensures above { OnOk result (reached above.new ≡ record (reached above.old) { within = false; measuring = None }) }
{
    end_measure(alloc, out, datums, line, &above.features, &above.measuring)?;
    drop(replace(&mut above.measuring, None));
    above.within = false;
    Ok(())
}

// An assignment, or an event; behind the last way to a target none is open.
fn guard_assignment(
    alloc: Global,
    out: &mut Vec<Guarded>,
    text: Text,
    above: &mut Above,
    line: u32,
    expansion: u32,
    target: Target,
    value: Expr,
) -> Result<(), NoMemory>
    ensures put { OnOk result (out.new.items ≡ out.old.items ++ guards text (reached above.old) line expansion (form.Assignment target value)) }
    ensures above { OnOk result (reached above.new ≡ reaches_form (reached above.old) line expansion (form.Assignment target value)) }
{
    let is_target = is(target.name.as_bytes(), Event::Target.name());
    assign_or(
        alloc,
        out,
        line,
        expansion,
        text,
        around(above),
        &above.names,
        target,
        value,
    )?;
    if is_target {
        above.aiming = false;
    }
    Ok(())
}

// Whether a GOTARG may be open: in writing, or by a jump.
fn is_aimed(text: Text, above: &Above) -> bool
    ensures { result ≡ is_aimed text (reached above.now) }
{
    above.aiming || (text.jumps && text.spots)
}

// Where a statement stands.
fn around(above: &Above) -> Around
    ensures { result ≡ around (reached above.now) }
{
    Around {
        measuring: above.within,
        depth: inner_depth(&above.blocks),
    }
}

// A place that is none to go to at once.
fn guard_spot(
    alloc: Global,
    out: &mut Vec<Guarded>,
    aiming: bool,
    measuring: bool,
    line: u32,
    names: &Names,
    place: &Coordinates,
    spot: Spot,
) -> Result<(), NoMemory>
    ensures { OnOk result (out.new.items ≡ out.old.items ++ spots_by aiming measuring line names.now place.now spot) }
{
    match spot {
        Spot::Home => {
            keep(alloc, out, line, names, Kept::Home, place)?;
            lose(out, line, Carried::Home, Cause::Value)
        }
        Spot::Target => keep(alloc, out, line, names, Kept::Target, place),
        Spot::Step => step_by(
            alloc,
            out,
            aiming,
            measuring,
            line,
            names,
            BinaryOp::Add,
            place,
        ),
        Spot::Back => step_by(
            alloc,
            out,
            aiming,
            measuring,
            line,
            names,
            BinaryOp::Sub,
            place,
        ),
    }
}

// Behind a GOTARG one is open.
fn aim(above: &mut Above, spot: Spot)
    ensures { reached above.new ≡ reaches_spot (reached above.old) spot }
{
    match spot {
        Spot::Target => above.aiming = true,
        Spot::Home | Spot::Step | Spot::Back => {}
    }
}

// FEAT, or such a place.
fn guard_feature(
    alloc: Global,
    out: &mut Vec<Guarded>,
    text: Text,
    above: &mut Above,
    line: u32,
    expansion: u32,
    label: Name,
    place: Coordinates,
    axis: Axis,
) -> Result<(), NoMemory>
    ensures put { OnOk result (out.new.items ≡ out.old.items ++ features_or text (reached above.old) line expansion label place axis (spot_named label)) }
    ensures above { OnOk result (reached above.new ≡ reaches_feature (reached above.old) label place (spot_named label)) }
{
    if let Some(spot) = Spot::named(label.as_bytes()) {
        let (aiming, measuring) = (is_aimed(text, above), above.within);
        let names = &above.names;
        guard_spot(alloc, out, aiming, measuring, line, names, &place, spot)?;
        aim(above, spot);
        return Ok(());
    }
    let names = &above.names;
    declare(
        alloc,
        out,
        text.pointed,
        text.datums,
        line,
        expansion,
        names,
        &mut above.features,
        label,
        place,
        axis,
    )
}

// A statement that a text is put as.
fn guard(
    alloc: Global,
    out: &mut Vec<Guarded>,
    text: Text,
    above: &mut Above,
    line: u32,
    expansion: u32,
    form: Form,
) -> Result<(), NoMemory>
    ensures put { OnOk result (out.new.items ≡ out.old.items ++ guards text (reached above.old) line expansion form) }
    ensures above { OnOk result (reached above.new ≡ reaches_form (reached above.old) line expansion form) }
{
    let e = expansion;
    match form {
        Form::Declaration(kind, names) => {
            let declared = names.as_slice();
            declare_all(alloc, out, line, &mut above.names, e, kind, declared)?;
            stand(out, line, e, Form::Declaration(kind, names))
        }
        Form::Assignment(target, value) => {
            guard_assignment(alloc, out, text, above, line, e, target, value)
        }
        Form::Move(place) => {
            let (aiming, measuring) = (is_aimed(text, above), above.within);
            let names = &above.names;
            go_to(
                alloc, out, text.steps, line, e, names, aiming, measuring, place,
            )
        }
        Form::Home => {
            let (aiming, measuring) = (is_aimed(text, above), above.within);
            let (from, steps) = (text.from, text.steps);
            go_home(alloc, out, from, steps, aiming, measuring, line, e)
        }
        Form::Feature(label, place, axis) => {
            guard_feature(alloc, out, text, above, line, e, label, place, axis)
        }
        Form::Measure(label) => begin_measure(out, line, above, label),
        Form::Touch(place, given) => {
            let (names, features) = (&above.names, &above.features);
            touch_or(
                alloc,
                out,
                text.halts,
                text.steps,
                line,
                e,
                names,
                features,
                &above.measuring,
                place,
                given,
            )
        }
        Form::MeasureEnd => finish_measure(alloc, out, text.datums, line, above),
        form => guard_state(alloc, out, text, above, line, expansion, form),
    }
}

// What a statement may do, and the variable that it sets, are noted.
fn note(above: &mut Above, effects: Effects, index: Option<u16>) -> Result<(), NoMemory>
    ensures { OnOk result (reached above.new ≡ noted (reached above.old) effects (listed_index index)) }
{
    note_effects(&mut above.blocks, effects);
    if let Some(index) = index {
        above.assigned.push(index)?;
    }
    Ok(())
}

// A shift that makes no frame, of one that is made below alone.
fn guard_late_shift(
    alloc: Global,
    out: &mut Vec<Guarded>,
    made: &Made,
    above: &Above,
    line: u32,
    label: &Name,
    offsets: &[Offset],
) -> Result<(), NoMemory>
    ensures { OnOk result (out.new.items ≡ out.old.items ++ late_shift (made_of made.now) (reached above.now) line label.now offsets.now) }
{
    if slanted_name() == *label || makes_frame(alloc, &above.names, offsets)? {
        return Ok(());
    }
    late_frame(out, line, is_late(&above.frames, &made.frames, label))
}

// A FEAT without a place, of a feature that is declared below alone.
fn guard_late_place(
    alloc: Global,
    out: &mut Vec<Guarded>,
    made: &Made,
    above: &Above,
    line: u32,
    label: &Name,
    place: &Coordinates,
) -> Result<(), NoMemory>
    ensures { OnOk result (out.new.items ≡ out.old.items ++ late_place (made_of made.now) (reached above.now) line label.now place.now (spot_named label.now)) }
{
    if Spot::named(label.as_bytes()).is_some() || has_place(alloc, &above.names, place)? {
        return Ok(());
    }
    let late = is_late(&above.features, &made.features, label);
    late_feature(alloc, out, line, late)
}

// The end of a measurement of such a feature, or of one that isn't sure.
fn guard_late_end(
    alloc: Global,
    out: &mut Vec<Guarded>,
    made: &Made,
    above: &Above,
    line: u32,
) -> Result<(), NoMemory>
    ensures { OnOk result (out.new.items ≡ out.old.items ++ late_end (made_of made.now) (reached above.now) line above.now.measuring) }
{
    let late = match &above.measuring {
        None => true,
        Some(label) => is_late(&above.features, &made.features, label),
    };
    late_feature(alloc, out, line, late)
}

// A point of a feature that is declared below alone.
fn guard_late_touch(
    alloc: Global,
    out: &mut Vec<Guarded>,
    made: &Made,
    above: &Above,
    line: u32,
) -> Result<(), NoMemory>
    ensures { OnOk result (out.new.items ≡ out.old.items ++ late_touch (made_of made.now) (reached above.now) line above.now.measuring) }
{
    match &above.measuring {
        None => Ok(()),
        Some(label) => {
            let late = is_late(&above.features, &made.features, label);
            late_feature(alloc, out, line, late)
        }
    }
}

// A value for a variable that is declared below alone.
fn guard_late_value(
    alloc: Global,
    out: &mut Vec<Guarded>,
    made: &Made,
    above: &Above,
    line: u32,
    target: &Target,
) -> Result<(), NoMemory>
    ensures { OnOk result (out.new.items ≡ out.old.items ++ late_value (made_of made.now) (reached above.now) line target.now (event_named target.now.name)) }
{
    match Event::named(target.name.as_bytes()) {
        Some(_) => Ok(()),
        None => {
            let late = is_late_variable(&above.names, &made.variables, target);
            late_variable(alloc, out, line, late)
        }
    }
}

// Output of a feature that is declared below alone.
fn guard_late_report(out: &mut Vec<Guarded>, line: u32, late: bool) -> Result<(), NoMemory>
    ensures { OnOk result (out.new.items ≡ out.old.items ++ late_report line late) }
{
    if late { leave_out(out, line) } else { Ok(()) }
}

// What isn't known any more before a statement that is about something that is made below alone.
fn guard_late(
    alloc: Global,
    out: &mut Vec<Guarded>,
    made: &Made,
    above: &Above,
    line: u32,
    form: &Form,
) -> Result<(), NoMemory>
    ensures { OnOk result (out.new.items ≡ out.old.items ++ lates (made_of made.now) (reached above.now) line form.now) }
{
    match form {
        Form::Shift(label, offsets) => {
            guard_late_shift(alloc, out, made, above, line, label, offsets.as_slice())
        }
        Form::Feature(label, place, _) => {
            guard_late_place(alloc, out, made, above, line, label, place)
        }
        Form::Touch(_, _) => guard_late_touch(alloc, out, made, above, line),
        Form::MeasureEnd => guard_late_end(alloc, out, made, above, line),
        Form::Assignment(target, _) | Form::Query(target, _, _, _) => {
            guard_late_value(alloc, out, made, above, line, target)
        }
        Form::Report(_, label) => {
            let late = is_late(&above.features, &made.features, label);
            guard_late_report(out, line, late)
        }
        _ => Ok(()),
    }
}

// One statement more.
fn guard_placed(
    alloc: Global,
    out: &mut Vec<Guarded>,
    text: Text,
    made: &Made,
    above: &mut Above,
    placed: Placed,
) -> Result<(), NoMemory>
    ensures put { OnOk result (out.new.items ≡ out.old.items ++ guards_late text (made_of made.now) (reached above.old) placed.statement.line placed.expansion (exact_form above.old.names placed.statement.form)) }
    ensures above { OnOk result (reached above.new ≡ reaches (reached above.old) placed.statement.line placed.expansion (exact_form above.old.names placed.statement.form)) }
{
    let line = placed.statement.line;
    let expansion = placed.expansion;
    let form = exact_form(alloc, &above.names, placed.statement.form)?;
    let effects = Effects::of(&form);
    let index = set_by(&above.names, &form);
    guard_late(alloc, out, made, above, line, &form)?;
    guard(alloc, out, text, above, line, expansion, form)?;
    note(above, effects, index)
}

// All statements, one behind the other.
fn guard_all(
    alloc: Global,
    out: &mut Vec<Guarded>,
    text: Text,
    made: &Made,
    above: &mut Above,
    all: Vec<Placed>,
) -> Result<(), NoMemory>
    ensures { OnOk result (out.new.items ≡ out.old.items ++ guards_from text (made_of made.now) (reached above.old) all.items) }
{
    for placed in all {
        guard_placed(alloc, out, text, made, above, placed)?;
    }
    Ok(())
}

// Whether a statement is a jump label, or a jump.
fn is_jump(placed: &Placed) -> bool
    ensures { result ≡ is_jump_placed placed.now }
{
    match &placed.statement.form {
        Form::Mark(_) | Form::Leap(_) => true,
        Form::Assignment(target, _) => is(target.name.as_bytes(), Event::Ends.name()),
        _ => false,
    }
}

// Whether a statement names the frame that is kept for the machine's.
fn names_machine(placed: &Placed) -> bool
    ensures { result ≡ names_machine_placed placed.now }
{
    match &placed.statement.form {
        Form::Shift(label, _) => machine_name() == *label,
        Form::Rotation(label, _, _) => machine_name() == *label,
        _ => false,
    }
}

// Whether one of the statements is a jump label, or a jump to one.
fn has_jumps(all: &[Placed]) -> bool
    ensures { result ≡ list_any is_jump_placed all.now }
{
    all.iter().any(|placed| is_jump(placed))
}

// Whether one of them names the frame that is kept for the machine's.
fn has_machine(all: &[Placed]) -> bool
    ensures { result ≡ list_any names_machine_placed all.now }
{
    all.iter().any(|placed| names_machine(placed))
}

// The place that a statement is, if it is none to go to at once.
fn spot_in(placed: &Placed) -> Option<Spot>
    ensures { result ≡ spot_in placed.now.statement.form }
{
    match &placed.statement.form {
        Form::Feature(label, _, _) => Spot::named(label.as_bytes()),
        _ => None,
    }
}

// Whether a statement is one.
fn is_spotted(placed: &Placed) -> bool
    ensures { result ≡ is_spotted placed.now }
{
    spot_in(placed).is_some()
}

// Whether it is a FROM.
fn is_from(placed: &Placed) -> bool
    ensures { result ≡ is_from placed.now }
{
    matches!(spot_in(placed), Some(Spot::Home))
}

// Whether it is a step.
fn is_step(placed: &Placed) -> bool
    ensures { result ≡ is_step placed.now }
{
    match spot_in(placed) {
        Some(Spot::Step) => true,
        Some(Spot::Back) => true,
        _ => false,
    }
}

// Whether a statement is a point that is approached and left.
fn is_slanted(placed: &Placed) -> bool
    ensures { result ≡ is_slanted_placed placed.now }
{
    match &placed.statement.form {
        Form::Shift(label, offsets) => has_several(offsets.as_slice()) && slanted_name() == *label,
        _ => false,
    }
}

// Whether there are two lengths or more.
fn has_several(offsets: &[Offset]) -> bool
    ensures { result ≡ has_several offsets.now }
{
    offsets.len() >= 2
}

// Whether a statement is a point that is approached and left along the direction of its feature.
fn is_pointed(placed: &Placed) -> bool
    ensures { result ≡ is_pointed_placed placed.now }
{
    match &placed.statement.form {
        Form::Shift(label, offsets) => are_three(offsets.as_slice()) && slanted_name() == *label,
        _ => false,
    }
}

// Whether there are three lengths.
fn are_three(offsets: &[Offset]) -> bool
    ensures { result ≡ are_three offsets.now }
{
    offsets.len() == 3
}

// Whether a statement is a point.
fn is_touch(form: &Form) -> bool
    ensures { result ≡ is_touch form.now }
{
    matches!(form, Form::Touch(_, _))
}

// Whether a value is a number.
fn is_literal(value: &Expr) -> bool
    ensures { result ≡ is_literal (leaf_in value.now) }
{
    matches!(value.as_leaf(), Some(Term::Number(_)))
}

// Whether a statement sets the way back, by a number.
fn sets_way_back(form: &Form) -> bool
    ensures { result ≡ sets_way_back form.now }
{
    match form {
        Form::Configure(Setting::Retract, value) => is_literal(value),
        _ => false,
    }
}

// Whether an event is about the way back.
fn is_way_back(name: &[u8]) -> bool
    ensures { result ≡ is_way_back (event_named name.now) }
{
    matches!(Event::named(name), Some(Event::Retract))
}

// Whether a statement may lose the way back.
fn may_lose_way_back(placed: &Placed) -> bool
    ensures { result ≡ may_lose_placed placed.now }
{
    match &placed.statement.form {
        Form::Configure(Setting::Retract, value) => !is_literal(value),
        Form::Assignment(target, _) => is_way_back(target.name.as_bytes()),
        _ => false,
    }
}

// Whether one of the statements may.
fn has_loss_of_way_back(all: &[Placed]) -> bool
    ensures { result ≡ list_any may_lose_placed all.now }
{
    all.iter().any(|placed| may_lose_way_back(placed))
}

// Whether a point stands above the first statement that sets the way back.
fn is_unled(all: &[Placed]) -> bool
    ensures { result ≡ is_unled all.now }
{
    for placed in all {
        if is_touch(&placed.statement.form) {
            return true;
        }
        if sets_way_back(&placed.statement.form) {
            return false;
        }
    }
    false
}

// Whether the way back of a point may not be known.
fn may_halt(all: &[Placed]) -> bool
    ensures { result ≡ may_halt all.now }
{
    is_unled(all) || has_loss_of_way_back(all)
}

// Whether an event is a polar place, or angles in another unit than decimal degrees.
fn is_polar_event(name: &[u8], value: &Expr) -> bool
    ensures { result ≡ is_polar_event (event_named name.now) (leaf_in value.now) }
{
    match Event::named(name) {
        Some(Event::Polar) => true,
        Some(Event::Angle) => is_nothing(value),
        _ => false,
    }
}

// Whether a statement is such an event.
fn is_polar(placed: &Placed) -> bool
    ensures { result ≡ is_polar_placed placed.now }
{
    match &placed.statement.form {
        Form::Assignment(target, value) => is_polar_event(target.name.as_bytes(), value),
        _ => false,
    }
}

// Whether one of the statements is a place that is kept, or a step.
fn has_spots(all: &[Placed]) -> bool
    ensures { result ≡ list_any is_spotted all.now }
{
    all.iter().any(|placed| is_spotted(placed))
}

// Whether one is a FROM.
fn has_from(all: &[Placed]) -> bool
    ensures { result ≡ list_any is_from all.now }
{
    all.iter().any(|placed| is_from(placed))
}

// Whether one is a step.
fn has_steps(all: &[Placed]) -> bool
    ensures { result ≡ list_any is_step all.now }
{
    all.iter().any(|placed| is_step(placed))
}

// Whether one is a point that is approached and left.
fn has_slants(all: &[Placed]) -> bool
    ensures { result ≡ list_any is_slanted_placed all.now }
{
    all.iter().any(|placed| is_slanted(placed))
}

// Whether one of them is along the direction of its feature.
fn has_pointed(all: &[Placed]) -> bool
    ensures { result ≡ list_any is_pointed_placed all.now }
{
    all.iter().any(|placed| is_pointed(placed))
}

// Whether one is a polar place, or has angles in another unit than decimal degrees.
fn has_polar(all: &[Placed]) -> bool
    ensures { result ≡ list_any is_polar_placed all.now }
{
    all.iter().any(|placed| is_polar(placed))
}

// Whether a statement is about a datum.
fn is_dated(placed: &Placed) -> bool
    ensures { result ≡ is_dated_placed placed.now }
{
    match &placed.statement.form {
        Form::Query(target, _, _, _) => is_datum_event(target.name.as_bytes()),
        Form::Shift(_, offsets) => are_origins(offsets.as_slice()),
        _ => false,
    }
}

// Whether an event is about a datum.
fn is_datum_event(name: &[u8]) -> bool
    ensures { result ≡ is_datum_event (event_named name.now) }
{
    matches!(Event::named(name), Some(Event::Bind | Event::Origin))
}

// Whether one of the statements is about a datum.
fn has_datums(all: &[Placed]) -> bool
    ensures { result ≡ list_any is_dated_placed all.now }
{
    all.iter().any(|placed| is_dated(placed))
}

// Whether a statement says one value more of a CASE.
fn is_several(placed: &Placed) -> bool
    ensures { result ≡ is_several_placed placed.now }
{
    match &placed.statement.form {
        Form::Assignment(target, _) => {
            matches!(Event::named(target.name.as_bytes()), Some(Event::CaseValue))
        }
        _ => false,
    }
}

// Whether a statement keeps a frame elsewhere.
fn is_storing(placed: &Placed) -> bool
    ensures { result ≡ is_storing_placed placed.now }
{
    match &placed.statement.form {
        Form::Query(target, _, _, _) => {
            matches!(
                Event::named(target.name.as_bytes()),
                Some(Event::StoreFrame)
            )
        }
        _ => false,
    }
}

// Whether one of the statements does.
fn has_storing(all: &[Placed]) -> bool
    ensures { result ≡ list_any is_storing_placed all.now }
{
    all.iter().any(|placed| is_storing(placed))
}

// Whether one of the statements does.
fn has_several_values(all: &[Placed]) -> bool
    ensures { result ≡ list_any is_several_placed all.now }
{
    all.iter().any(|placed| is_several(placed))
}

// What holds of a text.
fn text_of(all: &[Placed]) -> Text
    ensures { result ≡ text_of all.now }
{
    let halts = may_halt(all);
    Text {
        jumps: has_jumps(all),
        machine: !has_machine(all),
        spots: has_spots(all),
        from: has_from(all),
        steps: has_steps(all),
        slants: halts || has_slants(all),
        pointed: halts || has_pointed(all),
        halts,
        polar: has_polar(all),
        datums: has_datums(all),
        saving: has_storing(all),
        several: has_several_values(all),
        cut: has_cut(all),
    }
}

// The names of what is carried.
fn names_of(alloc: Global, carried: &[Carried]) -> Result<Items<VariableName>, NoMemory>
    ensures { IfOk result (λ names. names ≡ map carried_name carried.now) }
{
    let mut names = Items::new(alloc);
    for one in carried {
        names.push(one.variable())?;
    }
    Ok(names)
}

// The whole numbers that come first.
#[tactic(auto, unfolding(crate::specs::Guarding::first_names))]
fn first_carried(alloc: Global) -> Result<Items<VariableName>, NoMemory>
    ensures { IfOk result (λ names. names ≡ first_names) }
{
    names_of(
        alloc,
        &[
            Carried::Frame,
            Carried::Latest,
            Carried::Mode,
            Carried::Table,
            Carried::Scanning,
            Carried::Unit,
            Carried::Place,
            Carried::Approach,
            Carried::Search,
            Carried::Retract,
        ],
    )
}

// And those behind the truth value.
#[tactic(auto, unfolding(crate::specs::Guarding::last_names))]
fn last_carried(alloc: Global) -> Result<Items<VariableName>, NoMemory>
    ensures { IfOk result (λ names. names ≡ last_names) }
{
    names_of(
        alloc,
        &[
            Carried::Epoch,
            Carried::OwnPoints,
            Carried::Clearance,
            Carried::Compensation,
            Carried::Qualification,
            Carried::Home,
            Carried::Floor,
            Carried::Saving,
            Carried::Values,
            Carried::Features,
            Carried::Points,
            Carried::Wanted,
            Carried::Single,
            Carried::Sensor,
            Carried::Touched,
            Carried::Angle,
            Carried::Plane,
        ],
    )
}

// The variables that carry what is known are declared.
#[tactic(auto, unfolding(crate::specs::Guarding::declares_carried))]
fn declare_carried(alloc: Global, out: &mut Vec<Guarded>) -> Result<(), NoMemory>
    ensures { OnOk result (out.new.items ≡ out.old.items ++ declares_carried) }
{
    let first = first_carried(alloc)?;
    let truths = names_of(alloc, &[Carried::Asked])?;
    let last = last_carried(alloc)?;
    stand(out, 1, IMPLICIT, Form::Declaration(Kind::Int, first))?;
    stand(out, 1, IMPLICIT, Form::Declaration(Kind::Bool, truths))?;
    stand(out, 1, IMPLICIT, Form::Declaration(Kind::Int, last))
}

// The machine's frame is kept.
#[tactic(auto, unfolding(crate::specs::Guarding::keeps_machine))]
fn keep_machine(alloc: Global, out: &mut Vec<Guarded>, machine: bool) -> Result<(), NoMemory>
    ensures { OnOk result (out.new.items ≡ out.old.items ++ keeps_machine machine) }
{
    if !machine {
        return Ok(());
    }
    let mut offsets = Items::new(alloc);
    offsets.push(Offset {
        axis: FrameAxis::X,
        length: Expr::leaf(Term::Number(Literal::Int(0))),
    })?;
    stand(out, 1, 0, Form::Shift(machine_name(), offsets))
}

// These are 1.
fn open_known(out: &mut Vec<Guarded>, all: &[Carried]) -> Result<(), NoMemory>
    ensures { OnOk result (out.new.items ≡ out.old.items ++ map (λ c. opens c (pos 1)) all.now) }
{
    for one in all {
        set_number(out, 1, *one, 1)?;
    }
    Ok(())
}

// What is known at the start.
#[tactic(auto, unfolding(crate::specs::Guarding::opening))]
fn open(out: &mut Vec<Guarded>) -> Result<(), NoMemory>
    ensures { OnOk result (out.new.items ≡ out.old.items ++ opening) }
{
    let known = [
        Carried::Epoch,
        Carried::Frame,
        Carried::Latest,
        Carried::Mode,
        Carried::Table,
        Carried::Scanning,
        Carried::Unit,
        Carried::OwnPoints,
        Carried::Clearance,
        Carried::Compensation,
        Carried::Qualification,
        Carried::Home,
        Carried::Saving,
        Carried::Values,
    ];
    open_known(out, &known)?;
    set_number(out, 1, Carried::Place, 2)
}

// Angles in decimal degrees and the plane of X and Y are known at the start, in a text that asks for them.
#[tactic(auto, unfolding(crate::specs::Guarding::opens_polar))]
fn open_polar(out: &mut Vec<Guarded>, polar: bool) -> Result<(), NoMemory>
    ensures { OnOk result (out.new.items ≡ out.old.items ++ opens_polar polar) }
{
    if !polar {
        return Ok(());
    }
    set_number(out, 1, Carried::Angle, 1)?;
    set_number(out, 1, Carried::Plane, 1)
}

// The first of the variables of a text that carries how far its values may lie from the machine's.
fn first_variables(alloc: Global, cut: bool) -> Result<Names, NoMemory>
    ensures { IfOk result (λ names. names ≡ first_variables cut) }
{
    let mut names = Names::new(alloc);
    if cut {
        names.declare(IMPLICIT, Item::Beside.variable(), Kind::Bool)?;
    }
    Ok(names)
}

// Nothing stands above, behind these variables.
fn nothing_above(alloc: Global, names: Names) -> Above
    ensures { reached result ≡ record begun { variables = names } }
{
    Above {
        names,
        frames: Titles::new(alloc),
        features: Titles::new(alloc),
        within: false,
        since: 0,
        measuring: None,
        aiming: false,
        assigned: Vec::new(alloc),
        blocks: BoundedStack::new(),
    }
}

// What is carried of a text is declared.
#[tactic(auto, unfolding(crate::specs::Guarding::declares_first))]
fn declare_first(alloc: Global, out: &mut Vec<Guarded>, text: Text) -> Result<(), NoMemory>
    ensures { OnOk result (out.new.items ≡ out.old.items ++ declares_first text) }
{
    declare_carried(alloc, out)?;
    declare_kept(alloc, out, text.spots)?;
    declare_slanted(alloc, out, text.slants)?;
    declare_datums(alloc, out, text.datums)?;
    declare_choices(alloc, out, text.several)
}

// What is known at its start.
#[tactic(auto, unfolding(crate::specs::Guarding::opens_first))]
fn open_first(alloc: Global, out: &mut Vec<Guarded>, text: Text) -> Result<(), NoMemory>
    ensures { OnOk result (out.new.items ≡ out.old.items ++ opens_first text) }
{
    keep_machine(alloc, out, text.machine)?;
    open(out)?;
    open_polar(out, text.polar)
}

/// What an expanded text is put as.
///
/// # Errors
///
/// Out of memory.
pub(crate) fn guarded(alloc: Global, all: Vec<Placed>) -> Result<Vec<Guarded>, NoMemory>
    ensures { IfOk result (λ gs. gs.items ≡ guarded all.items) }
{
    let text = text_of(&all);
    let made = Made::of(alloc, &all)?;
    let mut out = Vec::new(alloc);
    declare_first(alloc, &mut out, text)?;
    open_first(alloc, &mut out, text)?;
    let names = first_variables(alloc, text.cut)?;
    let mut above = nothing_above(alloc, names);
    guard_all(alloc, &mut out, text, &made, &mut above, all)?;
    Ok(out)
}
