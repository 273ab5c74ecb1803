//! What the statements of a block may do to what is known.

ghost use Rattle.std.specs.Prelude.{◌≡◌, ◌++◌, ◌∷◌, [], ◌||◌, pos, true, OnOk, List, if◌then◌else◌};
ghost use Rattle.vcm_items.specs.Names.{variable_of};
ghost use Rattle.vcm_spec.specs.Program.{is_same_name};
ghost use Rattle.vcm_events.specs.Spots.{slanted_name};
ghost use Rattle.vcm_templates.specs.declared.carried.Carried.TheVariants as carried;
ghost use Rattle.vcm_templates.specs.declared.carried.TheConstants.{FEATURES_STEP as STEP};
ghost use Rattle.vcm_templates.specs.Templates.{raise};
ghost use Rattle.std.specs.List.{flat_map};
ghost use Rattle.vcm_expr.specs.Source.{Plain};
ghost use Rattle.vcm_events.specs.Events.{event_named};
ghost use Rattle.vcm_events.specs.Spots.{spot_named};
ghost use Rattle.vcm_templates.specs.Expressions.{number};
ghost use Rattle.vcm_templates.specs.Templates.{untried, lose_all};
ghost use Rattle.vcm_kept.specs.Effects.{no_effects, either_effects, may_move, may_switch, may_turn, may_scan, may_convert, may_select, may_widen, may_put_on, may_set, may_frame, may_declare, may_measure, may_keep, may_plane, event_effects, assignment_effects, feature_effects, effects_of, listed_index, set_by, where_may, lose_motions, lose_modes, lose_tables, lose_scans, lose_units, lose_machine, lose_sensor, other_tip, lose_settings, lose_frames, lose_kept, lose_planes, lose_index, lose_state, lose_saved, lose_effects, lose_block};

use crate::places::forget;
use std::alloc::Global;
use vcm_events::{Event, Spot, slanted_name};
use vcm_expr::{Expr, Names};
use vcm_forms::{Form, Target};
use vcm_items::Name;
use vcm_num::NoMemory;
use vcm_remarks::{Cause, Remark};
use vcm_templates::{
    Carried, FEATURES_STEP, Guarded, Item, Kept, UNKNOWN_SENSOR, go_to_end, lose, lose_all,
    lose_frame, lose_item, raise, remark, set, set_number, truth, untried,
};

/// What statements may do.
#[derive(Clone, Copy)]
pub struct Effects {
    /// They may move the probe.
    pub moves: bool,
    /// They may change the mode.
    pub modes: bool,
    /// They may turn a table.
    pub tables: bool,
    /// They may scan, or end that.
    pub scans: bool,
    /// They may change the unit.
    pub units: bool,
    /// They may bring the probe elsewhere, as another sensor does.
    pub selects: bool,
    /// They may put on another tip.
    pub tips: bool,
    /// They may set the distances of points, or whether points are compensated.
    pub settings: bool,
    /// They may make or recall frames.
    pub frames: bool,
    /// They may declare or measure features.
    pub features: bool,
    /// They may set any variable.
    pub values: bool,
    /// They may set where GOHOME and ENDGO go to.
    pub spots: bool,
    /// They may change the plane of polar places, or the unit of angles.
    pub planes: bool,
    /// They may go on elsewhere in the text.
    pub leaves: bool,
    /// They may do anything.
    pub all: bool,
}

// Whether one of two is so.
fn either(one: bool, other: bool) -> bool
    ensures { result ≡ (one || other) }
{
    one || other
}

impl Default for Effects {
    fn default() -> Effects {
        Effects::none()
    }
}

impl Effects {
    /// Nothing.
    pub(crate) fn none() -> Effects
        ensures { result ≡ no_effects }
    {
        Effects {
            moves: false,
            modes: false,
            tables: false,
            scans: false,
            units: false,
            selects: false,
            tips: false,
            settings: false,
            frames: false,
            features: false,
            values: false,
            spots: false,
            planes: false,
            leaves: false,
            all: false,
        }
    }

    /// What one or the other may do.
    pub(crate) fn or(self, other: Effects) -> Effects
        ensures { result ≡ either_effects self other }
    {
        Effects {
            moves: either(self.moves, other.moves),
            modes: either(self.modes, other.modes),
            tables: either(self.tables, other.tables),
            scans: either(self.scans, other.scans),
            units: either(self.units, other.units),
            selects: either(self.selects, other.selects),
            tips: either(self.tips, other.tips),
            settings: either(self.settings, other.settings),
            frames: either(self.frames, other.frames),
            features: either(self.features, other.features),
            values: either(self.values, other.values),
            spots: either(self.spots, other.spots),
            planes: either(self.planes, other.planes),
            leaves: either(self.leaves, other.leaves),
            all: either(self.all, other.all),
        }
    }

    // A motion.
    fn motion() -> Effects
        ensures { result ≡ may_move }
    {
        let mut effects = Effects::none();
        effects.moves = true;
        effects
    }

    // A measurement.
    fn measurement() -> Effects
        ensures { result ≡ may_measure }
    {
        let mut effects = Effects::none();
        effects.moves = true;
        effects.features = true;
        effects
    }

    // Another mode.
    fn switch() -> Effects
        ensures { result ≡ may_switch }
    {
        let mut effects = Effects::none();
        effects.modes = true;
        effects.selects = true;
        effects
    }

    // A turn of a table.
    fn turn() -> Effects
        ensures { result ≡ may_turn }
    {
        let mut effects = Effects::none();
        effects.tables = true;
        effects.selects = true;
        effects
    }

    // Scanning.
    fn scan() -> Effects
        ensures { result ≡ may_scan }
    {
        let mut effects = Effects::none();
        effects.scans = true;
        effects
    }

    // Another unit.
    fn conversion() -> Effects
        ensures { result ≡ may_convert }
    {
        let mut effects = Effects::none();
        effects.units = true;
        effects
    }

    // Another place of the probe.
    fn selection() -> Effects
        ensures { result ≡ may_select }
    {
        let mut effects = Effects::none();
        effects.selects = true;
        effects
    }

    // Another tip.
    fn widening() -> Effects
        ensures { result ≡ may_widen }
    {
        let mut effects = Effects::none();
        effects.tips = true;
        effects
    }

    // Another sensor.
    fn sensor() -> Effects
        ensures { result ≡ may_put_on }
    {
        let mut effects = Effects::none();
        effects.selects = true;
        effects.tips = true;
        effects
    }

    // A setting.
    fn setting() -> Effects
        ensures { result ≡ may_set }
    {
        let mut effects = Effects::none();
        effects.settings = true;
        effects
    }

    // A frame.
    fn frame() -> Effects
        ensures { result ≡ may_frame }
    {
        let mut effects = Effects::none();
        effects.frames = true;
        effects
    }

    // A declaration of a feature.
    fn declaration() -> Effects
        ensures { result ≡ may_declare }
    {
        let mut effects = Effects::none();
        effects.features = true;
        effects
    }

    // A place that is kept.
    fn place() -> Effects
        ensures { result ≡ may_keep }
    {
        let mut effects = Effects::none();
        effects.spots = true;
        effects
    }

    // A change of what polar places hang on.
    fn plane() -> Effects
        ensures { result ≡ may_plane }
    {
        let mut effects = Effects::none();
        effects.planes = true;
        effects
    }

    // Values of any variables.
    fn value() -> Effects
        ensures { result ≡ record no_effects { values = true } }
    {
        let mut effects = Effects::none();
        effects.values = true;
        effects
    }

    // A jump.
    fn jump() -> Effects
        ensures { result ≡ record no_effects { leaves = true } }
    {
        let mut effects = Effects::none();
        effects.leaves = true;
        effects
    }

    // Anything.
    fn anything() -> Effects
        ensures { result ≡ record no_effects { all = true } }
    {
        let mut effects = Effects::none();
        effects.all = true;
        effects
    }

    // Those of an event.
    fn of_event(event: Event) -> Effects
        ensures { result ≡ event_effects event }
    {
        match event {
            Event::Mode | Event::OwnPoints => Effects::switch(),
            Event::Table => Effects::turn(),
            Event::Scanning => Effects::scan(),
            Event::Unit => Effects::conversion(),
            Event::Place => Effects::selection(),
            Event::Sensor | Event::Probe => Effects::sensor(),
            Event::Width => Effects::widening(),
            Event::Approach | Event::Search | Event::Retract => Effects::setting(),
            Event::Clearance | Event::Compensation | Event::Qualification => Effects::setting(),
            Event::Untried | Event::Target => Effects::motion(),
            Event::UntriedPoint | Event::Points => Effects::measurement(),
            Event::Values => Effects::value(),
            Event::Features => Effects::declaration(),
            Event::Frames | Event::Frame | Event::Saving | Event::Machine => Effects::frame(),
            Event::Angle | Event::Plane => Effects::plane(),
            Event::Bind | Event::Origins | Event::Origin => Effects::none(),
            Event::DropFrame | Event::StoreFrame => Effects::frame(),
            Event::DropFeature | Event::Remake => Effects::declaration(),
            Event::Depth | Event::Unreported => Effects::none(),
            Event::CaseValue | Event::CaseBegins => Effects::none(),
            Event::Polar => Effects::none(),
            Event::PolarMotion => Effects::motion(),
            Event::PolarPoint => Effects::measurement(),
            Event::Ends => Effects::jump(),
            Event::All => Effects::anything(),
        }
    }

    // Those of an assignment, beside what it does to its variable.
    fn of_assignment(name: &[u8]) -> Effects
        ensures { result ≡ assignment_effects (event_named name.now) }
    {
        match Event::named(name) {
            Some(event) => Effects::of_event(event),
            None => Effects::none(),
        }
    }

    // Those of a FEAT, or of a place that is none to go to at once.
    fn of_feature(name: &[u8]) -> Effects
        ensures { result ≡ feature_effects (spot_named name.now) }
    {
        match Spot::named(name) {
            None => Effects::declaration(),
            Some(Spot::Home) => Effects::place(),
            Some(Spot::Target) => Effects::place(),
            Some(_) => Effects::motion(),
        }
    }

    // Those of a TRANS, or of a slanted point.
    fn of_shift(label: &Name) -> Effects
        ensures { result ≡ (if is_same_name slanted_name label.now then may_measure else may_frame) }
    {
        if slanted_name() == *label {
            Effects::measurement()
        } else {
            Effects::frame()
        }
    }

    /// Those of a statement.
    pub(crate) fn of(form: &Form) -> Effects
        ensures { result ≡ effects_of form.now }
    {
        match form {
            Form::Assignment(target, _) => Effects::of_assignment(target.name.as_bytes()),
            Form::Move(_) | Form::Home => Effects::motion(),
            Form::Feature(label, _, _) => Effects::of_feature(label.as_bytes()),
            Form::Measure(_) | Form::Touch(_, _) | Form::MeasureEnd => Effects::measurement(),
            Form::Configure(_, _) => Effects::setting(),
            Form::Shift(label, _) => Effects::of_shift(label),
            Form::Rotation(_, _, _) | Form::Restore(_) => Effects::frame(),
            Form::Query(target, _, _, _) => Effects::of_assignment(target.name.as_bytes()),
            Form::Leap(_) => Effects::jump(),
            _ => Effects::none(),
        }
    }
}

// The index of a variable.
fn index_of(names: &Names, target: &Target) -> Option<u16>
    ensures { listed_index result ≡ listed_index (variable_of names.now target.now.expansion target.now.name) }
{
    match names.find(target.expansion, &target.name) {
        Some((index, _)) => Some(index),
        None => None,
    }
}

/// The index of the variable that a statement sets, if it sets one.
pub(crate) fn set_by(names: &Names, form: &Form) -> Option<u16>
    ensures { listed_index result ≡ set_by names.now form.now }
{
    match form {
        Form::Assignment(target, _) => match Event::named(target.name.as_bytes()) {
            Some(_) => None,
            None => index_of(names, target),
        },
        Form::Query(target, _, _, _) => index_of(names, target),
        Form::Repeat(rounds) => index_of(names, &rounds.variable),
        _ => None,
    }
}

// The motions of a block aren't tried.
#[tactic(auto, unfolding(crate::specs::Effects::lose_motions))]
fn lose_motions(out: &mut Vec<Guarded>, line: u32, may: bool) -> Result<(), NoMemory>
    ensures { OnOk result (out.new.items ≡ out.old.items ++ where_may may (lose_motions line)) }
{
    if !may {
        return Ok(());
    }
    untried(out, line)?;
    set_number(out, line, Carried::Single, 0)
}

// The mode isn't known.
#[tactic(auto, unfolding(crate::specs::Effects::lose_modes))]
fn lose_modes(out: &mut Vec<Guarded>, line: u32, may: bool) -> Result<(), NoMemory>
    ensures { OnOk result (out.new.items ≡ out.old.items ++ where_may may (lose_modes line)) }
{
    if !may {
        return Ok(());
    }
    lose(out, line, Carried::Mode, Cause::Mode)?;
    lose(out, line, Carried::OwnPoints, Cause::Mode)
}

// A table may be turned.
#[tactic(auto, unfolding(crate::specs::Effects::lose_tables))]
fn lose_tables(out: &mut Vec<Guarded>, line: u32, may: bool) -> Result<(), NoMemory>
    ensures { OnOk result (out.new.items ≡ out.old.items ++ where_may may (lose_tables line)) }
{
    if may {
        lose(out, line, Carried::Table, Cause::Table)
    } else {
        Ok(())
    }
}

// The machine may scan.
#[tactic(auto, unfolding(crate::specs::Effects::lose_scans))]
fn lose_scans(out: &mut Vec<Guarded>, line: u32, may: bool) -> Result<(), NoMemory>
    ensures { OnOk result (out.new.items ≡ out.old.items ++ where_may may (lose_scans line)) }
{
    if may {
        lose(out, line, Carried::Scanning, Cause::Scanning)
    } else {
        Ok(())
    }
}

// Another unit may be in force.
#[tactic(auto, unfolding(crate::specs::Effects::lose_units))]
fn lose_units(out: &mut Vec<Guarded>, line: u32, may: bool) -> Result<(), NoMemory>
    ensures { OnOk result (out.new.items ≡ out.old.items ++ where_may may (lose_units line)) }
{
    if may {
        lose(out, line, Carried::Unit, Cause::Unit)
    } else {
        Ok(())
    }
}

// The state of the machine that may be another one isn't known.
#[tactic(auto, unfolding(crate::specs::Effects::lose_machine))]
fn lose_machine(out: &mut Vec<Guarded>, line: u32, effects: Effects) -> Result<(), NoMemory>
    ensures { OnOk result (out.new.items ≡ out.old.items ++ lose_machine line effects) }
{
    lose_modes(out, line, effects.modes)?;
    lose_tables(out, line, effects.tables)?;
    lose_scans(out, line, effects.scans)?;
    lose_units(out, line, effects.units)
}

// Where the probe stands isn't, nor which sensor is selected.
#[tactic(auto, unfolding(crate::specs::Effects::lose_sensor))]
fn lose_sensor(out: &mut Vec<Guarded>, line: u32, may: bool) -> Result<(), NoMemory>
    ensures { OnOk result (out.new.items ≡ out.old.items ++ where_may may (lose_sensor line)) }
{
    if !may {
        return Ok(());
    }
    set_number(out, line, Carried::Place, 0)?;
    set_number(out, line, Carried::Sensor, UNKNOWN_SENSOR)
}

// Another tip may be on, where one may have been put on.
fn doubt_tip(out: &mut Vec<Guarded>, line: u32, may: bool) -> Result<(), NoMemory>
    ensures { OnOk result (out.new.items ≡ out.old.items ++ where_may may (other_tip line)) }
{
    if may { tell_tip(out, line) } else { Ok(()) }
}

/// Another tip may be on.
#[tactic(auto, unfolding(crate::specs::Effects::other_tip))]
pub(crate) fn tell_tip(out: &mut Vec<Guarded>, line: u32) -> Result<(), NoMemory>
    ensures { OnOk result (out.new.items ≡ out.old.items ++ other_tip line) }
{
    let asked = Form::Assignment(Carried::Asked.target(), truth(false));
    remark(out, line, 0, asked, Remark::AnotherTip)
}

// The distances aren't.
#[tactic(auto, unfolding(crate::specs::Effects::lose_settings))]
fn lose_settings(out: &mut Vec<Guarded>, line: u32, may: bool) -> Result<(), NoMemory>
    ensures { OnOk result (out.new.items ≡ out.old.items ++ where_may may (lose_settings line)) }
{
    if !may {
        return Ok(());
    }
    lose(out, line, Carried::Approach, Cause::Setting)?;
    lose(out, line, Carried::Search, Cause::Setting)?;
    lose(out, line, Carried::Retract, Cause::Setting)?;
    lose(out, line, Carried::Clearance, Cause::Setting)?;
    lose(out, line, Carried::Compensation, Cause::Setting)?;
    lose(out, line, Carried::Qualification, Cause::Setting)
}

// No frame is.
#[tactic(auto, unfolding(crate::specs::Effects::lose_frames))]
fn lose_frames(out: &mut Vec<Guarded>, line: u32, may: bool) -> Result<(), NoMemory>
    ensures { OnOk result (out.new.items ≡ out.old.items ++ where_may may (lose_frames line)) }
{
    if !may {
        return Ok(());
    }
    lose_frame(out, line)?;
    let latest = Expr::leaf(Carried::Latest.term());
    set(out, line, Carried::Floor, latest)?;
    set_number(out, line, Carried::Saving, 0)
}

// No feature is.
fn lose_features(
    alloc: Global,
    out: &mut Vec<Guarded>,
    line: u32,
    may: bool,
) -> Result<(), NoMemory>
    ensures { OnOk result (out.new.items ≡ out.old.items ++ where_may may (raise line carried.Features STEP ∷ [])) }
{
    if may {
        raise(alloc, out, line, Carried::Features, FEATURES_STEP)
    } else {
        Ok(())
    }
}

// No variable is.
fn lose_values(alloc: Global, out: &mut Vec<Guarded>, line: u32, may: bool) -> Result<(), NoMemory>
    ensures { OnOk result (out.new.items ≡ out.old.items ++ where_may may (raise line carried.Values (pos 1) ∷ [])) }
{
    if may {
        raise(alloc, out, line, Carried::Values, 1)
    } else {
        Ok(())
    }
}

// No place that is kept is.
#[tactic(auto, unfolding(crate::specs::Effects::lose_kept))]
fn lose_kept(out: &mut Vec<Guarded>, line: u32, may: bool) -> Result<(), NoMemory>
    ensures { OnOk result (out.new.items ≡ out.old.items ++ where_may may (lose_kept line)) }
{
    if !may {
        return Ok(());
    }
    lose(out, line, Carried::Home, Cause::Value)?;
    forget(out, line, Kept::Home)?;
    forget(out, line, Kept::Target)
}

// What polar places hang on isn't.
#[tactic(auto, unfolding(crate::specs::Effects::lose_planes))]
fn lose_planes(out: &mut Vec<Guarded>, line: u32, may: bool) -> Result<(), NoMemory>
    ensures { OnOk result (out.new.items ≡ out.old.items ++ where_may may (lose_planes line)) }
{
    if !may {
        return Ok(());
    }
    set_number(out, line, Carried::Angle, 0)?;
    set_number(out, line, Carried::Plane, 0)
}

// The values of these variables aren't.
fn lose_indices(out: &mut Vec<Guarded>, line: u32, indices: &[u16]) -> Result<(), NoMemory>
    ensures { OnOk result (out.new.items ≡ out.old.items ++ flat_map (lose_index line) indices.now) }
{
    for index in indices {
        lose_item(out, line, Item::Known, *index)?;
    }
    Ok(())
}

// What statements may have done to the machine that may have been carried out or not.
#[tactic(auto, unfolding(crate::specs::Effects::lose_state))]
fn lose_state(out: &mut Vec<Guarded>, line: u32, effects: Effects) -> Result<(), NoMemory>
    ensures { OnOk result (out.new.items ≡ out.old.items ++ lose_state line effects) }
{
    lose_motions(out, line, effects.moves)?;
    lose_machine(out, line, effects)?;
    lose_sensor(out, line, effects.selects)?;
    doubt_tip(out, line, effects.tips)?;
    lose_settings(out, line, effects.settings)
}

// And to what is saved.
#[tactic(auto, unfolding(crate::specs::Effects::lose_saved))]
fn lose_saved(
    alloc: Global,
    out: &mut Vec<Guarded>,
    line: u32,
    effects: Effects,
) -> Result<(), NoMemory>
    ensures { OnOk result (out.new.items ≡ out.old.items ++ lose_saved line effects) }
{
    lose_frames(out, line, effects.frames)?;
    lose_features(alloc, out, line, effects.features)?;
    lose_values(alloc, out, line, effects.values)?;
    lose_kept(out, line, effects.spots)?;
    lose_planes(out, line, effects.planes)
}

// All that they may have done, and the variables that they set.
#[tactic(auto, unfolding(crate::specs::Effects::lose_effects))]
fn lose_effects(
    alloc: Global,
    out: &mut Vec<Guarded>,
    line: u32,
    effects: Effects,
    indices: &[u16],
) -> Result<(), NoMemory>
    ensures { OnOk result (out.new.items ≡ out.old.items ++ lose_effects line effects indices.now) }
{
    lose_state(out, line, effects)?;
    lose_saved(alloc, out, line, effects)?;
    lose_indices(out, line, indices)
}

/// What the statements of a block may have done that may have been carried out or not: what they may do, and the variables that they set.
pub(crate) fn lose_block(
    alloc: Global,
    out: &mut Vec<Guarded>,
    line: u32,
    effects: Effects,
    indices: &[u16],
) -> Result<(), NoMemory>
    ensures { OnOk result (out.new.items ≡ out.old.items ++ lose_block line effects indices.now) }
{
    if effects.leaves {
        return go_to_end(out, line);
    }
    if effects.all {
        lose_all(alloc, out, line)?;
        return untried(out, line);
    }
    lose_effects(alloc, out, line, effects, indices)
}
