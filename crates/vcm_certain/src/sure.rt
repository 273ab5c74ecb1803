//! What a statement asks for.

ghost use Rattle.std.specs.Prelude.{◌≡◌, List};
ghost use Rattle.std.specs.List.{list_any, list_all};
ghost use Rattle.vcm_expr.specs.Source.{leaf_in};
ghost use Rattle.vcm_events.specs.Events.{event_named};
ghost use Rattle.vcm_events.specs.Spots.{spot_named};
ghost use Rattle.vcm_certain.specs.Certain.{is_same, is_given, setting_target, feature_target, is_sure_piece, is_sure_value, is_sure_place, is_sure_increment, are_sure_shifts, are_set, is_number, is_kind_event, is_quiet_event, loses_nothing, is_sure_assignment, is_own, is_width, has_shifts, is_sure_shift, is_sure_point, is_sure};

use crate::certain::FEATURE;
use vcm_events::{Event, Spot, slanted_name};
use vcm_expr::{BinaryOp, Expr, Piece, Term};
use vcm_forms::{Coordinates, Form, Offset, Target};
use vcm_items::Name;
use vcm_num::{Axis, Literal};
use vcm_spec::Setting;

// Whether a name in an expansion is this one.
fn is_same(name: &Name, expansion: u32, other: &Target) -> bool
    ensures { result ≡ is_same (record { name = name.now; expansion = expansion }) other.now }
{
    expansion == other.expansion && *name == other.name
}

/// Whether a name in an expansion is among these.
pub(crate) fn is_given(given: &[Target], name: &Name, expansion: u32) -> bool
    ensures { result ≡ is_given given.now (record { name = name.now; expansion = expansion }) }
{
    given.iter().any(|other| is_same(name, expansion, other))
}

/// A setting, as something that is given.
pub(crate) fn setting_target(which: Setting) -> Target
    ensures { result ≡ setting_target which }
{
    let name: &[u8] = match which {
        Setting::Approach => b"0APPROACH",
        Setting::Search => b"0SEARCH",
        Setting::Retract => b"0RETRACT",
        Setting::Depth => b"0DEPTH",
    };
    Target {
        name: Name::new(name),
        expansion: 0,
    }
}

// Whether a part of an expression has the machine's value.
fn is_sure_piece(given: &[Target], piece: &Piece) -> bool
    ensures { result ≡ is_sure_piece given.now piece.now }
{
    match piece {
        Piece::Between(BinaryOp::Div) => false,
        Piece::Variable(name, expansion) => is_given(given, name, *expansion),
        _ => true,
    }
}

// Whether all parts have.
fn are_sure_pieces(given: &[Target], pieces: &[Piece]) -> bool
    ensures { result ≡ list_all (is_sure_piece given.now) pieces.now }
{
    pieces.iter().all(|piece| is_sure_piece(given, piece))
}

// Whether an expression has.
fn is_sure_value(given: &[Target], value: &Expr) -> bool
    ensures { result ≡ is_sure_value given.now value.now }
{
    are_sure_pieces(given, value.pieces())
}

// Whether a place has.
fn is_sure_place(given: &[Target], place: &Coordinates) -> bool
    ensures { result ≡ is_sure_place given.now place.now }
{
    is_sure_value(given, &place.x)
        && is_sure_value(given, &place.y)
        && is_sure_value(given, &place.z)
}

// Whether an increment has, or is left out.
fn is_sure_increment(given: &[Target], increment: &Option<Expr>) -> bool
    ensures { result ≡ is_sure_increment given.now increment.now }
{
    match increment {
        Some(value) => is_sure_value(given, value),
        None => true,
    }
}

// Whether a shift has.
fn is_sure_leg(given: &[Target], offset: &Offset) -> bool
    ensures { result ≡ is_sure_value given.now offset.now.length }
{
    is_sure_value(given, &offset.length)
}

// Whether shifts have.
fn are_sure_shifts(given: &[Target], offsets: &[Offset]) -> bool
    ensures { result ≡ are_sure_shifts given.now offsets.now }
{
    offsets.iter().all(|offset| is_sure_leg(given, offset))
}

// Whether a setting is given.
fn is_set(given: &[Target], which: Setting) -> bool
    ensures { result ≡ is_given given.now (setting_target which) }
{
    let Target { name, expansion } = setting_target(which);
    is_given(given, &name, expansion)
}

// Whether the distances of points are set.
fn are_set(given: &[Target]) -> bool
    ensures { result ≡ are_set given.now }
{
    is_set(given, Setting::Approach)
        && is_set(given, Setting::Search)
        && is_set(given, Setting::Retract)
}

// Whether a value is another number than 0.
fn is_number(value: &Expr) -> bool
    ensures { result ≡ is_number (leaf_in value.now) }
{
    match value.as_leaf() {
        Some(Term::Number(Literal::Int(number))) => number != 0,
        _ => false,
    }
}

// Whether an event can't be one by which something is lost.
fn is_kind_event(event: Event) -> bool
    ensures { result ≡ is_kind_event event }
{
    match event {
        Event::Mode | Event::OwnPoints | Event::Unit | Event::Angle => true,
        Event::Scanning | Event::Clearance | Event::Compensation => true,
        _ => false,
    }
}

// Whether an event changes nothing where nothing asks for it.
fn is_quiet_event(event: Event) -> bool
    ensures { result ≡ is_quiet_event event }
{
    matches!(event, Event::Plane | Event::Bind | Event::CaseBegins)
}

// Whether a statement about a feature or a frame by its name loses nothing.
fn loses_nothing(name: &[u8]) -> bool
    ensures { result ≡ loses_nothing (event_named name.now) }
{
    match Event::named(name) {
        Some(event) => is_quiet_event(event),
        None => true,
    }
}

// Whether an assignment loses nothing.
fn is_sure_assignment(given: &[Target], name: &[u8], value: &Expr) -> bool
    ensures { result ≡ is_sure_assignment given.now (event_named name.now) value.now }
{
    match Event::named(name) {
        Some(event) => is_quiet_event(event) || (is_kind_event(event) && is_number(value)),
        None => is_sure_value(given, value),
    }
}

// Whether the name of a feature is one of the text.
fn is_own(name: &[u8]) -> bool
    ensures { result ≡ is_own (spot_named name.now) }
{
    match Spot::named(name) {
        Some(_) => false,
        None => true,
    }
}

// Whether there is one length alone.
fn is_width(offsets: &[Offset]) -> bool
    ensures { result ≡ is_width offsets.now }
{
    offsets.len() == 1
}

// Whether there are shifts.
fn has_shifts(offsets: &[Offset]) -> bool
    ensures { result ≡ has_shifts offsets.now }
{
    !offsets.is_empty()
}

// Whether a TRANS is sure.
fn is_sure_shift(given: &[Target], label: &Name, offsets: &[Offset]) -> bool
    ensures { result ≡ is_sure_shift given.now label.now offsets.now }
{
    if slanted_name() == *label {
        is_width(offsets)
    } else {
        has_shifts(offsets) && are_sure_shifts(given, offsets)
    }
}

// Whether a point is sure, in a text that has frames or not.
fn is_sure_point(frames: bool, given: &[Target], place: &Coordinates, axis: Option<Axis>) -> bool
    ensures { result ≡ is_sure_point frames given.now place.now axis }
{
    match axis {
        Some(_) => are_set(given) && is_sure_place(given, place),
        None => !frames && are_set(given) && is_sure_place(given, place),
    }
}

// Whether a feature is declared above.
fn is_declared(given: &[Target], label: &Name) -> bool
    ensures { result ≡ is_given given.now (feature_target label.now) }
{
    is_given(given, label, FEATURE)
}

/// Whether a statement is read in one way and loses nothing, where this is given.
pub(crate) fn is_sure(frames: bool, given: &[Target], form: &Form) -> bool
    ensures { result ≡ is_sure frames given.now form.now }
{
    match form {
        Form::Assignment(target, value) => {
            is_sure_assignment(given, target.name.as_bytes(), value)
        }
        Form::Move(place) => is_sure_place(given, place),
        Form::Test(value) | Form::Choose(value) => is_sure_value(given, value),
        Form::Repeat(rounds) => {
            is_sure_value(given, &rounds.initial)
                && is_sure_value(given, &rounds.limit)
                && is_sure_increment(given, &rounds.increment)
        }
        Form::Configure(_, value) => is_sure_value(given, value),
        Form::Feature(label, place, _) => {
            is_own(label.as_bytes()) && is_sure_place(given, place)
        }
        Form::Measure(label) => is_declared(given, label),
        Form::Touch(place, axis) => is_sure_point(frames, given, place, *axis),
        Form::Shift(label, offsets) => is_sure_shift(given, label, offsets.as_slice()),
        Form::Query(target, _, _, _) => !frames && loses_nothing(target.name.as_bytes()),
        Form::Report(_, _) => !frames,
        _ => true,
    }
}
