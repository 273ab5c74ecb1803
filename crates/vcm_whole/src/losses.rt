//! Which lines of a text may lose something that is known, or aren't followed.

ghost use Rattle.std.specs.Prelude.{◌≡◌, ◌++◌, false, IfOk, OnOk};
ghost use Rattle.vcm_items.specs.NameBytes.{IsName};
ghost use Rattle.std.specs.List.{list_any};
ghost use Rattle.vcm_expr.specs.Source.{leaf_in};
ghost use Rattle.vcm_events.specs.Events.{event_named};
ghost use Rattle.vcm_whole.specs.Losses.{is_unknown, is_zero, event_loses, assignment_loses, happening_loses, shift_loses, loses, lossy_lines, is_wanted, is_moving, inside_behind, inside_after, decided, says_first, says_unit, says_mode, says_sensor, is_depth, sets_depth, is_passed_over, is_unlooked, has_unlooked, unlooked_by, unlooked_corners, unlooked_compensations, unlooked_faults, unlooked};
ghost use Rattle.vcm_heads.specs.Rows.{row_in, words_of};
ghost use Rattle.vcm_whole.specs.declared.losses.Wanted.TheVariants as wanted;

use std::alloc::Global;
use vcm_events::{Event, slanted_name};
use vcm_expr::{Expr, Term};
use vcm_forms::{Form, Offset, Statement};
use vcm_heads::{Row, first_field, major_at, row_in};
use vcm_items::Name;
use vcm_lines::{Logical, Phrase, Token};
use vcm_num::{Items, Literal, NoMemory, is};

// Whether an expression is the one whose value isn't known.
fn is_unknown(value: &Expr) -> bool
    ensures { result ≡ is_unknown (leaf_in value.now) }
{
    match value.as_leaf() {
        Some(Term::Variable(name, _)) => is(name.as_bytes(), b"0"),
        _ => false,
    }
}

// Whether it is 0.
fn is_zero(value: &Expr) -> bool
    ensures { result ≡ is_zero (leaf_in value.now) }
{
    match value.as_leaf() {
        Some(Term::Number(Literal::Int(number))) => number == 0,
        _ => false,
    }
}

// Whether by an event something is lost or not followed.
fn event_loses(event: Event, value: &Expr) -> bool
    ensures { result ≡ event_loses event (leaf_in value.now) }
{
    match event {
        Event::Untried | Event::UntriedPoint | Event::Ends | Event::Origins => true,
        Event::CaseValue => false,
        Event::Points => is_unknown(value),
        _ => is_zero(value),
    }
}

// Whether by an assignment to this name.
fn assignment_loses(name: &[u8], value: &Expr) -> bool
    ensures { result ≡ assignment_loses (event_named name.now) (leaf_in value.now) }
{
    match Event::named(name) {
        Some(event) => event_loses(event, value),
        None => is_unknown(value),
    }
}

// Whether by something that happens to a feature or a frame by its name.
fn happening_loses(name: &[u8]) -> bool
    ensures { result ≡ happening_loses (event_named name.now) }
{
    matches!(
        Event::named(name),
        Some(Event::DropFrame | Event::DropFeature)
    )
}

// Whether by a shift.
fn shift_loses(label: &Name, offsets: &[Offset]) -> bool
    ensures { result ≡ shift_loses label.now offsets.now }
{
    match offsets {
        [] => true,
        [_] => false,
        _ => slanted_name() == *label,
    }
}

// Whether by a statement.
fn loses(form: &Form) -> bool
    ensures { result ≡ loses form.now }
{
    match form {
        Form::Assignment(target, value) => assignment_loses(target.name.as_bytes(), value),
        Form::Test(condition) => is_unknown(condition),
        Form::Choose(value) => is_unknown(value),
        Form::Repeat(rounds) => is_unknown(&rounds.limit),
        Form::Feature(_, place, _) => is_unknown(&place.x),
        Form::Shift(label, offsets) => shift_loses(label, offsets.as_slice()),
        Form::Query(target, _, _, _) => happening_loses(target.name.as_bytes()),
        _ => false,
    }
}

// Whether statements of a row move the probe, or say a place.
fn is_moving(row: Row) -> bool
    ensures { result ≡ is_moving row }
{
    match row {
        Row::Motion | Row::Target | Row::Touch | Row::Scan | Row::From | Row::Aim => true,
        _ => false,
    }
}

// Whether a macro is open behind a statement.
fn inside_behind(inside: bool, major: &[u8]) -> bool
    ensures { result ≡ inside_behind inside major.now }
{
    if is(major, b"MACRO") {
        true
    } else if is(major, b"ENDMAC") {
        false
    } else {
        inside
    }
}

/// What a text may say before it moves.
#[derive(Clone, Copy)]
pub enum Wanted {
    /// Its unit.
    Unit,
    /// Its mode.
    Mode,
    /// A sensor that it selects.
    Sensor,
}

// Whether a row is the one that is wanted.
fn is_wanted(wanted: Wanted, row: Row) -> bool
    ensures { result ≡ is_wanted wanted row }
{
    match wanted {
        Wanted::Unit => matches!(row, Row::Units),
        Wanted::Mode => matches!(row, Row::Mode),
        Wanted::Sensor => matches!(row, Row::Sensor),
    }
}

// Whether a macro is open behind a statement.
#[tactic(auto, unfolding(crate::specs::Losses::inside_after))]
fn inside_after(inside: bool, logical: &Logical) -> bool
    ensures { result ≡ inside_after inside logical.now }
{
    let words = Phrase::of(logical);
    let (major, _) = major_at(&words);
    inside_behind(inside, major)
}

// What a statement decides.
#[tactic(auto, unfolding(crate::specs::Losses::decided))]
fn decided(wanted: Wanted, inside: bool, logical: &Logical) -> Option<bool>
    ensures { result ≡ decided wanted inside logical.now }
{
    let words = Phrase::of(logical);
    let (major, _) = major_at(&words);
    let row = row_in(&words, major);
    if is_wanted(wanted, row) {
        Some(true)
    } else if !inside && is_moving(row) {
        Some(false)
    } else {
        None
    }
}

// Whether a wanted statement stands before the first one that moves.
fn says_first(wanted: Wanted, lines: &[Logical]) -> bool
    ensures { result ≡ says_first wanted false lines.now }
{
    let mut inside = false;
    for logical in lines {
        if let Some(answer) = decided(wanted, inside, logical) {
            return answer;
        }
        inside = inside_after(inside, logical);
    }
    false
}

/// Whether a text says its unit before it moves.
pub(crate) fn says_unit(lines: &[Logical]) -> bool
    ensures { result ≡ says_unit lines.now }
{
    says_first(Wanted::Unit, lines)
}

/// Whether it says its mode.
pub(crate) fn says_mode(lines: &[Logical]) -> bool
    ensures { result ≡ says_mode lines.now }
{
    says_first(Wanted::Mode, lines)
}

/// Whether it selects a sensor.
pub(crate) fn says_sensor(lines: &[Logical]) -> bool
    ensures { result ≡ says_sensor lines.now }
{
    says_first(Wanted::Sensor, lines)
}

// Whether a statement goes by such a word, and doesn't switch it off.
fn is_unlooked(word: &[u8], logical: &Logical) -> bool
    ensures { result ≡ is_unlooked word.now (words_of logical.now) }
{
    let (major, behind) = major_at(&Phrase::of(logical));
    if !is(major, word) {
        return false;
    }
    let is_off = is(first_field(&behind), b"OFF");
    if is(word, b"FINPOS") { is_off } else { !is_off }
}

// Whether one of the words is the one for the depth of the machine's own points.
fn has_depth(words: &Phrase<'_>) -> bool
    ensures { result ≡ list_any is_depth words.now }
{
    match words.split_first() {
        None => false,
        Some((Token::Run(word), rest)) => is(word, b"DEPTH") || has_depth(&rest),
        Some((_, rest)) => has_depth(&rest),
    }
}

// Whether a statement sets that depth.
fn sets_depth(logical: &Logical) -> bool
    ensures { result ≡ sets_depth (words_of logical.now) }
{
    let words = Phrase::of(logical);
    let (major, _) = major_at(&words);
    is(major, b"SNSET") && has_depth(&words)
}

// Whether a statement isn't looked at for this word.
fn is_passed_over(word: &[u8], logical: &Logical) -> bool
    ensures { result ≡ is_passed_over word.now (words_of logical.now) }
{
    if is(word, b"DEPTH") {
        sets_depth(logical)
    } else {
        is_unlooked(word, logical)
    }
}

// Whether a text has one.
#[tactic(auto, unfolding(crate::specs::Losses::has_unlooked))]
fn has_unlooked(lines: &[Logical], word: &[u8]) -> bool
    ensures { result ≡ has_unlooked lines.now word.now }
{
    lines.iter().any(|logical| is_passed_over(word, logical))
}

// Adds a word, where a text has a statement that isn't looked at for it.
fn add_unlooked(words: &mut Items<Name>, lines: &[Logical], word: &[u8]) -> Result<(), NoMemory>
    requires { IsName word.now }
    ensures { OnOk result (words.new ≡ words.old ++ unlooked_by lines.now word.now) }
{
    if has_unlooked(lines, word) {
        words.push(Name::new(word))?;
    }
    Ok(())
}

// Those of corners.
#[tactic(auto, unfolding(crate::specs::Losses::unlooked_corners))]
fn add_corners(words: &mut Items<Name>, lines: &[Logical]) -> Result<(), NoMemory>
    ensures { OnOk result (words.new ≡ words.old ++ unlooked_corners lines.now) }
{
    add_unlooked(words, lines, b"FLY")?;
    add_unlooked(words, lines, b"FINPOS")
}

// Those of compensations.
#[tactic(auto, unfolding(crate::specs::Losses::unlooked_compensations))]
fn add_compensations(words: &mut Items<Name>, lines: &[Logical]) -> Result<(), NoMemory>
    ensures { OnOk result (words.new ≡ words.old ++ unlooked_compensations lines.now) }
{
    add_unlooked(words, lines, b"TECOMP")?;
    add_unlooked(words, lines, b"GECOMP")?;
    add_unlooked(words, lines, b"CUTCOM")
}

// Those of where the machine goes on after a fault, and of qualifications.
#[tactic(auto, unfolding(crate::specs::Losses::unlooked_faults))]
fn add_faults(words: &mut Items<Name>, lines: &[Logical]) -> Result<(), NoMemory>
    ensures { OnOk result (words.new ≡ words.old ++ unlooked_faults lines.now) }
{
    add_unlooked(words, lines, b"ERROR")?;
    add_unlooked(words, lines, b"BADTST")?;
    add_unlooked(words, lines, b"CALIB")
}

/// The words of a text that aren't looked at.
///
/// # Errors
///
/// Out of memory.
pub(crate) fn unlooked(alloc: Global, lines: &[Logical]) -> Result<Items<Name>, NoMemory>
    ensures { IfOk result (λ words. words ≡ unlooked lines.now) }
{
    let mut words = Items::new(alloc);
    add_corners(&mut words, lines)?;
    add_compensations(&mut words, lines)?;
    add_faults(&mut words, lines)?;
    add_unlooked(&mut words, lines, b"DEPTH")?;
    Ok(words)
}

/// The lines by whose statements something may be lost or isn't followed, in order, each once.
///
/// # Errors
///
/// Out of memory.
pub(crate) fn lossy_lines(alloc: Global, statements: &[Statement]) -> Result<Items<u32>, NoMemory>
    ensures { IfOk result (λ lines. lines ≡ lossy_lines statements.now) }
{
    let mut lines = Items::new(alloc);
    let mut last = 0;
    for statement in statements {
        if loses(&statement.form) && statement.line != last {
            last = statement.line;
            lines.push(last)?;
        }
    }
    Ok(lines)
}
