//! Sensors whose tips have another width than that of the part.

ghost use Rattle.std.specs.Prelude.{◌≡◌, ◌++◌, ◌*ℤ◌, pos, IfOk, OnOk, option_map, if◌then◌else◌};
ghost use Rattle.std.specs.Ordering.{int_eq};
ghost use Rattle.std.specs.List.{list_any};
ghost use Rattle.vcm_heads.specs.declared.heads.Mark.TheVariants as marks;
ghost use Rattle.vcm_heads.specs.Heads.{past, behind_of};
ghost use Rattle.vcm_heads.specs.Rows.{row_in, words_of};
ghost use Rattle.vcm_given.specs.Tips.{sensor_in, defines, is_definition, width_in, is_same_width, agreed, width_onto, width_of, other_width, tip_on, tip_named, own_tip, tip_beside, selected_on, is_selection, tip_by, other_tips, is_other, is_other_on, is_other_at};

use crate::choices::GivenProbe;
use crate::fields::last_of;
use crate::spoken::no_probes;
use std::alloc::Global;
use vcm_heads::{Mark, Row, major_at, past, row_of_statement, title_at};
use vcm_lines::{Logical, Phrase};
use vcm_num::{Items, NoMemory, is};

/// How wide a tip is that isn't that of the part.
#[derive(Clone, Copy)]
pub enum Width {
    /// As wide as this, in millionths of a millimetre.
    Wide(u64),
    /// Its definition is none that is followed, or it has several.
    Unread,
    /// The text doesn't define it.
    Unsaid,
}

/// A tip that a statement on a line puts on.
#[derive(Clone, Copy)]
pub struct OtherTip {
    pub line: u32,
    pub width: Width,
}

// The fields behind a statement's major word, and that word.
fn fields_of<'a>(logical: &'a Logical) -> Option<Phrase<'a>>
    ensures { result ≡ past marks.Slash (behind_of (words_of logical.now)) }
{
    let (_, behind) = major_at(&Phrase::of(logical));
    past(Mark::Slash, &behind)
}

// The sensor that fields begin with.
fn sensor_in<'a>(fields: Option<Phrase<'a>>) -> Option<(&'a [u8], Phrase<'a>)>
    ensures { option_map (λ r. (r.0.now, r.1)) result ≡ sensor_in fields.entry }
{
    let words = fields?;
    match title_at(b"S", &words) {
        Some(title) => Some(title),
        None => title_at(b"SA", &words),
    }
}

// Whether a statement defines the sensor with this name.
fn defines(name: &[u8], words: &Phrase<'_>) -> bool
    ensures { result ≡ is_definition name.now words.now }
{
    let (major, _) = major_at(words);
    if !is(major, b"SNSDEF") {
        return false;
    }
    match title_at(b"S", words) {
        Some((label, _)) => is(label, name),
        None => false,
    }
}

// The width of the tip that a statement defines.
fn width_in(logical: &Logical) -> Option<u64>
    ensures { result ≡ width_in (words_of logical.now) }
{
    last_of(fields_of(logical))
}

// Whether two widths are one.
fn is_same_width(a: Option<u64>, b: Option<u64>) -> bool
    ensures { result ≡ is_same_width a b }
{
    match (a, b) {
        (Some(a), Some(b)) => a == b,
        _ => false,
    }
}

// One definition more.
fn agreed(known: Option<Option<u64>>, width: Option<u64>) -> Option<Option<u64>>
    ensures { result ≡ agreed known width }
{
    match known {
        None => Some(width),
        Some(known) => {
            if is_same_width(known, width) {
                Some(width)
            } else {
                Some(None)
            }
        }
    }
}

// What is known of the width of a sensor behind one statement more.
fn width_behind(name: &[u8], known: Option<Option<u64>>, logical: &Logical) -> Option<Option<u64>>
    ensures { result ≡ (if is_definition name.now (words_of logical.now) then agreed known (width_in (words_of logical.now)) else known) }
{
    if defines(name, &Phrase::of(logical)) {
        agreed(known, width_in(logical))
    } else {
        known
    }
}

// The width of the tip of a sensor, wherever the text defines it.
fn width_of(name: &[u8], lines: &[Logical]) -> Option<Option<u64>>
    ensures { result ≡ width_of name.now lines.now }
{
    let mut known = None;
    for logical in lines {
        known = width_behind(name, known, logical);
    }
    known
}

// Whether a width is that of a tip of this half width.
fn is_own(tip: i32, width: u64) -> bool
    ensures { result ≡ int_eq (pos width) (tip *ℤ pos 2000) }
{
    match u64::try_from(i64::from(tip) * 2_000) {
        Ok(own) => own == width,
        Err(_) => false,
    }
}

// A tip of this width, beside one of this half width.
fn other_width(tip: i32, width: Option<Option<u64>>) -> Option<Width>
    ensures { result ≡ other_width tip width }
{
    match width {
        None => Some(Width::Unsaid),
        Some(None) => Some(Width::Unread),
        Some(Some(width)) => {
            if is_own(tip, width) {
                None
            } else {
                Some(Width::Wide(width))
            }
        }
    }
}

// Half the width of the tip of the probe with this name, if the file has one.
fn tip_named(name: &[u8], probes: &[GivenProbe]) -> Option<i32>
    ensures { result ≡ tip_named name.now probes.now }
{
    for probe in probes {
        if is(probe.name.as_slice(), name) {
            return Some(probe.tip);
        }
    }
    None
}

// That of the tip that is put on by this name.
fn own_tip(probes: &[GivenProbe], tip: i32, name: &[u8]) -> Option<i32>
    ensures { result ≡ own_tip probes.now tip name.now }
{
    if no_probes(probes) {
        Some(tip)
    } else {
        tip_named(name, probes)
    }
}

// The width that is defined, on a line that puts on a tip of this half width.
fn add_beside(
    out: &mut Items<OtherTip>,
    line: u32,
    tip: Option<i32>,
    width: Option<Option<u64>>,
) -> Result<(), NoMemory>
    ensures { OnOk result (out.new ≡ out.old ++ tip_beside line tip width) }
{
    let Some(tip) = tip else {
        return Ok(());
    };
    if let Some(width) = other_width(tip, width) {
        out.push(OtherTip { line, width })?;
    }
    Ok(())
}

// The tip that a statement puts on, where it isn't that of the part, or of its probe.
fn add_tip(
    out: &mut Items<OtherTip>,
    probes: &[GivenProbe],
    tip: i32,
    lines: &[Logical],
    logical: &Logical,
) -> Result<(), NoMemory>
    ensures { OnOk result (out.new ≡ out.old ++ tip_by probes.now tip lines.now logical.now) }
{
    if !matches!(row_of_statement(logical), Row::Sensor) {
        return Ok(());
    }
    let Some((name, _)) = sensor_in(fields_of(logical)) else {
        return Ok(());
    };
    let own = own_tip(probes, tip, name);
    add_beside(out, logical.line, own, width_of(name, lines))
}

/// The tips that a text puts on that aren't that of the part, of this half width in micrometres, or, where a file has probes, that of their probe.
///
/// # Errors
///
/// Out of memory.
pub fn other_tips(
    alloc: Global,
    probes: &[GivenProbe],
    tip: i32,
    lines: &[Logical],
) -> Result<Items<OtherTip>, NoMemory>
    ensures { IfOk result (λ tips. tips ≡ other_tips probes.now tip lines.now) }
{
    let mut out = Items::new(alloc);
    for logical in lines {
        add_tip(&mut out, probes, tip, lines, logical)?;
    }
    Ok(out)
}

// Whether a tip is another one.
fn is_other(tip: &OtherTip) -> bool
    ensures { result ≡ is_other tip.now.width }
{
    match tip.width {
        Width::Unsaid => false,
        Width::Wide(_) | Width::Unread => true,
    }
}

// Whether a tip is another one, put on on this line.
fn is_other_on(line: u32, tip: &OtherTip) -> bool
    ensures { result ≡ is_other_on line tip.now }
{
    tip.line == line && is_other(tip)
}

/// Whether another tip is put on on a line.
pub(crate) fn is_other_at(line: u32, tips: &[OtherTip]) -> bool
    ensures { result ≡ is_other_at line tips.now }
{
    tips.iter().any(|tip| is_other_on(line, tip))
}
