//! The unit of a text.

ghost use Rattle.std.specs.Prelude.{◌≡◌, ◌≤◌, ◌<◌, suc, Some, None, true};
ghost use Rattle.vcm_plain.specs.Units.{micrometres, factor, unit_named, is_units, is_silent, set_by, opens_with, opening_unit, agrees, all_agree, is_passed, begins_block, ends_block, bends, depth_behind, is_straight, straight_from, all_in, lengths_if, lengths_of};
ghost use Rattle.vcm_heads.specs.Rows.{words_of, row_in};
ghost use Rattle.vcm_heads.specs.Heads.{behind_of, major_of, first_field};

use vcm_heads::{Row, first_field, major_at, row_in};
use vcm_lines::{Logical, Phrase};
use vcm_num::{is, look_up};

/// A unit of lengths.
#[derive(Clone, Copy, PartialEq, Eq)]
pub enum Unit {
    Millimetre,
    Centimetre,
    Metre,
    Inch,
    Foot,
}

impl Unit {
    /// How many micrometres it has.
    pub fn micrometres(self) -> u64
        ensures is { result ≡ micrometres self }
        ensures most { result ≤ 1000000 }
    {
        match self {
            Unit::Millimetre => 1_000,
            Unit::Centimetre => 10_000,
            Unit::Metre => 1_000_000,
            Unit::Inch => 25_400,
            Unit::Foot => 304_800,
        }
    }

    /// An expression behind which this stands is one of millimetres.
    pub(crate) fn factor(self) -> &'static [u8]
        ensures { result.now ≡ factor self }
    {
        match self {
            Unit::Millimetre => b"",
            Unit::Centimetre => b"*10",
            Unit::Metre => b"*1000",
            Unit::Inch => b"*25.4",
            Unit::Foot => b"*304.8",
        }
    }

    /// The unit that a word of UNITS names.
    pub(crate) fn named(word: &[u8]) -> Option<Unit>
        ensures { result ≡ unit_named word.now }
    {
        look_up(
            &[
                (b"MM", Unit::Millimetre),
                (b"CM", Unit::Centimetre),
                (b"M", Unit::Metre),
                (b"METER", Unit::Metre),
                (b"INCH", Unit::Inch),
                (b"FEET", Unit::Foot),
            ],
            word,
        )
    }
}

/// How lengths of a text are read: the unit that they begin with, and whether each UNITS sets that of those behind it.
#[derive(Clone, Copy, PartialEq, Eq)]
pub struct Lengths {
    pub unit: Unit,
    pub several: bool,
}

impl Lengths {
    /// Lengths of one unit.
    pub fn all_in(unit: Unit) -> Lengths
        ensures { result ≡ all_in unit }
    {
        Lengths {
            unit,
            several: false,
        }
    }
}

// Whether a row is that of UNITS.
fn is_units(row: Row) -> bool
    ensures { result ≡ is_units row }
{
    matches!(row, Row::Units)
}

// Whether a row is that of words that move nothing and say no length.
fn is_silent(row: Row) -> bool
    ensures { result ≡ is_silent row }
{
    matches!(row, Row::Silent | Row::Datum | Row::Plane)
}

// The unit that the fields of UNITS set.
fn unit_at(behind: &Phrase<'_>) -> Option<Unit>
    ensures { result ≡ unit_named (first_field behind.now) }
{
    Unit::named(first_field(behind))
}

// Whether the unit is asked for behind a statement: it moves nothing and says no length.
fn is_passed(row: Row, major: &[u8]) -> bool
    ensures { result ≡ is_passed row major.now }
{
    is_silent(row) || is(major, b"DECL")
}

// The unit that a statement sets, if it is UNITS.
#[tactic(auto, unfolding(crate::specs::Units::set_by))]
fn set_by(logical: &Logical) -> Option<Option<Unit>>
    ensures { result ≡ set_by (is_units (row_in (words_of logical.now))) logical.now }
{
    let words = Phrase::of(logical);
    let (major, behind) = major_at(&words);
    if is_units(row_in(&words, major)) {
        Some(unit_at(&behind))
    } else {
        None
    }
}

// Whether the unit is asked for behind a statement.
fn passes(logical: &Logical) -> bool
    ensures { result ≡ is_passed (row_in (words_of logical.now)) (major_of (words_of logical.now)) }
{
    let words = Phrase::of(logical);
    let (major, _) = major_at(&words);
    is_passed(row_in(&words, major), major)
}

// What a statement says of the unit that its text begins with.
#[tactic(auto, unfolding(crate::specs::Units::opens_with))]
fn opens_with(logical: &Logical) -> Option<Option<Unit>>
    ensures { result ≡ opens_with logical.now }
{
    match set_by(logical) {
        Some(unit) => Some(unit),
        None if passes(logical) => None,
        None => Some(None),
    }
}

// The unit that a text begins with.
fn opening_unit(lines: &[Logical]) -> Option<Unit>
    ensures { result ≡ opening_unit lines.now }
{
    for logical in lines {
        if let Some(unit) = opens_with(logical) {
            return unit;
        }
    }
    None
}

// Whether a statement sets no other unit.
fn agrees(unit: Unit, logical: &Logical) -> bool
    ensures { result ≡ agrees unit logical.now }
{
    match set_by(logical) {
        None => true,
        Some(None) => false,
        Some(Some(set)) => set == unit,
    }
}

// Whether no statement does.
fn all_agree(unit: Unit, lines: &[Logical]) -> bool
    ensures { result ≡ all_agree unit lines.now }
{
    lines.iter().all(|logical| agrees(unit, logical))
}

// Whether a statement begins a block, by its major word.
fn begins_block(major: &[u8]) -> bool
    ensures { result ≡ begins_block major.now }
{
    look_up(&[(b"IF", true), (b"DO", true), (b"SELECT", true)], major).unwrap_or(false)
}

// Whether it ends one.
fn ends_block(major: &[u8]) -> bool
    ensures { result ≡ ends_block major.now }
{
    look_up(
        &[(b"ENDIF", true), (b"ENDDO", true), (b"ENDSEL", true)],
        major,
    )
    .unwrap_or(false)
}

// Whether what stands below in writing may be carried out before, or more than once.
fn bends(major: &[u8]) -> bool
    ensures { result ≡ bends major.now }
{
    look_up(
        &[(b"MACRO", true), (b"JUMPTO", true), (b"ITERAT", true)],
        major,
    )
    .unwrap_or(false)
}

// How many blocks are open behind a statement.
fn depth_behind(depth: usize, major: &[u8]) -> usize
    requires { depth < 9223372036854775808 }
    ensures is { result ≡ depth_behind depth major.now }
    ensures most { result ≤ suc depth }
{
    if begins_block(major) {
        depth + 1
    } else if ends_block(major) {
        depth.saturating_sub(1)
    } else {
        depth
    }
}

// Whether a statement, with so many blocks open, lets the units of a text be carried out as they are written.
#[tactic(auto, unfolding(crate::specs::Units::is_straight))]
fn is_straight(depth: usize, logical: &Logical) -> bool
    ensures { result ≡ is_straight depth logical.now }
{
    let words = Phrase::of(logical);
    let (major, _) = major_at(&words);
    !(bends(major) || (is_units(row_in(&words, major)) && depth != 0))
}

// The major word of a statement leaves so many blocks open.
fn open_behind(depth: usize, logical: &Logical) -> usize
    requires { depth < 9223372036854775808 }
    ensures is { result ≡ depth_behind depth (major_of (words_of logical.now)) }
    ensures most { result ≤ suc depth }
{
    let words = Phrase::of(logical);
    let (major, _) = major_at(&words);
    depth_behind(depth, major)
}

// Whether all statements let them.
fn all_straight(lines: &[Logical]) -> bool
    ensures { result ≡ straight_from 0 lines.now }
{
    let mut depth = 0;
    for logical in lines {
        if !is_straight(depth, logical) {
            return false;
        }
        depth = open_behind(depth, logical);
    }
    true
}

/// The lengths of a text: those of the unit of its first statement that isn't silent, where each UNITS sets this unit; where they set several, outside of blocks and
/// in a text without macros and jumps, each behind its UNITS; else millimetres.
pub fn lengths_of(lines: &[Logical]) -> Lengths
    ensures { result ≡ lengths_of lines.now }
{
    match opening_unit(lines) {
        Some(unit) if all_agree(unit, lines) => Lengths::all_in(unit),
        Some(unit) if all_straight(lines) => Lengths {
            unit,
            several: true,
        },
        _ => Lengths::all_in(Unit::Millimetre),
    }
}
