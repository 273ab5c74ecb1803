//! Numbers that stand alone in a field.

ghost use Rattle.std.specs.Prelude.{◌≡◌, ◌++◌, ◌<◌, ◌≤◌, OnOk, IsTrue, true};
ghost use Rattle.vcm_plain.specs.Numbers.{unread, bad, whole_behind, part_behind, digit_behind, point_behind, sign_behind, is_space, lone_behind, lone_from, is_lone, power, rounded, in_millionths, component, minus_of, written, written_or, millionths, millionths_in};

use vcm_num::{NoMemory, write_thousandths};

/// Where the reading of a number stands.
#[derive(Clone, Copy)]
pub enum Stage {
    /// Before its sign.
    Before,
    /// Before its point.
    Whole,
    /// Behind its point.
    Part,
    /// It is none.
    Bad,
}

/// A number before whose last digits more may come; larger ones aren't read.
pub const MOST_BEFORE: u64 = 100_000_000_000;

/// The least number that is too large.
pub const MOST_VALUE: u64 = 1_000_000_000_000;

/// The least number of micrometres that is too large.
pub const MOST_LENGTH: u64 = 1_000_000_000_000_000;

/// How many digits behind the point are read.
pub const MOST_PLACES: u32 = 6;

/// A number as it is read.
#[derive(Clone, Copy)]
pub struct Lone {
    pub stage: Stage,
    /// Whether it has a minus.
    pub negative: bool,
    /// Its digits, without the point.
    pub value: u64,
    /// How many of them stand behind the point, up to 6.
    pub places: u32,
    /// Whether there are more than three.
    pub fine: bool,
    /// Whether there is a digit at all.
    pub some: bool,
}

// A number that is none.
fn bad() -> Lone
    ensures { result ≡ bad }
{
    Lone {
        stage: Stage::Bad,
        negative: false,
        value: 0,
        places: 0,
        fine: false,
        some: false,
    }
}

// One more digit before the point.
fn whole_behind(lone: Lone, digit: u64) -> Lone
    requires { digit ≤ 9 }
    ensures { result ≡ whole_behind lone digit }
{
    if lone.value < MOST_BEFORE {
        Lone {
            stage: Stage::Whole,
            value: 10 * lone.value + digit,
            some: true,
            ..lone
        }
    } else {
        bad()
    }
}

// One more digit behind the point.
fn part_behind(lone: Lone, digit: u64) -> Lone
    requires { digit ≤ 9 }
    ensures { result ≡ part_behind lone digit }
{
    if lone.places < MOST_PLACES && lone.value < MOST_BEFORE {
        Lone {
            value: 10 * lone.value + digit,
            places: lone.places + 1,
            fine: !(lone.places < 3),
            some: true,
            ..lone
        }
    } else {
        Lone { fine: true, ..lone }
    }
}

// One more digit.
fn digit_behind(lone: Lone, digit: u64) -> Lone
    requires { digit ≤ 9 }
    ensures { result ≡ digit_behind lone.stage lone digit }
{
    match lone.stage {
        Stage::Before | Stage::Whole => whole_behind(lone, digit),
        Stage::Part => part_behind(lone, digit),
        Stage::Bad => bad(),
    }
}

// A point.
fn point_behind(lone: Lone) -> Lone
    ensures { result ≡ point_behind lone.stage lone }
{
    match lone.stage {
        Stage::Before | Stage::Whole => Lone {
            stage: Stage::Part,
            ..lone
        },
        Stage::Part | Stage::Bad => bad(),
    }
}

// A sign.
fn sign_behind(lone: Lone, minus: bool) -> Lone
    ensures { result ≡ sign_behind lone.stage minus lone.some lone }
{
    match (lone.stage, lone.some) {
        (Stage::Before, false) => Lone {
            stage: Stage::Whole,
            negative: minus,
            ..lone
        },
        _ => bad(),
    }
}

// One more byte.
fn lone_behind(lone: Lone, byte: u8) -> Lone
    ensures { result ≡ lone_behind lone byte }
{
    if byte.is_ascii_digit() {
        return digit_behind(lone, u64::from(byte - 48));
    }
    match byte {
        b' ' | b'\t' | b'\r' => lone,
        b'.' => point_behind(lone),
        b'+' => sign_behind(lone, false),
        b'-' => sign_behind(lone, true),
        _ => bad(),
    }
}

/// What a field says as a number.
pub(crate) fn lone_of(bytes: &[u8]) -> Lone
    ensures { result ≡ lone_from unread bytes.now }
{
    let mut lone = Lone {
        stage: Stage::Before,
        negative: false,
        value: 0,
        places: 0,
        fine: false,
        some: false,
    };
    for byte in bytes {
        lone = lone_behind(lone, *byte);
    }
    lone
}

/// 10 to this power, up to 6.
pub(crate) fn power(places: u32) -> u64
    ensures is { result ≡ power places }
    ensures most { result ≤ 1000000 }
    ensures least { 1 ≤ result }
{
    match places {
        0 => 1,
        1 => 10,
        2 => 100,
        3 => 1_000,
        4 => 10_000,
        5 => 100_000,
        _ => 1_000_000,
    }
}

/// The micrometres of a number, where its unit has so many, to the nearest one.
pub(crate) fn rounded(unit: u64, lone: Lone) -> u64
    requires value { lone.value < 1000000000000 }
    requires unit { unit ≤ 1000000 }
    ensures { result ≡ rounded unit lone }
{
    let power = power(lone.places);
    (2 * (lone.value * unit) + power) / (2 * power)
}

// How many millionths a number has, without its sign.
fn in_millionths(lone: Lone) -> u64
    requires { lone.value < 1000000000000 }
    ensures { result ≡ in_millionths lone }
{
    lone.value * power(MOST_PLACES.saturating_sub(lone.places))
}

/// The thousandths of a component of a direction, to the nearest one; none only where it is below 0.00004.
pub(crate) fn component(lone: Lone) -> u64
    requires { lone.value < 1000000000000 }
    ensures { result ≡ component lone }
{
    let nearest = rounded(1_000, lone);
    if nearest == 0 && in_millionths(lone) >= 40 {
        1
    } else {
        nearest
    }
}

/// Whether a field is a number that isn't too large.
pub(crate) fn is_lone(lone: Lone) -> bool
    ensures { result ≡ is_lone lone }
{
    lone.some && lone.value < MOST_VALUE
}

// Appends so many micrometres as they are written.
fn put_length(negative: bool, length: u64, out: &mut Vec<u8>) -> Result<(), NoMemory>
    requires { length < 1000000000000000 }
    ensures { OnOk result (out.new.items ≡ out.old.items ++ written negative length) }
{
    if negative && length != 0 {
        out.push(b'-')?;
    }
    write_thousandths(length as i64, out)
}

/// Appends so many thousandths, with three decimals; the field as it is where they are too many.
pub(crate) fn put_size(
    field: &[u8],
    negative: bool,
    size: u64,
    out: &mut Vec<u8>,
) -> Result<(), NoMemory>
    ensures { OnOk result (out.new.items ≡ out.old.items ++ written_or field.now negative size) }
{
    if size < MOST_LENGTH {
        put_length(negative, size, out)
    } else {
        out.extend_from_slice(field)?;
        Ok(())
    }
}

// The same, none where it is no number.
fn millionths(lone: Lone) -> Option<u64>
    ensures { result ≡ millionths lone }
{
    if is_lone(lone) {
        Some(in_millionths(lone))
    } else {
        None
    }
}

/// How many millionths the number has that these bytes are, without its sign: digits behind the sixth decimal are left out. None where they are no number, or a large one.
pub fn millionths_of(bytes: &[u8]) -> Option<u64>
    ensures { result ≡ millionths_in bytes.now }
{
    millionths(lone_of(bytes))
}
