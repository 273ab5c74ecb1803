//! Numbers with more than three decimals in expressions.

ghost use Rattle.std.specs.Prelude.{◌≡◌, ◌++◌, ◌≤◌, ◌<◌, OnOk};
ghost use Rattle.vcm_lines.specs.Bytes.{is_blank};
ghost use Rattle.vcm_plain.specs.declared.fine.Stand.TheVariants.{Outside, Word, Dotted, Quoted, Whole, Pointed, Decimals};
ghost use Rattle.vcm_plain.specs.Fine.{class_of, stand_behind, is_number, grown, more_places, quotient, run_behind, has_fine, exact_text};

use crate::lone::{MOST_BEFORE, MOST_VALUE, power};
use std::alloc::Global;
use std::marker::Model;
use vcm_num::{NoMemory, write_int, write_thousandths};

/// Where the reading of a field stands.
#[derive(Clone, Copy)]
pub enum Stand {
    /// Between words.
    Outside,
    /// In a word that is no number.
    Word,
    /// In a word that begins with a point.
    Dotted,
    /// In a quoted text.
    Quoted,
    /// In a number, before its point.
    Whole,
    /// Behind a point, with no digit behind it.
    Pointed,
    /// In the decimals of a number.
    Decimals,
}

/// What a byte is in an expression.
#[derive(Clone, Copy)]
pub enum Class {
    Digit,
    /// A letter, or an underscore.
    Letter,
    Point,
    Quote,
    Blank,
    /// Any other.
    Mark,
}

/// The most decimals that a number may have.
pub const MOST_DECIMALS: u32 = 9;

/// A field as it is read. Contracts see it as the `Figure` of the definitions.
#[derive(Drop)]
struct Figure {
    stand: Stand,
    /// The bytes of the number that is open.
    bytes: Vec<u8>,
    /// Its digits, without the point.
    value: u64,
    /// How many of them stand behind the point, up to 10.
    places: u32,
    /// Whether one behind the third isn't 0.
    fine: bool,
}

// Whether a byte stands for nothing.
fn is_blank(byte: u8) -> bool
    ensures { result ≡ is_blank byte }
{
    byte == b' ' || byte == b'\t'
}

// What a byte is in an expression.
fn class_of(byte: u8) -> Class
    ensures { result ≡ class_of byte }
{
    if byte.is_ascii_digit() {
        Class::Digit
    } else if byte.is_ascii_alphabetic() || byte == b'_' {
        Class::Letter
    } else if byte == b'.' {
        Class::Point
    } else if byte == b'\'' {
        Class::Quote
    } else if is_blank(byte) {
        Class::Blank
    } else {
        Class::Mark
    }
}

// Where the reading stands behind a byte between words.
fn behind_outside(class: Class) -> Stand
    ensures { result ≡ stand_behind Outside class }
{
    match class {
        Class::Digit => Stand::Whole,
        Class::Letter => Stand::Word,
        Class::Point => Stand::Pointed,
        Class::Quote => Stand::Quoted,
        Class::Blank | Class::Mark => Stand::Outside,
    }
}

// Behind a byte in a word.
fn behind_word(class: Class) -> Stand
    ensures { result ≡ stand_behind Word class }
{
    match class {
        Class::Digit | Class::Letter | Class::Blank => Stand::Word,
        Class::Point => Stand::Dotted,
        Class::Quote => Stand::Quoted,
        Class::Mark => Stand::Outside,
    }
}

// In a word that begins with a point.
fn behind_dotted(class: Class) -> Stand
    ensures { result ≡ stand_behind Dotted class }
{
    match class {
        Class::Digit => Stand::Word,
        Class::Letter | Class::Blank => Stand::Dotted,
        Class::Quote => Stand::Quoted,
        Class::Point | Class::Mark => Stand::Outside,
    }
}

// In a quoted text.
fn behind_quoted(class: Class) -> Stand
    ensures { result ≡ stand_behind Quoted class }
{
    match class {
        Class::Quote => Stand::Outside,
        _ => Stand::Quoted,
    }
}

// In a number, before its point.
fn behind_whole(class: Class) -> Stand
    ensures { result ≡ stand_behind Whole class }
{
    match class {
        Class::Digit | Class::Blank => Stand::Whole,
        Class::Letter => Stand::Word,
        Class::Point => Stand::Pointed,
        Class::Quote => Stand::Quoted,
        Class::Mark => Stand::Outside,
    }
}

// Behind a point.
fn behind_point(class: Class) -> Stand
    ensures { result ≡ stand_behind Pointed class }
{
    match class {
        Class::Digit => Stand::Decimals,
        Class::Letter | Class::Point => Stand::Dotted,
        Class::Quote => Stand::Quoted,
        Class::Blank => Stand::Pointed,
        Class::Mark => Stand::Outside,
    }
}

// In decimals.
fn behind_decimals(class: Class) -> Stand
    ensures { result ≡ stand_behind Decimals class }
{
    match class {
        Class::Digit | Class::Blank => Stand::Decimals,
        Class::Letter => Stand::Word,
        Class::Point => Stand::Dotted,
        Class::Quote => Stand::Quoted,
        Class::Mark => Stand::Outside,
    }
}

// Where the reading stands behind a byte.
fn stand_behind(stand: Stand, class: Class) -> Stand
    ensures { result ≡ stand_behind stand class }
{
    match stand {
        Stand::Outside => behind_outside(class),
        Stand::Word => behind_word(class),
        Stand::Dotted => behind_dotted(class),
        Stand::Quoted => behind_quoted(class),
        Stand::Whole => behind_whole(class),
        Stand::Pointed => behind_point(class),
        Stand::Decimals => behind_decimals(class),
    }
}

// Whether a number is open.
fn is_number(stand: Stand) -> bool
    ensures { result ≡ is_number stand }
{
    matches!(stand, Stand::Whole | Stand::Pointed | Stand::Decimals)
}

// A value behind one more digit; one that gets too large stays so.
fn grown(value: u64, digit: u64) -> u64
    requires { digit ≤ 255 }
    ensures { result ≡ grown value digit }
{
    if value < MOST_BEFORE {
        10 * value + digit
    } else {
        MOST_VALUE
    }
}

// How many decimals there are behind one more; those behind the tenth aren't counted.
fn more_places(places: u32) -> u32
    ensures { result ≡ more_places places }
{
    if places <= MOST_DECIMALS {
        places + 1
    } else {
        places
    }
}

// Appends a number of these digits with more than three decimals: the same digits with three decimals, by a power of ten.
fn put_quotient(value: u64, places: u32, out: &mut Vec<u8>) -> Result<(), NoMemory>
    requires { value < 1000000000000 }
    ensures { OnOk result (out.new.items ≡ out.old.items ++ quotient value places) }
{
    out.push(b'(')?;
    write_thousandths(value as i64, out)?;
    out.push(b'/')?;
    write_int(power(places.saturating_sub(3)) as i64, out)?;
    out.push(b')')?;
    Ok(())
}

impl Model for Figure {
    ghost use Rattle.vcm_plain.specs.Fine.{Figure as Meaning};

    ghost Value = { Meaning };

    ghost view = { λ n. record { stand = n.stand; bytes = n.bytes.items; value = n.value; places = n.places; fine = n.fine } };
}

impl Figure {
    ghost use Rattle.std.specs.Prelude.{◌≡◌, ◌++◌, OnOk};
    ghost use Rattle.vcm_plain.specs.declared.fine.Class.TheVariants.{Digit};
    ghost use Rattle.vcm_plain.specs.Fine.{none_open, with_byte, longer, is_split, ended, ended_by, out_at, behind};

    // Nothing is read.
    fn new(alloc: Global) -> Figure
        ensures { result ≡ none_open Outside }
    {
        Figure {
            stand: Stand::Outside,
            bytes: Vec::new(alloc),
            value: 0,
            places: 0,
            fine: false,
        }
    }

    // No number is open.
    fn restart(&mut self, stand: Stand)
        ensures { self.new ≡ none_open stand }
    {
        self.stand = stand;
        self.bytes.clear();
        self.value = 0;
        self.places = 0;
        self.fine = false;
    }

    // The number gets one more byte.
    fn push(&mut self, stand: Stand, byte: u8) -> Result<(), NoMemory>
        ensures { OnOk result (self.new ≡ with_byte stand self.old byte) }
    {
        self.stand = stand;
        self.bytes.push(byte)?;
        Ok(())
    }

    // And it is a digit before the point.
    fn push_digit(&mut self, byte: u8) -> Result<(), NoMemory>
        ensures { OnOk result (self.new ≡ longer Whole Digit self.old byte) }
    {
        self.value = grown(self.value, u64::from(byte.saturating_sub(b'0')));
        self.push(Stand::Whole, byte)
    }

    // Or one behind it.
    fn push_decimal(&mut self, byte: u8) -> Result<(), NoMemory>
        ensures { OnOk result (self.new ≡ longer Decimals Digit self.old byte) }
    {
        self.value = grown(self.value, u64::from(byte.saturating_sub(b'0')));
        self.fine = self.fine || (self.places >= 3 && byte != b'0');
        self.places = more_places(self.places);
        self.push(Stand::Decimals, byte)
    }

    // The same, by what the byte is.
    fn lengthen(&mut self, stand: Stand, class: Class, byte: u8) -> Result<(), NoMemory>
        ensures { OnOk result (self.new ≡ longer stand class self.old byte) }
    {
        match (stand, class) {
            (Stand::Whole, Class::Digit) => self.push_digit(byte),
            (Stand::Decimals, Class::Digit) => self.push_decimal(byte),
            _ => self.push(stand, byte),
        }
    }

    // Whether the number is finer than the language's, and not too long.
    fn is_split(&self) -> bool
        ensures { result ≡ is_split self.now }
    {
        self.fine && self.places <= MOST_DECIMALS && self.value < MOST_VALUE
    }

    // Appends the number, which ends.
    fn end(&self, out: &mut Vec<u8>) -> Result<(), NoMemory>
        ensures { OnOk result (out.new.items ≡ out.old.items ++ ended self.now) }
    {
        if self.is_split() {
            put_quotient(self.value, self.places, out)
        } else {
            out.extend_from_slice(&self.bytes)?;
            Ok(())
        }
    }

    // The same where it ends at a byte.
    fn end_by(&self, class: Class, out: &mut Vec<u8>) -> Result<(), NoMemory>
        ensures { OnOk result (out.new.items ≡ out.old.items ++ ended_by class self.now) }
    {
        match class {
            Class::Letter => {
                out.extend_from_slice(&self.bytes)?;
                Ok(())
            }
            _ => self.end(out),
        }
    }

    // One more byte.
    fn read(&mut self, byte: u8, out: &mut Vec<u8>) -> Result<(), NoMemory>
        ensures figure { OnOk result (self.new ≡ behind self.old byte) }
        ensures out { OnOk result (out.new.items ≡ out.old.items ++ out_at self.old byte) }
    {
        let class = class_of(byte);
        let stand = stand_behind(self.stand, class);
        if is_number(stand) {
            return self.lengthen(stand, class, byte);
        }
        self.end_by(class, out)?;
        self.restart(stand);
        out.push(byte)?;
        Ok(())
    }
}

// How many digits stand behind the last point, and one more for the point; 0 where something else stands behind it.
fn run_behind(run: u32, class: Class) -> u32
    requires { run ≤ 4 }
    ensures is { result ≡ run_behind run class }
{
    match class {
        Class::Digit => { if run == 0 { 0 } else { run + 1 } }
        Class::Point => 1,
        Class::Blank => run,
        _ => 0,
    }
}

// Whether a field has a number with more than three decimals.
fn has_fine(bytes: &[u8]) -> bool
    ensures { result ≡ has_fine bytes.now }
{
    let mut run = 0;
    for byte in bytes {
        run = run_behind(run, class_of(*byte));
        if run > 4 {
            return true;
        }
    }
    false
}

// Appends a field byte by byte.
fn put_each(alloc: Global, bytes: &[u8], out: &mut Vec<u8>) -> Result<(), NoMemory>
    ensures { OnOk result (out.new.items ≡ out.old.items ++ exact_text bytes.now) }
{
    let mut figure = Figure::new(alloc);
    for byte in bytes {
        figure.read(*byte, out)?;
    }
    figure.end(out)
}

/// Appends a field with each number that is finer than the language's as a quotient, where it stands by itself.
#[tactic(auto, using(crate::proofs::Stays::stays))]
pub(crate) fn put_exact(alloc: Global, bytes: &[u8], out: &mut Vec<u8>) -> Result<(), NoMemory>
    ensures { OnOk result (out.new.items ≡ out.old.items ++ exact_text bytes.now) }
{
    if has_fine(bytes) {
        put_each(alloc, bytes, out)
    } else {
        out.extend_from_slice(bytes)?;
        Ok(())
    }
}
