//! The parts of a statement.

ghost use Rattle.std.specs.Prelude.{◌≡◌, ◌≤◌, ◌<◌, ◌==◌, ◌&&◌, ◌||◌, suc, length, map, take, drop, IfOk};
ghost use Rattle.std.specs.List.{position, take_while};
ghost use Rattle.std.specs.Option.{option_map};
ghost use Rattle.vcm_lines.specs.Bytes.{is_run};
ghost use Rattle.vcm_sentences.specs.Parted.{name_in, behind_name, behind_slash, worded, behind_title, titled_at, parts_behind, parts_in, piece, enclosed, has_function, seen, passed, ends_field, outside, fields_in};
ghost use Rattle.vcm_sentences.specs.inner.Parting.{place_of, field_len};

use crate::words::{MajorWord, word_of};
use std::alloc::Global;
use vcm_num::NoMemory;

/// The parts of a statement, each of them empty where it isn't there: `KIND(TITLE)=WORD/REST`, `TITLE=WORD/REST`, or `(TITLE)`.
#[derive(Clone, Copy)]
pub struct Parts<'a> {
    pub kind: &'a [u8],
    pub title: &'a [u8],
    /// The word as it is spelled.
    pub spelled: &'a [u8],
    pub word: MajorWord,
    pub rest: &'a [u8],
}

/// The bytes from one place to before another, nothing where there are no such places.
pub fn piece(bytes: &[u8], from: usize, to: usize) -> &[u8]
    ensures { result.now ≡ piece bytes.now from to }
{
    if from <= to && to <= bytes.len() {
        &bytes[from..to]
    } else {
        &[]
    }
}

/// What stands between this front and a parenthesis at the end, if both are there.
pub fn enclosed<'a>(bytes: &'a [u8], front: &[u8]) -> Option<&'a [u8]>
    ensures { option_map (λ t. t.now) result ≡ enclosed bytes.now front.now }
{
    bytes.strip_prefix(front)?.strip_suffix(b")")
}

/// Whether a byte may stand in a name.
pub fn is_name_byte(byte: u8) -> bool
    ensures { result ≡ is_run byte }
{
    byte.is_ascii_alphanumeric() || byte == b'_'
}

// How many bytes of a name stand at the front.
fn name_len(bytes: &[u8]) -> usize
    ensures value { result ≡ length (take_while is_run bytes.now) }
    ensures within { result ≤ length bytes.now }
{
    bytes.iter().take_while(|byte| is_name_byte(**byte)).count()
}

// The bytes of a name at the front, and those behind.
fn split_name(bytes: &[u8]) -> (&[u8], &[u8])
    ensures name { result.0.now ≡ name_in bytes.now }
    ensures behind { result.1.now ≡ behind_name bytes.now }
{
    let end = name_len(bytes);
    (&bytes[..end], &bytes[end..])
}

// Where the first closing parenthesis stands.
fn title_end(bytes: &[u8]) -> Option<usize>
    ensures { result ≡ position (λ b. b == 41) bytes.now }
{
    bytes.iter().position(|byte| *byte == b')')
}

// What stands behind a slash, if one stands in front.
fn behind_slash(bytes: &[u8]) -> &[u8]
    ensures { result.now ≡ behind_slash bytes.now }
{
    match bytes {
        [b'/', rest @ ..] => rest,
        _ => bytes,
    }
}

// A word and what stands behind its slash.
fn worded<'a>(kind: &'a [u8], title: &'a [u8], body: &'a [u8]) -> Parts<'a>
    ensures { seen result ≡ worded kind.now title.now body.now }
{
    let (spelled, behind) = split_name(body);
    Parts {
        kind,
        title,
        spelled,
        word: word_of(spelled),
        rest: behind_slash(behind),
    }
}

// The parts behind `KIND(TITLE)`.
fn behind_title<'a>(kind: &'a [u8], title: &'a [u8], behind: &'a [u8]) -> Option<Parts<'a>>
    ensures { option_map seen result ≡ behind_title kind.now title.now behind.now }
{
    match behind {
        [b'=', body @ ..] => Some(worded(kind, title, body)),
        [] if kind.is_empty() => Some(worded(kind, title, &[])),
        _ => None,
    }
}

// The parts behind `KIND(`, if a title stands there.
fn titled<'a>(kind: &'a [u8], behind: &'a [u8]) -> Option<Parts<'a>>
    ensures { option_map seen result ≡ titled_at kind.now behind.now (position (λ b. b == 41) behind.now) }
{
    let end = title_end(behind)?;
    behind_title(kind, &behind[..end], &behind[end + 1..])
}

// The parts behind a name.
fn parts_behind<'a>(name: &'a [u8], behind: &'a [u8]) -> Option<Parts<'a>>
    ensures { option_map seen result ≡ parts_behind name.now behind.now }
{
    match behind {
        [b'=', body @ ..] => Some(worded(&[], name, body)),
        [b'(', behind @ ..] => titled(name, behind),
        _ => None,
    }
}

/// The parts of a statement.
pub fn parts_of(bytes: &[u8]) -> Parts<'_>
    ensures { seen result ≡ parts_in bytes.now }
{
    let (name, behind) = split_name(bytes);
    match parts_behind(name, behind) {
        Some(parts) => parts,
        None => worded(&[], &[], bytes),
    }
}

// Where a byte stands: in a text or not, and in how many parentheses.
#[derive(Clone, Copy)]
struct Place {
    is_quoted: bool,
    depth: u32,
}

// The place behind a byte.
fn passed(place: Place, byte: u8) -> Place
    ensures { place_of result ≡ passed (place_of place) byte }
{
    if byte == b'\'' {
        return Place {
            is_quoted: !place.is_quoted,
            depth: place.depth,
        };
    }
    if place.is_quoted {
        return place;
    }
    match byte {
        b'(' => Place {
            is_quoted: false,
            depth: place.depth.saturating_add(1),
        },
        b')' => Place {
            is_quoted: false,
            depth: place.depth.saturating_sub(1),
        },
        _ => place,
    }
}

// Whether a field ends with a byte.
fn ends_field(place: Place, byte: u8) -> bool
    ensures { result ≡ ends_field (place_of place) byte }
{
    byte == b',' && !place.is_quoted && place.depth == 0
}

// How many bytes the first field has.
fn field_len(text: &[u8]) -> usize
    ensures value { result ≡ field_len outside text.now }
    ensures within { result ≤ length text.now }
{
    let mut place = Place {
        is_quoted: false,
        depth: 0,
    };
    let mut at = 0usize;
    'bytes: while at < text.len() {
        let byte = text[at];
        if ends_field(place, byte) {
            return at;
        }
        place = passed(place, byte);
        at += 1;
    }
    at
}

// The first field, up to its end.
fn front(text: &[u8], end: usize) -> &[u8]
    requires { end ≤ length text.now }
    ensures { result.now ≡ take end text.now }
{
    &text[..end]
}

// What stands behind the comma that ends the first field.
fn behind(text: &[u8], end: usize) -> &[u8]
    requires { end < length text.now }
    ensures { result.now ≡ drop (suc end) text.now }
{
    &text[end + 1..]
}

/// The fields of what stands behind a word: the parts between the commas that stand in no text and in no parentheses.
///
/// # Errors
///
/// Out of memory.
pub fn fields_of<'a>(alloc: Global, rest: &'a [u8]) -> Result<Vec<&'a [u8]>, NoMemory>
    ensures { IfOk result (λ fields. map (λ f. f.now) fields.items ≡ fields_in rest.now) }
{
    let mut fields = Vec::new(alloc);
    let mut left = rest;
    let mut end = field_len(left);
    'fields: while end < left.len() {
        fields.push(front(left, end))?;
        left = behind(left, end);
        end = field_len(left);
    }
    fields.push(left)?;
    Ok(fields)
}

// Whether a byte makes a function, an exponent or a text, this one standing in front.
fn makes_function(last: u8, byte: u8) -> bool
    ensures { result ≡ ((byte == 40 && is_run last) || byte == 39 || (byte == 42 && last == 42)) }
{
    let is_call = byte == b'(' && is_name_byte(last);
    is_call || byte == b'\'' || byte == b'*' && last == b'*'
}

/// Whether a name stands right in front of a parenthesis, or two stars or a text in the bytes: the subset has no such things in expressions.
pub fn has_function(bytes: &[u8]) -> bool
    ensures { result ≡ has_function bytes.now }
{
    let mut last = b' ';
    let mut at = 0usize;
    'bytes: while at < bytes.len() {
        let byte = bytes[at];
        if makes_function(last, byte) {
            return true;
        }
        last = byte;
        at += 1;
    }
    false
}
