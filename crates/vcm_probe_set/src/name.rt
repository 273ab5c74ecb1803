//! Names of probes, and of the variable that chooses one.

ghost use Rattle.std.specs.Prelude.{◌≡◌, ◌≤◌, length, map, IsTrue};
ghost use Rattle.std.specs.Char.{to_ascii_uppercase};
ghost use Rattle.vcm_boxes.specs.Labels.{label_of};
ghost use Rattle.std.specs.List.{list_all};
ghost use Rattle.vcm_probe_set.specs.Names.{is_probe_byte, is_probe_name, probe_name_of, is_variable_byte, begins_with_letter, is_variable, variable_of};

use std::marker::Model;
use vcm_boxes::ShortName;

/// The most bytes of a probe's name.
const LONGEST: usize = 64;

/// The most bytes of a variable's name.
const LONGEST_VARIABLE: usize = 16;

// Whether a byte may stand in the name of a probe.
fn is_probe_byte(byte: u8) -> bool
    ensures { result ≡ is_probe_byte byte }
{
    byte.is_ascii_alphabetic()
        || byte.is_ascii_digit()
        || byte == b'-'
        || byte == b'_'
        || byte == b'+'
        || byte == b'.'
}

// Whether all of these bytes may stand in the name of a probe.
fn are_probe_bytes(bytes: &[u8]) -> bool
    ensures { result ≡ list_all is_probe_byte bytes.now }
{
    bytes.iter().all(|byte| is_probe_byte(*byte))
}

// Whether these bytes are the name of a probe.
fn is_probe_name(bytes: &[u8]) -> bool
    ensures { result ≡ is_probe_name bytes.now }
{
    1 <= bytes.len() && bytes.len() <= LONGEST && are_probe_bytes(bytes)
}

/// The name of a probe: 1 to 64 letters, digits, `-`, `_`, `+` and `.`, which take no memory. Contracts see it as the list of its bytes.
#[derive(Drop)]
pub struct ProbeName {
    bytes: [u8; LONGEST],
    len: u8,
}

impl Model for ProbeName {
    ghost use Rattle.std.specs.Prelude.{ℕ, List, take, ◌≤◌, IsTrue};
    ghost use Rattle.vcm_probe_set.specs.Names.{is_probe_name};

    ghost Value = { List ℕ };

    ghost view = { λ n. take n.len n.bytes };

    ghost invariant = { λ n. (n.len ≤ 64) × IsTrue (is_probe_name (take n.len n.bytes)) };
}

impl ProbeName {
    // The name with these bytes.
    fn new(bytes: &[u8]) -> ProbeName
        requires { IsTrue (is_probe_name bytes.now) }
        ensures { result ≡ bytes.now }
    {
        let mut own = [0; LONGEST];
        own[..bytes.len()].copy_from_slice(bytes);
        ProbeName {
            bytes: own,
            len: bytes.len() as u8,
        }
    }

    // The name of a probe that these bytes are, if they are one.
    pub(crate) fn of(bytes: &[u8]) -> Option<ProbeName>
        ensures { result ≡ probe_name_of bytes.now }
    {
        if is_probe_name(bytes) {
            Some(ProbeName::new(bytes))
        } else {
            None
        }
    }

    /// Its bytes.
    pub fn as_bytes(&self) -> &[u8]
        ensures is { result.now ≡ self.now }
        ensures name { IsTrue (is_probe_name self.now) }
    {
        &self.bytes[..usize::from(self.len)]
    }
}

// Whether a byte may stand in the name of a variable.
fn is_variable_byte(byte: u8) -> bool
    ensures { result ≡ is_variable_byte byte }
{
    byte.is_ascii_alphabetic() || byte.is_ascii_digit() || byte == b'_'
}

// Whether all of these bytes may.
fn are_variable_bytes(bytes: &[u8]) -> bool
    ensures { result ≡ list_all is_variable_byte bytes.now }
{
    bytes.iter().all(|byte| is_variable_byte(*byte))
}

// Whether the first byte is a letter.
fn begins_with_letter(bytes: &[u8]) -> bool
    ensures { result ≡ begins_with_letter bytes.now }
{
    match bytes {
        [first, ..] => first.is_ascii_alphabetic(),
        _ => false,
    }
}

// Whether these bytes are the name of a variable.
fn is_variable(bytes: &[u8]) -> bool
    ensures same { result ≡ is_variable bytes.now }
    ensures short { IsTrue result → length bytes.now ≤ 16 }
{
    begins_with_letter(bytes) && bytes.len() <= LONGEST_VARIABLE && are_variable_bytes(bytes)
}

// The label that these bytes are in capital letters, if they are one.
fn capitals(bytes: &[u8]) -> Option<ShortName>
    requires { length bytes.now ≤ 16 }
    ensures { result ≡ label_of 16 (map to_ascii_uppercase bytes.now) }
{
    let mut own = [0; LONGEST_VARIABLE];
    own[..bytes.len()].copy_from_slice(bytes);
    own[..bytes.len()].make_ascii_uppercase();
    ShortName::of(LONGEST_VARIABLE, &own[..bytes.len()])
}

// The variable that these bytes are, in capital letters, if they are one.
pub(crate) fn variable_of(bytes: &[u8]) -> Option<ShortName>
    ensures { result ≡ variable_of bytes.now }
{
    if is_variable(bytes) {
        capitals(bytes)
    } else {
        None
    }
}
