//! Labels: words of letters, digits, `-` and `_`.

ghost use Rattle.std.specs.Prelude.{◌≡◌, ◌≤◌, length, IsTrue};
ghost use Rattle.std.specs.List.{list_all};
ghost use Rattle.vcm_boxes.specs.Labels.{is_label_byte, is_label, label_of};

use std::marker::Model;

/// The most bytes of a label.
const LONGEST: usize = 32;

// Whether a byte may stand in a label.
fn is_label_byte(byte: u8) -> bool
    ensures { result ≡ is_label_byte byte }
{
    byte.is_ascii_alphabetic() || byte.is_ascii_digit() || byte == b'-' || byte == b'_'
}

// Whether all of these bytes may stand in a label.
fn are_label_bytes(bytes: &[u8]) -> bool
    ensures { result ≡ list_all is_label_byte bytes.now }
{
    bytes.iter().all(|byte| is_label_byte(*byte))
}

// Whether these bytes are a label of at most `most` bytes.
fn is_label(most: usize, bytes: &[u8]) -> bool
    ensures { result ≡ is_label most bytes.now }
{
    1 <= bytes.len() && bytes.len() <= most && are_label_bytes(bytes)
}

/// A word of 1 to 32 letters, digits, `-` and `_`, which takes no memory. Contracts see it as the list of its bytes.
#[derive(Drop)]
pub struct ShortName {
    bytes: [u8; LONGEST],
    len: u8,
}

impl Model for ShortName {
    ghost use Rattle.std.specs.Prelude.{ℕ, List, take, ◌≤◌, IsTrue};
    ghost use Rattle.vcm_boxes.specs.Labels.{is_label};

    ghost Value = { List ℕ };

    ghost view = { λ n. take n.len n.bytes };

    ghost invariant = { λ n. (n.len ≤ 32) × IsTrue (is_label 32 (take n.len n.bytes)) };
}

impl ShortName {
    // The label with these bytes.
    fn new(bytes: &[u8]) -> ShortName
        requires { IsTrue (is_label 32 bytes.now) }
        ensures { result ≡ bytes.now }
    {
        let mut own = [0; LONGEST];
        own[..bytes.len()].copy_from_slice(bytes);
        ShortName {
            bytes: own,
            len: bytes.len() as u8,
        }
    }

    /// The label with these bytes, if they are one of at most `most` bytes, which is at most 32.
    pub fn of(most: usize, bytes: &[u8]) -> Option<ShortName>
        requires { most ≤ 32 }
        ensures { result ≡ label_of most bytes.now }
    {
        if is_label(most, bytes) {
            Some(ShortName::new(bytes))
        } else {
            None
        }
    }

    /// Its bytes.
    pub fn as_bytes(&self) -> &[u8]
        ensures is { result.now ≡ self.now }
        ensures label { IsTrue (is_label 32 self.now) }
    {
        &self.bytes[..usize::from(self.len)]
    }
}
