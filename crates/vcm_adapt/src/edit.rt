//! What becomes of a line.

ghost use Rattle.std.specs.Prelude.{◌≡◌, MatchOption, true, false, ◌==◌};
ghost use Rattle.std.specs.List.{list_any};
ghost use Rattle.vcm_adapt.specs.Marks.{begins_sign, has_sign, is_new};
ghost use Rattle.vcm_adapt.specs.Laws.{IsNew};

use std::marker::Model;

/// Whether bytes begin with the mark without its blank.
#[tactic(auto, unfolding(crate::specs::Marks::begins_sign))]
fn begins_sign(bytes: &[u8]) -> bool
    ensures { result ≡ begins_sign bytes.now }
{
    match bytes {
        [a, b, c, ..] => *a == b'$' && (*b == b'$' && *c == b'-'),
        _ => false,
    }
}

/// Whether there is one in the bytes.
fn has_sign(bytes: &[u8]) -> bool
    ensures { result ≡ has_sign bytes.now }
{
    let mut rest = bytes;
    'signs: while let [_, after @ ..] = rest {
        if begins_sign(rest) {
            return true;
        }
        rest = after;
    }
    false
}

/// Whether there is a line feed in the bytes.
fn has_feed(bytes: &[u8]) -> bool
    ensures { result ≡ list_any (λ b. b == 10) bytes.now }
{
    bytes.iter().any(|b| *b == b'\n')
}

/// Whether bytes may stand for a line.
fn is_new(bytes: &[u8]) -> bool
    ensures { result ≡ is_new bytes.now }
{
    !has_sign(bytes) && !has_feed(bytes)
}

/// A statement that stands for another one: it has no line feed, and no `$$-`.
#[derive(Drop)]
pub struct NewLine {
    bytes: Vec<u8>,
}

impl Model for NewLine {
    ghost use Rattle.std.specs.Prelude.{ℕ, List, ◌≡◌, true};
    ghost use Rattle.vcm_adapt.specs.Marks.{is_new};

    ghost Value = { List ℕ };

    ghost view = { λ n. n.bytes.items };

    ghost invariant = { λ n. is_new n.bytes.items ≡ true };
}

impl NewLine {
    /// The line of these bytes, if they may stand for one.
    pub fn new(bytes: Vec<u8>) -> Option<NewLine>
        ensures { MatchOption result (is_new bytes.items ≡ false) (λ n. n ≡ bytes.items) }
    {
        if is_new(&bytes) {
            Some(NewLine { bytes })
        } else {
            None
        }
    }

    /// The bytes as a slice.
    pub fn as_bytes(&self) -> &[u8]
        ensures bytes { result.now ≡ self.now }
        ensures new { is_new self.now ≡ true }
    {
        &self.bytes
    }
}

/// What becomes of a line.
#[derive(Drop)]
pub enum Edit {
    /// It stays as it is.
    Keep,
    /// It becomes a comment.
    LeaveOut,
    /// This stands for it, and it becomes the comment behind.
    Put(NewLine),
}

/// What is put may stand for a line: no call but this brings it out.
pub(crate) fn known(edit: &Edit)
    ensures { IsNew edit.now }
{
    match edit {
        Edit::Keep => {}
        Edit::LeaveOut => {}
        Edit::Put(new) => {
            new.as_bytes();
        }
    }
}
