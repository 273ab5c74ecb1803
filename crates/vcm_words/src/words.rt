//! Bytes cut at a mark.

ghost use Rattle.std.specs.Prelude.{◌≡◌, ◌∷◌, [], MatchOption, option_map, ◌==◌, ◌<◌, length, map, false};
ghost use Rattle.std.specs.List.{position};
ghost use Rattle.vcm_words.specs.Cutting.{split, parts_left, joined};
ghost use Rattle.vcm_num.specs.Words.{look_up};
ghost use Rattle.vcm_words.specs.Enclosed.{unopened};
ghost use Rattle.vcm_words.specs.WordReaders.{one};

use std::marker::Model;
use vcm_num::look_up;

// Where the first mark stands.
fn place_of(mark: u8, bytes: &[u8]) -> Option<usize>
    ensures { result ≡ position (λ b. b == mark) bytes.now }
{
    bytes.iter().position(|b| *b == mark)
}

/// The bytes before the first mark, and those after it; without a mark there are none after.
pub fn cut(mark: u8, bytes: &[u8]) -> (&[u8], Option<&[u8]>)
    ensures { split mark bytes.now ≡ result.0.now ∷ parts_left mark (option_map (λ r. r.now) result.1) }
{
    match place_of(mark, bytes) {
        Some(at) => (&bytes[..at], Some(&bytes[at + 1..])),
        None => (bytes, None),
    }
}

/// The words of a line that are left. Contracts see them as a list.
#[derive(Drop)]
pub struct Words<'a> {
    left: Option<&'a [u8]>,
}

impl<'a> Model for Words<'a> {
    ghost use Rattle.std.specs.Prelude.{ℕ, List, option_map};
    ghost use Rattle.vcm_words.specs.Cutting.{parts_left};

    ghost Value = { List (List ℕ) };

    ghost view = { λ s. parts_left 32 (option_map (λ r. r.now) s.left) };
}

impl<'a> Words<'a> {
    /// The words of a line.
    pub fn new(line: &'a [u8]) -> Words<'a>
        ensures { result ≡ split 32 line.now }
    {
        Words { left: Some(line) }
    }

    /// The same words.
    pub fn again(&self) -> Words<'a>
        ensures { result ≡ self.now }
    {
        Words { left: self.left }
    }

    /// The first word and those after it.
    pub fn split_first(&self) -> Option<(&'a [u8], Words<'a>)>
        ensures { MatchOption result (self.now ≡ []) (λ x. self.now ≡ x.0.now ∷ x.1) }
    {
        let bytes = self.left?;
        let (first, left) = cut(b' ', bytes);
        Some((first, Words { left }))
    }

    /// The words without the mark before the first.
    pub(crate) fn unopened(&self, mark: u8) -> Option<Words<'a>>
        requires { (mark == 32) ≡ false }
        ensures { result ≡ unopened mark self.now }
    {
        let bytes = self.left?;
        match bytes {
            [] => None,
            [first, rest @ ..] => {
                if *first == mark {
                    Some(Words { left: Some(rest) })
                } else {
                    None
                }
            }
        }
    }

    /// All bytes that are left.
    pub fn whole(&self) -> Option<&'a [u8]>
        ensures { MatchOption result (self.now ≡ []) (λ b. (joined 32 self.now ≡ b.now) × (0 < length self.now)) }
    {
        match self.left {
            Some(bytes) => Some(bytes),
            None => None,
        }
    }

    /// No words.
    pub fn none() -> Words<'a>
        ensures { result ≡ [] }
    {
        Words { left: None }
    }
}

/// What the first word stands for in a table, and the words behind it.
pub fn table_word<'a, T: Copy>(rows: &[(&[u8], T)], words: &Words<'a>) -> Option<(T, Words<'a>)>
    ensures { result ≡ one (look_up (map (λ row. (row.0.now, row.1)) rows.now)) words.now }
{
    let (word, rest) = words.split_first()?;
    Some((look_up(rows, word)?, rest))
}
