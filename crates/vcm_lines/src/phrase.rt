//! Words that stand side by side.

ghost use Rattle.std.specs.Prelude.{◌≡◌, ◌≤◌, ◌∷◌, [], length, slice_range, not, IfOk, MatchOption};
ghost use Rattle.std.specs.List.{position, list_all, count_by};
ghost use Rattle.vcm_lines.specs.Cuts.{cuts, before, after, last_of, front_of};
ghost use Rattle.vcm_lines.specs.Lexemes.{lexemes, lexeme, word_bytes, unquoted, word_lexeme, mark_of, mark_in, is_spelled, is_parenthesis};

use crate::dotted::dotted_word;
use crate::logical::{Logical, OwnedBytes, Word, WordKind};
use std::alloc::{AllocError, Global};
use std::marker::Model;

/// A word of a statement.
#[derive(Clone, Copy)]
pub enum Token<'a> {
    /// Letters, digits and underscores.
    Run(&'a [u8]),
    /// Digits with a point.
    Number(&'a [u8]),
    /// A point and letters, and the point behind them if there is one.
    Dotted(&'a [u8]),
    /// What stands between the apostrophes of a text.
    Quoted(&'a [u8]),
    Slash,
    Comma,
    Equals,
    Open,
    Close,
    Plus,
    Minus,
    Star,
    /// Any other mark.
    Other,
}

impl<'a> Token<'a> {
    /// Whether the word, if it is a dotted one, is one that there is.
    pub fn is_spelled(self) -> bool
        ensures { result ≡ is_spelled (lexeme self.entry) }
    {
        match self {
            Token::Dotted(bytes) => dotted_word(bytes).is_some(),
            _ => true,
        }
    }
}

impl OwnedBytes {
    /// A text of these bytes.
    ///
    /// # Errors
    /// Out of memory.
    pub fn copied(alloc: Global, bytes: &[u8]) -> Result<OwnedBytes, AllocError>
        ensures { IfOk result (λ t. t ≡ bytes.now) }
    {
        let mut kept = Vec::with_capacity(alloc, bytes.len())?;
        kept.extend_from_slice(bytes)?;
        Ok(OwnedBytes { bytes: kept })
    }
}

fn bytes_of(text: &[u8], word: Word) -> &[u8]
    ensures { result.now ≡ word_bytes text.now word }
{
    let start = word.start as usize;
    let end = word.end as usize;
    if start <= end && end <= text.len() {
        &text[start..end]
    } else {
        &[]
    }
}

fn unquoted(bytes: &[u8]) -> &[u8]
    ensures { result.now ≡ unquoted bytes.now }
{
    if bytes.len() >= 2 {
        &bytes[1..bytes.len() - 1]
    } else {
        &[]
    }
}

fn mark_of<'a>(byte: u8) -> Token<'a>
    ensures { lexeme result ≡ mark_of byte }
{
    if byte == b'/' {
        Token::Slash
    } else if byte == b',' {
        Token::Comma
    } else if byte == b'=' {
        Token::Equals
    } else if byte == b'(' {
        Token::Open
    } else if byte == b')' {
        Token::Close
    } else if byte == b'+' {
        Token::Plus
    } else if byte == b'-' {
        Token::Minus
    } else if byte == b'*' {
        Token::Star
    } else {
        Token::Other
    }
}

fn mark_in(bytes: &[u8]) -> Token<'_>
    ensures { lexeme result ≡ mark_in bytes.now }
{
    match bytes.first() {
        None => Token::Other,
        Some(byte) => mark_of(*byte),
    }
}

fn token_of(text: &[u8], word: Word) -> Token<'_>
    ensures { lexeme result ≡ word_lexeme text.now word }
{
    let bytes = bytes_of(text, word);
    match word.kind {
        WordKind::Run => Token::Run(bytes),
        WordKind::Number => Token::Number(bytes),
        WordKind::Quoted => Token::Quoted(unquoted(bytes)),
        WordKind::Dotted => Token::Dotted(bytes),
        WordKind::Mark => mark_in(bytes),
    }
}

/// What words are cut at.
#[derive(Clone, Copy)]
pub enum Cutter {
    AtSlash,
    AtComma,
}

fn cuts(text: &[u8], cutter: Cutter, word: Word) -> bool
    ensures { result ≡ cuts cutter (word_lexeme text.now word) }
{
    match cutter {
        Cutter::AtSlash => matches!(token_of(text, word), Token::Slash),
        Cutter::AtComma => matches!(token_of(text, word), Token::Comma),
    }
}

fn find(text: &[u8], cutter: Cutter, words: &[Word]) -> Option<usize>
    ensures { result ≡ position (λ w. cuts cutter (word_lexeme text.now w)) words.now }
{
    words.iter().position(|word| cuts(text, cutter, *word))
}

fn is_parenthesis(text: &[u8], word: Word) -> bool
    ensures { result ≡ is_parenthesis (word_lexeme text.now word) }
{
    matches!(token_of(text, word), Token::Open | Token::Close)
}

fn count_without_parentheses(text: &[u8], words: &[Word]) -> usize
    ensures { result ≡ count_by (λ w. not (is_parenthesis (word_lexeme text.now w))) words.now }
{
    words
        .iter()
        .filter(|word| !is_parenthesis(text, **word))
        .count()
}

fn all_spelled(text: &[u8], words: &[Word]) -> bool
    ensures { result ≡ list_all (λ w. is_spelled (word_lexeme text.now w)) words.now }
{
    words.iter().all(|word| token_of(text, *word).is_spelled())
}

/// The words from the place `from` to before the place `to`.
fn between(words: &[Word], from: usize, to: usize) -> &[Word]
    requires { (from ≤ to) × (to ≤ length words.now) }
    ensures { result.now ≡ slice_range words.now from to }
{
    &words[from..to]
}

/// Words that stand side by side in a statement. A contract sees them as the list of what they say.
#[derive(Drop)]
pub struct Phrase<'a> {
    text: &'a [u8],
    words: &'a [Word],
}

impl<'a> Model for Phrase<'a> {
    ghost use Rattle.std.specs.Prelude.{List};
    ghost use Rattle.vcm_lines.specs.Lexemes.{Lexeme, lexemes};

    ghost Value = { List Lexeme };

    ghost view = { λ p. lexemes p.text.now p.words.now };
}

impl<'a> Phrase<'a> {
    /// The words of a statement.
    pub fn of(logical: &'a Logical) -> Phrase<'a>
        ensures { result ≡ lexemes logical.now.text logical.now.words }
    {
        Phrase {
            text: logical.text.as_bytes(),
            words: logical.words.as_slice(),
        }
    }

    /// The same words.
    pub fn copy(&self) -> Phrase<'a>
        ensures { result ≡ self.now }
    {
        Phrase {
            text: self.text,
            words: self.words,
        }
    }

    /// The words from the place `from` to before the place `to`; the first word stands at 0.
    pub fn part(&self, from: usize, to: usize) -> Phrase<'a>
        requires { (from ≤ to) × (to ≤ length self.now) }
        ensures { result ≡ slice_range self.now from to }
    {
        Phrase {
            text: self.text,
            words: between(self.words, from, to),
        }
    }

    /// Whether each dotted word is one that there is.
    pub fn is_spelled(&self) -> bool
        ensures { result ≡ list_all is_spelled self.now }
    {
        all_spelled(self.text, self.words)
    }

    /// How many words are no parentheses.
    pub fn count_without_parentheses(&self) -> usize
        ensures { result ≡ count_by (λ w. not (is_parenthesis w)) self.now }
    {
        count_without_parentheses(self.text, self.words)
    }

    /// The first word, and those after it.
    pub fn split_first(&self) -> Option<(Token<'a>, Phrase<'a>)>
        ensures { MatchOption result (self.now ≡ []) (λ r. self.now ≡ lexeme r.0 ∷ r.1) }
    {
        let text = self.text;
        match self.words.split_first() {
            None => None,
            Some((word, words)) => Some((token_of(text, *word), Phrase { text, words })),
        }
    }

    /// The words before the last one, and that one.
    pub fn split_last(&self) -> Option<(Phrase<'a>, Token<'a>)>
        ensures { MatchOption result (self.now ≡ []) (λ r. (front_of self.now ≡ r.0) × (last_of self.now ≡ lexeme r.1)) }
    {
        let text = self.text;
        match self.words.split_last() {
            None => None,
            Some((word, words)) => Some((Phrase { text, words }, token_of(text, *word))),
        }
    }

    /// The words before the last one, and that one; where there is none, no words and another mark.
    pub fn ends(&self) -> (Phrase<'a>, Token<'a>)
        ensures front { result.0 ≡ front_of self.now }
        ensures last { lexeme result.1 ≡ last_of self.now }
    {
        let text = self.text;
        match self.split_last() {
            Some(ends) => ends,
            None => (Phrase { text, words: &[] }, Token::Other),
        }
    }

    /// The words before the first mark of this kind, and those after it.
    pub fn cut_at(&self, cutter: Cutter) -> (Phrase<'a>, Option<Phrase<'a>>)
        ensures front { result.0 ≡ before cutter self.now }
        ensures rest { result.1 ≡ after cutter self.now }
    {
        let text = self.text;
        let words = self.words;
        match find(text, cutter, words) {
            None => (Phrase { text, words }, None),
            Some(place) => {
                let front = Phrase {
                    text,
                    words: &words[..place],
                };
                let rest = Phrase {
                    text,
                    words: &words[place + 1..],
                };
                (front, Some(rest))
            }
        }
    }
}
