//! What stands before the fields of a producer's statement.

ghost use Rattle.std.specs.Prelude.{◌≡◌, option_map};
ghost use Rattle.vcm_heads.specs.Heads.{past, run_at, past_word, label_at, title_at, past_title, assigned_at, body_of, major_of, behind_of, first_field, is_label};

use vcm_lines::{Phrase, Token};
use vcm_num::is;

/// A mark that stands between words.
#[derive(Clone, Copy)]
pub enum Mark {
    Open,
    Close,
    Equals,
    Comma,
    Slash,
}

/// The words behind a mark, where they begin with it.
pub fn past<'a>(mark: Mark, words: &Phrase<'a>) -> Option<Phrase<'a>>
    ensures { result ≡ past mark words.now }
{
    let (first, rest) = words.split_first()?;
    match (mark, first) {
        (Mark::Open, Token::Open)
        | (Mark::Close, Token::Close)
        | (Mark::Equals, Token::Equals)
        | (Mark::Comma, Token::Comma)
        | (Mark::Slash, Token::Slash) => Some(rest),
        _ => None,
    }
}

/// The run of letters and digits that words begin with, and the words behind it.
pub fn run_at<'a>(words: &Phrase<'a>) -> Option<(&'a [u8], Phrase<'a>)>
    ensures { option_map (λ r. (r.0.now, r.1)) result ≡ run_at words.now }
{
    match words.split_first() {
        Some((Token::Run(word), rest)) => Some((word, rest)),
        _ => None,
    }
}

/// The words behind this very word, where they begin with it.
pub fn past_word<'a>(wanted: &[u8], words: &Phrase<'a>) -> Option<Phrase<'a>>
    ensures { result ≡ past_word wanted.now words.now }
{
    let (word, rest) = run_at(words)?;
    if is(word, wanted) { Some(rest) } else { None }
}

/// A label in parentheses, and the words behind it.
pub fn label_at<'a>(words: &Phrase<'a>) -> Option<(&'a [u8], Phrase<'a>)>
    ensures { option_map (λ r. (r.0.now, r.1)) result ≡ label_at words.now }
{
    let opened = past(Mark::Open, words)?;
    let (label, rest) = run_at(&opened)?;
    let behind = past(Mark::Close, &rest)?;
    Some((label, behind))
}

/// A label behind these letters, as `F(l)`, and the words behind it.
pub fn title_at<'a>(letters: &[u8], words: &Phrase<'a>) -> Option<(&'a [u8], Phrase<'a>)>
    ensures { option_map (λ r. (r.0.now, r.1)) result ≡ title_at letters.now words.now }
{
    let rest = past_word(letters, words)?;
    label_at(&rest)
}

// The words behind any title and its equals sign.
fn past_title<'a>(words: &Phrase<'a>) -> Option<Phrase<'a>>
    ensures { result ≡ past_title words.now }
{
    let (_, rest) = run_at(words)?;
    let (_, behind) = label_at(&rest)?;
    past(Mark::Equals, &behind)
}

/// A variable and its equals sign, and the words behind them.
pub fn assigned_at<'a>(words: &Phrase<'a>) -> Option<(&'a [u8], Phrase<'a>)>
    ensures { option_map (λ r. (r.0.now, r.1)) result ≡ assigned_at words.now }
{
    let (variable, rest) = run_at(words)?;
    let behind = past(Mark::Equals, &rest)?;
    Some((variable, behind))
}

// The words from the major word on.
fn body_of<'a>(words: &Phrase<'a>) -> Phrase<'a>
    ensures { result ≡ body_of words.now }
{
    match past_title(words) {
        Some(behind) => behind,
        None => match assigned_at(words) {
            Some((_, behind)) => behind,
            None => words.copy(),
        },
    }
}

/// The major word, no bytes where there is none, and the words behind it.
pub fn major_at<'a>(words: &Phrase<'a>) -> (&'a [u8], Phrase<'a>)
    ensures word { result.0.now ≡ major_of words.now }
    ensures behind { result.1 ≡ behind_of words.now }
{
    match run_at(&body_of(words)) {
        Some((word, rest)) => (word, rest),
        None => (&[], words.part(0, 0)),
    }
}

/// The word that the fields behind a major word begin with, no bytes where there is none.
pub fn first_field<'a>(words: &Phrase<'a>) -> &'a [u8]
    ensures { result.now ≡ first_field words.now }
{
    let Some(fields) = past(Mark::Slash, words) else {
        return &[];
    };
    match run_at(&fields) {
        Some((word, _)) => word,
        None => &[],
    }
}

/// Whether words begin with a parenthesis, as a jump label does.
pub fn is_label(words: &Phrase<'_>) -> bool
    ensures { result ≡ is_label words.now }
{
    matches!(words.split_first(), Some((Token::Open, _)))
}
