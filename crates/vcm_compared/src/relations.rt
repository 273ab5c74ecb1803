//! Tests of variables of texts, with the number of each text in its place.

ghost use Rattle.std.specs.Prelude.{◌≡◌, ◌∷◌, IfOk, option_map, codes};
ghost use Rattle.std.specs.Option.{option_copied};
ghost use Rattle.vcm_lines.specs.Lexemes.{lexeme};
ghost use Rattle.vcm_heads.specs.Heads.{is_mark};
ghost use Rattle.vcm_compared.specs.Texts.{number_for};
ghost use Rattle.vcm_compared.specs.Tests.{comparing, comparer, sides, against, related_to, related, relation, relation_at, enclosed_at, item_at, past_dotted, link, chained, chain_by, chain, inside, tested, test_of};

use crate::texts::{Held, Texts, held_named, is_parameter, place_of};
use std::alloc::Global;
use vcm_events::{join, pair};
use vcm_expr::{BinaryOp, Expr, Relation, Term};
use vcm_heads::{Mark, past, past_word};
use vcm_lines::{DottedWord, Phrase, Token, dotted_word};
use vcm_num::{Literal, NoMemory, is};

/// The most relations that a test may have besides the first one.
pub const MOST_RELATIONS: u8 = 15;

/// The number of a text that a variable may have whose texts have so many letters.
pub fn number_for(texts: &Texts, most: u32, text: &[u8]) -> Option<u32>
    ensures { result ≡ number_for texts.now most text.now }
{
    if text.len() > most as usize {
        return None;
    }
    if is_parameter(texts.parameters.as_slice(), text) {
        return None;
    }
    place_of(texts.literals.as_slice(), text)
}

// The relation of a dotted word: equal or not.
fn comparing(word: Option<DottedWord>) -> Option<BinaryOp>
    ensures { result ≡ comparing word }
{
    match word {
        Some(DottedWord::Compare(Relation::Equal)) => Some(BinaryOp::Compare(Relation::Equal)),
        Some(DottedWord::Compare(Relation::NotEqual)) => {
            Some(BinaryOp::Compare(Relation::NotEqual))
        }
        _ => None,
    }
}

// The same of any word.
fn comparer(token: Token<'_>) -> Option<BinaryOp>
    ensures { result ≡ comparer (lexeme token.entry) }
{
    match token {
        Token::Dotted(bytes) => comparing(dotted_word(bytes)),
        _ => None,
    }
}

// The variable and the text of a relation, on either side.
fn sides<'a>(a: Token<'a>, b: Token<'a>) -> Option<(&'a [u8], &'a [u8])>
    ensures { option_map (λ r. (r.0.now, r.1.now)) result ≡ sides (lexeme a.entry) (lexeme b.entry) }
{
    match (a, b) {
        (Token::Run(variable), Token::Quoted(text)) => Some((variable, text)),
        (Token::Quoted(text), Token::Run(variable)) => Some((variable, text)),
        _ => None,
    }
}

// A variable that is compared with a number.
fn against(alloc: Global, op: BinaryOp, held: &Held, number: u32) -> Result<Expr, NoMemory>
    ensures { IfOk result (λ e. e ≡ against op held.now number) }
{
    let name = Term::Variable(held.name.name().copy(), 0);
    let number = Term::Number(Literal::Int(i64::from(number)));
    pair(alloc, op, name, number)
}

// A variable that is compared with a text: with its number.
fn related_to(
    alloc: Global,
    texts: &Texts,
    op: BinaryOp,
    text: &[u8],
    held: &Held,
) -> Result<Option<Expr>, NoMemory>
    ensures { IfOk result (λ e. e ≡ related_to texts.now op text.now held.now) }
{
    match number_for(texts, held.most, text) {
        Some(number) => Ok(Some(against(alloc, op, held, number)?)),
        None => Ok(None),
    }
}

// The same of a name.
fn related(
    alloc: Global,
    texts: &Texts,
    op: BinaryOp,
    variable: &[u8],
    text: &[u8],
) -> Result<Option<Expr>, NoMemory>
    ensures { IfOk result (λ e. e ≡ related texts.now op variable.now text.now) }
{
    match held_named(variable, texts.held.as_slice()) {
        Some(held) => related_to(alloc, texts, op, text, held),
        None => Ok(None),
    }
}

// The relation that three words are.
fn relation(
    alloc: Global,
    texts: &Texts,
    a: Token<'_>,
    d: Token<'_>,
    b: Token<'_>,
) -> Result<Option<Expr>, NoMemory>
    ensures { IfOk result (λ e. e ≡ relation texts.now (lexeme a.entry) (lexeme d.entry) (lexeme b.entry)) }
{
    let Some(op) = comparer(d) else {
        return Ok(None);
    };
    match sides(a, b) {
        Some((variable, text)) => related(alloc, texts, op, variable, text),
        None => Ok(None),
    }
}

// The relation that words begin with, and the words behind it.
fn relation_at<'a>(
    alloc: Global,
    texts: &Texts,
    words: &Phrase<'a>,
) -> Result<Option<(Expr, Phrase<'a>)>, NoMemory>
    ensures { IfOk result (λ r. r ≡ relation_at texts.now words.now) }
{
    let Some((a, behind)) = words.split_first() else {
        return Ok(None);
    };
    let Some((d, rest)) = behind.split_first() else {
        return Ok(None);
    };
    let Some((b, last)) = rest.split_first() else {
        return Ok(None);
    };
    match relation(alloc, texts, a, d, b)? {
        Some(value) => Ok(Some((value, last))),
        None => Ok(None),
    }
}

// The same in parentheses.
fn enclosed_at<'a>(
    alloc: Global,
    texts: &Texts,
    words: &Phrase<'a>,
) -> Result<Option<(Expr, Phrase<'a>)>, NoMemory>
    ensures { IfOk result (λ r. r ≡ enclosed_at texts.now words.now) }
{
    let Some(opened) = past(Mark::Open, words) else {
        return Ok(None);
    };
    let Some((value, behind)) = relation_at(alloc, texts, &opened)? else {
        return Ok(None);
    };
    match past(Mark::Close, &behind) {
        Some(rest) => Ok(Some((value, rest))),
        None => Ok(None),
    }
}

// A relation, in parentheses or without.
fn item_at<'a>(
    alloc: Global,
    texts: &Texts,
    words: &Phrase<'a>,
) -> Result<Option<(Expr, Phrase<'a>)>, NoMemory>
    ensures { IfOk result (λ r. r ≡ item_at texts.now words.now) }
{
    match enclosed_at(alloc, texts, words)? {
        Some(item) => Ok(Some(item)),
        None => relation_at(alloc, texts, words),
    }
}

// The words behind this dotted word.
fn past_dotted<'a>(word: &[u8], words: &Phrase<'a>) -> Option<Phrase<'a>>
    ensures { result ≡ past_dotted word.now words.now }
{
    match words.split_first() {
        Some((Token::Dotted(bytes), rest)) => { if is(bytes, word) { Some(rest) } else { None } }
        _ => None,
    }
}

// One relation more behind this word, joined with those in front, and the words behind it.
fn link<'a>(
    alloc: Global,
    word: &[u8],
    op: BinaryOp,
    texts: &Texts,
    value: &Expr,
    words: &Phrase<'a>,
) -> Result<Option<(Expr, Phrase<'a>)>, NoMemory>
    ensures { IfOk result (λ l. l ≡ link word.now op texts.now value.now words.now) }
{
    let Some(rest) = past_dotted(word, words) else {
        return Ok(None);
    };
    let Some((other, behind)) = item_at(alloc, texts, &rest)? else {
        return Ok(None);
    };
    match join(alloc, op, value, &other)? {
        Some(both) => Ok(Some((both, behind))),
        None => Ok(None),
    }
}

// Relations that are joined by one word, up to the end of the words.
#[tactic(auto, unfolding(crate::specs::Tests::chained))]
fn chained(
    alloc: Global,
    left: u8,
    word: &[u8],
    op: BinaryOp,
    texts: &Texts,
    value: Expr,
    words: &Phrase<'_>,
) -> Result<Option<Expr>, NoMemory>
    ensures { IfOk result (λ e. e ≡ chained left word.now op texts.now value words.now) }
{
    if words.split_first().is_none() {
        return Ok(Some(value));
    }
    if left == 0 {
        return Ok(None);
    }
    match link(alloc, word, op, texts, &value, words)? {
        Some((both, behind)) => chained(alloc, left - 1, word, op, texts, both, &behind),
        None => Ok(None),
    }
}

// The first of them, with the others.
fn chain_by(
    alloc: Global,
    word: &[u8],
    op: BinaryOp,
    texts: &Texts,
    words: &Phrase<'_>,
) -> Result<Option<Expr>, NoMemory>
    ensures { IfOk result (λ e. e ≡ chain_by word.now op texts.now words.now) }
{
    match item_at(alloc, texts, words)? {
        Some((value, rest)) => chained(alloc, MOST_RELATIONS, word, op, texts, value, &rest),
        None => Ok(None),
    }
}

// Relations that are joined by .AND. alone, or by .OR. alone.
fn chain(alloc: Global, texts: &Texts, words: &Phrase<'_>) -> Result<Option<Expr>, NoMemory>
    ensures { IfOk result (λ e. e ≡ chain texts.now words.now) }
{
    match chain_by(alloc, b".AND.", BinaryOp::And, texts, words)? {
        Some(value) => Ok(Some(value)),
        None => chain_by(alloc, b".OR.", BinaryOp::Or, texts, words),
    }
}

// What stands between parentheses.
fn inside<'a>(words: &Phrase<'a>) -> Option<Phrase<'a>>
    ensures { result ≡ inside words.now }
{
    let rest = past(Mark::Open, words)?;
    let (front, last) = rest.ends();
    match last {
        Token::Close => Some(front),
        _ => None,
    }
}

// The same within parentheses.
fn tested(alloc: Global, texts: &Texts, words: &Phrase<'_>) -> Result<Option<Expr>, NoMemory>
    ensures { IfOk result (λ e. e ≡ tested texts.now words.now) }
{
    if let Some(value) = chain(alloc, texts, words)? {
        return Ok(Some(value));
    }
    match inside(words) {
        Some(front) => chain(alloc, texts, &front),
        None => Ok(None),
    }
}

/// The test of an IF that compares variables of texts with texts.
pub(crate) fn test_of(
    alloc: Global,
    texts: &Texts,
    words: &Phrase<'_>,
) -> Result<Option<Expr>, NoMemory>
    ensures { IfOk result (λ e. e ≡ test_of texts.now words.now) }
{
    let Some(rest) = past_word(b"IF", words) else {
        return Ok(None);
    };
    match past(Mark::Slash, &rest) {
        Some(fields) => tested(alloc, texts, &fields),
        None => Ok(None),
    }
}
