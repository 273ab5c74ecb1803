//! The words of an expression.

ghost use Rattle.std.specs.Prelude.{◌≡◌, ◌∷◌, [], true, MatchOption, IfSome, IfNone, Ok};
ghost use Rattle.vcm_num.specs.Literals.{Reads};
ghost use Rattle.vcm_lines.specs.Lexemes.{lexeme};
ghost use Rattle.vcm_expr.specs.Symbols.{number_term, run_term, dotted_symbol, symbol_of};
ghost use Rattle.vcm_expr.specs.Digits.{read_of};

use crate::expression::Term;
use std::marker::Model;
use vcm_items::{Name, is_variable_name};
use vcm_lines::{DottedWord, FaultCode, Phrase, Token, dotted_word};
use vcm_num::{Literal, NumFault, read_number};
use vcm_spec::Relation;

/// A word of an expression.
#[derive(Drop)]
pub enum Symbol {
    /// A number, a truth value or a name; or digits that are no number, and why.
    Operand(Result<Term, FaultCode>),
    /// `-`, before an expression or between two.
    Dash,
    /// `+`, before an expression or between two.
    Cross,
    /// `*`
    Star,
    /// `/`
    Slash,
    /// `.NOT.`
    NotWord,
    /// `.AND.`
    AndWord,
    /// `.OR.`
    OrWord,
    /// `.EQ.` and its like.
    RelationWord(Relation),
    /// `(`
    Opening,
    /// `)`
    Closing,
    /// A word that stands in no expression.
    Other,
}

/// What digits mean, or the code of what is wrong with them.
fn number_term(read: Result<Literal, NumFault>) -> Result<Term, FaultCode>
    ensures { result ≡ number_term read }
{
    match read {
        Ok(literal) => Ok(Term::Number(literal)),
        Err(NumFault::BadNumber) => Err(FaultCode::BadSyntax),
        Err(NumFault::TooFine) => Err(FaultCode::TooFine),
        Err(NumFault::TooLarge) => Err(FaultCode::NumberTooLarge),
    }
}

/// What a number means.
#[tactic(auto, using(crate::proofs::NumberReading::read_is))]
fn digits_term(bytes: &[u8]) -> Result<Term, FaultCode>
    ensures { result ≡ number_term (read_of bytes.now) }
{
    number_term(read_number(bytes))
}

/// What a run means: a name or a number.
fn run_term(bytes: &[u8]) -> Result<Term, FaultCode>
    ensures { result ≡ run_term bytes.now }
{
    if is_variable_name(bytes) {
        Ok(Term::Variable(Name::new(bytes), 0))
    } else {
        digits_term(bytes)
    }
}

/// What a dotted word is in an expression.
fn dotted_symbol(word: Option<DottedWord>) -> Symbol
    ensures { result ≡ dotted_symbol word }
{
    match word {
        Some(DottedWord::Compare(relation)) => Symbol::RelationWord(relation),
        Some(DottedWord::Not) => Symbol::NotWord,
        Some(DottedWord::And) => Symbol::AndWord,
        Some(DottedWord::Or) => Symbol::OrWord,
        Some(DottedWord::Truth(truth)) => Symbol::Operand(Ok(Term::Truth(truth))),
        None => Symbol::Other,
    }
}

/// What a word of a statement is in an expression.
#[inline(always)]
fn symbol_of(token: Token<'_>) -> Symbol
    ensures { result ≡ symbol_of (lexeme token.entry) }
{
    match token {
        Token::Run(bytes) => Symbol::Operand(run_term(bytes)),
        Token::Number(bytes) => Symbol::Operand(digits_term(bytes)),
        Token::Dotted(bytes) => dotted_symbol(dotted_word(bytes)),
        Token::Minus => Symbol::Dash,
        Token::Plus => Symbol::Cross,
        Token::Star => Symbol::Star,
        Token::Slash => Symbol::Slash,
        Token::Open => Symbol::Opening,
        Token::Close => Symbol::Closing,
        Token::Quoted(_) | Token::Comma | Token::Equals | Token::Other => Symbol::Other,
    }
}

/// Words that are read as an expression, of which the first is looked at once. Contracts see them as a list of `Symbol`s.
#[derive(Drop)]
pub(crate) struct Symbols<'a> {
    first: Option<Token<'a>>,
    behind: Phrase<'a>,
}

impl<'a> Model for Symbols<'a> {
    ghost use Rattle.std.specs.Prelude.{List};
    ghost use Rattle.vcm_expr.specs.Symbols.{symbols_of};
    ghost use Rattle.vcm_expr.specs.inner.Marks.{words_from};
    ghost use Rattle.vcm_expr.specs.declared.symbol.Symbol.{Symbol};

    ghost Value = { List Symbol };

    ghost view = { λ p. symbols_of (words_from p.first p.behind) };
}

impl<'a> Symbols<'a> {
    ghost use Rattle.std.specs.Prelude.{List, false};
    ghost use Rattle.vcm_expr.specs.Symbols.{symbols_of};
    ghost use Rattle.vcm_expr.specs.inner.Marks.{NoMark};
    ghost use Rattle.vcm_expr.specs.declared.symbol.Symbol.{Symbol};

    /// The words, as symbols of an expression.
    #[inline(always)]
    pub(crate) fn new(words: Phrase<'a>) -> Symbols<'a>
        ensures { result ≡ symbols_of words.entry }
    {
        match words.split_first() {
            None => Symbols {
                first: None,
                behind: words,
            },
            Some((token, behind)) => Symbols {
                first: Some(token),
                behind,
            },
        }
    }

    /// The first word where it is a mark or a dotted word. A name or a number is not looked into.
    #[inline(always)]
    pub(crate) fn mark(&self) -> Option<Symbol>
        ensures some { IfSome result (λ k. (r : List Symbol) × (self.now ≡ k ∷ r)) }
        ensures none { IfNone result (NoMark self.now) }
    {
        match self.first {
            None | Some(Token::Run(_) | Token::Number(_)) => None,
            Some(token) => Some(symbol_of(token)),
        }
    }

    /// Passes the first word, where there is one.
    #[inline(always)]
    pub(crate) fn pass(&mut self)
        ensures { (k : Symbol) (r : List Symbol) → self.old ≡ k ∷ r → self.new ≡ r }
    {
        *self = Symbols::new(self.behind.copy());
    }

    /// How many parts an expression of these words has, if they spell one.
    pub(crate) fn parts(&self) -> usize {
        let first = match self.first {
            None | Some(Token::Open) => 0,
            Some(_) => 1,
        };
        self.behind
            .count_without_parentheses()
            .saturating_add(first)
    }

    /// Whether there is no word.
    pub(crate) fn is_empty(&self) -> bool
        ensures none { result ≡ true → self.now ≡ [] }
        ensures some { result ≡ false → (k : Symbol) × (r : List Symbol) × (self.now ≡ k ∷ r) }
    {
        self.first.is_none()
    }

    /// What the only word means, where it is an operand.
    pub(crate) fn lone(&self) -> Option<Result<Term, FaultCode>>
        ensures { IfSome result (λ term. self.now ≡ Symbol.Operand term ∷ []) }
    {
        if !Symbols::new(self.behind.copy()).is_empty() {
            return None;
        }
        match symbol_of(self.first?) {
            Symbol::Operand(term) => Some(term),
            _ => None,
        }
    }

    /// The first word, which is passed.
    #[inline(always)]
    pub(crate) fn take_first(&mut self) -> Option<Symbol>
        ensures { MatchOption result (self.old ≡ []) (λ first. self.old ≡ first ∷ self.new) }
    {
        match self.first {
            None => None,
            Some(token) => {
                self.pass();
                Some(symbol_of(token))
            }
        }
    }
}
