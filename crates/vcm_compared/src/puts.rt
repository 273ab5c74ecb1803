//! Statements about texts, with the number of each text in its place.

ghost use Rattle.std.specs.Prelude.{◌≡◌, ◌++◌, ◌∷◌, [], map, pos, IfOk, OnOk, option_map};
ghost use Rattle.std.specs.List.{list_all, filter};
ghost use Rattle.std.specs.Option.{option_copied};
ghost use Rattle.vcm_heads.specs.Rows.{words_of};
ghost use Rattle.vcm_heads.specs.Heads.{major_of};
ghost use Rattle.vcm_forms.specs.declared.statement.Form.TheVariants.{Case};
ghost use Rattle.vcm_compared.specs.Puts.{whole, variable_for, value_of, assignment_of, text_in, texts_onto, case_texts, is_text_case, number_in, more_values, cases_by, cases_or, part_of, is_comparable, are_comparable, deeper, closed, valued, scanned_by, scanned, scan_from, begun, is_counted_choice, alone_in, chosen_variable, choice_lost, choice_by, choice_of, is_held, names_of, declared_as, declaration_of};
ghost use Rattle.vcm_compared.specs.Texts.{held_in};
ghost use Rattle.vcm_compared.specs.Counted.{is_choice_of};

use crate::relations::number_for;
use crate::texts::{Held, Texts, add_declared, held_named, place_of};
use std::alloc::Global;
use vcm_events::{Event, numbered, unknown};
use vcm_expr::{Expr, Term};
use vcm_forms::Form;
use vcm_heads::{Mark, assigned_at, major_at, past, past_word, run_at};
use vcm_items::VariableName;
use vcm_lines::{Cutter, Logical, OwnedBytes, Phrase, Token};
use vcm_num::{Items, Kind, Literal, NoMemory, is};

/// The most texts of a CASE.
pub const MOST_VALUES: u8 = 16;
/// Deeper SELECTs aren't counted: a text that has them is refused.
pub const DEEPEST: u32 = 1_000;

/// What a statement is of a SELECT.
#[derive(Clone, Copy)]
pub enum Part {
    /// It is another SELECT.
    Opens,
    /// It is an ENDSEL.
    Closes,
    /// It is a CASE.
    Values,
    /// It is none of these.
    Rest,
}

/// What was found of a SELECT up to a statement behind it: how many others are open in it, whether it is open itself, whether each CASE of it is one of texts that its
/// variable may be compared with, and whether one of them has a text.
#[derive(Clone, Copy)]
pub struct Scan {
    pub depth: u32,
    pub is_open: bool,
    pub is_followed: bool,
    pub has_texts: bool,
}

// A number, as an expression.
fn whole(number: u32) -> Expr
    ensures { result ≡ whole number }
{
    Expr::leaf(Term::Number(Literal::Int(i64::from(number))))
}

// A variable whose texts are no longer than this.
fn variable_for(most: u32, held: &Held) -> Option<Expr>
    ensures { result ≡ variable_for most held.now }
{
    if held.most <= most {
        Some(Expr::leaf(Term::Variable(held.name.name().copy(), 0)))
    } else {
        None
    }
}

// What is assigned to a variable whose texts have so many letters: a text, or a variable.
fn value_of(texts: &Texts, most: u32, words: &Phrase<'_>) -> Option<Expr>
    ensures { result ≡ value_of texts.now most words.now }
{
    let (first, rest) = words.split_first()?;
    if rest.split_first().is_some() {
        return None;
    }
    match first {
        Token::Quoted(text) => {
            let number = number_for(texts, most, text)?;
            Some(whole(number))
        }
        Token::Run(name) => {
            let held = held_named(name, texts.held.as_slice())?;
            variable_for(most, held)
        }
        _ => None,
    }
}

/// The value of an assignment to a variable of texts.
pub(crate) fn assignment_of(texts: &Texts, words: &Phrase<'_>) -> Option<Expr>
    ensures { result ≡ assignment_of texts.now words.now }
{
    let (name, behind) = assigned_at(words)?;
    let held = held_named(name, texts.held.as_slice())?;
    let rest = past_word(b"ASSIGN", &behind)?;
    let fields = past(Mark::Slash, &rest)?;
    value_of(texts, held.most, &fields)
}

// The text that a field is.
fn text_in<'a>(field: &Phrase<'a>) -> Option<&'a [u8]>
    ensures { option_map (λ x. x.now) result ≡ text_in field.now }
{
    let (first, rest) = field.split_first()?;
    if rest.split_first().is_some() {
        return None;
    }
    match first {
        Token::Quoted(text) => Some(text),
        _ => None,
    }
}

// Texts with those of fields behind them.
#[tactic(auto, unfolding(crate::specs::Puts::texts_onto))]
fn texts_onto(
    alloc: Global,
    left: u8,
    found: Items<OwnedBytes>,
    fields: Option<Phrase<'_>>,
) -> Result<Option<Items<OwnedBytes>>, NoMemory>
    ensures { IfOk result (λ r. r ≡ texts_onto left found fields.entry) }
{
    let Some(words) = fields else {
        return Ok(Some(found));
    };
    if left == 0 {
        return Ok(None);
    }
    let (field, rest) = words.cut_at(Cutter::AtComma);
    let Some(text) = text_in(&field) else {
        return Ok(None);
    };
    let mut more = found;
    more.push(OwnedBytes::copied(alloc, text)?)?;
    texts_onto(alloc, left - 1, more, rest)
}

// The texts of a CASE of texts alone.
fn case_texts(alloc: Global, words: &Phrase<'_>) -> Result<Option<Items<OwnedBytes>>, NoMemory>
    ensures { IfOk result (λ r. r ≡ case_texts words.now) }
{
    let Some(rest) = past_word(b"CASE", words) else {
        return Ok(None);
    };
    match past(Mark::Slash, &rest) {
        Some(fields) => texts_onto(alloc, MOST_VALUES, Items::new(alloc), Some(fields)),
        None => Ok(None),
    }
}

/// Whether a CASE has a text.
///
/// # Errors
///
/// Out of memory.
pub fn is_text_case(alloc: Global, words: &Phrase<'_>) -> Result<bool, NoMemory>
    ensures { IfOk result (λ b. b ≡ is_text_case words.now) }
{
    let found = case_texts(alloc, words)?;
    Ok(found.is_some())
}

// The place of a text, 0 where it has none.
fn number_in(texts: &Texts, text: &OwnedBytes) -> i64
    ensures { result ≡ number_in texts.now text.now }
{
    match place_of(texts.literals.as_slice(), text.as_bytes()) {
        Some(place) => i64::from(place),
        None => 0,
    }
}

// The values of a CASE behind the first.
fn add_values(out: &mut Vec<Form>, texts: &Texts, others: &[OwnedBytes]) -> Result<(), NoMemory>
    ensures { OnOk result (out.new.items ≡ out.old.items ++ more_values texts.now others.now) }
{
    for text in others {
        out.push(numbered(Event::CaseValue, number_in(texts, text)))?;
    }
    Ok(())
}

// A CASE of texts.
fn add_cases(out: &mut Vec<Form>, texts: &Texts, found: &[OwnedBytes]) -> Result<(), NoMemory>
    ensures { OnOk result (out.new.items ≡ out.old.items ++ cases_by texts.now found.now) }
{
    let Some((first, others)) = found.split_first() else {
        return Ok(());
    };
    out.push(Form::Case(number_in(texts, first)))?;
    add_values(out, texts, others)
}

/// A CASE of texts, or else one of this value.
pub(crate) fn cases_or(
    alloc: Global,
    texts: &Texts,
    value: i64,
    words: &Phrase<'_>,
) -> Result<Vec<Form>, NoMemory>
    ensures { IfOk result (λ fs. fs.items ≡ cases_or texts.now value (case_texts words.now)) }
{
    let mut out = Vec::new(alloc);
    match case_texts(alloc, words)? {
        Some(found) => add_cases(&mut out, texts, found.as_slice())?,
        None => out.push(Form::Case(value))?,
    }
    Ok(out)
}

// What a statement is of a SELECT.
fn part_of(major: &[u8]) -> Part
    ensures { result ≡ part_of major.now }
{
    if is(major, b"SELECT") {
        Part::Opens
    } else if is(major, b"ENDSEL") {
        Part::Closes
    } else if is(major, b"CASE") {
        Part::Values
    } else {
        Part::Rest
    }
}

// Whether a variable whose texts have so many letters may be compared with a text.
fn is_comparable(texts: &Texts, most: u32, text: &OwnedBytes) -> bool
    ensures { result ≡ is_comparable texts.now most text.now }
{
    number_for(texts, most, text.as_bytes()).is_some()
}

// Whether it may be compared with these.
fn are_comparable(texts: &Texts, most: u32, found: &Option<Items<OwnedBytes>>) -> bool
    ensures { result ≡ are_comparable texts.now most found.now }
{
    match found {
        None => false,
        Some(all) => all_comparable(texts, most, all.as_slice()),
    }
}

// The same of texts that there are.
fn all_comparable(texts: &Texts, most: u32, all: &[OwnedBytes]) -> bool
    ensures { result ≡ list_all (is_comparable texts.now most) all.now }
{
    all.iter().all(|text| is_comparable(texts, most, text))
}

// One SELECT more is open.
fn deeper(depth: u32) -> u32
    ensures { result ≡ deeper depth }
{
    if depth < DEEPEST { depth + 1 } else { depth }
}

// Behind an ENDSEL.
fn closed(scan: Scan) -> Scan
    ensures { result ≡ closed scan }
{
    if scan.depth == 0 {
        Scan {
            is_open: false,
            ..scan
        }
    } else {
        Scan {
            depth: scan.depth - 1,
            ..scan
        }
    }
}

// Behind a CASE.
fn valued(
    alloc: Global,
    texts: &Texts,
    most: u32,
    scan: Scan,
    words: &Phrase<'_>,
) -> Result<Scan, NoMemory>
    ensures { IfOk result (λ s. s ≡ valued texts.now most scan words.now) }
{
    if scan.depth != 0 {
        return Ok(scan);
    }
    let found = case_texts(alloc, words)?;
    Ok(Scan {
        depth: scan.depth,
        is_open: scan.is_open,
        is_followed: scan.is_followed && are_comparable(texts, most, &found),
        has_texts: scan.has_texts || found.is_some(),
    })
}

// Behind a statement.
fn scanned(
    alloc: Global,
    texts: &Texts,
    most: u32,
    scan: Scan,
    logical: &Logical,
) -> Result<Scan, NoMemory>
    ensures { IfOk result (λ s. s ≡ scanned texts.now most scan logical.now) }
{
    if !scan.is_open {
        return Ok(scan);
    }
    let words = Phrase::of(logical);
    let (major, _) = major_at(&words);
    match part_of(major) {
        Part::Opens => Ok(Scan {
            depth: deeper(scan.depth),
            ..scan
        }),
        Part::Closes => Ok(closed(scan)),
        Part::Values => valued(alloc, texts, most, scan, &words),
        Part::Rest => Ok(scan),
    }
}

// What is found of a SELECT with these statements behind it.
fn scan_behind(alloc: Global, texts: &Texts, most: u32, below: &[Logical]) -> Result<Scan, NoMemory>
    ensures { IfOk result (λ s. s ≡ scan_from texts.now most begun below.now) }
{
    let mut scan = Scan {
        depth: 0,
        is_open: true,
        is_followed: true,
        has_texts: false,
    };
    for logical in below {
        scan = scanned(alloc, texts, most, scan, logical)?;
    }
    Ok(scan)
}

// Whether a SELECT ends, and each CASE of it is one of texts that the variable may be compared with.
fn is_counted_choice(scan: Scan) -> bool
    ensures { result ≡ is_counted_choice scan }
{
    scan.is_followed && !scan.is_open
}

// The variable of a SELECT.
fn chosen_variable<'a>(texts: &'a Texts, words: &Phrase<'_>) -> Option<&'a Held>
    ensures { option_copied result ≡ chosen_variable texts.now words.now }
{
    let rest = past_word(b"SELECT", words)?;
    let fields = past(Mark::Slash, &rest)?;
    let (name, behind) = run_at(&fields)?;
    match behind.split_first() {
        None => held_named(name, texts.held.as_slice()),
        Some(_) => None,
    }
}

/// Whether a SELECT of a variable of texts is followed, with these statements behind it.
pub(crate) fn is_choice_of(
    alloc: Global,
    texts: &Texts,
    words: &Phrase<'_>,
    below: &[Logical],
) -> Result<bool, NoMemory>
    ensures { IfOk result (λ b. b ≡ is_choice_of texts.now below.now (chosen_variable texts.now words.now)) }
{
    match chosen_variable(texts, words) {
        Some(held) => {
            let scan = scan_behind(alloc, texts, held.most, below)?;
            Ok(is_counted_choice(scan))
        }
        None => Ok(false),
    }
}

// The value of a SELECT of something else.
fn choice_lost(scan: Scan) -> Option<Expr>
    ensures { result ≡ choice_lost scan }
{
    if scan.has_texts {
        Some(unknown())
    } else {
        None
    }
}

/// The value of a SELECT, with the statements behind it: the variable where each CASE is followed, and what isn't known where one has a text.
pub(crate) fn choice_of(
    alloc: Global,
    texts: &Texts,
    words: &Phrase<'_>,
    below: &[Logical],
) -> Result<Option<Expr>, NoMemory>
    ensures { IfOk result (λ e. e ≡ choice_of texts.now words.now below.now) }
{
    match chosen_variable(texts, words) {
        Some(held) => {
            let scan = scan_behind(alloc, texts, held.most, below)?;
            if is_counted_choice(scan) {
                Ok(Some(Expr::leaf(Term::Variable(held.name.name().copy(), 0))))
            } else {
                Ok(choice_lost(scan))
            }
        }
        None => Ok(choice_lost(scan_behind(alloc, texts, 0, below)?)),
    }
}

// Whether a variable is counted.
fn is_held(texts: &Texts, held: &Held) -> bool
    ensures { result ≡ is_held texts.now held.now }
{
    held_named(held.name.name().as_bytes(), texts.held.as_slice()).is_some()
}

// The names of those variables that are counted.
fn held_names(alloc: Global, texts: &Texts, all: &[Held]) -> Result<Items<VariableName>, NoMemory>
    ensures { IfOk result (λ ns. ns ≡ names_of (filter (is_held texts.now) all.now)) }
{
    let mut out = Items::new(alloc);
    for held in all {
        if is_held(texts, held) {
            out.push(held.name.copy())?;
        }
    }
    Ok(out)
}

/// The declaration of those variables of a statement that are counted.
pub(crate) fn declaration_of(
    alloc: Global,
    texts: &Texts,
    logical: &Logical,
) -> Result<Vec<Form>, NoMemory>
    ensures { IfOk result (λ fs. fs.items ≡ declaration_of texts.now (words_of logical.now)) }
{
    let mut all = Items::new(alloc);
    add_declared(&mut all, logical)?;
    let names = held_names(alloc, texts, all.as_slice())?;
    let mut out = Vec::new(alloc);
    if !names.is_empty() {
        out.push(Form::Declaration(Kind::Int, names))?;
    }
    Ok(out)
}
