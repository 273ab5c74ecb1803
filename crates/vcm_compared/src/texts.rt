//! The variables of texts that a program declares, and the texts that it compares and assigns.

ghost use Rattle.std.specs.Prelude.{◌≡◌, ◌++◌, ◌∷◌, [], IfOk, OnOk, option_map};
ghost use Rattle.std.specs.List.{list_any, list_all, filter, flat_map};
ghost use Rattle.std.specs.Option.{option_copied};
ghost use Rattle.std.specs.Str.{bytes_eq};
ghost use Rattle.vcm_heads.specs.Rows.{row_in, words_of};
ghost use Rattle.vcm_compared.specs.Texts.{behind_local, char_at, is_digit, with_digit, with_digits, letters_of, held_by, held_from, held_behind, held_in, declared, is_named, is_once, is_own, candidates, held_named, with_names, with_parameters, with_all_parameters, is_alike, is_parameter, place_of, is_among, with_text, with_words, has_literals, with_line, with_lines, with_given, literals, is_blank, is_near, is_twin, have_twins, unless_near, texts_in};

use std::alloc::Global;
use vcm_heads::{Mark, Row, major_at, past, past_word, row_of_statement, run_at};
use vcm_items::{VariableName, is_variable_name};
use vcm_lines::{Cutter, Logical, OwnedBytes, Phrase, Token, upper};
use vcm_num::{Items, NoMemory, is};

/// The most variables of one declaration that are read.
pub const MOST_FIELDS: u8 = 200;
/// A variable whose texts have more letters has as many as one likes.
pub const MOST_LETTERS: u32 = 100_000;
/// The most literals that have a number.
pub const MOST_TEXTS: u32 = 100_000;

/// A variable of texts, and how many letters they have at most.
#[derive(Drop)]
pub struct Held {
    pub name: VariableName,
    pub most: u32,
}

/// The variables of texts that are counted, the literals, and the names of parameters.
#[derive(Drop)]
pub struct Texts {
    pub held: Items<Held>,
    pub literals: Items<OwnedBytes>,
    pub parameters: Items<OwnedBytes>,
}

impl Held {
    /// The same variable.
    pub(crate) fn copy(&self) -> Held
        ensures { result ≡ self.now }
    {
        Held {
            name: self.name.copy(),
            most: self.most,
        }
    }
}

// The fields of a declaration behind the word LOCAL, if it has that.
fn behind_local<'a>(fields: &Phrase<'a>) -> Phrase<'a>
    ensures { result ≡ behind_local fields.now }
{
    let Some(rest) = past_word(b"LOCAL", fields) else {
        return fields.copy();
    };
    match past(Mark::Comma, &rest) {
        Some(behind) => behind,
        None => fields.copy(),
    }
}

/// The fields behind CHAR of a declaration of texts that other programs don't share.
pub fn char_at<'a>(words: &Phrase<'a>) -> Option<Phrase<'a>>
    ensures { result ≡ char_at words.now }
{
    let rest = past_word(b"DECL", words)?;
    let fields = past(Mark::Slash, &rest)?;
    let kind = past_word(b"CHAR", &behind_local(&fields))?;
    past(Mark::Comma, &kind)
}

// Whether a byte is a digit.
fn is_digit(byte: u8) -> bool
    ensures { result ≡ is_digit byte }
{
    48 <= byte && byte <= 57
}

// Whether all are.
fn are_digits(bytes: &[u8]) -> bool
    ensures { result ≡ list_all is_digit bytes.now }
{
    bytes.iter().all(|byte| is_digit(*byte))
}

// A number with one digit more.
fn with_digit(number: u32, byte: u8) -> u32
    ensures { result ≡ with_digit number byte }
{
    if number < MOST_LETTERS {
        number * 10 + u32::from(byte.saturating_sub(48))
    } else {
        number
    }
}

// How many letters a text of a variable has at most.
fn letters_of(bytes: &[u8]) -> u32
    ensures { result ≡ letters_of bytes.now }
{
    if !are_digits(bytes) {
        return 0;
    }
    let mut number = 0;
    for byte in bytes {
        number = with_digit(number, *byte);
    }
    number
}

// The variable that a field declares.
fn add_held(out: &mut Items<Held>, most: u32, field: &Phrase<'_>) -> Result<(), NoMemory>
    ensures { OnOk result (out.new ≡ out.old ++ held_by most field.now) }
{
    let Some((Token::Run(word), rest)) = field.split_first() else {
        return Ok(());
    };
    if rest.split_first().is_some() {
        return Ok(());
    }
    if is_variable_name(word) {
        let name = VariableName::new(word);
        out.push(Held { name, most })?;
    }
    Ok(())
}

// The variables that fields declare.
#[tactic(auto, unfolding(crate::specs::Texts::held_from))]
fn add_fields(
    out: &mut Items<Held>,
    left: u8,
    most: u32,
    fields: Option<Phrase<'_>>,
) -> Result<(), NoMemory>
    ensures { OnOk result (out.new ≡ out.old ++ held_from left most fields.entry) }
{
    let Some(words) = fields else {
        return Ok(());
    };
    if left == 0 {
        return Ok(());
    }
    let (field, rest) = words.cut_at(Cutter::AtComma);
    add_held(out, most, &field)?;
    add_fields(out, left - 1, most, rest)
}

/// The variables of texts that a statement declares.
pub(crate) fn add_declared(out: &mut Items<Held>, logical: &Logical) -> Result<(), NoMemory>
    ensures { OnOk result (out.new ≡ out.old ++ held_in (words_of logical.now)) }
{
    let Some(fields) = char_at(&Phrase::of(logical)) else {
        return Ok(());
    };
    match run_at(&fields) {
        Some((word, rest)) => {
            add_fields(out, MOST_FIELDS, letters_of(word), past(Mark::Comma, &rest))
        }
        None => Ok(()),
    }
}

// Those that a text declares.
fn declared(alloc: Global, lines: &[Logical]) -> Result<Items<Held>, NoMemory>
    ensures { IfOk result (λ hs. hs ≡ declared lines.now) }
{
    let mut out = Items::new(alloc);
    for logical in lines {
        add_declared(&mut out, logical)?;
    }
    Ok(out)
}

// Whether a variable has this name.
fn is_named(name: &[u8], held: &Held) -> bool
    ensures { result ≡ is_named name.now held.now }
{
    is(held.name.name().as_bytes(), name)
}

// Whether a variable is declared once in the whole text, in its macros too.
fn is_once(all: &[Held], held: &Held) -> bool
    ensures { result ≡ is_once all.now held.now }
{
    let name = held.name.name().as_bytes();
    all.iter().filter(|other| is_named(name, other)).count() == 1
}

// Whether a statement begins or ends those of the machine's own.
fn is_own(logical: &Logical) -> bool
    ensures { result ≡ is_own logical.now }
{
    let (major, _) = major_at(&Phrase::of(logical));
    is(major, b"DMIS")
}

// Whether a text has such a statement.
fn has_own(lines: &[Logical]) -> bool
    ensures { result ≡ list_any is_own lines.now }
{
    lines.iter().any(|logical| is_own(logical))
}

// Those that are declared once.
fn once_of(alloc: Global, all: &[Held]) -> Result<Items<Held>, NoMemory>
    ensures { IfOk result (λ hs. hs ≡ filter (is_once all.now) all.now) }
{
    let mut out = Items::new(alloc);
    for held in all {
        if is_once(all, held) {
            out.push(held.copy())?;
        }
    }
    Ok(out)
}

// The variables that may be counted.
fn candidates(alloc: Global, lines: &[Logical]) -> Result<Items<Held>, NoMemory>
    ensures { IfOk result (λ hs. hs ≡ candidates lines.now) }
{
    if has_own(lines) {
        return Ok(Items::new(alloc));
    }
    let all = declared(alloc, lines)?;
    once_of(alloc, all.as_slice())
}

/// The variable with this name.
pub fn held_named<'a>(name: &[u8], all: &'a [Held]) -> Option<&'a Held>
    ensures { option_copied result ≡ held_named name.now all.now }
{
    for held in all {
        if is_named(name, held) {
            return Some(held);
        }
    }
    None
}

// One text more.
fn add_text(alloc: Global, out: &mut Items<OwnedBytes>, text: &[u8]) -> Result<(), NoMemory>
    ensures { OnOk result (out.new ≡ out.old ++ text.now ∷ []) }
{
    out.push(OwnedBytes::copied(alloc, text)?)?;
    Ok(())
}

// The words and texts among words.
fn add_names(alloc: Global, out: &mut Items<OwnedBytes>, words: &Phrase<'_>) -> Result<(), NoMemory>
    ensures { OnOk result (out.new ≡ with_names out.old words.now) }
{
    match words.split_first() {
        None => Ok(()),
        Some((Token::Run(word), rest)) => {
            add_text(alloc, out, word)?;
            add_names(alloc, out, &rest)
        }
        Some((Token::Quoted(word), rest)) => {
            add_text(alloc, out, word)?;
            add_names(alloc, out, &rest)
        }
        Some((_, rest)) => add_names(alloc, out, &rest),
    }
}

// The parameters of a macro.
fn add_parameters(
    alloc: Global,
    out: &mut Items<OwnedBytes>,
    logical: &Logical,
) -> Result<(), NoMemory>
    ensures { OnOk result (out.new ≡ with_parameters out.old logical.now) }
{
    let (major, behind) = major_at(&Phrase::of(logical));
    if is(major, b"MACRO") {
        add_names(alloc, out, &behind)
    } else {
        Ok(())
    }
}

// Those of all macros.
fn all_parameters(alloc: Global, lines: &[Logical]) -> Result<Items<OwnedBytes>, NoMemory>
    ensures { IfOk result (λ ns. ns ≡ with_all_parameters [] lines.now) }
{
    let mut out = Items::new(alloc);
    for logical in lines {
        add_parameters(alloc, &mut out, logical)?;
    }
    Ok(out)
}

/// Whether two texts are one but for capitals.
pub(crate) fn is_alike(a: &[u8], b: &[u8]) -> bool
    ensures { result ≡ is_alike a.now b.now }
{
    let Some((first, others)) = a.split_first() else {
        return b.is_empty();
    };
    match b.split_first() {
        Some((other, rest)) => upper(*first) == upper(*other) && is_alike(others, rest),
        None => false,
    }
}

// Whether a text is this one but for capitals.
fn is_alike_one(text: &[u8], name: &OwnedBytes) -> bool
    ensures { result ≡ is_alike text.now name.now }
{
    is_alike(text, name.as_bytes())
}

/// Whether a text is the name of a parameter.
pub(crate) fn is_parameter(names: &[OwnedBytes], text: &[u8]) -> bool
    ensures { result ≡ is_parameter names.now text.now }
{
    names.iter().any(|name| is_alike_one(text, name))
}

/// The place of a text among others, from 1 on; places that are too large aren't counted.
pub(crate) fn place_of(all: &[OwnedBytes], text: &[u8]) -> Option<u32>
    ensures { result ≡ place_of 1 all.now text.now }
{
    let mut place = 1;
    for other in all {
        if is(other.as_bytes(), text) {
            return Some(place);
        }
        if place >= MOST_TEXTS {
            return None;
        }
        place += 1;
    }
    None
}

// Whether a text is this one.
fn is_this(other: &OwnedBytes, text: &[u8]) -> bool
    ensures { result ≡ bytes_eq other.now text.now }
{
    is(other.as_bytes(), text)
}

// Whether a text is one of these.
fn is_among(all: &[OwnedBytes], text: &[u8]) -> bool
    ensures { result ≡ is_among all.now text.now }
{
    all.iter().any(|other| is_this(other, text))
}

// One text more, if it isn't there.
fn add_new(alloc: Global, out: &mut Items<OwnedBytes>, text: &[u8]) -> Result<(), NoMemory>
    ensures { OnOk result (out.new ≡ with_text out.old text.now) }
{
    if is_among(out.as_slice(), text) {
        Ok(())
    } else {
        add_text(alloc, out, text)
    }
}

// The texts among words.
fn add_words(alloc: Global, out: &mut Items<OwnedBytes>, words: &Phrase<'_>) -> Result<(), NoMemory>
    ensures { OnOk result (out.new ≡ with_words out.old words.now) }
{
    match words.split_first() {
        None => Ok(()),
        Some((Token::Quoted(word), rest)) => {
            add_new(alloc, out, word)?;
            add_words(alloc, out, &rest)
        }
        Some((_, rest)) => add_words(alloc, out, &rest),
    }
}

// Whether a statement may assign or compare texts.
fn has_literals(logical: &Logical) -> bool
    ensures { result ≡ has_literals (row_in (words_of logical.now)) }
{
    matches!(
        row_of_statement(logical),
        Row::Value | Row::Test | Row::Case
    )
}

// The texts of a statement.
fn add_line(alloc: Global, out: &mut Items<OwnedBytes>, logical: &Logical) -> Result<(), NoMemory>
    ensures { OnOk result (out.new ≡ with_line out.old logical.now) }
{
    if has_literals(logical) {
        add_words(alloc, out, &Phrase::of(logical))
    } else {
        Ok(())
    }
}

// The texts of statements.
fn add_lines(alloc: Global, lines: &[Logical]) -> Result<Items<OwnedBytes>, NoMemory>
    ensures { IfOk result (λ xs. xs ≡ with_lines [] lines.now) }
{
    let mut out = Items::new(alloc);
    for logical in lines {
        add_line(alloc, &mut out, logical)?;
    }
    Ok(out)
}

// The literals of a text.
fn literals(
    alloc: Global,
    given: &[OwnedBytes],
    lines: &[Logical],
) -> Result<Items<OwnedBytes>, NoMemory>
    ensures { IfOk result (λ xs. xs ≡ literals given.now lines.now) }
{
    let mut out = add_lines(alloc, lines)?;
    for text in given {
        add_new(alloc, &mut out, text.as_bytes())?;
    }
    Ok(out)
}

// Whether a text has blanks alone.
fn is_blank(text: &[u8]) -> bool
    ensures { result ≡ is_blank text.now }
{
    text.iter().all(|byte| 32 == *byte)
}

// Whether two texts are one but for capitals and blanks at their ends.
fn is_near(a: &[u8], b: &[u8]) -> bool
    ensures { result ≡ is_near a.now b.now }
{
    let Some((first, others)) = a.split_first() else {
        return is_blank(b);
    };
    match b.split_first() {
        Some((other, rest)) => upper(*first) == upper(*other) && is_near(others, rest),
        None => is_blank(a),
    }
}

// Whether they are so, and differ.
fn is_twin(text: &[u8], other: &OwnedBytes) -> bool
    ensures { result ≡ is_twin text.now other.now }
{
    is_near(text, other.as_bytes()) && !is(text, other.as_bytes())
}

// Whether one of these is a text's twin.
fn has_twin(all: &[OwnedBytes], text: &OwnedBytes) -> bool
    ensures { result ≡ list_any (is_twin text.now) all.now }
{
    all.iter().any(|other| is_twin(text.as_bytes(), other))
}

// Whether two of these are twins.
fn have_twins(all: &[OwnedBytes]) -> bool
    ensures { result ≡ have_twins all.now }
{
    all.iter().any(|text| has_twin(all, text))
}

// The variables that may be counted beside these texts.
fn unless_near(alloc: Global, texts: &[OwnedBytes], held: Items<Held>) -> Items<Held>
    ensures { result ≡ unless_near texts.now held }
{
    if have_twins(texts) {
        Items::new(alloc)
    } else {
        held
    }
}

/// The texts of a program, with all variables that may be counted.
pub(crate) fn texts_in(
    alloc: Global,
    given: &[OwnedBytes],
    lines: &[Logical],
) -> Result<Texts, NoMemory>
    ensures { IfOk result (λ t. t ≡ texts_in given.now lines.now) }
{
    let candidates = candidates(alloc, lines)?;
    let literals = literals(alloc, given, lines)?;
    let held = unless_near(alloc, literals.as_slice(), candidates);
    let parameters = all_parameters(alloc, lines)?;
    Ok(Texts {
        held,
        literals,
        parameters,
    })
}
