//! What is said of single statements: by a command line that they are harmless, or that a table is back; and which sensor is selected again.

ghost use Rattle.std.specs.Prelude.{◌≡◌, ◌++◌, IfOk, OnOk, option_map};
ghost use Rattle.std.specs.List.{list_any, list_all};
ghost use Rattle.vcm_heads.specs.declared.heads.Mark.TheVariants as marks;
ghost use Rattle.vcm_heads.specs.Heads.{past, behind_of};
ghost use Rattle.vcm_heads.specs.Rows.{row_in, words_of};
ghost use Rattle.vcm_given.specs.Spoken.{is_word, goes_by_row, goes_by, is_harmless, is_passive, is_carriage, chooses_first, carriage_in, is_named, chooses_no_other, is_lone, chooses_lone, table_in, is_table, angle_in, turns_alone, is_absolute, is_angle, comes_to, turns_back, lone, lone_in, selected, is_sensor, first_line, first_of, same_as, no_probes, number_of, has_parameter, is_parameter, probe_said, probe_saying, selection_saying, saying_of, spoken_on, spoken_by, spoken, saying_at};

use crate::choices::GivenProbe;
use crate::fields::last_of;
use std::alloc::Global;
use vcm_heads::{Mark, Row, major_at, past, row_in, row_of_statement, title_at};
use vcm_items::Name;
use vcm_lines::{Logical, Phrase, Token};
use vcm_num::{Items, NoMemory, is};

/// What is said of a statement.
#[derive(Clone, Copy)]
pub enum Saying {
    /// It moves nothing and sets nothing.
    Harmless,
    /// The table stands again where it stood at the start.
    Back,
    /// It selects the sensor that was first selected on this line.
    Same(u32),
    /// It selects the probe of a file with this number, or, by 0, one that the file hasn't.
    Probe(u32),
    /// It selects a sensor by a name that may be a parameter's.
    Unclear,
}

/// What is said of the statement on a line.
#[derive(Clone, Copy)]
pub struct Spoken {
    pub line: u32,
    pub saying: Saying,
}

// Whether one of the words is this name.
fn has_word(name: &[u8], words: &Phrase<'_>) -> bool
    ensures { result ≡ list_any (is_word name.now) words.now }
{
    match words.split_first() {
        None => false,
        Some((Token::Run(word), rest)) => is(name, word) || has_word(name, &rest),
        Some((Token::Quoted(word), rest)) => is(name, word) || has_word(name, &rest),
        Some((_, rest)) => has_word(name, &rest),
    }
}

// Whether a statement with this row and this major word goes by a word that is none of the standard, or is a CALL that names it.
fn goes_by_row(row: Row, major: &[u8], behind: &Phrase<'_>, name: &[u8]) -> bool
    ensures { result ≡ goes_by_row row major.now behind.now name.now }
{
    match row {
        Row::Other => is(name, major),
        Row::Call => has_word(name, behind),
        _ => false,
    }
}

/// Whether a statement does.
pub(crate) fn goes_by(logical: &Logical, name: &Name) -> bool
    ensures { result ≡ goes_by (row_in (words_of logical.now)) (words_of logical.now) name.now }
{
    let words = Phrase::of(logical);
    let (major, behind) = major_at(&words);
    goes_by_row(row_in(&words, major), major, &behind, name.as_bytes())
}

// Whether a statement is said to be harmless.
fn is_harmless(names: &[Name], logical: &Logical) -> bool
    ensures { result ≡ is_harmless names.now logical.now }
{
    names.iter().any(|name| goes_by(logical, name))
}

// Whether a statement may stand above the choice of a carriage.
fn is_passive(logical: &Logical) -> bool
    ensures { result ≡ is_passive (row_in (words_of logical.now)) }
{
    match row_of_statement(logical) {
        Row::Silent | Row::Stated | Row::Units | Row::Mode => true,
        _ => false,
    }
}

// Whether a statement chooses a carriage.
fn is_carriage(logical: &Logical) -> bool
    ensures { result ≡ is_carriage logical.now }
{
    let (major, _) = major_at(&Phrase::of(logical));
    is(major, b"CRSLCT")
}

// Whether the first choice of a carriage stands above all that moves.
fn chooses_first(lines: &[Logical]) -> bool
    ensures { result ≡ chooses_first lines.now }
{
    for logical in lines {
        if is_carriage(logical) {
            return true;
        }
        if !is_passive(logical) {
            return false;
        }
    }
    false
}

// The title behind these letters that a statement's fields begin with.
fn carriage_in<'a>(logical: &'a Logical) -> Option<(&'a [u8], Phrase<'a>)>
    ensures { option_map (λ r. (r.0.now, r.1)) result ≡ carriage_in logical.now }
{
    let (_, behind) = major_at(&Phrase::of(logical));
    let fields = past(Mark::Slash, &behind)?;
    title_at(b"CR", &fields)
}

// Whether a title is this name.
fn is_named(name: &[u8], title: Option<(&[u8], Phrase<'_>)>) -> bool
    ensures { result ≡ is_named name.now (option_map (λ r. (r.0.now, r.1)) title.entry) }
{
    match title {
        Some((label, _)) => is(label, name),
        None => false,
    }
}

// Whether a statement chooses no other carriage.
fn chooses_no_other(name: &[u8], logical: &Logical) -> bool
    ensures { result ≡ chooses_no_other name.now logical.now }
{
    !is_carriage(logical) || is_named(name, carriage_in(logical))
}

// Whether no statement does.
fn all_choose_no_other(name: &[u8], lines: &[Logical]) -> bool
    ensures { result ≡ list_all (chooses_no_other name.now) lines.now }
{
    lines.iter().all(|logical| chooses_no_other(name, logical))
}

// Whether a statement chooses the one carriage that the text has.
fn chooses_lone(lines: &[Logical], logical: &Logical) -> bool
    ensures { result ≡ chooses_lone lines.now logical.now }
{
    if !is_carriage(logical) {
        return false;
    }
    match carriage_in(logical) {
        Some((name, _)) => chooses_first(lines) && all_choose_no_other(name, lines),
        None => false,
    }
}

// The table that a statement turns.
fn table_in<'a>(logical: &'a Logical) -> Option<(&'a [u8], Phrase<'a>)>
    ensures { option_map (λ r. (r.0.now, r.1)) result ≡ table_in logical.now }
{
    let (_, behind) = major_at(&Phrase::of(logical));
    let fields = past(Mark::Slash, &behind)?;
    title_at(b"RT", &fields)
}

// Whether a statement turns a table.
fn is_table(logical: &Logical) -> bool
    ensures { result ≡ is_table (row_in (words_of logical.now)) }
{
    matches!(row_of_statement(logical), Row::Table)
}

// The last field of a statement, if that is a number.
fn angle_in(logical: &Logical) -> Option<u64>
    ensures { result ≡ angle_in logical.now }
{
    let (_, behind) = major_at(&Phrase::of(logical));
    last_of(past(Mark::Slash, &behind))
}

// Whether a statement turns no other table, and that one by an angle alone.
fn turns_alone(name: &[u8], logical: &Logical) -> bool
    ensures { result ≡ turns_alone name.now logical.now }
{
    !is_table(logical) || (is_named(name, table_in(logical)) && angle_in(logical).is_some())
}

// Whether all statements do.
fn all_turn_alone(name: &[u8], lines: &[Logical]) -> bool
    ensures { result ≡ list_all (turns_alone name.now) lines.now }
{
    lines.iter().all(|logical| turns_alone(name, logical))
}

// Whether one of the words says that an angle is that of the table itself.
fn has_absolute(words: &Phrase<'_>) -> bool
    ensures { result ≡ list_any is_absolute words.now }
{
    match words.split_first() {
        None => false,
        Some((Token::Run(word), rest)) => is(word, b"ABSL") || has_absolute(&rest),
        Some((_, rest)) => has_absolute(&rest),
    }
}

// Whether two angles are one.
fn is_angle(a: Option<u64>, b: Option<u64>) -> bool
    ensures { result ≡ is_angle a b }
{
    match (a, b) {
        (Some(a), Some(b)) => a == b,
        _ => false,
    }
}

// Whether the one table of a text comes to this angle.
fn comes_to(angle: Option<u64>, lines: &[Logical], logical: &Logical) -> bool
    ensures { result ≡ comes_to angle lines.now logical.now (table_in logical.now) }
{
    match table_in(logical) {
        Some((name, _)) => {
            is_angle(angle, angle_in(logical))
                && has_absolute(&Phrase::of(logical))
                && all_turn_alone(name, lines)
        }
        None => false,
    }
}

// Whether a statement turns the table back to where it stood at the start.
fn turns_back(angle: Option<u64>, lines: &[Logical], logical: &Logical) -> bool
    ensures { result ≡ turns_back angle lines.now logical.now }
{
    angle.is_some() && is_table(logical) && comes_to(angle, lines, logical)
}

// A title with nothing behind it.
fn lone<'a>(actual: bool, title: Option<(&'a [u8], Phrase<'a>)>) -> Option<(&'a [u8], bool)>
    ensures { option_map (λ r. (r.0.now, r.1)) result ≡ lone actual (option_map (λ r. (r.0.now, r.1)) title.entry) }
{
    let (label, rest) = title?;
    match rest.split_first() {
        None => Some((label, actual)),
        Some(_) => None,
    }
}

// The one sensor of fields.
fn lone_in<'a>(fields: Option<Phrase<'a>>) -> Option<(&'a [u8], bool)>
    ensures { option_map (λ r. (r.0.now, r.1)) result ≡ lone_in fields.entry }
{
    let fields = fields?;
    match lone(false, title_at(b"S", &fields)) {
        Some(sensor) => Some(sensor),
        None => lone(true, title_at(b"SA", &fields)),
    }
}

/// The one sensor that a statement selects, if it does.
pub(crate) fn selected<'a>(logical: &'a Logical) -> Option<(&'a [u8], bool)>
    ensures { option_map (λ r. (r.0.now, r.1)) result ≡ selected logical.now }
{
    let (_, behind) = major_at(&Phrase::of(logical));
    match row_of_statement(logical) {
        Row::Sensor => lone_in(past(Mark::Slash, &behind)),
        _ => None,
    }
}

// Whether a statement selects this sensor.
fn selects(name: &[u8], actual: bool, logical: &Logical) -> bool
    ensures { result ≡ is_sensor name.now actual (selected logical.now) }
{
    match selected(logical) {
        Some((label, other)) => is(label, name) && other == actual,
        None => false,
    }
}

// What is said of a selection whose sensor was first selected on a line.
fn same_as(line: Option<u32>) -> Option<Saying>
    ensures { result ≡ same_as line }
{
    match line {
        Some(line) => Some(Saying::Same(line)),
        None => None,
    }
}

// The first line that selects this sensor.
fn first_line(name: &[u8], actual: bool, lines: &[Logical]) -> Option<u32>
    ensures { result ≡ first_line name.now actual lines.now }
{
    for logical in lines {
        if selects(name, actual, logical) {
            return Some(logical.line);
        }
    }
    None
}

// The same of the sensor that a statement selects.
fn first_of(lines: &[Logical], logical: &Logical) -> Option<u32>
    ensures { result ≡ first_of lines.now (selected logical.now) }
{
    let (name, actual) = selected(logical)?;
    first_line(name, actual, lines)
}

/// Whether there are no probes.
pub(crate) fn no_probes(probes: &[GivenProbe]) -> bool
    ensures { result ≡ no_probes probes.now }
{
    probes.is_empty()
}

// The number of the probe with this name.
fn number_of(name: &[u8], probes: &[GivenProbe]) -> u32
    ensures { result ≡ number_of name.now probes.now }
{
    for probe in probes {
        if is(probe.name.as_slice(), name) {
            return probe.number;
        }
    }
    0
}

// Whether a statement begins a macro that has a parameter of this name.
fn has_parameter(name: &[u8], logical: &Logical) -> bool
    ensures { result ≡ has_parameter name.now logical.now }
{
    let (major, behind) = major_at(&Phrase::of(logical));
    is(major, b"MACRO") && has_word(name, &behind)
}

// Whether a text has one.
fn is_parameter(name: &[u8], lines: &[Logical]) -> bool
    ensures { result ≡ is_parameter name.now lines.now }
{
    lines.iter().any(|logical| has_parameter(name, logical))
}

// What is said of a selection of this name, by these probes.
fn probe_said(probes: &[GivenProbe], lines: &[Logical], name: &[u8]) -> Saying
    ensures { result ≡ probe_said probes.now lines.now name.now }
{
    if is_parameter(name, lines) {
        Saying::Unclear
    } else {
        Saying::Probe(number_of(name, probes))
    }
}

// The same of a statement.
fn probe_saying(probes: &[GivenProbe], lines: &[Logical], logical: &Logical) -> Option<Saying>
    ensures { result ≡ probe_saying probes.now lines.now (selected logical.now) }
{
    let (name, _) = selected(logical)?;
    Some(probe_said(probes, lines, name))
}

/// What is said of a selection: by the probes of a file, or by the line that selected the same sensor first.
pub(crate) fn selection_saying(
    probes: &[GivenProbe],
    lines: &[Logical],
    logical: &Logical,
) -> Option<Saying>
    ensures { result ≡ selection_saying probes.now lines.now (selected logical.now) }
{
    if no_probes(probes) {
        same_as(first_of(lines, logical))
    } else {
        probe_saying(probes, lines, logical)
    }
}

// What is said of a statement.
fn saying_of(
    probes: &[GivenProbe],
    names: &[Name],
    angle: Option<u64>,
    lines: &[Logical],
    logical: &Logical,
) -> Option<Saying>
    ensures { result ≡ saying_of probes.now names.now angle lines.now logical.now }
{
    if is_harmless(names, logical) || chooses_lone(lines, logical) {
        Some(Saying::Harmless)
    } else if turns_back(angle, lines, logical) {
        Some(Saying::Back)
    } else {
        selection_saying(probes, lines, logical)
    }
}

// What is said of the statement on a line, if anything is.
fn add_saying(out: &mut Items<Spoken>, line: u32, saying: Option<Saying>) -> Result<(), NoMemory>
    ensures { OnOk result (out.new ≡ out.old ++ spoken_on line saying) }
{
    match saying {
        Some(saying) => {
            out.push(Spoken { line, saying })?;
            Ok(())
        }
        None => Ok(()),
    }
}

// What is said of a statement, among those of its text, if anything is.
#[tactic(auto, unfolding(crate::specs::Spoken::spoken_by))]
fn speak(
    out: &mut Items<Spoken>,
    probes: &[GivenProbe],
    names: &[Name],
    angle: Option<u64>,
    lines: &[Logical],
    logical: &Logical,
) -> Result<(), NoMemory>
    ensures { OnOk result (out.new ≡ out.old ++ spoken_by probes.now names.now angle lines.now logical.now) }
{
    add_saying(
        out,
        logical.line,
        saying_of(probes, names, angle, lines, logical),
    )
}

/// What is said of a text's statements: by these probes of a file, with these words as harmless, and a table that stands at this angle at the start, in millionths of a degree.
///
/// # Errors
///
/// Out of memory.
pub(crate) fn sayings_of(
    alloc: Global,
    probes: &[GivenProbe],
    names: &[Name],
    angle: Option<u64>,
    lines: &[Logical],
) -> Result<Items<Spoken>, NoMemory>
    ensures { IfOk result (λ ss. ss ≡ spoken probes.now names.now angle lines.now) }
{
    let mut out = Items::new(alloc);
    for logical in lines {
        speak(&mut out, probes, names, angle, lines, logical)?;
    }
    Ok(out)
}

/// What is said of the statement on a line.
pub(crate) fn saying_at(line: u32, all: &[Spoken]) -> Option<Saying>
    ensures { result ≡ saying_at line all.now }
{
    for one in all {
        if one.line == line {
            return Some(one.saying);
        }
    }
    None
}
