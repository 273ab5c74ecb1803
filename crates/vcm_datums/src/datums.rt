//! The datums of a text.

ghost use Rattle.std.specs.Prelude.{◌≡◌, ◌++◌, List, Some, None, IfOk, OnOk, option_map};
ghost use Rattle.std.specs.List.{list_all, list_any, flat_map};
ghost use Rattle.std.specs.Option.{option_copied};
ghost use Rattle.vcm_lines.specs.Lexemes.{Lexeme};
ghost use Rattle.vcm_heads.specs.Rows.{row_in, words_of};
ghost use Rattle.vcm_datums.specs.Datums.{datum_of, datum_at, is_datum, datum_in, is_plain, listed, datums_by, is_one, has_parameter, is_parameter, is_fixed, if_fixed, datums_of, agrees, first_feature, agreed, feature_for};

use std::alloc::Global;
use vcm_forms::{Form, Parameter, Statement};
use vcm_heads::{Mark, Row, major_at, past, row_of_statement, title_at};
use vcm_items::{Name, is_name};
use vcm_lines::{Logical, Phrase};
use vcm_num::{NoMemory, is};

/// A datum that is defined as a measured feature.
#[derive(Drop)]
pub struct Datum {
    /// The line that defines it.
    pub line: u32,
    /// Its name.
    pub name: Name,
    /// The feature.
    pub feature: Name,
}

// Two names with nothing behind them, as a datum of a line.
fn datum_of(line: u32, feature: &[u8], name: &[u8], rest: &Phrase<'_>) -> Option<Datum>
    ensures { result ≡ datum_of line feature.now name.now rest.now }
{
    if rest.split_first().is_some() {
        return None;
    }
    if is_name(feature) && is_name(name) {
        Some(Datum {
            line,
            name: Name::new(name),
            feature: Name::new(feature),
        })
    } else {
        None
    }
}

// The datum that a statement on a line defines.
fn datum_at(line: u32, behind: &Phrase<'_>) -> Option<Datum>
    ensures { result ≡ datum_at line behind.now }
{
    let fields = past(Mark::Slash, behind)?;
    let (feature, rest) = title_at(b"FA", &fields)?;
    let more = past(Mark::Comma, &rest)?;
    let (name, last) = title_at(b"DAT", &more)?;
    datum_of(line, feature, name, &last)
}

// Whether statements of a row define datums.
fn is_datum(row: Row) -> bool
    ensures { result ≡ is_datum row }
{
    matches!(row, Row::Datum)
}

// The datum that a statement defines, if it defines one.
fn datum_in(logical: &Logical) -> Option<Datum>
    ensures { result ≡ datum_in logical.now }
{
    if is_datum(row_of_statement(logical)) {
        let (_, behind) = major_at(&Phrase::of(logical));
        datum_at(logical.line, &behind)
    } else {
        None
    }
}

// Whether a statement defines no datum, or one as a measured feature.
fn is_plain(logical: &Logical) -> bool
    ensures { result ≡ is_plain logical.now }
{
    if is_datum(row_of_statement(logical)) {
        datum_in(logical).is_some()
    } else {
        true
    }
}

// Whether all statements do.
fn are_plain(lines: &[Logical]) -> bool
    ensures { result ≡ list_all is_plain lines.now }
{
    lines.iter().all(|logical| is_plain(logical))
}

// The datum of a statement, behind others.
fn add_datum(out: &mut Vec<Datum>, logical: &Logical) -> Result<(), NoMemory>
    ensures { OnOk result (out.new.items ≡ out.old.items ++ datums_by logical.now) }
{
    match datum_in(logical) {
        Some(datum) => {
            out.push(datum)?;
            Ok(())
        }
        None => Ok(()),
    }
}

// The datums of all statements.
fn all_datums(alloc: Global, lines: &[Logical]) -> Result<Vec<Datum>, NoMemory>
    ensures { IfOk result (λ ds. ds.items ≡ flat_map datums_by lines.now) }
{
    let mut out = Vec::new(alloc);
    for logical in lines {
        add_datum(&mut out, logical)?;
    }
    Ok(out)
}

// Whether one of the parameters has this name.
fn is_one(name: &Name, parameters: &[Parameter]) -> bool
    ensures { result ≡ is_one name.now parameters.now }
{
    parameters
        .iter()
        .any(|parameter| is(parameter.name.as_bytes(), name.as_bytes()))
}

// Whether a statement is a MACRO with a parameter of this name.
fn has_parameter(name: &Name, statement: &Statement) -> bool
    ensures { result ≡ has_parameter name.now statement.now.form }
{
    match &statement.form {
        Form::Macro(_, parameters) => is_one(name, parameters.as_slice()),
        _ => false,
    }
}

// Whether one of the statements is.
fn is_parameter(said: &[Statement], name: &Name) -> bool
    ensures { result ≡ is_parameter said.now name.now }
{
    said.iter().any(|statement| has_parameter(name, statement))
}

// Whether the names of a datum stand for nothing else.
fn is_fixed(said: &[Statement], datum: &Datum) -> bool
    ensures { result ≡ is_fixed said.now datum.now }
{
    !is_parameter(said, &datum.name) && !is_parameter(said, &datum.feature)
}

// Whether all names of datums do.
fn are_fixed(said: &[Statement], datums: &[Datum]) -> bool
    ensures { result ≡ list_all (is_fixed said.now) datums.now }
{
    datums.iter().all(|datum| is_fixed(said, datum))
}

/// The datums of a text, none where one of them is defined in another way.
#[tactic(auto, unfolding(crate::specs::Datums::datums_of))]
pub(crate) fn datums_of(
    alloc: Global,
    lines: &[Logical],
    said: &[Statement],
) -> Result<Vec<Datum>, NoMemory>
    ensures { IfOk result (λ ds. ds.items ≡ datums_of lines.now said.now) }
{
    if !are_plain(lines) {
        return Ok(Vec::new(alloc));
    }
    let datums = all_datums(alloc, lines)?;
    if are_fixed(said, &datums) {
        Ok(datums)
    } else {
        Ok(Vec::new(alloc))
    }
}

// Whether a datum is this feature, if it has this name.
fn agrees(name: &[u8], feature: &Name, datum: &Datum) -> bool
    ensures { result ≡ agrees name.now feature.now datum.now }
{
    !is(datum.name.as_bytes(), name) || is(datum.feature.as_bytes(), feature.as_bytes())
}

// Whether all datums with this name are this feature.
fn all_agree(name: &[u8], feature: &Name, datums: &[Datum]) -> bool
    ensures { result ≡ list_all (agrees name.now feature.now) datums.now }
{
    datums.iter().all(|datum| agrees(name, feature, datum))
}

// The feature of the first datum with this name.
fn first_feature(name: &[u8], datums: &[Datum]) -> Option<Name>
    ensures { result ≡ first_feature name.now datums.now }
{
    for datum in datums {
        if is(datum.name.as_bytes(), name) {
            return Some(datum.feature.copy());
        }
    }
    None
}

/// The feature that a datum is, wherever the text defines it.
pub(crate) fn feature_for(datums: &[Datum], name: &[u8]) -> Option<Name>
    ensures { result ≡ feature_for datums.now name.now }
{
    let feature = first_feature(name, datums)?;
    if all_agree(name, &feature, datums) {
        Some(feature)
    } else {
        None
    }
}
