//! The statements of a text, with those about its datums.

ghost use Rattle.std.specs.Prelude.{◌≡◌, ◌++◌, ◌∷◌, [], List, Some, None, IfOk, OnOk, if◌then◌else◌};
ghost use Rattle.std.specs.List.{flat_map};
ghost use Rattle.std.specs.Option.{option_copied};
ghost use Rattle.vcm_forms.specs.declared.statement.Form.TheVariants.{Assignment};
ghost use Rattle.vcm_events.specs.Datums.{origin_length};
ghost use Rattle.vcm_datums.specs.Dated.{bound_on, origins_on, bound_or, origin_said, origins_said, shift_to, shifts_to, framed, framed_or, shifted, assigned, dated_form, on_line, dated_statement, dated_by, dated_with, dated};

use crate::datums::{Datum, datums_of};
use crate::origins::{Made, Origin, Origins, made_in};
use std::alloc::Global;
use vcm_events::{Event, bound, gained, origin_length, origin_on};
use vcm_expr::Expr;
use vcm_forms::{Form, Offset, Statement, Target};
use vcm_items::Name;
use vcm_lines::Logical;
use vcm_num::{Items, NoMemory, is};

// One statement more.
fn add(out: &mut Vec<Statement>, line: u32, form: Form) -> Result<(), NoMemory>
    ensures { OnOk result (out.new.items ≡ out.old.items ++ on_line line (form ∷ [])) }
{
    out.push(Statement { line, form })?;
    Ok(())
}

// The feature of the datum that is defined on a line, if it is one.
fn bound_on(line: u32, datums: &[Datum]) -> Option<Name>
    ensures { result ≡ bound_on line datums.now }
{
    for datum in datums {
        if datum.line == line {
            return Some(datum.feature.copy());
        }
    }
    None
}

// The origins of the frame that is made on a line, if it is made by them.
fn origins_on(line: u32, made: &[Made]) -> Option<&Origins>
    ensures { option_copied result ≡ origins_on line made.now }
{
    for one in made {
        if one.line == line {
            return Some(&one.origins);
        }
    }
    None
}

// An origin.
fn add_origin(out: &mut Vec<Statement>, line: u32, origin: &Origin) -> Result<(), NoMemory>
    ensures { OnOk result (out.new.items ≡ out.old.items ++ on_line line (origin_said origin.now ∷ [])) }
{
    add(out, line, origin_on(origin.axis, origin.feature.copy()))
}

// An origin, if it is there.
fn add_origin_of(
    out: &mut Vec<Statement>,
    line: u32,
    origin: &Option<Origin>,
) -> Result<(), NoMemory>
    ensures { OnOk result (out.new.items ≡ out.old.items ++ on_line line (origins_said origin.now)) }
{
    match origin {
        Some(origin) => add_origin(out, line, origin),
        None => Ok(()),
    }
}

// The shift to an origin.
fn add_shift(offsets: &mut Items<Offset>, origin: &Origin) -> Result<(), NoMemory>
    ensures { OnOk result (offsets.new ≡ offsets.old ++ shift_to origin.now ∷ []) }
{
    offsets.push(Offset {
        axis: origin.axis,
        length: origin_length(),
    })?;
    Ok(())
}

// The shift to an origin, if it is there.
fn add_shift_of(offsets: &mut Items<Offset>, origin: &Option<Origin>) -> Result<(), NoMemory>
    ensures { OnOk result (offsets.new ≡ offsets.old ++ shifts_to origin.now) }
{
    match origin {
        Some(origin) => add_shift(offsets, origin),
        None => Ok(()),
    }
}

// The shifts to all origins.
fn shifts_of(alloc: Global, origins: &Origins) -> Result<Items<Offset>, NoMemory>
    ensures { IfOk result (λ os. os ≡ shift_to origins.now.first ∷ (shifts_to origins.now.second ++ shifts_to origins.now.third)) }
{
    let mut offsets = Items::new(alloc);
    add_shift(&mut offsets, &origins.first)?;
    add_shift_of(&mut offsets, &origins.second)?;
    add_shift_of(&mut offsets, &origins.third)?;
    Ok(offsets)
}

// A frame by its origins, under its name.
fn frame(
    alloc: Global,
    out: &mut Vec<Statement>,
    line: u32,
    name: Name,
    origins: &Origins,
) -> Result<(), NoMemory>
    ensures { OnOk result (out.new.items ≡ out.old.items ++ on_line line (framed name origins.now)) }
{
    let offsets = shifts_of(alloc, origins)?;
    add(out, line, gained(Event::Origins))?;
    add_origin(out, line, &origins.first)?;
    add_origin_of(out, line, &origins.second)?;
    add_origin_of(out, line, &origins.third)?;
    add(out, line, Form::Shift(name, offsets))
}

// A frame that the text makes, with these that are made by their origins.
fn add_frame(
    alloc: Global,
    out: &mut Vec<Statement>,
    line: u32,
    made: &[Made],
    name: Name,
    offsets: Items<Offset>,
) -> Result<(), NoMemory>
    ensures { OnOk result (out.new.items ≡ out.old.items ++ on_line line (shifted made.now line name offsets)) }
{
    if offsets.is_empty() {
        if let Some(origins) = origins_on(line, made) {
            return frame(alloc, out, line, name, origins);
        }
    }
    add(out, line, Form::Shift(name, offsets))
}

// A datum is defined as a feature, if it is one that is followed.
fn bound_or(form: Form, feature: Option<Name>) -> Form
    ensures { result ≡ bound_or form feature }
{
    match feature {
        Some(feature) => bound(feature),
        None => form,
    }
}

// An assignment, or the definition of a datum.
fn add_assignment(
    out: &mut Vec<Statement>,
    line: u32,
    datums: &[Datum],
    target: Target,
    value: Expr,
) -> Result<(), NoMemory>
    ensures { OnOk result (out.new.items ≡ out.old.items ++ on_line line (assigned datums.now line target.name (Assignment target value))) }
{
    if is(target.name.as_bytes(), Event::Bind.name()) {
        let form = Form::Assignment(target, value);
        add(out, line, bound_or(form, bound_on(line, datums)))
    } else {
        add(out, line, Form::Assignment(target, value))
    }
}

// A statement, with these datums and frames.
fn add_dated(
    alloc: Global,
    out: &mut Vec<Statement>,
    datums: &[Datum],
    made: &[Made],
    statement: Statement,
) -> Result<(), NoMemory>
    ensures { OnOk result (out.new.items ≡ out.old.items ++ dated_statement datums.now made.now statement) }
{
    let line = statement.line;
    match statement.form {
        Form::Assignment(target, value) => add_assignment(out, line, datums, target, value),
        Form::Shift(name, offsets) => add_frame(alloc, out, line, made, name, offsets),
        form => add(out, line, form),
    }
}

// All statements, with these datums and frames.
fn date_all(
    alloc: Global,
    datums: &[Datum],
    made: &[Made],
    said: Vec<Statement>,
) -> Result<Vec<Statement>, NoMemory>
    ensures { IfOk result (λ ss. ss.items ≡ dated_by datums.now made.now said.items) }
{
    let mut out = Vec::new(alloc);
    for statement in said {
        add_dated(alloc, &mut out, datums, made, statement)?;
    }
    Ok(out)
}

// What the lines of a text say, with these datums.
fn date_with(
    alloc: Global,
    datums: &[Datum],
    lines: &[Logical],
    said: Vec<Statement>,
) -> Result<Vec<Statement>, NoMemory>
    ensures { IfOk result (λ ss. ss.items ≡ dated_with datums.now lines.now said.items) }
{
    let made = made_in(alloc, datums, lines)?;
    date_all(alloc, datums, &made, said)
}

/// What the lines of a text say, with its datums.
///
/// # Errors
///
/// Out of memory.
pub fn date(
    alloc: Global,
    lines: &[Logical],
    said: Vec<Statement>,
) -> Result<Vec<Statement>, NoMemory>
    ensures { IfOk result (λ ss. ss.items ≡ dated lines.now said.items) }
{
    let datums = datums_of(alloc, lines, &said)?;
    date_with(alloc, &datums, lines, said)
}
