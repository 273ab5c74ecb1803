//! What is known where a session stands, as a line.

ghost use Rattle.std.specs.Prelude.{◌≡◌, ◌++◌, ◌∷◌, [], not, codes, decimal, IfOk, OnOk};
ghost use Rattle.std.specs.List.{filter};
ghost use Rattle.std.specs.Option.{option_copied};
ghost use Rattle.vcm_over.specs.Known.{is_implicit, is_carrier, values_of, first_or, carried, is_machine, frame_with, name_text, frame_text, mode_text, table_text, place_text, mode_in, table_in, place_in, state_text, frame_in, unknown_in, expansion_text, variable_text, unknown_text, known_text, known_by, known_line, known_here};

use crate::stepping::line_at;
use itoa::Buffer;
use std::alloc::Global;
use vcm_debug::Session;
use vcm_items::{Name, Tables, Variable};
use vcm_motion::Part;
use vcm_num::{Items, NoMemory, is};

/// The least expansion of variables that carry what is known: no text reaches it.
pub const FIRST_IMPLICIT: u32 = 4_294_000_000;

// Whether a variable carries what is known.
fn is_implicit(variable: &Variable) -> bool
    ensures { result ≡ is_implicit variable.now }
{
    variable.expansion() >= FIRST_IMPLICIT
}

// Whether it does, and has this name.
fn is_carrier(name: &[u8], variable: &Variable) -> bool
    ensures { result ≡ is_carrier name.now variable.now }
{
    is_implicit(variable) && is(variable.name().as_bytes(), name)
}

// The values of those with this name.
fn values_of(
    alloc: Global,
    name: &[u8],
    variables: &[Variable],
    values: &[i64],
) -> Result<Items<i64>, NoMemory>
    ensures { IfOk result (λ zs. zs ≡ values_of name.now variables.now values.now) }
{
    let mut found = Items::new(alloc);
    let mut variables = variables;
    let mut values = values;
    'each: while let (Some((variable, others)), Some((value, rest))) = (
        variables.split_first(),
        values.split_first(),
    ) {
        if is_carrier(name, variable) {
            found.push(*value)?;
        }
        variables = others;
        values = rest;
    }
    Ok(found)
}

// The first of them, or this value.
fn first_or(or: i64, values: &[i64]) -> i64
    ensures { result ≡ first_or or values.now }
{
    match values.first() {
        Some(value) => *value,
        None => or,
    }
}

// Appends bytes.
fn put(out: &mut Vec<u8>, bytes: &[u8]) -> Result<(), NoMemory>
    ensures { OnOk result (out.new.items ≡ out.old.items ++ bytes.now) }
{
    out.extend_from_slice(bytes)?;
    Ok(())
}

// Whether a frame is the machine's.
fn is_machine(name: &Name) -> bool
    ensures { result ≡ is_machine name.now }
{
    is(name.as_bytes(), b"________________")
}

// The frame of the text that was given this number.
fn frame_with<'a>(number: i64, saved: &[i64], frames: &'a [Name]) -> Option<&'a Name>
    ensures { option_copied result ≡ frame_with number saved.now frames.now }
{
    let mut saved = saved;
    let mut frames = frames;
    'each: while let Some((frame, others)) = frames.split_first() {
        if is_machine(frame) {
            frames = others;
        } else {
            let Some((value, rest)) = saved.split_first() else {
                return None;
            };
            if *value == number {
                return Some(frame);
            }
            saved = rest;
            frames = others;
        }
    }
    None
}

// Appends which frame is the current one.
fn put_frame(out: &mut Vec<u8>, number: i64, found: Option<&Name>) -> Result<(), NoMemory>
    ensures { OnOk result (out.new.items ≡ out.old.items ++ frame_text number (option_copied found.entry)) }
{
    match number {
        0 => put(out, b"frame not known"),
        1 => put(out, b"frame the machine's"),
        _ => match found {
            Some(name) => {
                put(out, b"frame D(")?;
                put(out, name.as_bytes())?;
                put(out, b")")
            }
            None => put(out, b"frame known"),
        },
    }
}

// Appends whether the mode is a programmed one.
fn put_mode(out: &mut Vec<u8>, mode: i64, epoch: i64) -> Result<(), NoMemory>
    ensures { OnOk result (out.new.items ≡ out.old.items ++ mode_text mode epoch) }
{
    if mode == epoch {
        put(out, b", mode programmed")
    } else {
        put(out, b", mode not known")
    }
}

// Appends that the table isn't known, where it isn't.
fn put_table(out: &mut Vec<u8>, table: i64, epoch: i64) -> Result<(), NoMemory>
    ensures { OnOk result (out.new.items ≡ out.old.items ++ table_text table epoch) }
{
    if table == epoch {
        Ok(())
    } else {
        put(out, b", table not known")
    }
}

// Appends whether the probe stands where the machine's does.
fn put_place(out: &mut Vec<u8>, place: i64) -> Result<(), NoMemory>
    ensures { OnOk result (out.new.items ≡ out.old.items ++ place_text place) }
{
    if place == 0 {
        put(out, b", place not known")
    } else {
        put(out, b", place known")
    }
}

// Appends the name of a variable, with the number of its expansion where it has one.
fn put_variable(out: &mut Vec<u8>, variable: &Variable) -> Result<(), NoMemory>
    ensures { OnOk result (out.new.items ≡ out.old.items ++ variable_text variable.now) }
{
    put(out, variable.name().as_bytes())?;
    if variable.expansion() == 0 {
        return Ok(());
    }
    let mut digits = Buffer::new();
    put(out, b"#")?;
    put(out, digits.format(variable.expansion()).as_bytes())
}

// Appends which variables of the text aren't known: those whose number isn't that of the epoch of values.
fn put_unknown(
    out: &mut Vec<u8>,
    epoch: i64,
    known: &[i64],
    variables: &[Variable],
) -> Result<(), NoMemory>
    ensures { OnOk result (out.new.items ≡ out.old.items ++ unknown_text epoch known.now variables.now) }
{
    let mut known = known;
    let mut variables = variables;
    'each: while let Some((variable, others)) = variables.split_first() {
        if is_implicit(variable) {
            variables = others;
        } else {
            let Some((number, rest)) = known.split_first() else {
                return Ok(());
            };
            if *number != epoch {
                put(out, b", ")?;
                put_variable(out, variable)?;
                put(out, b" not known")?;
            }
            known = rest;
            variables = others;
        }
    }
    Ok(())
}

// The value of the variable with this name that carries what is known, or this value.
fn carried(
    alloc: Global,
    name: &[u8],
    or: i64,
    tables: &Tables,
    values: &[i64],
) -> Result<i64, NoMemory>
    ensures { IfOk result (λ z. z ≡ first_or or (values_of name.now tables.now.variables values.now)) }
{
    let found = values_of(alloc, name, tables.variables(), values)?;
    Ok(first_or(or, found.as_slice()))
}

// Appends the mode, by the values that carry it.
fn put_mode_of(
    alloc: Global,
    out: &mut Vec<u8>,
    tables: &Tables,
    values: &[i64],
) -> Result<(), NoMemory>
    ensures { OnOk result (out.new.items ≡ out.old.items ++ mode_in tables.now values.now) }
{
    let mode = carried(alloc, b"MODE", 0, tables, values)?;
    let epoch = carried(alloc, b"EPOCH", 0, tables, values)?;
    put_mode(out, mode, epoch)
}

// Appends the table, likewise.
fn put_table_of(
    alloc: Global,
    out: &mut Vec<u8>,
    tables: &Tables,
    values: &[i64],
) -> Result<(), NoMemory>
    ensures { OnOk result (out.new.items ≡ out.old.items ++ table_in tables.now values.now) }
{
    let table = carried(alloc, b"TABLE", 0, tables, values)?;
    let epoch = carried(alloc, b"EPOCH", 0, tables, values)?;
    put_table(out, table, epoch)
}

// Appends the place of the probe, likewise.
fn put_place_of(
    alloc: Global,
    out: &mut Vec<u8>,
    tables: &Tables,
    values: &[i64],
) -> Result<(), NoMemory>
    ensures { OnOk result (out.new.items ≡ out.old.items ++ place_in tables.now values.now) }
{
    let place = carried(alloc, b"PLACE", 0, tables, values)?;
    put_place(out, place)
}

// Appends what is known of the machine.
fn put_state(
    alloc: Global,
    out: &mut Vec<u8>,
    tables: &Tables,
    values: &[i64],
) -> Result<(), NoMemory>
    ensures { OnOk result (out.new.items ≡ out.old.items ++ state_text tables.now values.now) }
{
    put_mode_of(alloc, out, tables, values)?;
    put_table_of(alloc, out, tables, values)?;
    put_place_of(alloc, out, tables, values)
}

// Appends the current frame, which has this number.
fn put_frame_of(
    alloc: Global,
    out: &mut Vec<u8>,
    number: i64,
    tables: &Tables,
    values: &[i64],
) -> Result<(), NoMemory>
    ensures { OnOk result (out.new.items ≡ out.old.items ++ frame_in number tables.now values.now) }
{
    let saved = values_of(alloc, b"SAVED", tables.variables(), values)?;
    put_frame(
        out,
        number,
        frame_with(number, saved.as_slice(), tables.frames()),
    )
}

// Appends the variables that aren't known.
fn put_unknown_of(
    alloc: Global,
    out: &mut Vec<u8>,
    tables: &Tables,
    values: &[i64],
) -> Result<(), NoMemory>
    ensures { OnOk result (out.new.items ≡ out.old.items ++ unknown_in tables.now values.now) }
{
    let known = values_of(alloc, b"KNOWN", tables.variables(), values)?;
    let epoch = carried(alloc, b"VALUES", 0, tables, values)?;
    put_unknown(out, epoch, known.as_slice(), tables.variables())
}

// Appends what is known in a state whose current frame has this number.
fn put_known(
    alloc: Global,
    out: &mut Vec<u8>,
    number: i64,
    tables: &Tables,
    values: &[i64],
) -> Result<(), NoMemory>
    ensures { OnOk result (out.new.items ≡ out.old.items ++ known_text number tables.now values.now) }
{
    put_frame_of(alloc, out, number, tables, values)?;
    put_state(alloc, out, tables, values)?;
    put_unknown_of(alloc, out, tables, values)
}

// What is known in a state, by the values of its variables.
fn known_line(alloc: Global, tables: &Tables, values: &[i64]) -> Result<Vec<u8>, NoMemory>
    ensures { IfOk result (λ t. t.items ≡ known_line tables.now values.now) }
{
    let mut out = Vec::new(alloc);
    let frames = values_of(alloc, b"FRAME", tables.variables(), values)?;
    match frames.as_slice().first() {
        Some(number) => put_known(alloc, &mut out, *number, tables, values)?,
        None => put(&mut out, b"all known")?,
    }
    Ok(out)
}

// That all is known.
fn all_known(alloc: Global) -> Result<Vec<u8>, NoMemory>
    ensures { IfOk result (λ t. t.items ≡ codes "all known") }
{
    let mut out = Vec::new(alloc);
    put(&mut out, b"all known")?;
    Ok(out)
}

/// What is known where a session stands: the current frame, the mode, the table where it isn't, the place of the probe, and the variables of the text that aren't, as
/// `frame D(A1), mode programmed, place known, OPT not known`. Of a program that carries nothing all is known, and so it is on the first line, where a run is set up.
///
/// # Errors
///
/// Out of memory.
pub fn known_here<P: Part>(alloc: Global, session: &Session<'_, P>) -> Result<Vec<u8>, NoMemory>
    ensures { IfOk result (λ t. t.items ≡ known_here session.now) }
{
    if line_at(session) == 1 {
        return all_known(alloc);
    }
    let world = session.world();
    known_line(alloc, world.tables(), world.variables())
}
