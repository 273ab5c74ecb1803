//! The writing of images.

ghost use Rattle.std.specs.Prelude.{◌≡◌, ◌<◌, ◌^◌, ◌++◌, IfOk, OnOk};
ghost use Rattle.std.specs.List.{flat_map, AllByRecursion};
ghost use Rattle.vcm_code.specs.Ranges.{AllInRange, IsInRange};
ghost use Rattle.vcm_fields.specs.Widths.{LineHasWidths};
ghost use Rattle.vcm_fields.specs.Spelling.{short as short_bytes, long as long_bytes, name as name_bytes, line as line_bytes, entry as entry_bytes};
ghost use Rattle.vcm_image.specs.Whole.{FitsImage, header as header_bytes, spelling};

use crate::bytes::{kind_byte, version_number};
use crate::counts::Counts;
use crate::opening::MAGIC;
use crate::operands::{byte, long, short, statement};
use std::alloc::Global;
use vcm_code::{Code, OwnedStatement};
use vcm_items::{Name, Variable};
use vcm_num::NoMemory;

// Appends a name.
fn name(out: &mut Vec<u8>, name: &Name) -> Result<(), NoMemory>
    ensures { OnOk result (out.new.items ≡ out.old.items ++ name_bytes name.now) }
{
    let bytes = name.as_bytes();
    byte(out, bytes.len() as u8)?;
    out.extend_from_slice(bytes)?;
    Ok(())
}

// Appends a variable.
fn variable(out: &mut Vec<u8>, variable: &Variable) -> Result<(), NoMemory>
    ensures bytes { OnOk result (out.new.items ≡ out.old.items ++ entry_bytes variable.now) }
    ensures width { OnOk result (variable.now.expansion < 2 ^ 32) }
{
    byte(out, kind_byte(variable.kind()))?;
    long(out, variable.expansion())?;
    name(out, variable.name())?;
    Ok(())
}

// Appends variables.
fn variables(out: &mut Vec<u8>, variables: &[Variable]) -> Result<(), NoMemory>
    ensures bytes { OnOk result (out.new.items ≡ out.old.items ++ flat_map entry_bytes variables.now) }
    ensures widths { OnOk result (AllByRecursion (λ v. v.expansion < 2 ^ 32) variables.now) }
{
    for it in variables {
        variable(out, it)?;
    }
    Ok(())
}

// Appends names.
fn names(out: &mut Vec<u8>, names: &[Name]) -> Result<(), NoMemory>
    ensures { OnOk result (out.new.items ≡ out.old.items ++ flat_map name_bytes names.now) }
{
    for it in names {
        name(out, it)?;
    }
    Ok(())
}

// Appends statements.
fn statements(out: &mut Vec<u8>, statements: &[OwnedStatement]) -> Result<(), NoMemory>
    requires { AllInRange statements.now }
    ensures bytes { OnOk result (out.new.items ≡ out.old.items ++ flat_map line_bytes statements.now) }
    ensures widths { OnOk result (AllByRecursion LineHasWidths statements.now) }
{
    for it in statements {
        statement(out, it)?;
    }
    Ok(())
}

// Appends how many variables, features, frames and statements there are.
fn numbers(out: &mut Vec<u8>, counts: Counts) -> Result<(), NoMemory>
    ensures { OnOk result (out.new.items ≡ out.old.items ++ (short_bytes counts.variables ++ (short_bytes counts.features ++ (short_bytes counts.frames ++ long_bytes counts.statements)))) }
{
    short(out, counts.variables)?;
    short(out, counts.features)?;
    short(out, counts.frames)?;
    long(out, counts.statements)?;
    Ok(())
}

// Appends the header.
fn header(out: &mut Vec<u8>, counts: Counts) -> Result<(), NoMemory>
    ensures { OnOk result (out.new.items ≡ out.old.items ++ header_bytes counts) }
{
    long(out, MAGIC)?;
    short(out, version_number(counts.version))?;
    numbers(out, counts)?;
    Ok(())
}

/// The image of a code: its one spelling.
///
/// # Errors
///
/// Want of memory.
pub fn write(alloc: Global, code: &Code) -> Result<Vec<u8>, NoMemory>
    requires { IsInRange code.now }
    ensures spelled { IfOk result (λ bytes. bytes.items ≡ spelling code.now) }
    ensures fits { OnOk result (FitsImage code.now) }
{
    let counts = Counts {
        version: code.version,
        variables: code.tables.variables().len() as u16,
        features: code.tables.features().len() as u16,
        frames: code.tables.frames().len() as u16,
        statements: code.statements.len() as u32,
    };
    let mut out = Vec::new(alloc);
    header(&mut out, counts)?;
    variables(&mut out, code.tables.variables())?;
    names(&mut out, code.tables.features())?;
    names(&mut out, code.tables.frames())?;
    statements(&mut out, code.statements.as_slice())?;
    Ok(out)
}
