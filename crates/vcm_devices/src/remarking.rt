//! What is remarked of the measurements of a run, on standard error.

use crate::talking::Voice;
use std::alloc::{AllocError, Global};
use std::fmt::Write as _;
use vcm_items::Tables;
use vcm_job::Given;
use vcm_loader::{Loaded, load};
use vcm_meant::{Remark, What, meant};
use vcm_motion::AnyPart;
use vcm_num::{Axis, NoMemory, thousandths_text};
use vcm_part::PartData;
use vcm_report::name_at;

// A number of micrometres in millimetres.
fn put_length(text: &mut String, length: i64) -> Result<(), AllocError> {
    text.push_str(std::str::from_utf8(thousandths_text(length).as_slice()).unwrap_or("?"))
}

// The unit vector of a direction.
fn put_direction(text: &mut String, toward: Axis) -> Result<(), AllocError> {
    let (i, j, k) = (
        toward.component(0),
        toward.component(1),
        toward.component(2),
    );
    write!(text, "{i},{j},{k}")?;
    Ok(())
}

// How far a measurement is from its FEAT.
fn put_far(
    text: &mut String,
    name: &str,
    declared: u32,
    far: Option<i64>,
    approach: u32,
) -> Result<(), AllocError> {
    write!(text, "{name} is measured ")?;
    match far {
        Some(far) => put_length(text, far)?,
        None => text.push_str("more than 64 bits")?,
    }
    write!(
        text,
        " from its FEAT of line {declared}, farther than the approach "
    )?;
    put_length(text, i64::from(approach))?;
    Ok(())
}

// Along which direction a feature is measured, and which one its FEAT has.
fn put_turned(
    text: &mut String,
    name: &str,
    along: Axis,
    declared: u32,
    has: Axis,
) -> Result<(), AllocError> {
    write!(text, "{name} is measured along ")?;
    put_direction(text, along)?;
    write!(text, ", and its FEAT of line {declared} has ")?;
    put_direction(text, has)
}

// The name of a feature.
fn name_of(tables: &Tables, feature: u16) -> &str {
    std::str::from_utf8(name_at(tables.features(), feature)).unwrap_or("?")
}

// That a feature is never measured.
fn put_never(text: &mut String, name: &str) -> Result<(), AllocError> {
    write!(text, "{name} is never measured")?;
    Ok(())
}

// That a FEAT is measured again.
fn put_again(text: &mut String, declared: u32) -> Result<(), AllocError> {
    write!(text, "the FEAT of line {declared} is measured again")?;
    Ok(())
}

// What is remarked of a statement.
fn put_what(text: &mut String, tables: &Tables, what: What) -> Result<(), AllocError> {
    match what {
        What::Far {
            feature,
            declared,
            far,
            approach,
        } => put_far(text, name_of(tables, feature), declared, far, approach),
        What::Turned {
            feature,
            along,
            declared,
            has,
        } => put_turned(text, name_of(tables, feature), along, declared, has),
        What::Again { declared } => put_again(text, declared),
        What::Never { feature } => put_never(text, name_of(tables, feature)),
        What::NoRound => text.push_str("this DO has no round"),
    }
}

// Remarks, a line for each.
fn put_lines(alloc: Global, tables: &Tables, remarks: &[Remark]) -> Result<String, AllocError> {
    let mut text = String::new(alloc);
    for remark in remarks {
        let line = remark.line;
        write!(text, "remark line {line}: ")?;
        put_what(&mut text, tables, remark.what)?;
        text.push_str("\n")?;
    }
    Ok(text)
}

/// Remarks of a run of a loaded code, a line for each.
///
/// Errors: want of memory.
pub fn remark_lines(
    alloc: Global,
    loaded: &Loaded<'_>,
    remarks: &[Remark],
) -> Result<String, NoMemory> {
    let tables = loaded.tables(alloc)?;
    match put_lines(alloc, &tables, remarks) {
        Ok(text) => Ok(text),
        Err(_) => Err(NoMemory),
    }
}

/// What is remarked of a run of what was given, a line for each remark; nothing where no notice is told.
///
/// Errors: want of memory.
pub fn remarks_text(
    alloc: Global,
    voice: Voice,
    given: &Given,
    part: &PartData,
    steps: u64,
) -> Result<String, NoMemory> {
    if voice.is_quiet {
        return Ok(String::new(alloc));
    }
    let Ok(loaded) = load(alloc, &given.image) else {
        return Err(NoMemory);
    };
    let workpiece = AnyPart::of(alloc, part)?;
    let remarks = meant(alloc, &loaded, &workpiece, part, steps)?;
    remark_lines(alloc, &loaded, remarks.as_slice())
}
