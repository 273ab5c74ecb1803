//! A survey as text.

ghost use Rattle.std.specs.Prelude.{◌≡◌};
ghost use Rattle.std.specs.List.{count_by};
ghost use Rattle.vcm_classes.specs.Rows.{same_class};

use crate::groups::{put_count, put_groups};
use crate::words::{caution_words, count_words};
use std::alloc::Global;
use vcm_num::{NoMemory, write_int};
use vcm_rules::{Caution, Class, Position, Renaming, Row, Surveyed};

/// How many statements have a class.
pub(crate) fn count_of(rows: &[Row], class: Class) -> usize
    ensures { result ≡ count_by (λ r. same_class r.class class) rows.now }
{
    rows.iter().filter(|row| row.class.is(class)).count()
}

// Appends how many statements a class has.
fn put_class(rows: &[Row], class: Class, out: &mut Vec<u8>) -> Result<(), NoMemory> {
    put_count(count_of(rows, class), out)?;
    out.push(b' ')?;
    out.extend_from_slice(count_words(class).as_bytes())?;
    out.push(b'\n')?;
    Ok(())
}

// Appends a whole number.
fn put_number(number: usize, out: &mut Vec<u8>) -> Result<(), NoMemory> {
    write_int(i64::try_from(number).unwrap_or(i64::MAX), out)
}

/// Appends the counts of a text: its name, lines and statements, and those of each class.
pub(crate) fn put_counts(
    name: &[u8],
    lines: usize,
    rows: &[Row],
    out: &mut Vec<u8>,
) -> Result<(), NoMemory> {
    out.extend_from_slice(name)?;
    out.extend_from_slice(b": ")?;
    put_number(lines, out)?;
    out.extend_from_slice(b" lines, ")?;
    put_number(rows.len(), out)?;
    out.extend_from_slice(b" statements\n")?;
    if count_of(rows, Class::Fault) != 0 {
        put_class(rows, Class::Fault, out)?;
    }
    put_class(rows, Class::Fits, out)?;
    put_class(rows, Class::Notice, out)?;
    put_class(rows, Class::LeftOut, out)?;
    put_class(rows, Class::PutOtherwise, out)?;
    put_class(rows, Class::NotTried, out)
}

// Appends a name as it stands in a statement.
fn put_name(renaming: &Renaming, name: &[u8], out: &mut Vec<u8>) -> Result<(), NoMemory> {
    if !renaming.is_label {
        out.extend_from_slice(name)?;
        return Ok(());
    }
    out.extend_from_slice(renaming.letters)?;
    out.push(b'(')?;
    out.extend_from_slice(name)?;
    out.push(b')')?;
    Ok(())
}

// Appends a name and the one that stands for it.
fn put_renaming(renaming: &Renaming, out: &mut Vec<u8>) -> Result<(), NoMemory> {
    out.extend_from_slice(b"      ")?;
    put_name(renaming, renaming.old.as_slice(), out)?;
    out.extend_from_slice(b" is ")?;
    put_name(renaming, renaming.new.as_slice(), out)?;
    out.push(b'\n')?;
    Ok(())
}

// Appends the name of a point that is touched.
fn put_point(row: &Row, name: &[u8], out: &mut Vec<u8>) -> Result<(), NoMemory> {
    out.extend_from_slice(b"      F(")?;
    out.extend_from_slice(name)?;
    out.extend_from_slice(b") is the point of line ")?;
    write_int(i64::from(row.line), out)?;
    out.push(b'\n')?;
    Ok(())
}

// Appends the names of the points that are touched.
fn put_points(surveyed: &Surveyed, out: &mut Vec<u8>) -> Result<(), NoMemory> {
    for (row, name) in surveyed.rows.iter().zip(surveyed.points.iter()) {
        if row.lines.is_some() && !name.is_empty() {
            put_point(row, name.as_slice(), out)?;
        }
    }
    Ok(())
}

// Whether points are touched one by one.
fn has_points(rows: &[Row]) -> bool {
    rows.iter().any(|row| row.lines.is_some())
}

// Appends the names that are replaced, and those of points, where there are any.
fn put_names(surveyed: &Surveyed, out: &mut Vec<u8>) -> Result<(), NoMemory> {
    if surveyed.renamings.is_empty() && !has_points(surveyed.rows.as_slice()) {
        return Ok(());
    }
    out.extend_from_slice(b"names\n")?;
    for renaming in &surveyed.renamings {
        put_renaming(renaming, out)?;
    }
    put_points(surveyed, out)
}

// Appends hundred thousandths with their five decimals.
fn put_hundred_thousandths(value: i64, out: &mut Vec<u8>) -> Result<(), NoMemory> {
    write_int(value / 100_000, out)?;
    out.push(b'.')?;
    write_int(value / 10_000 % 10, out)?;
    write_int(value / 1000 % 10, out)?;
    write_int(value / 100 % 10, out)?;
    write_int(value / 10 % 10, out)?;
    write_int(value % 10, out)
}

// Appends how many numbers are rounded, and by how much at most, where there are any.
fn put_rounded(surveyed: &Surveyed, out: &mut Vec<u8>) -> Result<(), NoMemory> {
    if surveyed.rounded == 0 {
        return Ok(());
    }
    out.extend_from_slice(b"rounded\n")?;
    put_count(surveyed.rounded as usize, out)?;
    out.extend_from_slice(b" numbers, by ")?;
    put_hundred_thousandths(surveyed.most.saturating_add(50) / 100, out)?;
    out.extend_from_slice(b" mm at most\n")?;
    Ok(())
}

// Appends `      line N: `.
fn put_line_number(line: u32, out: &mut Vec<u8>) -> Result<(), NoMemory> {
    out.extend_from_slice(b"      line ")?;
    write_int(i64::from(line), out)?;
    out.extend_from_slice(b": ")?;
    Ok(())
}

// Appends where home is, where the text says it.
fn put_home(home: Option<(u32, Position)>, out: &mut Vec<u8>) -> Result<(), NoMemory> {
    let Some((line, position)) = home else {
        return Ok(());
    };
    out.extend_from_slice(b"home\n")?;
    put_line_number(line, out)?;
    out.extend_from_slice(b"home = [")?;
    write_int(position.x, out)?;
    out.extend_from_slice(b", ")?;
    write_int(position.y, out)?;
    out.extend_from_slice(b", ")?;
    write_int(position.z, out)?;
    out.extend_from_slice(b"]\n")?;
    Ok(())
}

// Appends where a way begins elsewhere.
fn put_beginning(line: u32, out: &mut Vec<u8>) -> Result<(), NoMemory> {
    out.extend_from_slice(b"the way to here begins ")?;
    if line == 0 {
        out.extend_from_slice(b"at home")?;
    } else {
        out.extend_from_slice(b"where line ")?;
        write_int(i64::from(line), out)?;
        out.extend_from_slice(b" left the probe")?;
    }
    out.extend_from_slice(b"; that part of the way isn't the machine's")?;
    Ok(())
}

// Appends what may matter at a line.
fn put_caution(line: u32, caution: Caution, out: &mut Vec<u8>) -> Result<(), NoMemory> {
    put_line_number(line, out)?;
    match caution {
        Caution::OtherBeginning(left) => put_beginning(left, out)?,
        _ => out.extend_from_slice(caution_words(caution).as_bytes())?,
    }
    out.push(b'\n')?;
    Ok(())
}

// Appends what may matter, where there is anything.
fn put_cautions(cautions: &[(u32, Caution)], out: &mut Vec<u8>) -> Result<(), NoMemory> {
    if cautions.is_empty() {
        return Ok(());
    }
    out.extend_from_slice(b"look at\n")?;
    for (line, caution) in cautions {
        put_caution(*line, *caution, out)?;
    }
    Ok(())
}

// Appends what stands behind the groups.
fn put_notes(surveyed: &Surveyed, out: &mut Vec<u8>) -> Result<(), NoMemory> {
    put_names(surveyed, out)?;
    put_rounded(surveyed, out)?;
    put_home(surveyed.home, out)?;
    put_cautions(surveyed.cautions.as_slice(), out)
}

/// Appends the groups of a survey, and what stands behind them.
pub(crate) fn put_all_groups(
    alloc: Global,
    surveyed: &Surveyed,
    out: &mut Vec<u8>,
) -> Result<(), NoMemory> {
    let rows = surveyed.rows.as_slice();
    put_groups(alloc, rows, Class::Fault, out)?;
    put_groups(alloc, rows, Class::NotTried, out)?;
    put_groups(alloc, rows, Class::PutOtherwise, out)?;
    put_groups(alloc, rows, Class::LeftOut, out)?;
    put_notes(surveyed, out)
}

/// Appends what is told beside an adapted text.
pub(crate) fn put_warnings(
    alloc: Global,
    surveyed: &Surveyed,
    out: &mut Vec<u8>,
) -> Result<(), NoMemory> {
    let rows = surveyed.rows.as_slice();
    put_groups(alloc, rows, Class::Fault, out)?;
    put_groups(alloc, rows, Class::NotTried, out)?;
    put_notes(surveyed, out)
}
