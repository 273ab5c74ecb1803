//! The second line of a refusal of a part file.

use crate::millimetres::At;
use std::alloc::Global;
use std::fmt::Write as _;
use toml::{Table, Value};
use vcm_keys::{block_lines, line_of, open_line, places_of};
use vcm_num::{NoMemory, Point, WIDEST_TIP, cut_line};
use vcm_part::{PartCode, PartFault, is_met};
use vcm_spec::Block3;

/// The most bytes of a line that are told.
const LONGEST: usize = 60;

// Where something stands: the name of its file, its line, which is 0 where it isn't known, and the number of its block, or 0.
#[derive(Clone, Copy)]
struct FilePlace<'a> {
    name: &'a str,
    line: usize,
    block: u32,
}

// A line of a text, without its end.
fn line_at(text: &[u8], number: usize) -> &[u8] {
    let mut rest = text;
    for _ in 1..number {
        let (_, behind) = cut_line(rest);
        rest = behind;
    }
    let (line, _) = cut_line(rest);
    line
}

// Appends the front of a line, an odd byte as a question mark.
fn put_front(text: &mut String, line: &[u8]) -> Result<(), NoMemory> {
    for byte in line.iter().take(LONGEST) {
        let is_printable = 32 <= *byte && *byte <= 126;
        let letter = if is_printable { char::from(*byte) } else { '?' };
        text.push(letter)?;
    }
    if LONGEST < line.len() {
        text.push_str(" ..")?;
    }
    Ok(())
}

// Appends where something stands.
fn put_spot(text: &mut String, spot: FilePlace<'_>) -> Result<(), NoMemory> {
    let FilePlace { name, line, block } = spot;
    text.push_str(name)?;
    if line != 0 {
        write!(text, " line {line}")?;
    }
    text.push_str(": ")?;
    if block != 0 {
        write!(text, "block {block}: ")?;
    }
    Ok(())
}

/// Whether a text looks like a program: its first line begins with `DMISMN`, in letters of either case.
pub fn is_program(bytes: &[u8]) -> bool {
    match bytes.get(..6) {
        Some(front) => front.eq_ignore_ascii_case(b"DMISMN"),
        None => false,
    }
}

// How many line feeds there are.
fn feeds(bytes: &[u8]) -> usize {
    bytes.iter().filter(|byte| **byte == b'\n').count()
}

// The line of the first byte that is no text, where not all are.
fn odd_line(bytes: &[u8]) -> Option<usize> {
    match std::str::from_utf8(bytes) {
        Ok(_) => None,
        Err(error) => {
            let front = bytes.get(..error.valid_up_to()).unwrap_or(bytes);
            Some(feeds(front).saturating_add(1))
        }
    }
}

// The line on which the reader of TOML stopped, 0 where it stopped on none.
fn stopped_line(alloc: Global, bytes: &[u8]) -> Result<usize, NoMemory> {
    let Ok(text) = std::str::from_utf8(bytes) else {
        return Ok(0);
    };
    match toml::table_from_str(alloc, text) {
        Ok(_) => Ok(0),
        Err(error) => match error.span() {
            Some(span) => {
                let front = bytes.get(..span.start).unwrap_or(bytes);
                Ok(feeds(front).saturating_add(1))
            }
            None => Err(NoMemory),
        },
    }
}

// Appends what is told of bytes that are no TOML: the line on which the statement begins that never ends as TOML; where each statement is TOML by
// itself, the line on which the reader stopped.
fn put_not_toml(
    text: &mut String,
    alloc: Global,
    name: &str,
    bytes: &[u8],
) -> Result<(), NoMemory> {
    if is_program(bytes) {
        return Ok(write!(
            text,
            "in {name}, which looks like a program: its first line begins with DMISMN"
        )?);
    }
    if let Some(line) = odd_line(bytes) {
        return Ok(write!(text, "{name} line {line}: a byte here is no UTF-8")?);
    }
    let line = match open_line(alloc, bytes) {
        Ok(Some(line)) => line,
        Ok(None) => stopped_line(alloc, bytes)?,
        Err(_) => return Err(NoMemory),
    };
    if line == 0 {
        return Ok(write!(text, "in {name}")?);
    }
    write!(text, "{name} line {line}: this is no TOML: ")?;
    put_front(text, line_at(bytes, line))
}

// The three whole numbers of a value.
fn point_of(value: &Value) -> Option<Point> {
    let items = value.as_array()?;
    match items.as_slice() {
        [x, y, z] => Some(Point([x.as_integer()?, y.as_integer()?, z.as_integer()?])),
        _ => None,
    }
}

// Those at a key.
fn point_at(table: &Table, key: &str) -> Option<Point> {
    point_of(table.get(key)?)
}

// Appends why a value isn't three whole numbers.
fn put_no_point(text: &mut String, key: &str, value: &Value) -> Result<(), NoMemory> {
    write!(text, "{key} wants three whole numbers of micrometres, and ")?;
    let Some(items) = value.as_array() else {
        return Ok(write!(text, "{value} is none")?);
    };
    for item in items {
        if !item.is_integer() {
            return Ok(write!(text, "{item} is none")?);
        }
    }
    let count = items.len();
    Ok(write!(text, "has {count}")?)
}

// A key that has to have three whole numbers, with its line and those of its block.
#[derive(Clone, Copy)]
struct Corner<'a> {
    key: &'a str,
    spot: FilePlace<'a>,
    block_line: usize,
}

// Appends why the value at a key isn't three whole numbers, if it isn't.
fn put_bad_corner(text: &mut String, table: &Table, corner: Corner<'_>) -> Result<bool, NoMemory> {
    let key = corner.key;
    let Some(value) = table.get(key) else {
        let spot = FilePlace {
            line: corner.block_line,
            ..corner.spot
        };
        put_spot(text, spot)?;
        write!(text, "{key} is missing, three whole numbers of micrometres")?;
        return Ok(true);
    };
    if point_of(value).is_some() {
        return Ok(false);
    }
    put_spot(text, corner.spot)?;
    put_no_point(text, key, value)?;
    Ok(true)
}

// The first coordinate that is more than a kilometre from 0.
fn far_coordinate(point: Point) -> Option<i64> {
    let Point([x, y, z]) = point;
    [x, y, z]
        .iter()
        .copied()
        .find(|coordinate| coordinate.unsigned_abs() > 1_000_000_000)
}

// Appends which coordinate at a key is too far from 0, if one is.
fn put_far_corner(text: &mut String, table: &Table, corner: Corner<'_>) -> Result<bool, NoMemory> {
    let key = corner.key;
    let Some(point) = point_at(table, key) else {
        return Ok(false);
    };
    let Some(coordinate) = far_coordinate(point) else {
        return Ok(false);
    };
    put_spot(text, corner.spot)?;
    write!(text, "{key}: {coordinate} is more than 1000000000 from 0")?;
    Ok(true)
}

// Appends why the tip isn't read.
fn put_bad_tip(text: &mut String, table: &Table, spot: FilePlace<'_>) -> Result<bool, NoMemory> {
    let Some(value) = table.get("tip") else {
        return Ok(false);
    };
    match value.as_integer() {
        Some(tip) if 0 <= tip && tip <= i64::from(WIDEST_TIP) => return Ok(false),
        Some(tip) => {
            put_spot(text, spot)?;
            write!(text, "tip: {tip} isn't within 0 to 50000")?;
        }
        None => {
            put_spot(text, spot)?;
            write!(
                text,
                "tip wants a whole number of micrometres, and {value} is none"
            )?;
        }
    }
    Ok(true)
}

// A refused part file: its name, its table, the lines on which its blocks begin, and the places of its keys.
#[derive(Clone, Copy)]
struct Refused<'a> {
    name: &'a str,
    table: &'a Table,
    lines: &'a [usize],
    places: &'a [vcm_keys::KeyPlace],
    fault: PartFault,
}

// The blocks of a table.
fn rows_of(table: &Table) -> &[Value] {
    let Some(value) = table.get("block") else {
        return &[];
    };
    match value.as_array() {
        Some(rows) => rows,
        None => &[],
    }
}

// The table of a block, or where that is 0 the machine's.
fn table_of<'a>(table: &'a Table, block: u32) -> Option<&'a Table> {
    if block == 0 {
        return Some(table);
    }
    let index = (block as usize).saturating_sub(1);
    rows_of(table).get(index)?.as_table()
}

// Where a key of the block at fault stands.
fn spot_of<'a>(refused: &Refused<'a>, key: &str) -> FilePlace<'a> {
    let block = refused.fault.block;
    FilePlace {
        name: refused.name,
        line: line_of(block as usize, key.as_bytes(), refused.places),
        block,
    }
}

// The line on which the block at fault begins, 0 where it isn't known.
fn block_line(refused: &Refused<'_>) -> usize {
    if refused.lines.len() != rows_of(refused.table).len() || refused.fault.block == 0 {
        return 0;
    }
    let index = (refused.fault.block as usize).saturating_sub(1);
    match refused.lines.get(index) {
        Some(line) => *line,
        None => 0,
    }
}

// A key of three whole numbers, with where it stands.
fn corner_of<'a>(refused: &Refused<'a>, key: &'a str) -> Corner<'a> {
    Corner {
        key,
        spot: spot_of(refused, key),
        block_line: block_line(refused),
    }
}

// The keys of three whole numbers that the machine has, or a block.
fn corner_keys(block: u32) -> &'static [&'static str] {
    if block == 0 {
        &["low", "high", "home"]
    } else {
        &["low", "high"]
    }
}

// Appends which key isn't read.
fn put_key(text: &mut String, refused: &Refused<'_>, is_far: bool) -> Result<(), NoMemory> {
    let Some(table) = table_of(refused.table, refused.fault.block) else {
        return Ok(());
    };
    for key in corner_keys(refused.fault.block) {
        let corner = corner_of(refused, key);
        let is_told = if is_far {
            put_far_corner(text, table, corner)?
        } else {
            put_bad_corner(text, table, corner)?
        };
        if is_told {
            return Ok(());
        }
    }
    if refused.fault.block == 0 && put_bad_tip(text, table, spot_of(refused, "tip"))? {
        return Ok(());
    }
    put_spot(text, spot_of(refused, "block"))?;
    Ok(text.push_str("block wants a heading [[block]] for each block")?)
}

// Along which axis a low corner is above the high one, with both coordinates.
fn above(low: Point, high: Point) -> Option<(&'static str, i64, i64)> {
    let Point([a, b, c]) = low;
    let Point([d, e, f]) = high;
    if d < a {
        Some(("x", a, d))
    } else if e < b {
        Some(("y", b, e))
    } else if f < c {
        Some(("z", c, f))
    } else {
        None
    }
}

// Appends along which axis a low corner is above the high one.
fn put_above(text: &mut String, refused: &Refused<'_>) -> Result<(), NoMemory> {
    put_spot(text, spot_of(refused, "low"))?;
    let Some(table) = table_of(refused.table, refused.fault.block) else {
        return Ok(());
    };
    let Some(block) = corners_of(table) else {
        return Ok(());
    };
    if let Some((axis, low, high)) = above(block.low, block.high) {
        write!(
            text,
            "low is {low} along {axis}, above high, which is {high}"
        )?;
    }
    Ok(())
}

// The corners of a table.
fn corners_of(table: &Table) -> Option<Block3> {
    Some(Block3 {
        low: point_at(table, "low")?,
        high: point_at(table, "high")?,
    })
}

// The number of the first block that the tip meets at a place.
fn first_met(table: &Table, home: Point) -> Option<usize> {
    let tip = match table.get("tip") {
        Some(value) => u32::try_from(value.as_integer()?).ok()?,
        None => 0,
    };
    let mut number = 0usize;
    for row in rows_of(table) {
        number = number.saturating_add(1);
        if is_met(&corners_of(row.as_table()?)?, tip, home) {
            return Some(number);
        }
    }
    None
}

// Appends why home isn't clear.
fn put_home(text: &mut String, refused: &Refused<'_>) -> Result<(), NoMemory> {
    put_spot(text, spot_of(refused, "home"))?;
    let Some(home) = point_at(refused.table, "home") else {
        return Ok(());
    };
    match first_met(refused.table, home) {
        Some(number) => {
            write!(text, "at home, {}, the tip meets block {number}", At(home))?;
            match refused.lines.get(number.saturating_sub(1)) {
                Some(line) if refused.lines.len() == rows_of(refused.table).len() => {
                    Ok(write!(text, " of line {line}")?)
                }
                _ => Ok(()),
            }
        }
        None => Ok(write!(
            text,
            "home, {}, lies outside of the limits low and high",
            At(home)
        )?),
    }
}

// Appends what is told of a refused table.
fn put_refused(text: &mut String, refused: &Refused<'_>) -> Result<(), NoMemory> {
    match refused.fault.code {
        PartCode::NoMemory | PartCode::NotToml => Ok(()),
        PartCode::BadKey => put_key(text, refused, false),
        PartCode::OutOfRange => put_key(text, refused, true),
        PartCode::LowAboveHigh => put_above(text, refused),
        PartCode::TooManyBlocks => {
            let name = refused.name;
            let count = rows_of(refused.table).len();
            Ok(write!(text, "{name}: {count} blocks, where 4096 are the most")?)
        }
        PartCode::HomeNotClear => put_home(text, refused),
    }
}

// Appends what is told of bytes that are TOML.
fn put_table(
    text: &mut String,
    alloc: Global,
    name: &str,
    bytes: &[u8],
    fault: PartFault,
) -> Result<(), NoMemory> {
    let Ok(document) = std::str::from_utf8(bytes) else {
        return Ok(());
    };
    let Ok(table) = toml::table_from_str(alloc, document) else {
        return Err(NoMemory);
    };
    let Ok(places) = places_of(alloc, bytes) else {
        return Err(NoMemory);
    };
    let Ok(lines) = block_lines(alloc, &places) else {
        return Err(NoMemory);
    };
    let refused = Refused {
        name,
        table: &table,
        lines: &lines,
        places: &places,
        fault,
    };
    put_refused(text, &refused)
}

/// What is told of a refused part file besides its code, in a line without its end: the name of the file, the line and the key at fault, and what is wrong
/// with it. None where memory runs out.
pub fn second_line(alloc: Global, name: &str, bytes: &[u8], fault: PartFault) -> Option<String> {
    let mut text = String::new(alloc);
    let done = match fault.code {
        PartCode::NoMemory => return None,
        PartCode::NotToml => put_not_toml(&mut text, alloc, name, bytes),
        _ => put_table(&mut text, alloc, name, bytes, fault),
    };
    match done {
        Ok(()) => Some(text),
        Err(_) => None,
    }
}
