//! The probe file: a TOML text with an array of tables `box`, each with `name`, `low` and `high` and nothing else.

ghost use Rattle.std.specs.Prelude.{◌≡◌, ◌≤◌, true, [], length, map, option_map, IfOk, IsTrue};
ghost use Rattle.std.specs.List.{list_all, list_any};
ghost use Rattle.std.specs.Str.{bytes_eq};
ghost use Rattle.toml.specs.View.{view, items_view, table_view};
ghost use Rattle.toml.specs.Data.{get_member};
ghost use Rattle.vcm_part.specs.PartFile.{point_of, are_tables};
ghost use Rattle.vcm_boxes.specs.Boxes.{is_by_tip, is_corner, is_box, is_taken};
ghost use Rattle.vcm_boxes.specs.BoxFile.{unknown_key, name_at, corner_at, box_in, box_of, boxes_behind, boxes_of_rows, boxes_of_table, boxes_of, AreBoxesRead};
ghost use Rattle.vcm_boxes.specs.inner.Reads.{Gives};

use crate::boxes::{Boxes, ProbeBox};
use crate::fault::{BoxKey, BoxesFault, Refusal};
use crate::label::ShortName;
use std::alloc::Global;
use toml::{Table, Value};
use vcm_num::{Point, is};
use vcm_part::is_below;
use vcm_spec::Block3;

/// The most boxes of a probe.
const MOST_BOXES: usize = 16;

/// The most bytes of a box's name, and of a key that is told.
const LONGEST_NAME: usize = 16;

const LONGEST_KEY: usize = 32;

// Whether a key is one of these words.
fn is_one_of(known: &[&[u8]], key: &[u8]) -> bool
    ensures { result ≡ list_any (λ k. bytes_eq k key.now) (map (λ k. k.now) known.now) }
{
    for word in known {
        if is(word, key) {
            return true;
        }
    }
    false
}

// The first key of the table that isn't one of these.
fn unknown_key<'a>(known: &[&[u8]], table: &'a Table) -> Option<&'a str>
    ensures { option_map (λ k. k.now) result ≡ unknown_key (map (λ k. k.now) known.now) (table_view table.now) }
{
    for (key, _) in table.iter() {
        if !is_one_of(known, key.as_bytes()) {
            return Some(key.as_str());
        }
    }
    None
}

// The value at a key.
fn value_at<'a>(table: &'a Table, key: &str) -> Option<&'a Value>
    ensures { option_map (λ v. view v.now) result ≡ get_member key.now (table_view table.now) }
{
    table.get(key)
}

// The point of an array of three whole numbers.
#[tactic(auto, using(vcm_part::proofs::Points::short_items, vcm_part::proofs::Points::long_items))]
fn point_of(value: &Value) -> Option<Point>
    ensures { result ≡ point_of (view value.now) }
{
    let items = value.as_array()?;
    match items.as_slice() {
        [x, y, z] => Some(Point([x.as_integer()?, y.as_integer()?, z.as_integer()?])),
        _ => None,
    }
}

// Whether a coordinate is in range.
fn is_by_tip(z: i64) -> bool
    ensures { result ≡ is_by_tip z }
{
    -10_000_000 <= z && z <= 10_000_000
}

// Whether each coordinate of a corner is.
fn is_corner(corner: Point) -> bool
    ensures { result ≡ is_corner corner }
{
    let Point([x, y, z]) = corner;
    is_by_tip(x) && is_by_tip(y) && is_by_tip(z)
}

// The name of box `number`.
#[tactic(auto, unfolding(crate::specs::BoxFile::name_at))]
fn name_at(table: &Table, number: u32) -> Result<ShortName, BoxesFault>
    ensures { Gives (λ n. n) result (name_at number (table_view table.now)) }
{
    let Some(value) = value_at(table, BoxKey::Name.word()) else {
        return Err(BoxesFault::Refused(Refusal::BadKey(number, BoxKey::Name)));
    };
    let Some(text) = value.as_str() else {
        return Err(BoxesFault::Refused(Refusal::BadKey(number, BoxKey::Name)));
    };
    match ShortName::of(LONGEST_NAME, text.as_bytes()) {
        Some(name) => Ok(name),
        None => Err(BoxesFault::Refused(Refusal::BadKey(number, BoxKey::Name))),
    }
}

// The corner at a key of box `number`.
#[tactic(auto, unfolding(crate::specs::BoxFile::corner_at))]
fn corner_at(table: &Table, number: u32, key: BoxKey) -> Result<Point, BoxesFault>
    ensures gives { Gives (λ p. p) result (corner_at number key (table_view table.now)) }
    ensures near { IfOk result (λ p. IsTrue (is_corner p)) }
{
    let Some(value) = value_at(table, key.word()) else {
        return Err(BoxesFault::Refused(Refusal::BadKey(number, key)));
    };
    let Some(corner) = point_of(value) else {
        return Err(BoxesFault::Refused(Refusal::BadKey(number, key)));
    };
    if !is_corner(corner) {
        return Err(BoxesFault::Refused(Refusal::OutOfRange(number, key)));
    }
    Ok(corner)
}

// Whether one of these boxes has the name.
fn is_taken(name: &[u8], above: &[ProbeBox]) -> bool
    ensures { result ≡ is_taken name.now above.now }
{
    above.iter().any(|other| is(other.name.as_bytes(), name))
}

// The box of a table, which comes behind those above and is box `number`.
fn box_in(above: &[ProbeBox], number: u32, table: &Table) -> Result<ProbeBox, BoxesFault>
    ensures gives { Gives (λ b. b) result (box_in above.now number (table_view table.now)) }
    ensures valid { IfOk result (λ b. IsTrue (is_box b)) }
{
    if let Some(key) = unknown_key(&[b"name", b"low", b"high"], table) {
        return Err(BoxesFault::Refused(Refusal::UnknownBoxKey(
            number,
            ShortName::of(LONGEST_KEY, key.as_bytes()),
        )));
    }
    let name = name_at(table, number)?;
    let low = corner_at(table, number, BoxKey::Low)?;
    let high = corner_at(table, number, BoxKey::High)?;
    if !is_below(low, high) {
        return Err(BoxesFault::Refused(Refusal::LowAboveHigh(number)));
    }
    if is_taken(name.as_bytes(), above) {
        return Err(BoxesFault::Refused(Refusal::DuplicateName(number)));
    }
    Ok(ProbeBox {
        name,
        block: Block3 { low, high },
    })
}

// Whether all items are tables.
fn are_tables(rows: &[Value]) -> bool
    ensures { result ≡ are_tables (items_view rows.now) }
{
    for row in rows {
        if !row.is_table() {
            return false;
        }
    }
    true
}

// The box of a value, which comes behind those above.
#[tactic(auto, unfolding(crate::specs::BoxFile::box_of))]
fn box_of(above: &[ProbeBox], row: &Value) -> Result<ProbeBox, BoxesFault>
    requires { length above.now ≤ 16 }
    ensures gives { Gives (λ b. b) result (box_of above.now (view row.now)) }
    ensures valid { IfOk result (λ b. IsTrue (is_box b)) }
{
    match row.as_table() {
        Some(table) => box_in(above, above.len() as u32 + 1, table),
        None => Err(BoxesFault::Refused(Refusal::NoBoxes)),
    }
}

// The boxes of the rows, which are at most 16.
fn boxes_of_rows(alloc: Global, rows: &[Value]) -> Result<Vec<ProbeBox>, BoxesFault>
    requires { length rows.now ≤ 16 }
    ensures gives { Gives (λ v. v.items) result (boxes_behind [] (items_view rows.now)) }
    ensures valid { IfOk result (λ v. list_all is_box v.items ≡ true) }
    ensures many { IfOk result (λ v. length v.items ≡ length rows.now) }
{
    let mut boxes = Vec::with_capacity(alloc, rows.len())?;
    for row in rows {
        let next = box_of(&boxes, row)?;
        boxes.push(next)?;
    }
    Ok(boxes)
}

// The boxes of an array of tables.
#[tactic(auto, using(vcm_part::proofs::Rows::count_rows))]
fn boxes_in(alloc: Global, rows: &[Value]) -> Result<Boxes, BoxesFault>
    ensures { Gives (λ b. b) result (boxes_of_rows (items_view rows.now)) }
{
    if !are_tables(rows) {
        return Err(BoxesFault::Refused(Refusal::NoBoxes));
    }
    if MOST_BOXES < rows.len() {
        return Err(BoxesFault::Refused(Refusal::TooManyBoxes));
    }
    if rows.is_empty() {
        return Err(BoxesFault::Refused(Refusal::NoBoxes));
    }
    Ok(Boxes::new(boxes_of_rows(alloc, rows)?))
}

// The boxes of a table.
#[tactic(auto, unfolding(crate::specs::BoxFile::boxes_of_table))]
fn boxes_of_table(alloc: Global, table: &Table) -> Result<Boxes, BoxesFault>
    ensures { Gives (λ b. b) result (boxes_of_table (table_view table.now)) }
{
    if let Some(key) = unknown_key(&[b"box"], table) {
        return Err(BoxesFault::Refused(Refusal::UnknownKey(ShortName::of(
            LONGEST_KEY,
            key.as_bytes(),
        ))));
    }
    let Some(value) = value_at(table, "box") else {
        return Err(BoxesFault::Refused(Refusal::NoBoxes));
    };
    let Some(rows) = value.as_array() else {
        return Err(BoxesFault::Refused(Refusal::NoBoxes));
    };
    boxes_in(alloc, rows)
}

/// The boxes that the bytes of a probe file give.
///
/// The text is TOML: an array of tables `box`, 1 to 16 of them, each with `name`, a label of at most 16 bytes, and `low` and `high`, three whole
/// numbers of micrometres each, counted from the centre of the tip along the axes of the machine. No other key may stand there.
///
/// # Errors
///
/// The first in this order: bytes that are no UTF-8 or no TOML; another key beside `box`; no boxes, or more than 16; for each box another key in it,
/// its name, its low corner, its high corner (a bad key, then a coordinate beyond 10,000,000), low above high, and a name that a box above has.
/// `NoMemory` where a growth of memory was refused; the call may then be repeated.
#[tactic(auto, using(vcm_part::proofs::Bytes::text_is, vcm_part::proofs::Bytes::text_is_not), unfolding(crate::specs::BoxFile::boxes_of))]
pub fn read_boxes(alloc: Global, bytes: &[u8]) -> Result<Boxes, BoxesFault>
    ensures { AreBoxesRead bytes.now result }
{
    let Ok(text) = std::str::from_utf8(bytes) else {
        return Err(BoxesFault::Refused(Refusal::NotToml));
    };
    match toml::table_from_str(alloc, text) {
        Ok(table) => boxes_of_table(alloc, &table),
        Err(error) => if error.is_memory() {
            Err(BoxesFault::NoMemory)
        } else {
            Err(BoxesFault::Refused(Refusal::NotToml))
        },
    }
}
