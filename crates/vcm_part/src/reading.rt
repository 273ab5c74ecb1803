//! The part file: a TOML text with `low`, `high`, `home` and `tip` of the machine, and tables `block` with `low` and `high` each.

ghost use Rattle.std.specs.Prelude.{◌≡◌, ◌≤◌, length, option_map, Some, None, IfOk, IsTrue};
ghost use Rattle.std.specs.List.{list_all};
ghost use Rattle.toml.specs.View.{view, items_view, table_view};
ghost use Rattle.toml.specs.Data.{get_member};
ghost use Rattle.vcm_num.specs.Point.{is_near};
ghost use Rattle.vcm_spec.specs.Workpiece.{is_block};
ghost use Rattle.vcm_part.specs.PartFile.{point_of, point_at, tip_at, fixture_at, are_tables, block_of, blocks_from, blocks_at, is_clear, part_of_table, part_of, IsPartRead};
ghost use Rattle.vcm_part.specs.inner.NotRead.{Gives};

use crate::data::PartData;
use crate::fault::{NotRead, PartCode, PartFault};
use crate::inside::{is_below, is_some_met, is_within};
use std::alloc::Global;
use toml::{Table, Value};
use vcm_num::{MOST_BLOCKS, Point};
use vcm_spec::{Block3, Bounds};

// Half the width of the greatest tip.
const MOST_TIP: i64 = vcm_num::WIDEST_TIP as i64;

// A refusal, and the number of the block at fault, or 0.
fn refused(code: PartCode, block: u32) -> NotRead
    ensures { result ≡ NotRead.Fault (record { code = code; block = block }) }
{
    NotRead::Fault(PartFault { code, block })
}

// The point of an array of three whole numbers.
#[tactic(auto, using(crate::proofs::Points::short_items, crate::proofs::Points::long_items))]
fn point_of(value: &Value) -> Option<Point>
    ensures { result ≡ point_of (view value.now) }
{
    let items = value.as_array()?;
    match items.as_slice() {
        [x, y, z] => Some(Point([x.as_integer()?, y.as_integer()?, z.as_integer()?])),
        _ => None,
    }
}

// The value at a key.
fn value_at<'a>(table: &'a Table, key: &str) -> Option<&'a Value>
    ensures { option_map (λ v. view v.now) result ≡ get_member key.now (table_view table.now) }
{
    table.get(key)
}

// The point at a key of the table, or of the block of that number.
#[tactic(auto, unfolding(crate::specs::PartFile::point_at))]
fn point_at(table: &Table, key: &str, number: u32) -> Result<Point, NotRead>
    ensures gives { Gives (λ p. p) result (point_at key.now number (table_view table.now)) }
    ensures near { IfOk result (λ p. IsTrue (is_near p)) }
{
    let Some(value) = value_at(table, key) else {
        return Err(refused(PartCode::BadKey, number));
    };
    let Some(point) = point_of(value) else {
        return Err(refused(PartCode::BadKey, number));
    };
    if !point.is_near() {
        return Err(refused(PartCode::OutOfRange, number));
    }
    Ok(point)
}

// Half the width of the tip, 0 where the table has no key `tip`.
#[tactic(auto, unfolding(crate::specs::PartFile::tip_at))]
fn tip_at(table: &Table) -> Result<u32, NotRead>
    ensures gives { Gives (λ h. h) result (tip_at (table_view table.now)) }
    ensures small { IfOk result (λ h. h ≤ 50000) }
{
    let Some(value) = value_at(table, "tip") else {
        return Ok(0);
    };
    let Some(tip) = value.as_integer() else {
        return Err(refused(PartCode::BadKey, 0));
    };
    if !(0 <= tip && tip <= MOST_TIP) {
        return Err(refused(PartCode::OutOfRange, 0));
    }
    Ok(tip as u32)
}

// Whether the block of that number is one of the fixture, as the key says: it isn't where there is none.
#[tactic(auto, unfolding(crate::specs::PartFile::fixture_at))]
fn fixture_at(table: &Table, number: u32) -> Result<bool, NotRead>
    ensures { Gives (λ b. b) result (fixture_at number (table_view table.now)) }
{
    let Some(value) = value_at(table, "fixture") else {
        return Ok(false);
    };
    let Some(is_fixed) = value.as_bool() else {
        return Err(refused(PartCode::BadKey, number));
    };
    Ok(is_fixed)
}

// The block of that number.
#[tactic(auto, unfolding(crate::specs::PartFile::block_of))]
fn block_of(value: &Value, number: u32) -> Result<Block3, NotRead>
    ensures gives { Gives (λ b. b) result (block_of number (view value.now)) }
    ensures valid { IfOk result (λ b. IsTrue (is_block b)) }
{
    let Some(table) = value.as_table() else {
        return Err(refused(PartCode::BadKey, number));
    };
    let low = point_at(table, "low", number)?;
    let high = point_at(table, "high", number)?;
    let _is_fixed = fixture_at(table, number)?;
    if !is_below(low, high) {
        return Err(refused(PartCode::LowAboveHigh, number));
    }
    Ok(Block3 { low, high })
}

// Whether all items are tables.
fn are_tables(rows: &[Value]) -> bool
    ensures { result ≡ are_tables (items_view rows.now) }
{
    for row in rows {
        if !row.is_table() {
            return false;
        }
    }
    true
}

// The blocks of the items, counted from 1.
fn blocks_of(alloc: Global, rows: &[Value]) -> Result<Vec<Block3>, NotRead>
    requires { length rows.now ≤ 4096 }
    ensures gives { Gives (λ v. v.items) result (blocks_from 1 (items_view rows.now)) }
    ensures valid { IfOk result (λ v. IsTrue (list_all is_block v.items)) }
    ensures few { IfOk result (λ v. length v.items ≤ 4096) }
{
    let mut blocks = Vec::new(alloc);
    let mut number = 0;
    for row in rows {
        number += 1;
        let block = block_of(row, number)?;
        blocks.push(block)?;
    }
    Ok(blocks)
}

// The blocks of the table, which has no key `block` where there are none.
#[tactic(auto, using(crate::proofs::Rows::count_rows), unfolding(crate::specs::PartFile::blocks_at))]
fn blocks_at(alloc: Global, table: &Table) -> Result<Vec<Block3>, NotRead>
    ensures gives { Gives (λ v. v.items) result (blocks_at (table_view table.now)) }
    ensures valid { IfOk result (λ v. IsTrue (list_all is_block v.items)) }
    ensures few { IfOk result (λ v. length v.items ≤ 4096) }
{
    let Some(value) = value_at(table, "block") else {
        return blocks_of(alloc, &[]);
    };
    let Some(rows) = value.as_array() else {
        return Err(refused(PartCode::BadKey, 0));
    };
    if !are_tables(rows) {
        return Err(refused(PartCode::BadKey, 0));
    }
    if MOST_BLOCKS < rows.len() {
        return Err(refused(PartCode::TooManyBlocks, 0));
    }
    blocks_of(alloc, rows)
}

// Whether home lies within the limits, and the tip meets no block there.
fn is_clear(bounds: &Bounds, blocks: &[Block3]) -> bool
    ensures { result ≡ is_clear bounds.now blocks.now }
{
    is_within(bounds, bounds.home) && !is_some_met(blocks, bounds.tip, bounds.home)
}

// The workpiece of the table.
#[tactic(auto, unfolding(crate::specs::PartFile::part_of_table))]
fn part_of_table(alloc: Global, table: &Table) -> Result<PartData, NotRead>
    ensures { Gives (λ p. p) result (part_of_table (table_view table.now)) }
{
    let low = point_at(table, "low", 0)?;
    let high = point_at(table, "high", 0)?;
    let home = point_at(table, "home", 0)?;
    let tip = tip_at(table)?;
    if !is_below(low, high) {
        return Err(refused(PartCode::LowAboveHigh, 0));
    }
    let blocks = blocks_at(alloc, table)?;
    let bounds = Bounds {
        low,
        high,
        home,
        tip,
    };
    if !is_clear(&bounds, &blocks) {
        return Err(refused(PartCode::HomeNotClear, 0));
    }
    Ok(PartData::new(bounds, blocks))
}

// The workpiece of the bytes.
#[tactic(auto, using(crate::proofs::Bytes::text_is, crate::proofs::Bytes::text_is_not), unfolding(crate::specs::PartFile::part_of))]
fn part_of(alloc: Global, bytes: &[u8]) -> Result<PartData, NotRead>
    ensures { Gives (λ p. p) result (part_of bytes.now) }
{
    let Ok(text) = std::str::from_utf8(bytes) else {
        return Err(refused(PartCode::NotToml, 0));
    };
    match toml::table_from_str(alloc, text) {
        Ok(table) => part_of_table(alloc, &table),
        Err(error) => if error.is_memory() {
            Err(NotRead::Memory)
        } else {
            Err(refused(PartCode::NotToml, 0))
        },
    }
}

/// The workpiece that the bytes of a part file give.
///
/// The text is TOML with whole numbers of micrometres: `low`, `high` and `home` with three each, `tip`, which may be absent and is 0 then,
/// and an array of tables `block`, which may be absent, with `low` and `high` each, and maybe `fixture`, true or false. Other keys are ignored.
///
/// # Errors
///
/// The first in this order: bytes that are no UTF-8 or no TOML; for `low`, `high`, `home` and `tip` each a bad key, then a number out of
/// range, which for `tip` is one outside 0 to 50,000; limits with low above high; `block` that isn't an array of tables; more than 4,096
/// blocks; for each block the same of its `low` and `high`, a bad key `fixture`, and then low above high; home outside the limits or where the tip meets a
/// block. `NoMemory`, with block 0, where a growth of memory was refused; the call may then be repeated.
pub fn read_part(alloc: Global, bytes: &[u8]) -> Result<PartData, PartFault>
    ensures { IsPartRead bytes.now result }
{
    match part_of(alloc, bytes) {
        Ok(part) => Ok(part),
        Err(NotRead::Memory) => Err(PartFault {
            code: PartCode::NoMemory,
            block: 0,
        }),
        Err(NotRead::Fault(fault)) => Err(fault),
    }
}
