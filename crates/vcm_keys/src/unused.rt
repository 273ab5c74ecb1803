//! The keys that nothing uses.

ghost use Rattle.std.specs.Prelude.{◌≡◌, ◌++◌, ◌&&◌, nat_le, length, IfOk, OnOk, option_map, map};
ghost use Rattle.std.specs.List.{list_any, list_all};
ghost use Rattle.std.specs.Str.{bytes_eq};
ghost use Rattle.toml.specs.Data.{as_table, get_member};
ghost use Rattle.toml.specs.View.{view, items_view, table_view};
ghost use Rattle.vcm_keys.specs.Unused.{is_name, name_of, is_machine_key, is_block_key, is_used, unused_in, unused_in_row, unused_in_rows, unused_of_table, rows_of};

use crate::place::KeyPlace;
use std::alloc::Global;
use toml::{Table, Value};
use vcm_boxes::ShortName;
use vcm_num::{NoMemory, is};

/// The most bytes of a name, and of a key that is told.
const LONGEST: usize = 32;

// Whether all of these bytes are printable.
fn are_printable(bytes: &[u8]) -> bool
    ensures { result ≡ list_all (λ b. nat_le 32 b && nat_le b 126) bytes.now }
{
    bytes.iter().all(|byte| 32 <= *byte && *byte <= 126)
}

// Whether a name can be shown.
fn is_name(name: &[u8]) -> bool
    ensures { result ≡ is_name name.now }
{
    1 <= name.len() && name.len() <= LONGEST && are_printable(name)
}

/// The name that a value is, if it can be shown.
pub(crate) fn name_of(value: &Value) -> Option<&[u8]>
    ensures { option_map (λ n. n.now) result ≡ name_of (view value.now) }
{
    let name = value.as_str()?.as_bytes();
    if is_name(name) { Some(name) } else { None }
}

// Whether a key is one of these words.
fn is_one_of(known: &[&[u8]], key: &[u8]) -> bool
    ensures { result ≡ list_any (λ k. bytes_eq k key.now) (map (λ k. k.now) known.now) }
{
    for word in known {
        if is(word, key) {
            return true;
        }
    }
    false
}

// Whether a key of the machine is used.
fn is_machine_key(key: &[u8]) -> bool
    ensures { result ≡ is_machine_key key.now }
{
    is_one_of(&[b"low", b"high", b"home", b"tip", b"block"], key)
}

// Whether a key of a block is used, with this value.
fn is_block_key(key: &[u8], value: &Value) -> bool
    ensures { result ≡ is_block_key key.now (view value.now) }
{
    is_one_of(&[b"low", b"high", b"fixture"], key) || (is(key, b"name") && name_of(value).is_some())
}

// Whether a key of the machine, which is block 0, or of a block is used.
fn is_used(block: usize, key: &[u8], value: &Value) -> bool
    ensures { result ≡ is_used block key.now (view value.now) }
{
    if block == 0 {
        is_machine_key(key)
    } else {
        is_block_key(key, value)
    }
}

// Appends the keys of a table that nothing uses, as those of a block.
fn put_unused(unused: &mut Vec<KeyPlace>, block: usize, table: &Table) -> Result<(), NoMemory>
    ensures { OnOk result (unused.new.items ≡ unused.old.items ++ unused_in block (table_view table.now)) }
{
    for (key, value) in table.iter() {
        if !is_used(block, key.as_bytes(), value) {
            let key = ShortName::of(LONGEST, key.as_bytes());
            unused.push(KeyPlace {
                line: 0,
                block,
                key,
            })?;
        }
    }
    Ok(())
}

// Appends the keys of rows that nothing uses, which are blocks.
fn put_rows(unused: &mut Vec<KeyPlace>, rows: &[Value]) -> Result<(), NoMemory>
    ensures { OnOk result (unused.new.items ≡ unused.old.items ++ unused_in_rows 1 (items_view rows.now)) }
{
    let mut block = 1;
    for row in rows {
        put_row(unused, block, row)?;
        block += 1;
    }
    Ok(())
}

// Appends those of a row.
fn put_row(unused: &mut Vec<KeyPlace>, block: usize, row: &Value) -> Result<(), NoMemory>
    ensures { OnOk result (unused.new.items ≡ unused.old.items ++ unused_in_row block (as_table (view row.now))) }
{
    match row.as_table() {
        Some(table) => put_unused(unused, block, table),
        None => Ok(()),
    }
}

/// The value at a key.
pub(crate) fn value_at<'a>(table: &'a Table, key: &str) -> Option<&'a Value>
    ensures { option_map (λ v. view v.now) result ≡ get_member key.now (table_view table.now) }
{
    table.get(key)
}

// The rows of a table.
pub(crate) fn rows_of(table: &Table) -> &[Value]
    ensures { items_view result.now ≡ rows_of (table_view table.now) }
{
    let Some(value) = value_at(table, "block") else {
        return &[];
    };
    match value.as_array() {
        Some(rows) => rows,
        None => &[],
    }
}

/// The keys of a table that nothing uses: first the machine's, then the blocks'.
pub(crate) fn unused_of_table(alloc: Global, table: &Table) -> Result<Vec<KeyPlace>, NoMemory>
    ensures { IfOk result (λ v. v.items ≡ unused_of_table (table_view table.now)) }
{
    let mut unused = Vec::new(alloc);
    put_unused(&mut unused, 0, table)?;
    put_rows(&mut unused, rows_of(table))?;
    Ok(unused)
}
