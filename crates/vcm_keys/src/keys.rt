//! The unused keys of a part file, and the names of its blocks.

ghost use Rattle.std.specs.Prelude.{◌≡◌, not, map, option_map, IfOk};
ghost use Rattle.std.specs.List.{filter, list_any};
ghost use Rattle.toml.specs.Data.{as_table};
ghost use Rattle.toml.specs.View.{view, items_view, table_view};
ghost use Rattle.vcm_keys.specs.Statements.{members_of};
ghost use Rattle.vcm_keys.specs.Unused.{is_same_key, is_same, is_among, told, unused_keys, row_name, row_names, block_names};
ghost use Rattle.vcm_keys.specs.Fixtures.{is_row_fixed, row_fixtures, block_fixtures};

use crate::place::KeyPlace;
use crate::placing::places_of;
use crate::unused::{name_of, rows_of, unused_of_table, value_at};
use std::alloc::Global;
use toml::{Table, Value};
use vcm_boxes::ShortName;
use vcm_num::{NoMemory, is};

// The table of bytes, if they are TOML.
#[tactic(auto, using(vcm_part::proofs::Bytes::text_is, vcm_part::proofs::Bytes::text_is_not))]
fn table_of(alloc: Global, bytes: &[u8]) -> Result<Option<Table>, NoMemory>
    ensures { IfOk result (λ t. option_map table_view t ≡ members_of bytes.now) }
{
    let Ok(text) = std::str::from_utf8(bytes) else {
        return Ok(None);
    };
    match toml::table_from_str(alloc, text) {
        Ok(table) => Ok(Some(table)),
        Err(error) => if error.is_memory() {
            Err(NoMemory)
        } else {
            Ok(None)
        },
    }
}

// Whether two keys are the same, or neither is one that can be told.
fn is_same_key(first: &Option<ShortName>, second: &Option<ShortName>) -> bool
    ensures { result ≡ is_same_key first.now second.now }
{
    match first {
        None => second.is_none(),
        Some(first) => match second {
            None => false,
            Some(second) => is(first.as_bytes(), second.as_bytes()),
        },
    }
}

// Whether two places have the same key of the same block.
fn is_same(first: &KeyPlace, second: &KeyPlace) -> bool
    ensures { result ≡ is_same first.now second.now }
{
    first.block == second.block && is_same_key(&first.key, &second.key)
}

// Whether one of the places has the key of this one.
fn is_among(places: &[KeyPlace], wanted: &KeyPlace) -> bool
    ensures { result ≡ is_among places.now wanted.now }
{
    places.iter().any(|place| is_same(place, wanted))
}

// Of the places those whose keys are among the unused ones.
fn standing(mut places: Vec<KeyPlace>, unused: &[KeyPlace]) -> Vec<KeyPlace>
    ensures { result.items ≡ filter (is_among unused.now) places.items }
{
    places.retain(|place| is_among(unused, place));
    places
}

// Of the unused keys those that stand at none of the places.
fn absent(mut unused: Vec<KeyPlace>, places: &[KeyPlace]) -> Vec<KeyPlace>
    ensures { result.items ≡ filter (λ u. not (is_among places.now u)) unused.items }
{
    unused.retain(|key| !is_among(places, key));
    unused
}

// What is told of places and of unused keys.
fn told(places: Vec<KeyPlace>, unused: Vec<KeyPlace>) -> Result<Vec<KeyPlace>, NoMemory>
    ensures { IfOk result (λ v. v.items ≡ told places.items unused.items) }
{
    let mut standing = standing(places, &unused);
    let mut absent = absent(unused, &standing);
    standing.append(&mut absent)?;
    Ok(standing)
}

/// The keys of a part file that nothing uses: on each line where one stands, in the order of lines, and then those whose line isn't known. Used
/// are `low`, `high`, `home`, `tip` and `block`, and of a block `low`, `high`, `fixture`, and a `name` of 1 to 32 printable bytes. None of bytes that are no
/// TOML.
///
/// # Errors
///
/// Out of memory.
#[tactic(auto, unfolding(crate::specs::Unused::unused_keys))]
pub fn unused_keys(alloc: Global, bytes: &[u8]) -> Result<Vec<KeyPlace>, NoMemory>
    ensures { IfOk result (λ v. v.items ≡ unused_keys bytes.now) }
{
    let Some(table) = table_of(alloc, bytes)? else {
        return Ok(Vec::new(alloc));
    };
    let unused = unused_of_table(alloc, &table)?;
    drop(table);
    told(places_of(alloc, bytes)?, unused)
}

// The name of a block.
fn row_name(row: &Value) -> &[u8]
    ensures { result.now ≡ row_name (as_table (view row.now)) }
{
    let Some(table) = row.as_table() else {
        return &[];
    };
    let Some(value) = value_at(table, "name") else {
        return &[];
    };
    match name_of(value) {
        Some(name) => name,
        None => &[],
    }
}

// The names of rows.
fn names_of_rows(alloc: Global, rows: &[Value]) -> Result<Vec<Vec<u8>>, NoMemory>
    ensures { IfOk result (λ v. map (λ n. n.items) v.items ≡ row_names (items_view rows.now)) }
{
    let mut names = Vec::new(alloc);
    for row in rows {
        names.push(Vec::from_slice(alloc, row_name(row))?)?;
    }
    Ok(names)
}

/// The names of a part file's blocks, each of 1 to 32 printable bytes, or empty where a block has none; none of bytes that are no TOML.
///
/// # Errors
///
/// Out of memory.
#[tactic(auto, unfolding(crate::specs::Unused::block_names))]
pub fn block_names(alloc: Global, bytes: &[u8]) -> Result<Vec<Vec<u8>>, NoMemory>
    ensures { IfOk result (λ v. map (λ n. n.items) v.items ≡ block_names bytes.now) }
{
    match table_of(alloc, bytes)? {
        Some(table) => names_of_rows(alloc, rows_of(&table)),
        None => Ok(Vec::new(alloc)),
    }
}

// Whether the block of a row is one of the fixture.
fn is_fixed(row: &Value) -> bool
    ensures { result ≡ is_row_fixed (as_table (view row.now)) }
{
    let Some(table) = row.as_table() else {
        return false;
    };
    let Some(value) = value_at(table, "fixture") else {
        return false;
    };
    match value.as_bool() {
        Some(is_fixed) => is_fixed,
        None => false,
    }
}

// The same of rows.
fn fixtures_of_rows(alloc: Global, rows: &[Value]) -> Result<Vec<bool>, NoMemory>
    ensures { IfOk result (λ v. v.items ≡ row_fixtures (items_view rows.now)) }
{
    let mut fixtures = Vec::new(alloc);
    for row in rows {
        fixtures.push(is_fixed(row))?;
    }
    Ok(fixtures)
}

/// Whether each of a part file's blocks is one of the fixture, as its key `fixture` says: false where it has none. None of bytes that are no TOML.
///
/// # Errors
///
/// Out of memory.
#[tactic(auto, unfolding(crate::specs::Fixtures::block_fixtures))]
pub fn block_fixtures(alloc: Global, bytes: &[u8]) -> Result<Vec<bool>, NoMemory>
    ensures { IfOk result (λ v. v.items ≡ block_fixtures bytes.now) }
{
    match table_of(alloc, bytes)? {
        Some(table) => fixtures_of_rows(alloc, rows_of(&table)),
        None => Ok(Vec::new(alloc)),
    }
}
