//! What a statement of a part file is.

ghost use Rattle.std.specs.Prelude.{◌≡◌, option_map, IfOk};
ghost use Rattle.toml.specs.View.{view, table_view};
ghost use Rattle.vcm_keys.specs.Statements.{is_heading, first_member, of_block, statement_of, statement_alone};

use std::alloc::Global;
use toml::{Table, Value};
use vcm_boxes::ShortName;
use vcm_num::{NoMemory, is};

/// The most bytes of a key that is told.
const LONGEST: usize = 32;

/// What a statement of a part file is.
#[derive(Drop)]
pub(crate) enum PartStatement {
    /// White space and comments.
    Blank,
    /// A value at a key.
    Entry(Option<ShortName>),
    /// The heading of a block.
    Block,
    /// The heading of a table in a block.
    Inside(Option<ShortName>),
    /// Another heading.
    Heading(Option<ShortName>),
}

// Whether a statement is a heading: its first byte that is no blank is a bracket.
fn is_heading(text: &[u8]) -> bool
    ensures { result ≡ is_heading text.now }
{
    for byte in text {
        if *byte == b'[' {
            return true;
        }
        if *byte != b' ' && *byte != b'\t' {
            return false;
        }
    }
    false
}

// The first key of a table, with its value.
fn first_member(table: &Table) -> Option<(&[u8], &Value)>
    ensures { option_map (λ m. (m.0.now, view m.1.now)) result ≡ first_member (table_view table.now) }
{
    match table.first_key_value() {
        Some((key, value)) => Some((key.as_bytes(), value)),
        None => None,
    }
}

// The heading of a block, or of a table in it.
fn of_block(value: &Value) -> PartStatement
    ensures { result ≡ of_block (view value.now) }
{
    let Some(table) = value.as_table() else {
        return PartStatement::Block;
    };
    match first_member(table) {
        None => PartStatement::Block,
        Some((key, _)) => PartStatement::Inside(ShortName::of(LONGEST, key)),
    }
}

// What a statement with this table is.
fn statement_of(is_heading: bool, table: &Table) -> PartStatement
    ensures { result ≡ statement_of is_heading (table_view table.now) }
{
    let Some((key, value)) = first_member(table) else {
        return PartStatement::Blank;
    };
    if !is_heading {
        return PartStatement::Entry(ShortName::of(LONGEST, key));
    }
    if is(key, b"block") {
        return of_block(value);
    }
    PartStatement::Heading(ShortName::of(LONGEST, key))
}

/// What these bytes are, if they are TOML by themselves.
#[tactic(auto, using(vcm_part::proofs::Bytes::text_is, vcm_part::proofs::Bytes::text_is_not), unfolding(crate::specs::Statements::statement_alone))]
pub(crate) fn statement_alone(
    alloc: Global,
    bytes: &[u8],
) -> Result<Option<PartStatement>, NoMemory>
    ensures { IfOk result (λ s. s ≡ statement_alone bytes.now) }
{
    let Ok(text) = std::str::from_utf8(bytes) else {
        return Ok(None);
    };
    match toml::table_from_str(alloc, text) {
        Ok(table) => Ok(Some(statement_of(is_heading(bytes), &table))),
        Err(error) => if error.is_memory() {
            Err(NoMemory)
        } else {
            Ok(None)
        },
    }
}
