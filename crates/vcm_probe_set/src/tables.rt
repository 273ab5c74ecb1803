//! What stands in the tables of a probe file.

ghost use Rattle.std.specs.Prelude.{◌≡◌, map, option_map, IfOk, IsTrue};
ghost use Rattle.std.specs.List.{list_any};
ghost use Rattle.std.specs.Str.{bytes_eq};
ghost use Rattle.toml.specs.View.{view, items_view, table_view};
ghost use Rattle.toml.specs.Data.{get_member};
ghost use Rattle.vcm_num.specs.Point.{is_near};
ghost use Rattle.vcm_part.specs.PartFile.{point_of, are_tables};
ghost use Rattle.vcm_boxes.specs.Boxes.{is_by_tip, is_corner};
ghost use Rattle.vcm_boxes.specs.BoxFile.{unknown_key};
ghost use Rattle.vcm_probe_set.specs.Places.{key_word};
ghost use Rattle.vcm_probe_set.specs.ProbeFile.{point_at, corner_at, limit_at};
ghost use Rattle.vcm_boxes.specs.Labels.{label_of};
ghost use Rattle.vcm_probe_set.specs.declared.fault.Refusal.TheVariants.{UnknownKey};
ghost use Rattle.vcm_probe_set.specs.declared.fault.ProbeSetFault.TheVariants.{Refused};
ghost use Rattle.vcm_probe_set.specs.inner.Reads.{Gives};

use crate::fault::{ProbeSetFault, Refusal, bad_key, out_of_range};
use crate::place::{Key, Place};
use toml::{Table, Value};
use vcm_boxes::ShortName;
use vcm_num::{Point, is};

/// The most bytes of a key that is told.
const LONGEST_KEY: usize = 32;

// Whether a key is one of these words.
fn is_one_of(known: &[&[u8]], key: &[u8]) -> bool
    ensures { result ≡ list_any (λ k. bytes_eq k key.now) (map (λ k. k.now) known.now) }
{
    for word in known {
        if is(word, key) {
            return true;
        }
    }
    false
}

// The first key of the table that isn't one of these.
pub(crate) fn unknown_key<'a>(known: &[&[u8]], table: &'a Table) -> Option<&'a str>
    ensures { option_map (λ k. k.now) result ≡ unknown_key (map (λ k. k.now) known.now) (table_view table.now) }
{
    for (key, _) in table.iter() {
        if !is_one_of(known, key.as_bytes()) {
            return Some(key.as_str());
        }
    }
    None
}

// The refusal of such a key.
pub(crate) fn unknown(place: Place, key: &str) -> ProbeSetFault
    ensures { result ≡ Refused (UnknownKey place (label_of 32 key.now)) }
{
    ProbeSetFault::Refused(Refusal::UnknownKey(place, ShortName::of(LONGEST_KEY, key.as_bytes())))
}

// The value at a word.
fn member<'a>(table: &'a Table, word: &str) -> Option<&'a Value>
    ensures { option_map (λ v. view v.now) result ≡ get_member word.now (table_view table.now) }
{
    table.get(word)
}

// The value at a key.
pub(crate) fn value_at(table: &Table, key: Key) -> Option<&Value>
    ensures { option_map (λ v. view v.now) result ≡ get_member (key_word key) (table_view table.now) }
{
    member(table, key.word())
}

// Whether all items are tables.
pub(crate) fn are_tables(rows: &[Value]) -> bool
    ensures { result ≡ are_tables (items_view rows.now) }
{
    for row in rows {
        if !row.is_table() {
            return false;
        }
    }
    true
}

// The point of an array of three whole numbers.
#[tactic(auto, using(vcm_part::proofs::Points::short_items, vcm_part::proofs::Points::long_items))]
fn point_of(value: &Value) -> Option<Point>
    ensures { result ≡ point_of (view value.now) }
{
    let items = value.as_array()?;
    match items.as_slice() {
        [x, y, z] => Some(Point([x.as_integer()?, y.as_integer()?, z.as_integer()?])),
        _ => None,
    }
}

// The point at a key.
#[tactic(auto, unfolding(crate::specs::ProbeFile::point_at))]
fn point_at(table: &Table, place: Place, key: Key) -> Result<Point, ProbeSetFault>
    ensures { Gives (λ p. p) result (point_at place key (table_view table.now)) }
{
    let Some(value) = value_at(table, key) else {
        return Err(bad_key(place, key));
    };
    match point_of(value) {
        Some(point) => Ok(point),
        None => Err(bad_key(place, key)),
    }
}

// Whether a coordinate is at most ten metres from 0.
fn is_by_tip(z: i64) -> bool
    ensures { result ≡ is_by_tip z }
{
    -10_000_000 <= z && z <= 10_000_000
}

// Whether each coordinate of a corner is.
fn is_corner(corner: Point) -> bool
    ensures { result ≡ is_corner corner }
{
    let Point([x, y, z]) = corner;
    is_by_tip(x) && is_by_tip(y) && is_by_tip(z)
}

// The corner, or the pivot, at a key.
#[tactic(auto, unfolding(crate::specs::ProbeFile::corner_at))]
pub(crate) fn corner_at(table: &Table, place: Place, key: Key) -> Result<Point, ProbeSetFault>
    ensures gives { Gives (λ p. p) result (corner_at place key (table_view table.now)) }
    ensures near { IfOk result (λ p. IsTrue (is_corner p)) }
{
    let corner = point_at(table, place, key)?;
    if !is_corner(corner) {
        return Err(out_of_range(place, key));
    }
    Ok(corner)
}

// The limit of the pivot at a key.
#[tactic(auto, unfolding(crate::specs::ProbeFile::limit_at))]
pub(crate) fn limit_at(table: &Table, key: Key) -> Result<Point, ProbeSetFault>
    ensures gives { Gives (λ p. p) result (limit_at key (table_view table.now)) }
    ensures near { IfOk result (λ p. IsTrue (is_near p)) }
{
    let limit = point_at(table, Place::InTravel, key)?;
    if !limit.is_near() {
        return Err(out_of_range(Place::InTravel, key));
    }
    Ok(limit)
}
