//! The boxes of a probe, and of the swing.

ghost use Rattle.std.specs.Prelude.{◌≡◌, ◌≤◌, true, [], length, IfOk, IsTrue};
ghost use Rattle.std.specs.List.{list_all};
ghost use Rattle.toml.specs.View.{view, items_view, table_view};
ghost use Rattle.toml.specs.Data.{as_array};
ghost use Rattle.vcm_boxes.specs.Boxes.{is_box};
ghost use Rattle.vcm_probe_set.specs.declared.fault.ProbeSetFault.TheVariants.{Refused};
ghost use Rattle.vcm_probe_set.specs.ProbeFile.{no_boxes, box_name_at, box_in, box_of, rows_behind, bodies_read, bodies_of_rows, bodies_of_array};
ghost use Rattle.vcm_probe_set.specs.inner.Reads.{Gives};

use crate::body::{Body, bodies_of};
use crate::fault::{ProbeSetFault, Refusal, bad_key};
use crate::place::{BoxOwner, Key, Place};
use crate::tables::{are_tables, corner_at, unknown, unknown_key, value_at};
use std::alloc::Global;
use toml::{Table, Value};
use vcm_boxes::{ProbeBox, ShortName};
use vcm_part::is_below;
use vcm_spec::Block3;

/// The most boxes of a probe, and of the swing.
const MOST_BOXES: usize = 64;

/// The most bytes of a box's name.
const LONGEST_NAME: usize = 16;

// That no boxes are there.
fn no_boxes(owner: BoxOwner) -> ProbeSetFault
    ensures { result ≡ Refused (no_boxes owner) }
{
    match owner {
        BoxOwner::OfProbe(number) => bad_key(Place::InProbe(number), Key::Boxes),
        BoxOwner::OfSwing => bad_key(Place::File, Key::Swing),
    }
}

// The name of the box of this place.
#[tactic(auto, unfolding(crate::specs::ProbeFile::box_name_at))]
fn box_name_at(table: &Table, place: Place) -> Result<ShortName, ProbeSetFault>
    ensures { Gives (λ n. n) result (box_name_at place (table_view table.now)) }
{
    let Some(value) = value_at(table, Key::Name) else {
        return Err(bad_key(place, Key::Name));
    };
    let Some(text) = value.as_str() else {
        return Err(bad_key(place, Key::Name));
    };
    match ShortName::of(LONGEST_NAME, text.as_bytes()) {
        Some(name) => Ok(name),
        None => Err(bad_key(place, Key::Name)),
    }
}

// The box of a table.
fn box_in(table: &Table, place: Place) -> Result<ProbeBox, ProbeSetFault>
    ensures gives { Gives (λ b. b) result (box_in place (table_view table.now)) }
    ensures valid { IfOk result (λ b. IsTrue (is_box b)) }
{
    if let Some(key) = unknown_key(&[b"name", b"low", b"high"], table) {
        return Err(unknown(place, key));
    }
    let name = box_name_at(table, place)?;
    let low = corner_at(table, place, Key::Low)?;
    let high = corner_at(table, place, Key::High)?;
    if !is_below(low, high) {
        return Err(ProbeSetFault::Refused(Refusal::LowAboveHigh(place)));
    }
    Ok(ProbeBox {
        name,
        block: Block3 { low, high },
    })
}

// The box of a value, which comes behind those above.
#[tactic(auto, unfolding(crate::specs::ProbeFile::box_of))]
fn box_of(owner: BoxOwner, above: &[ProbeBox], row: &Value) -> Result<ProbeBox, ProbeSetFault>
    requires { length above.now ≤ 64 }
    ensures gives { Gives (λ b. b) result (box_of owner above.now (view row.now)) }
    ensures valid { IfOk result (λ b. IsTrue (is_box b)) }
{
    match row.as_table() {
        Some(table) => box_in(table, Place::InBox(owner, above.len() as u32 + 1)),
        None => Err(no_boxes(owner)),
    }
}

// The boxes of the rows, which are at most 64.
fn boxes_of_rows(
    alloc: Global,
    owner: BoxOwner,
    rows: &[Value],
) -> Result<Vec<ProbeBox>, ProbeSetFault>
    requires { length rows.now ≤ 64 }
    ensures gives { Gives (λ v. v.items) result (rows_behind (box_of owner) [] (items_view rows.now)) }
    ensures valid { IfOk result (λ v. list_all is_box v.items ≡ true) }
    ensures many { IfOk result (λ v. length v.items ≡ length rows.now) }
{
    let mut boxes = Vec::with_capacity(alloc, rows.len())?;
    for row in rows {
        let next = box_of(owner, &boxes, row)?;
        boxes.push(next)?;
    }
    Ok(boxes)
}

// The bodies of the boxes of the rows, which are at most 64.
fn bodies_of_boxes(
    alloc: Global,
    owner: BoxOwner,
    rows: &[Value],
) -> Result<Vec<Body>, ProbeSetFault>
    requires { length rows.now ≤ 64 }
    ensures gives { Gives (λ v. v.items) result (bodies_read owner (items_view rows.now)) }
    ensures few { IfOk result (λ v. length v.items ≤ 64) }
{
    let boxes = boxes_of_rows(alloc, owner, rows)?;
    Ok(bodies_of(alloc, &boxes)?)
}

// The bodies of an array of tables.
#[tactic(auto, using(vcm_part::proofs::Rows::count_rows))]
fn bodies_of_rows(
    alloc: Global,
    owner: BoxOwner,
    rows: &[Value],
) -> Result<Vec<Body>, ProbeSetFault>
    ensures gives { Gives (λ v. v.items) result (bodies_of_rows owner (items_view rows.now)) }
    ensures few { IfOk result (λ v. length v.items ≤ 64) }
{
    if !are_tables(rows) {
        return Err(no_boxes(owner));
    }
    if MOST_BOXES < rows.len() {
        return Err(ProbeSetFault::Refused(Refusal::TooManyBoxes(owner)));
    }
    if rows.is_empty() {
        return Err(no_boxes(owner));
    }
    bodies_of_boxes(alloc, owner, rows)
}

// The bodies of a value, if there is one.
pub(crate) fn bodies_of_array(
    alloc: Global,
    owner: BoxOwner,
    value: &Value,
) -> Result<Vec<Body>, ProbeSetFault>
    ensures gives { Gives (λ v. v.items) result (bodies_of_array owner (as_array (view value.now))) }
    ensures few { IfOk result (λ v. length v.items ≤ 64) }
{
    match value.as_array() {
        Some(rows) => bodies_of_rows(alloc, owner, rows),
        None => Err(no_boxes(owner)),
    }
}
