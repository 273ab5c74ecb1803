//! The probe file of several probes: a TOML text with tables `probe`, which have tables `box`, and tables `swing`.

ghost use Rattle.std.specs.Prelude.{◌≡◌, ◌≤◌, [], true, length, map, option_map, Ok, IfOk, IfSome, Some, codes};
ghost use Rattle.toml.specs.View.{view, items_view, table_view};
ghost use Rattle.toml.specs.Data.{as_integer, as_str, as_table};
ghost use Rattle.std.specs.Option.{option_and_then};
ghost use Rattle.vcm_probe_set.specs.Names.{variable_of};
ghost use Rattle.vcm_boxes.specs.Boxes.{is_corner};
ghost use Rattle.vcm_probe_set.specs.Probes.{IsProbe, is_travel, is_name_taken, is_number_taken};
ghost use Rattle.vcm_probe_set.specs.ProbeFile.{probe_name_at, number_at, tip_of, tip_at, pose_at, bodies_at, unless_twice, probe_in, probe_of, rows_behind, probes_of_rows};
ghost use Rattle.vcm_probe_set.specs.ProbeFile.{probes_at, variable_at, travel_in, travel_at, swing_at, set_of_table, AreProbesRead, is_of_several};
ghost use Rattle.vcm_probe_set.specs.inner.Reads.{Gives};

use crate::body::Body;
use crate::boxes::bodies_of_array;
use crate::fault::{ProbeSetFault, Refusal, bad_key, out_of_range};
use crate::name::{ProbeName, variable_of};
use crate::place::{BoxOwner, Key, Place};
use crate::probe::Probe;
use crate::set::{ProbeSet, have_one_pose};
use crate::tables::{are_tables, corner_at, limit_at, unknown, unknown_key, value_at};
use std::alloc::Global;
use toml::{Table, Value};
use vcm_boxes::ShortName;
use vcm_num::{NoMemory, WIDEST_TIP, is};
use vcm_part::is_below;
use vcm_spec::Block3;

/// The most probes of a file.
const MOST_PROBES: usize = 64;

/// The most bytes of a pose's name.
const LONGEST_POSE: usize = 16;

/// The greatest number of a probe.
const MOST_NUMBER: i64 = 999_999;

// The name of the probe of this place.
#[tactic(auto, unfolding(crate::specs::ProbeFile::probe_name_at))]
fn probe_name_at(table: &Table, place: Place) -> Result<ProbeName, ProbeSetFault>
    ensures { Gives (λ n. n) result (probe_name_at place (table_view table.now)) }
{
    let Some(value) = value_at(table, Key::Name) else {
        return Err(bad_key(place, Key::Name));
    };
    let Some(text) = value.as_str() else {
        return Err(bad_key(place, Key::Name));
    };
    match ProbeName::of(text.as_bytes()) {
        Some(name) => Ok(name),
        None => Err(bad_key(place, Key::Name)),
    }
}

// Its number.
#[tactic(auto, unfolding(crate::specs::ProbeFile::number_at))]
fn number_at(table: &Table, place: Place) -> Result<u32, ProbeSetFault>
    ensures gives { Gives (λ n. n) result (number_at place (table_view table.now)) }
    ensures small { IfOk result (λ n. (1 ≤ n) × (n ≤ 999999)) }
{
    let Some(value) = value_at(table, Key::Number) else {
        return Err(bad_key(place, Key::Number));
    };
    let Some(number) = value.as_integer() else {
        return Err(bad_key(place, Key::Number));
    };
    if !(1 <= number && number <= MOST_NUMBER) {
        return Err(out_of_range(place, Key::Number));
    }
    Ok(number as u32)
}

// Half the width of the tip of a value.
fn tip_of(value: &Value, place: Place) -> Result<u32, ProbeSetFault>
    ensures gives { Gives (λ h. Some h) result (tip_of place (as_integer (view value.now))) }
    ensures small { IfOk result (λ h. h ≤ 50000) }
{
    let Some(tip) = value.as_integer() else {
        return Err(bad_key(place, Key::Tip));
    };
    if !(0 <= tip && tip <= i64::from(WIDEST_TIP)) {
        return Err(out_of_range(place, Key::Tip));
    }
    Ok(tip as u32)
}

// Half the width of its tip, where it has one of its own.
#[tactic(auto, unfolding(crate::specs::ProbeFile::tip_at))]
fn tip_at(table: &Table, place: Place) -> Result<Option<u32>, ProbeSetFault>
    ensures gives { Gives (λ o. o) result (tip_at place (table_view table.now)) }
    ensures small { IfOk result (λ o. IfSome o (λ h. h ≤ 50000)) }
{
    match value_at(table, Key::Tip) {
        None => Ok(None),
        Some(value) => Ok(Some(tip_of(value, place)?)),
    }
}

// The name of its pose, where it has one.
#[tactic(auto, unfolding(crate::specs::ProbeFile::pose_at))]
fn pose_at(table: &Table, place: Place) -> Result<Option<ShortName>, ProbeSetFault>
    ensures { Gives (λ o. o) result (pose_at place (table_view table.now)) }
{
    let Some(value) = value_at(table, Key::Pose) else {
        return Ok(None);
    };
    let Some(text) = value.as_str() else {
        return Err(bad_key(place, Key::Pose));
    };
    match ShortName::of(LONGEST_POSE, text.as_bytes()) {
        Some(pose) => Ok(Some(pose)),
        None => Err(bad_key(place, Key::Pose)),
    }
}

// What moves along with the probe of this number.
#[tactic(auto, unfolding(crate::specs::ProbeFile::bodies_at))]
fn bodies_at(alloc: Global, table: &Table, number: u32) -> Result<Vec<Body>, ProbeSetFault>
    ensures gives { Gives (λ v. v.items) result (bodies_at number (table_view table.now)) }
    ensures few { IfOk result (λ v. length v.items ≤ 64) }
{
    match value_at(table, Key::Boxes) {
        Some(value) => bodies_of_array(alloc, BoxOwner::OfProbe(number), value),
        None => Err(bad_key(Place::InProbe(number), Key::Boxes)),
    }
}

// Whether a probe above has the name.
fn is_name_taken(name: &[u8], above: &[Probe]) -> bool
    ensures { result ≡ is_name_taken name.now above.now }
{
    above.iter().any(|other| is(other.name().as_bytes(), name))
}

// Whether one has the number.
fn is_number_taken(number: u32, above: &[Probe]) -> bool
    ensures { result ≡ is_number_taken number above.now }
{
    above.iter().any(|other| other.number() == number)
}

// The probe, unless one above has its name or its number.
fn unless_twice(above: &[Probe], n: u32, probe: Probe) -> Result<Probe, ProbeSetFault>
    ensures { Gives (λ p. p) result (unless_twice above.now n probe) }
{
    if is_name_taken(probe.name().as_bytes(), above) {
        return Err(ProbeSetFault::Refused(Refusal::DuplicateName(n)));
    }
    if is_number_taken(probe.number(), above) {
        return Err(ProbeSetFault::Refused(Refusal::DuplicateNumber(n)));
    }
    Ok(probe)
}

// The probe of a table, which comes behind those above and is number `n` of the file.
fn probe_in(alloc: Global, above: &[Probe], n: u32, table: &Table) -> Result<Probe, ProbeSetFault>
    ensures { Gives (λ p. p) result (probe_in above.now n (table_view table.now)) }
{
    let place = Place::InProbe(n);
    if let Some(key) = unknown_key(
        &[b"name", b"number", b"tip", b"pivot", b"pose", b"box"],
        table,
    ) {
        return Err(unknown(place, key));
    }
    let name = probe_name_at(table, place)?;
    let number = number_at(table, place)?;
    let tip = tip_at(table, place)?;
    let pivot = corner_at(table, place, Key::Pivot)?;
    let pose = pose_at(table, place)?;
    let bodies = bodies_at(alloc, table, n)?;
    unless_twice(
        above,
        n,
        Probe {
            name,
            number,
            tip,
            pivot,
            pose,
            bodies,
        },
    )
}

// The probe of a value, which comes behind those above.
#[tactic(auto, unfolding(crate::specs::ProbeFile::probe_of))]
fn probe_of(alloc: Global, above: &[Probe], row: &Value) -> Result<Probe, ProbeSetFault>
    requires { length above.now ≤ 64 }
    ensures { Gives (λ p. p) result (probe_of above.now (view row.now)) }
{
    match row.as_table() {
        Some(table) => probe_in(alloc, above, above.len() as u32 + 1, table),
        None => Err(bad_key(Place::File, Key::Probe)),
    }
}

// The probes of the rows, which are at most 64.
fn probes_behind(alloc: Global, rows: &[Value]) -> Result<Vec<Probe>, ProbeSetFault>
    requires { length rows.now ≤ 64 }
    ensures gives { Gives (λ v. v.items) result (rows_behind probe_of [] (items_view rows.now)) }
    ensures many { IfOk result (λ v. length v.items ≡ length rows.now) }
{
    let mut probes = Vec::with_capacity(alloc, rows.len())?;
    for row in rows {
        let next = probe_of(alloc, &probes, row)?;
        probes.push(next)?;
    }
    Ok(probes)
}

// The probes of an array of tables.
#[tactic(auto, using(vcm_part::proofs::Rows::count_rows))]
fn probes_of_rows(alloc: Global, rows: &[Value]) -> Result<Vec<Probe>, ProbeSetFault>
    ensures gives { Gives (λ v. v.items) result (probes_of_rows (items_view rows.now)) }
    ensures few { IfOk result (λ v. length v.items ≤ 64) }
{
    if !are_tables(rows) {
        return Err(bad_key(Place::File, Key::Probe));
    }
    if MOST_PROBES < rows.len() {
        return Err(ProbeSetFault::Refused(Refusal::TooManyProbes));
    }
    if rows.is_empty() {
        return Err(bad_key(Place::File, Key::Probe));
    }
    probes_behind(alloc, rows)
}

// The probes of a file.
#[tactic(auto, unfolding(crate::specs::ProbeFile::probes_at))]
fn probes_at(alloc: Global, table: &Table) -> Result<Vec<Probe>, ProbeSetFault>
    ensures gives { Gives (λ v. v.items) result (probes_at (table_view table.now)) }
    ensures few { IfOk result (λ v. length v.items ≤ 64) }
{
    let Some(value) = value_at(table, Key::Probe) else {
        return Err(bad_key(Place::File, Key::Probe));
    };
    match value.as_array() {
        Some(rows) => probes_of_rows(alloc, rows),
        None => Err(bad_key(Place::File, Key::Probe)),
    }
}

// The variable where a file names none.
fn usual_variable() -> Result<ShortName, ProbeSetFault>
    ensures { Gives (λ n. n) result (Ok (codes "PROBE")) }
{
    match ShortName::of(LONGEST_POSE, b"PROBE") {
        Some(name) => Ok(name),
        None => Err(bad_key(Place::File, Key::Variable)),
    }
}

// The variable that a value names.
fn named_variable(value: &Value) -> Option<ShortName>
    ensures { result ≡ option_and_then variable_of (as_str (view value.now)) }
{
    variable_of(value.as_str()?.as_bytes())
}

// The variable that chooses a probe.
#[tactic(auto, unfolding(crate::specs::ProbeFile::variable_at))]
fn variable_at(table: &Table) -> Result<ShortName, ProbeSetFault>
    ensures { Gives (λ n. n) result (variable_at (table_view table.now)) }
{
    let Some(value) = value_at(table, Key::Variable) else {
        return usual_variable();
    };
    match named_variable(value) {
        Some(variable) => Ok(variable),
        None => Err(bad_key(Place::File, Key::Variable)),
    }
}

// The limits of the pivot that a table gives.
fn travel_in(table: &Table) -> Result<Block3, ProbeSetFault>
    ensures gives { Gives (λ b. Some b) result (travel_in (Some (table_view table.now))) }
    ensures near { IfOk result (λ b. is_travel b ≡ true) }
{
    if let Some(key) = unknown_key(&[b"low", b"high"], table) {
        return Err(unknown(Place::InTravel, key));
    }
    let low = limit_at(table, Key::Low)?;
    let high = limit_at(table, Key::High)?;
    if !is_below(low, high) {
        return Err(ProbeSetFault::Refused(Refusal::LowAboveHigh(Place::InTravel)));
    }
    Ok(Block3 { low, high })
}

// The limits of the pivot, where there are any.
#[tactic(auto, unfolding(crate::specs::ProbeFile::travel_at))]
fn travel_at(table: &Table) -> Result<Option<Block3>, ProbeSetFault>
    ensures gives { Gives (λ o. o) result (travel_at (table_view table.now)) }
    ensures near { IfOk result (λ o. IfSome o (λ b. is_travel b ≡ true)) }
{
    let Some(value) = value_at(table, Key::Travel) else {
        return Ok(None);
    };
    let Some(travel) = value.as_table() else {
        return Err(bad_key(Place::File, Key::Travel));
    };
    Ok(Some(travel_in(travel)?))
}

// The bodies of the swing.
#[tactic(auto, unfolding(crate::specs::ProbeFile::swing_at))]
fn swing_at(alloc: Global, probes: &[Probe], table: &Table) -> Result<Vec<Body>, ProbeSetFault>
    ensures gives { Gives (λ v. v.items) result (swing_at probes.now (table_view table.now)) }
    ensures few { IfOk result (λ v. length v.items ≤ 64) }
{
    if let Some(value) = value_at(table, Key::Swing) {
        return bodies_of_array(alloc, BoxOwner::OfSwing, value);
    }
    if !have_one_pose(probes) {
        return Err(bad_key(Place::File, Key::Swing));
    }
    Ok(Vec::new(alloc))
}

// The probes of the table of a file.
#[tactic(auto, unfolding(crate::specs::ProbeFile::set_of_table))]
fn set_of_table(alloc: Global, table: &Table) -> Result<ProbeSet, ProbeSetFault>
    ensures { Gives (λ s. s) result (set_of_table (table_view table.now)) }
{
    if let Some(key) = unknown_key(&[b"variable", b"travel", b"probe", b"swing"], table) {
        return Err(unknown(Place::File, key));
    }
    let variable = variable_at(table)?;
    let travel = travel_at(table)?;
    let probes = probes_at(alloc, table)?;
    let swing = swing_at(alloc, &probes, table)?;
    Ok(ProbeSet {
        variable,
        travel,
        probes,
        swing,
    })
}

/// The probes that the bytes of a probe file of several probes give.
///
/// The text is TOML. `variable`, which may be left out, names the variable that chooses a probe: 1 to 16 letters, digits and `_`, a letter first. `travel` may
/// be left out: a table with the corners `low` and `high` between which the pivot may go. `probe` is an array of 1 to 64 tables, each with `name`, 1 to 64
/// letters, digits, `-`, `_`, `+` and `.`; `number`, from 1 to 999,999; `tip`, from 0 to 50,000, which may be left out; `pivot`, a point; `pose`, a label of at
/// most 16 bytes, which may be left out; and `box`, an array of 1 to 64 tables as those of a file of one probe, whose names may repeat. `swing` is such an array
/// of boxes too, and may be left out only where any two probes have one pose.
///
/// # Errors
///
/// The first in this order: bytes that are no UTF-8 or no TOML; another key in the file; a variable that is none; no table `travel`, another key in it, its low
/// corner, its high corner (a bad key, then a coordinate beyond 1,000,000,000), low above high; no probes, or more than 64; for each probe another key in it,
/// its name, its number, its tip, its pivot, its pose, no boxes or more than 64, for each box another key in it, its name, its low corner, its high corner, low
/// above high; then a name, and then a number, that a probe above has; last no swing where one is wanted, or more than 64 boxes of it, and its boxes one by one.
/// `NoMemory` where a growth of memory was refused; the call may then be repeated.
#[tactic(auto, using(vcm_part::proofs::Bytes::text_is, vcm_part::proofs::Bytes::text_is_not), unfolding(crate::specs::ProbeFile::set_of))]
pub fn read_probes(alloc: Global, bytes: &[u8]) -> Result<ProbeSet, ProbeSetFault>
    ensures { AreProbesRead bytes.now result }
{
    let Ok(text) = std::str::from_utf8(bytes) else {
        return Err(ProbeSetFault::Refused(Refusal::NotToml));
    };
    match toml::table_from_str(alloc, text) {
        Ok(table) => set_of_table(alloc, &table),
        Err(error) => if error.is_memory() {
            Err(ProbeSetFault::NoMemory)
        } else {
            Err(ProbeSetFault::Refused(Refusal::NotToml))
        },
    }
}

/// Whether bytes are a probe file of several probes: a TOML text with the key `probe`. All others are read by `vcm_boxes::read_boxes`.
///
/// # Errors
///
/// A growth of memory was refused.
#[tactic(auto, using(vcm_part::proofs::Bytes::text_is, vcm_part::proofs::Bytes::text_is_not), unfolding(crate::specs::ProbeFile::is_of_several))]
pub fn is_of_several(alloc: Global, bytes: &[u8]) -> Result<bool, NoMemory>
    ensures { IfOk result (λ b. b ≡ is_of_several bytes.now) }
{
    let Ok(text) = std::str::from_utf8(bytes) else {
        return Ok(false);
    };
    match toml::table_from_str(alloc, text) {
        Ok(table) => match value_at(&table, Key::Probe) {
            Some(_) => Ok(true),
            None => Ok(false),
        },
        Err(error) => if error.is_memory() {
            Err(NoMemory)
        } else {
            Ok(false)
        },
    }
}
