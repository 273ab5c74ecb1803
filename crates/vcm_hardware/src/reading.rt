//! The description: a TOML text with numbers, and tables of what hangs on the head.

ghost use Rattle.std.specs.Prelude.{◌≡◌, ◌≤◌, ◌+◌, ◌&&◌, true, [], pos, negsuc, length, map, option_map, IfOk, IsTrue};
ghost use Rattle.std.specs.List.{list_all, list_any};
ghost use Rattle.std.specs.Ordering.{int_eq};
ghost use Rattle.std.specs.Str.{bytes_eq};
ghost use Rattle.toml.specs.View.{view, items_view, table_view};
ghost use Rattle.toml.specs.Data.{get_member};
ghost use Rattle.vcm_part.specs.PartFile.{point_of, are_tables};
ghost use Rattle.vcm_hardware.specs.Names.{is_name_byte, is_label_byte, is_probe_byte, is_label, label_of, is_probe_name, begins_with_letter, is_variable};
ghost use Rattle.vcm_hardware.specs.HardwareFile.{unknown_key, only, text_at, name_at, probe_name_at, number_of, number_at, number_or, is_close, place_of, place_at, angle_of, angle_at, turn_at, variable_at, is_below, one_of_three, differs_once, head_in, part_in, is_ball_taken, ball_in, is_name_taken, is_number_taken, place_of_tip, fitting, choice_in, rows_of, rows_at, head_of, part_of, ball_of, choice_of, all_behind, hanging_of, described_of_table, IsRead};
ghost use Rattle.vcm_hardware.specs.inner.Reads.{Gives};

use crate::boxes::box_count;
use crate::description::{Ball, Choice, Cylinder, Description, Hardware, Place, StillBox};
use crate::fault::{HardwareFault, HardwareKey, Refusal, Where};
use crate::word::Word;
use std::alloc::Global;
use toml::{Table, Value};
use vcm_num::{Point, is};

// Whether a key is one of these words.
fn is_one_of(known: &[&[u8]], key: &[u8]) -> bool
    ensures { result ≡ list_any (λ k. bytes_eq k key.now) (map (λ k. k.now) known.now) }
{
    for word in known {
        if is(word, key) {
            return true;
        }
    }
    false
}

// The first key of the table that isn't one of these.
fn unknown_key<'a>(known: &[&[u8]], table: &'a Table) -> Option<&'a str>
    ensures { option_map (λ k. k.now) result ≡ unknown_key (map (λ k. k.now) known.now) (table_view table.now) }
{
    for (key, _) in table.iter() {
        if !is_one_of(known, key.as_bytes()) {
            return Some(key.as_str());
        }
    }
    None
}

// No other keys than these stand in the table.
fn only(known: &[&[u8]], table: &Table, place: Where) -> Result<(), HardwareFault>
    ensures { Gives (λ u. u) result (only (map (λ k. k.now) known.now) (table_view table.now) place) }
{
    match unknown_key(known, table) {
        Some(key) => Err(HardwareFault::Refused(Refusal::UnknownKey(
            place,
            label_of(32, key.as_bytes()),
        ))),
        None => Ok(()),
    }
}

// The value at a key.
fn value_at<'a>(table: &'a Table, key: &str) -> Option<&'a Value>
    ensures { option_map (λ v. view v.now) result ≡ get_member key.now (table_view table.now) }
{
    table.get(key)
}

// Whether a byte may stand in the name of a variable.
fn is_name_byte(byte: u8) -> bool
    ensures { result ≡ is_name_byte byte }
{
    byte.is_ascii_alphabetic() || byte.is_ascii_digit() || byte == b'_'
}

// Whether it may stand in a label.
fn is_label_byte(byte: u8) -> bool
    ensures { result ≡ is_label_byte byte }
{
    is_name_byte(byte) || byte == b'-'
}

// Whether it may stand in the name of a probe.
fn is_probe_byte(byte: u8) -> bool
    ensures { result ≡ is_probe_byte byte }
{
    is_label_byte(byte) || byte == b'+' || byte == b'.'
}

// Whether all these bytes may.
fn are_name_bytes(bytes: &[u8]) -> bool
    ensures { result ≡ list_all is_name_byte bytes.now }
{
    bytes.iter().all(|byte| is_name_byte(*byte))
}

fn are_label_bytes(bytes: &[u8]) -> bool
    ensures { result ≡ list_all is_label_byte bytes.now }
{
    bytes.iter().all(|byte| is_label_byte(*byte))
}

fn are_probe_bytes(bytes: &[u8]) -> bool
    ensures { result ≡ list_all is_probe_byte bytes.now }
{
    bytes.iter().all(|byte| is_probe_byte(*byte))
}

// Whether these bytes are a label of at most `most` bytes.
fn is_label(most: usize, bytes: &[u8]) -> bool
    ensures { result ≡ is_label most bytes.now }
{
    1 <= bytes.len() && bytes.len() <= most && are_label_bytes(bytes)
}

// The label that they are.
fn label_of(most: usize, bytes: &[u8]) -> Option<Word>
    requires { most ≤ 64 }
    ensures { result ≡ label_of most bytes.now }
{
    if is_label(most, bytes) {
        Some(Word::new(bytes))
    } else {
        None
    }
}

// Whether they are the name of a probe.
fn is_probe_name(bytes: &[u8]) -> bool
    ensures { result ≡ is_probe_name bytes.now }
{
    1 <= bytes.len() && bytes.len() <= 64 && are_probe_bytes(bytes)
}

// Whether the first one is a letter.
fn begins_with_letter(bytes: &[u8]) -> bool
    ensures { result ≡ begins_with_letter bytes.now }
{
    match bytes {
        [first, ..] => first.is_ascii_alphabetic(),
        [] => false,
    }
}

// Whether they are the name of a variable.
fn is_variable(bytes: &[u8]) -> bool
    ensures { result ≡ is_variable bytes.now }
{
    begins_with_letter(bytes) && 1 <= bytes.len() && bytes.len() <= 16 && are_name_bytes(bytes)
}

// The text at a key.
#[tactic(auto, unfolding(crate::specs::HardwareFile::text_at))]
fn text_at(table: &Table, place: Where, key: HardwareKey) -> Result<&str, HardwareFault>
    ensures { Gives (λ s. s.now) result (text_at (table_view table.now) place key) }
{
    let Some(value) = value_at(table, key.word()) else {
        return Err(HardwareFault::Refused(Refusal::BadKey(place, key)));
    };
    let Some(text) = value.as_str() else {
        return Err(HardwareFault::Refused(Refusal::BadKey(place, key)));
    };
    Ok(text)
}

// The label at `name`.
#[tactic(auto, unfolding(crate::specs::HardwareFile::name_at))]
fn name_at(table: &Table, place: Where) -> Result<Word, HardwareFault>
    ensures { Gives (λ n. n) result (name_at (table_view table.now) place) }
{
    let text = text_at(table, place, HardwareKey::Name)?;
    match label_of(16, text.as_bytes()) {
        Some(name) => Ok(name),
        None => Err(HardwareFault::Refused(Refusal::BadKey(place, HardwareKey::Name))),
    }
}

// The name of a probe.
#[tactic(auto, unfolding(crate::specs::HardwareFile::probe_name_at))]
fn probe_name_at(table: &Table, place: Where) -> Result<Word, HardwareFault>
    ensures { Gives (λ n. n) result (probe_name_at (table_view table.now) place) }
{
    let text = text_at(table, place, HardwareKey::Name)?;
    if !is_probe_name(text.as_bytes()) {
        return Err(HardwareFault::Refused(Refusal::BadKey(place, HardwareKey::Name)));
    }
    Ok(Word::new(text.as_bytes()))
}

// A whole number between these.
#[tactic(auto, unfolding(crate::specs::HardwareFile::number_of))]
fn number_of(
    value: &Value,
    place: Where,
    key: HardwareKey,
    least: i32,
    most: i32,
) -> Result<i32, HardwareFault>
    ensures { Gives (λ z. z) result (number_of (view value.now) place key least most) }
{
    let Some(number) = value.as_integer() else {
        return Err(HardwareFault::Refused(Refusal::BadKey(place, key)));
    };
    if number < i64::from(least) || i64::from(most) < number {
        return Err(HardwareFault::Refused(Refusal::OutOfRange(place, key)));
    }
    Ok(number as i32)
}

// The one at a key.
#[tactic(auto, unfolding(crate::specs::HardwareFile::number_at))]
fn number_at(
    table: &Table,
    place: Where,
    key: HardwareKey,
    least: i32,
    most: i32,
) -> Result<i32, HardwareFault>
    ensures { Gives (λ z. z) result (number_at (table_view table.now) place key least most) }
{
    match value_at(table, key.word()) {
        Some(value) => number_of(value, place, key, least, most),
        None => Err(HardwareFault::Refused(Refusal::BadKey(place, key))),
    }
}

// The same, and `missing` where there is no such key.
#[tactic(auto, unfolding(crate::specs::HardwareFile::number_or))]
fn number_or(
    table: &Table,
    place: Where,
    key: HardwareKey,
    least: i32,
    most: i32,
    missing: i32,
) -> Result<i32, HardwareFault>
    ensures { Gives (λ z. z) result (number_or (table_view table.now) place key least most missing) }
{
    match value_at(table, key.word()) {
        Some(value) => number_of(value, place, key, least, most),
        None => Ok(missing),
    }
}

// The point of an array of three whole numbers.
#[tactic(auto, using(vcm_part::proofs::Points::short_items, vcm_part::proofs::Points::long_items))]
fn point_of(value: &Value) -> Option<Point>
    ensures { result ≡ point_of (view value.now) }
{
    let items = value.as_array()?;
    match items.as_slice() {
        [x, y, z] => Some(Point([x.as_integer()?, y.as_integer()?, z.as_integer()?])),
        _ => None,
    }
}

// Whether a coordinate is at most a metre from 0.
fn is_close(z: i64) -> bool
    ensures { result ≡ is_close z }
{
    -1_000_000 <= z && z <= 1_000_000
}

// The place of a point, if it is close.
fn place_of(point: Point) -> Option<Place>
    ensures { result ≡ place_of point }
{
    let Point([x, y, z]) = point;
    if is_close(x) && is_close(y) && is_close(z) {
        Some(Place {
            x: x as i32,
            y: y as i32,
            z: z as i32,
        })
    } else {
        None
    }
}

// The one at a key.
#[tactic(auto, unfolding(crate::specs::HardwareFile::place_at))]
fn place_at(table: &Table, place: Where, key: HardwareKey) -> Result<Place, HardwareFault>
    ensures { Gives (λ p. p) result (place_at (table_view table.now) place key) }
{
    let Some(value) = value_at(table, key.word()) else {
        return Err(HardwareFault::Refused(Refusal::BadKey(place, key)));
    };
    let Some(point) = point_of(value) else {
        return Err(HardwareFault::Refused(Refusal::BadKey(place, key)));
    };
    match place_of(point) {
        Some(found) => Ok(found),
        None => Err(HardwareFault::Refused(Refusal::OutOfRange(place, key))),
    }
}

// An angle in thousandths of a degree: a multiple of 7500.
#[tactic(auto, unfolding(crate::specs::HardwareFile::angle_of))]
fn angle_of(value: &Value, place: Where, key: HardwareKey) -> Result<i32, HardwareFault>
    ensures { Gives (λ z. z) result (angle_of (view value.now) place key) }
{
    let angle = number_of(value, place, key, -180_000, 180_000)?;
    if angle % 7500 != 0 {
        return Err(HardwareFault::Refused(Refusal::NotAStep(place, key)));
    }
    Ok(angle)
}

// The one at a key.
#[tactic(auto, unfolding(crate::specs::HardwareFile::angle_at))]
fn angle_at(table: &Table, place: Where, key: HardwareKey) -> Result<i32, HardwareFault>
    ensures { Gives (λ z. z) result (angle_at (table_view table.now) place key) }
{
    match value_at(table, key.word()) {
        Some(value) => angle_of(value, place, key),
        None => Err(HardwareFault::Refused(Refusal::BadKey(place, key))),
    }
}

// By how much B is mounted otherwise.
#[tactic(auto, unfolding(crate::specs::HardwareFile::turn_at))]
fn turn_at(table: &Table) -> Result<i32, HardwareFault>
    ensures { Gives (λ z. z) result (turn_at (table_view table.now)) }
{
    match value_at(table, "turn") {
        Some(value) => angle_of(value, Where::Top, HardwareKey::Turn),
        None => Ok(0),
    }
}

// The name of the variable, if it says one.
#[tactic(auto, unfolding(crate::specs::HardwareFile::variable_at))]
fn variable_at(table: &Table) -> Result<Option<Word>, HardwareFault>
    ensures { Gives (λ n. n) result (variable_at (table_view table.now)) }
{
    let Some(value) = value_at(table, "variable") else {
        return Ok(None);
    };
    let Some(text) = value.as_str() else {
        return Err(HardwareFault::Refused(Refusal::BadKey(Where::Top, HardwareKey::Variable)));
    };
    if !is_variable(text.as_bytes()) {
        return Err(HardwareFault::Refused(Refusal::BadKey(Where::Top, HardwareKey::Variable)));
    }
    Ok(Some(Word::new(text.as_bytes())))
}

// Whether all three hold.
fn are_all(x: bool, y: bool, z: bool) -> bool
    ensures { result ≡ (x && y && z) }
{
    x && y && z
}

// Whether no coordinate of the low corner is above the high one's.
fn is_below(low: Place, high: Place) -> bool
    ensures { result ≡ is_below low high }
{
    are_all(low.x <= high.x, low.y <= high.y, low.z <= high.z)
}

// Whether all but one of three hold.
fn one_of_three(x: bool, y: bool, z: bool) -> bool
    ensures { result ≡ one_of_three x y z }
{
    if !x {
        y && z
    } else if !y {
        z
    } else {
        !z
    }
}

// Whether two numbers are the same.
fn is_same(a: i32, b: i32) -> bool
    ensures { result ≡ int_eq a b }
{
    a == b
}

// Whether two places differ on just one axis.
fn differs_once(from: Place, to: Place) -> bool
    ensures { result ≡ differs_once from to }
{
    one_of_three(
        is_same(from.x, to.x),
        is_same(from.y, to.y),
        is_same(from.z, to.z),
    )
}

// Box `number` that stands still.
#[tactic(auto, unfolding(crate::specs::HardwareFile::head_in))]
fn head_in(number: u32, table: &Table) -> Result<StillBox, HardwareFault>
    ensures { Gives (λ b. b) result (head_in number (table_view table.now)) }
{
    let place = Where::Head(number);
    only(&[b"name", b"low", b"high"], table, place)?;
    let name = name_at(table, place)?;
    let low = place_at(table, place, HardwareKey::Low)?;
    let high = place_at(table, place, HardwareKey::High)?;
    if !is_below(low, high) {
        return Err(HardwareFault::Refused(Refusal::LowAboveHigh(number)));
    }
    Ok(StillBox { name, low, high })
}

// Part `number`, where parts have this step unless they say another one.
#[tactic(auto, unfolding(crate::specs::HardwareFile::part_in))]
fn part_in(step: i32, number: u32, table: &Table) -> Result<Cylinder, HardwareFault>
    ensures { Gives (λ p. p) result (part_in step number (table_view table.now)) }
{
    let place = Where::Part(number);
    only(
        &[b"name", b"from", b"to", b"diameter", b"step"],
        table,
        place,
    )?;
    let name = name_at(table, place)?;
    let from = place_at(table, place, HardwareKey::From)?;
    let to = place_at(table, place, HardwareKey::To)?;
    if !differs_once(from, to) {
        return Err(HardwareFault::Refused(Refusal::NotAlongAxis(number)));
    }
    let diameter = number_at(table, place, HardwareKey::Diameter, 0, 1_000_000)?;
    let step = number_or(table, place, HardwareKey::Step, 100, 1_000_000, step)?;
    Ok(Cylinder {
        name,
        from,
        to,
        diameter,
        step,
    })
}

// Whether a ball has the name.
fn is_ball_taken(name: &[u8], above: &[Ball]) -> bool
    ensures { result ≡ is_ball_taken name.now above.now }
{
    above.iter().any(|other| is(other.name.as_bytes(), name))
}

// The ball behind those above.
#[tactic(auto, unfolding(crate::specs::HardwareFile::ball_in))]
fn ball_in(above: &[Ball], number: u32, table: &Table) -> Result<Ball, HardwareFault>
    ensures { Gives (λ b. b) result (ball_in above.now number (table_view table.now)) }
{
    let place = Where::Tip(number);
    only(&[b"name", b"at", b"diameter"], table, place)?;
    let name = name_at(table, place)?;
    let at = place_at(table, place, HardwareKey::At)?;
    let diameter = number_at(table, place, HardwareKey::Diameter, 0, 100_000)?;
    if is_ball_taken(name.as_bytes(), above) {
        return Err(HardwareFault::Refused(Refusal::DuplicateName(place)));
    }
    Ok(Ball { name, at, diameter })
}

// Whether a probe has the name.
fn is_name_taken(name: &[u8], above: &[Choice]) -> bool
    ensures { result ≡ is_name_taken name.now above.now }
{
    above.iter().any(|other| is(other.name.as_bytes(), name))
}

// Whether it has the number.
fn is_number_taken(number: i32, above: &[Choice]) -> bool
    ensures { result ≡ is_number_taken number above.now }
{
    above.iter().any(|other| other.number == number)
}

// The place of the ball with this name.
fn place_of_tip(name: &[u8], balls: &[Ball]) -> Option<usize>
    ensures { result ≡ place_of_tip name.now balls.now }
{
    balls.iter().position(|ball| is(ball.name.as_bytes(), name))
}

// A probe, if it has at most 64 boxes.
fn fitting(hardware: &Hardware, number: u32, choice: Choice) -> Result<Choice, HardwareFault>
    ensures { Gives (λ c. c) result (fitting hardware.now number choice) }
{
    let count = box_count(hardware, &choice);
    if 64 < count {
        return Err(HardwareFault::Refused(Refusal::TooManyBoxes(number, count)));
    }
    Ok(choice)
}

// The number of a probe that says none.
fn own_number(number: u32) -> i32
    requires { number ≤ 64 }
    ensures { result ≡ pos number }
{
    number as i32
}

// The probe behind those above.
#[tactic(auto, unfolding(crate::specs::HardwareFile::choice_in))]
fn choice_in(
    hardware: &Hardware,
    above: &[Choice],
    number: u32,
    table: &Table,
) -> Result<Choice, HardwareFault>
    requires { number ≤ 64 }
    ensures { Gives (λ c. c) result (choice_in hardware.now above.now number (table_view table.now)) }
{
    let place = Where::Probe(number);
    only(&[b"name", b"number", b"tip", b"a", b"b"], table, place)?;
    let name = probe_name_at(table, place)?;
    let own = number_or(
        table,
        place,
        HardwareKey::Number,
        1,
        999_999,
        own_number(number),
    )?;
    let tip = text_at(table, place, HardwareKey::Tip)?;
    let a = angle_at(table, place, HardwareKey::A)?;
    let b = angle_at(table, place, HardwareKey::B)?;
    if is_name_taken(name.as_bytes(), above) {
        return Err(HardwareFault::Refused(Refusal::DuplicateName(place)));
    }
    if is_number_taken(own, above) {
        return Err(HardwareFault::Refused(Refusal::DuplicateNumber(number)));
    }
    let Some(tip) = place_of_tip(tip.as_bytes(), hardware.balls()) else {
        return Err(HardwareFault::Refused(Refusal::UnknownTip(number)));
    };
    fitting(
        hardware,
        number,
        Choice {
            name,
            number: own,
            tip,
            a,
            b,
        },
    )
}

// Whether all items are tables.
fn are_tables(rows: &[Value]) -> bool
    ensures { result ≡ are_tables (items_view rows.now) }
{
    for row in rows {
        if !row.is_table() {
            return false;
        }
    }
    true
}

// The rows of an array of tables, from the least to the most of them.
#[tactic(auto, using(vcm_part::proofs::Rows::count_rows), unfolding(crate::specs::HardwareFile::rows_of))]
fn rows_of(
    value: &Value,
    key: HardwareKey,
    least: usize,
    most: usize,
) -> Result<&[Value], HardwareFault>
    ensures gives { Gives (λ v. items_view v.now) result (rows_of (view value.now) key least most) }
    ensures few { IfOk result (λ v. length v.now ≤ most) }
{
    let Some(rows) = value.as_array() else {
        return Err(HardwareFault::Refused(Refusal::BadKey(Where::Top, key)));
    };
    if !are_tables(rows) {
        return Err(HardwareFault::Refused(Refusal::BadKey(Where::Top, key)));
    }
    if rows.len() < least {
        return Err(HardwareFault::Refused(Refusal::BadKey(Where::Top, key)));
    }
    if most < rows.len() {
        return Err(HardwareFault::Refused(Refusal::TooMany(key)));
    }
    Ok(rows)
}

// Those at a key; none where there is no such key, and there needn't be.
#[tactic(auto, unfolding(crate::specs::HardwareFile::rows_at))]
fn rows_at(
    table: &Table,
    key: HardwareKey,
    least: usize,
    most: usize,
) -> Result<&[Value], HardwareFault>
    ensures gives { Gives (λ v. items_view v.now) result (rows_at (table_view table.now) key least most) }
    ensures few { IfOk result (λ v. length v.now ≤ most) }
{
    let Some(value) = value_at(table, key.word()) else {
        if least == 0 {
            return Ok(&[]);
        }
        return Err(HardwareFault::Refused(Refusal::BadKey(Where::Top, key)));
    };
    rows_of(value, key, least, most)
}

// The box of a row that stands still, which comes behind those above.
#[tactic(auto, unfolding(crate::specs::HardwareFile::head_of))]
fn head_of(above: &[StillBox], row: &Value) -> Result<StillBox, HardwareFault>
    requires { length above.now ≤ 32 }
    ensures { Gives (λ b. b) result (head_of above.now (view row.now)) }
{
    match row.as_table() {
        Some(table) => head_in(above.len() as u32 + 1, table),
        None => Err(HardwareFault::Refused(Refusal::BadKey(Where::Top, HardwareKey::Head))),
    }
}

// The part of a row.
#[tactic(auto, unfolding(crate::specs::HardwareFile::part_of))]
fn part_of(step: i32, above: &[Cylinder], row: &Value) -> Result<Cylinder, HardwareFault>
    requires { length above.now ≤ 32 }
    ensures { Gives (λ b. b) result (part_of step above.now (view row.now)) }
{
    match row.as_table() {
        Some(table) => part_in(step, above.len() as u32 + 1, table),
        None => Err(HardwareFault::Refused(Refusal::BadKey(Where::Top, HardwareKey::Part))),
    }
}

// The ball of a row.
#[tactic(auto, unfolding(crate::specs::HardwareFile::ball_of))]
fn ball_of(above: &[Ball], row: &Value) -> Result<Ball, HardwareFault>
    requires { length above.now ≤ 32 }
    ensures { Gives (λ b. b) result (ball_of above.now (view row.now)) }
{
    match row.as_table() {
        Some(table) => ball_in(above, above.len() as u32 + 1, table),
        None => Err(HardwareFault::Refused(Refusal::BadKey(Where::Top, HardwareKey::Tip))),
    }
}

// The probe of a row.
#[tactic(auto, unfolding(crate::specs::HardwareFile::choice_of))]
fn choice_of(hardware: &Hardware, above: &[Choice], row: &Value) -> Result<Choice, HardwareFault>
    requires { length above.now + 1 ≤ 64 }
    ensures { Gives (λ b. b) result (choice_of hardware.now above.now (view row.now)) }
{
    match row.as_table() {
        Some(table) => choice_in(hardware, above, above.len() as u32 + 1, table),
        None => Err(HardwareFault::Refused(Refusal::BadKey(Where::Top, HardwareKey::Probe))),
    }
}

// The boxes that stand still.
fn heads_of(alloc: Global, rows: &[Value]) -> Result<Vec<StillBox>, HardwareFault>
    requires { length rows.now ≤ 32 }
    ensures { Gives (λ v. v.items) result (all_behind head_of [] (items_view rows.now)) }
{
    let mut heads = Vec::with_capacity(alloc, rows.len())?;
    for row in rows {
        let next = head_of(&heads, row)?;
        heads.push(next)?;
    }
    Ok(heads)
}

// The parts.
fn parts_of(alloc: Global, step: i32, rows: &[Value]) -> Result<Vec<Cylinder>, HardwareFault>
    requires { length rows.now ≤ 32 }
    ensures gives { Gives (λ v. v.items) result (all_behind (part_of step) [] (items_view rows.now)) }
    ensures many { IfOk result (λ v. length v.items ≡ length rows.now) }
{
    let mut parts = Vec::with_capacity(alloc, rows.len())?;
    for row in rows {
        let next = part_of(step, &parts, row)?;
        parts.push(next)?;
    }
    Ok(parts)
}

// The balls.
fn balls_of(alloc: Global, rows: &[Value]) -> Result<Vec<Ball>, HardwareFault>
    requires { length rows.now ≤ 32 }
    ensures { Gives (λ v. v.items) result (all_behind ball_of [] (items_view rows.now)) }
{
    let mut balls = Vec::with_capacity(alloc, rows.len())?;
    for row in rows {
        let next = ball_of(&balls, row)?;
        balls.push(next)?;
    }
    Ok(balls)
}

// The probes.
fn choices_of(
    alloc: Global,
    hardware: &Hardware,
    rows: &[Value],
) -> Result<Vec<Choice>, HardwareFault>
    requires { length rows.now ≤ 64 }
    ensures { Gives (λ v. v.items) result (all_behind (choice_of hardware.now) [] (items_view rows.now)) }
{
    let mut choices = Vec::with_capacity(alloc, rows.len())?;
    for row in rows {
        let next = choice_of(hardware, &choices, row)?;
        choices.push(next)?;
    }
    Ok(choices)
}

// What hangs on the head.
#[tactic(auto, unfolding(crate::specs::HardwareFile::hanging_of))]
fn hardware_of(
    alloc: Global,
    step: i32,
    turn: i32,
    table: &Table,
) -> Result<Hardware, HardwareFault>
    ensures { Gives (λ h. h) result (hanging_of step turn (table_view table.now)) }
{
    let heads = heads_of(alloc, rows_at(table, HardwareKey::Head, 0, 32)?)?;
    let parts = parts_of(alloc, step, rows_at(table, HardwareKey::Part, 1, 32)?)?;
    let balls = balls_of(alloc, rows_at(table, HardwareKey::Tip, 1, 32)?)?;
    Ok(Hardware::new(turn, heads, parts, balls))
}

// The description of a table.
#[tactic(auto, unfolding(crate::specs::HardwareFile::described_of_table))]
fn description_of(alloc: Global, table: &Table) -> Result<Description, HardwareFault>
    ensures { Gives (λ d. d) result (described_of_table (table_view table.now)) }
{
    only(
        &[
            b"step",
            b"turn",
            b"variable",
            b"head",
            b"part",
            b"tip",
            b"probe",
        ],
        table,
        Where::Top,
    )?;
    let step = number_at(table, Where::Top, HardwareKey::Step, 100, 1_000_000)?;
    let turn = turn_at(table)?;
    let variable = variable_at(table)?;
    let hardware = hardware_of(alloc, step, turn, table)?;
    let rows = rows_at(table, HardwareKey::Probe, 1, 64)?;
    let choices = choices_of(alloc, &hardware, rows)?;
    Ok(Description::new(variable, hardware, choices))
}

/// The description that the bytes of a file give.
///
/// The text is TOML: `step`, maybe `turn` and `variable`, and arrays of tables `head`, `part`, `tip` and `probe`, of which `head` may be missing. No other key may
/// stand there.
///
/// # Errors
///
/// The first in this order: bytes that are no UTF-8 or no TOML; another key; `step`, `turn`, `variable`; then `head`, `part`, `tip` and `probe`, each first as a
/// whole and then table by table. `NoMemory` where a growth of memory was refused; the call may then be repeated.
#[tactic(auto, using(vcm_part::proofs::Bytes::text_is, vcm_part::proofs::Bytes::text_is_not), unfolding(crate::specs::HardwareFile::described_of))]
pub fn read_hardware(alloc: Global, bytes: &[u8]) -> Result<Description, HardwareFault>
    ensures { IsRead bytes.now result }
{
    let Ok(text) = std::str::from_utf8(bytes) else {
        return Err(HardwareFault::Refused(Refusal::NotToml));
    };
    match toml::table_from_str(alloc, text) {
        Ok(table) => description_of(alloc, &table),
        Err(error) => if error.is_memory() {
            Err(HardwareFault::NoMemory)
        } else {
            Err(HardwareFault::Refused(Refusal::NotToml))
        },
    }
}
