//! A text with its lengths as whole micrometres.

ghost use Rattle.std.specs.Prelude.{◌≡◌, ◌++◌, ◌∷◌, [], ◌≤◌, ◌<◌, ℕ, List, true, OnOk, IfOk, drop};
ghost use Rattle.vcm_plain.specs.Numbers.{unread, lone_from, is_lone, is_space};
ghost use Rattle.vcm_plain.specs.declared.plain.Kind.TheVariants as kinds;
ghost use Rattle.vcm_plain.specs.Plain.{Reading, start, word_of, kind_of, is_plain_unit, head_out, is_kind_word, is_setting_word, is_kept, is_kept_word, other_field, plain_expression, converted, expression_field, value_field, is_direction, is_angle, unit_of, size_at, number_field, length_field, sensor_field, is_unit_field, units_field, is_units, unit_behind, field_by, field_out, counted, is_word, kind_behind, next_field, is_blank_field, onto, wrote, head_behind, head_dollar_behind, fields_behind, broken_place, broken_out, fields_dollar_behind, text_behind, comment_behind, broken_behind, field_text_behind, read_behind, read_from, nothing_read, last_out, written_out, plain};

use crate::fine::put_exact;
use crate::lone::{Lone, component, is_lone, lone_of, put_size, rounded};
use crate::unit::{Lengths, Unit};
use std::alloc::Global;
use std::marker::Model;
use vcm_functions::folded;
use vcm_num::{NoMemory, is, look_up};

/// Where the reading of a text stands.
#[derive(Clone, Copy)]
pub enum Mode {
    /// Before the slash of a statement.
    Head,
    /// Behind a dollar there.
    HeadDollar,
    /// In a quoted text there.
    HeadText,
    /// Behind a dollar that ends a line.
    HeadBroken,
    /// Behind the slash.
    Fields,
    /// Behind a dollar there.
    FieldsDollar,
    /// In a quoted text there.
    FieldText,
    /// Behind a dollar that ends a line.
    FieldsBroken,
    /// In a comment.
    Comment,
}

/// What the numbers of a statement are.
#[derive(Clone, Copy)]
pub enum Kind {
    /// No lengths.
    Other,
    /// It is UNITS.
    Units,
    /// A place, and a direction behind it.
    Places,
    /// The same, by a radius, an angle and a height.
    Polar,
    /// A distance, and a direction behind it.
    Step,
    /// Lengths, all of them.
    Lengths,
    /// Values, by expressions.
    Values,
    /// A sensor, of which the width of its tip is looked at.
    Sensor,
}

/// Where a byte of a text stands.
#[derive(Clone, Copy)]
pub struct Place {
    pub mode: Mode,
    pub kind: Kind,
    /// Whether no field of the statement ends above.
    pub first: bool,
    /// How many of its fields above are no words; the fourth isn't counted.
    pub numbers: u8,
    /// Whether the field begins in a line above.
    pub broken: bool,
    /// The unit of its lengths.
    pub unit: Unit,
}

/// A text as it is read: the place, the bytes that are open, and those that are written.
#[derive(Drop)]
struct Reader {
    place: Place,
    field: Vec<u8>,
    out: Vec<u8>,
}

// A statement begins, in this unit.
fn start(unit: Unit) -> Place
    ensures { result ≡ start unit }
{
    Place {
        mode: Mode::Head,
        kind: Kind::Other,
        first: true,
        numbers: 0,
        broken: false,
        unit,
    }
}

// Whether a byte stands for nothing.
fn is_space(byte: u8) -> bool
    ensures { result ≡ is_space byte }
{
    byte == b' ' || byte == b'\t' || byte == b'\r'
}

// The word that bytes are: without blanks, in upper case.
fn word_of(alloc: Global, bytes: &[u8]) -> Result<Vec<u8>, NoMemory>
    ensures { IfOk result (λ w. w.items ≡ word_of bytes.now) }
{
    let mut word = Vec::new(alloc);
    for byte in bytes {
        if !is_space(*byte) {
            word.push(byte.to_ascii_uppercase())?;
        }
    }
    Ok(word)
}

// What a statement's numbers are, by its major word.
fn kind_of(word: &[u8]) -> Kind
    ensures { result ≡ kind_of word.now }
{
    look_up(
        &[
            (b"GOTO", Kind::Places),
            (b"PTMEAS", Kind::Places),
            (b"FEAT", Kind::Places),
            (b"GOTARG", Kind::Places),
            (b"FROM", Kind::Places),
            (b"TRANS", Kind::Lengths),
            (b"SNSET", Kind::Lengths),
            (b"SNSDEF", Kind::Sensor),
            (b"UNITS", Kind::Units),
            (b"ASSIGN", Kind::Values),
            (b"IF", Kind::Values),
            (b"DO", Kind::Values),
            (b"SELECT", Kind::Values),
            (b"CALL", Kind::Values),
        ],
        word,
    )
    .unwrap_or(Kind::Other)
}

// Whether a text's lengths are micrometres as they are, rounded at most.
fn is_plain_unit(unit: Unit) -> bool
    ensures { result ≡ is_plain_unit unit }
{
    unit == Unit::Millimetre
}

// Appends a major word.
fn put_head(unit: Unit, bytes: &[u8], word: &[u8], out: &mut Vec<u8>) -> Result<(), NoMemory>
    requires { word.now ≡ word_of bytes.now }
    ensures { OnOk result (out.new.items ≡ out.old.items ++ head_out unit bytes.now) }
{
    if !is_plain_unit(unit) && is(word, b"OBTAIN") {
        out.extend_from_slice(b"ASSIGN")?;
    } else {
        out.extend_from_slice(bytes)?;
    }
    Ok(())
}

// Whether a word says of what kind a place or a shift is.
fn is_kind_word(word: &[u8]) -> bool
    ensures { result ≡ is_kind_word word.now }
{
    look_up(
        &[
            (b"CART", true),
            (b"POL", true),
            (b"INCR", true),
            (b"POINT", true),
            (b"PLANE", true),
            (b"XORIG", true),
            (b"YORIG", true),
            (b"ZORIG", true),
        ],
        word,
    )
    .unwrap_or(false)
}

// Whether a word says which setting it is.
fn is_setting_word(word: &[u8]) -> bool
    ensures { result ≡ is_setting_word word.now }
{
    look_up(
        &[
            (b"APPRCH", true),
            (b"RETRCT", true),
            (b"SEARCH", true),
            (b"DEPTH", true),
            (b"CLRSRF", true),
            (b"OFF", true),
        ],
        word,
    )
    .unwrap_or(false)
}

// Whether a word is one of fields that are no lengths.
fn is_kept(word: &[u8]) -> bool
    ensures { result ≡ is_kept word.now }
{
    is_kind_word(word) || is_setting_word(word)
}

// Whether a field is such a word.
fn is_kept_word(alloc: Global, bytes: &[u8]) -> Result<bool, NoMemory>
    ensures { IfOk result (λ kept. kept ≡ is_kept_word bytes.now) }
{
    let word = word_of(alloc, bytes)?;
    Ok(is_kept(&word))
}

// Appends a piece of a field that is broken in two.
fn put_other(alloc: Global, unit: Unit, bytes: &[u8], out: &mut Vec<u8>) -> Result<(), NoMemory>
    ensures { OnOk result (out.new.items ≡ out.old.items ++ other_field unit bytes.now) }
{
    if !is_plain_unit(unit) && !is_kept_word(alloc, bytes)? {
        out.push(b'*')?;
    }
    out.extend_from_slice(bytes)?;
    Ok(())
}

// Appends an expression in the language's forms.
fn put_plain(alloc: Global, bytes: &[u8], out: &mut Vec<u8>) -> Result<(), NoMemory>
    ensures { OnOk result (out.new.items ≡ out.old.items ++ plain_expression bytes.now) }
{
    let folded = folded(alloc, bytes)?;
    put_exact(alloc, &folded, out)
}

// Appends an expression of lengths in this unit, as one of millimetres.
fn put_converted(alloc: Global, unit: Unit, bytes: &[u8], out: &mut Vec<u8>) -> Result<(), NoMemory>
    ensures { OnOk result (out.new.items ≡ out.old.items ++ converted unit bytes.now) }
{
    out.push(b'(')?;
    put_plain(alloc, bytes, out)?;
    out.push(b')')?;
    out.extend_from_slice(unit.factor())?;
    Ok(())
}

// Appends a field that is an expression, or a word.
fn put_expression(
    alloc: Global,
    unit: Unit,
    bytes: &[u8],
    out: &mut Vec<u8>,
) -> Result<(), NoMemory>
    ensures { OnOk result (out.new.items ≡ out.old.items ++ expression_field unit bytes.now) }
{
    if is_plain_unit(unit) {
        return put_plain(alloc, bytes, out);
    }
    if is_kept_word(alloc, bytes)? {
        out.extend_from_slice(bytes)?;
        return Ok(());
    }
    put_converted(alloc, unit, bytes, out)
}

// Whether one of a statement's numbers, behind so many of them, is of a direction.
fn is_direction(kind: Kind, numbers: u8) -> bool
    ensures { result ≡ is_direction kind numbers }
{
    match kind {
        Kind::Places | Kind::Polar => numbers >= 3,
        Kind::Step => numbers != 0,
        _ => false,
    }
}

// Whether one of a statement's numbers, behind so many of them, is an angle.
fn is_angle(kind: Kind, numbers: u8) -> bool
    ensures { result ≡ is_angle kind numbers }
{
    match kind {
        Kind::Polar => numbers == 1,
        _ => false,
    }
}

// The unit that it has.
fn unit_of(kind: Kind, numbers: u8, unit: Unit) -> Unit
    ensures { result ≡ unit_of kind numbers unit }
{
    if is_direction(kind, numbers) || is_angle(kind, numbers) {
        Unit::Millimetre
    } else {
        unit
    }
}

// A number in whole micrometres, or in thousandths.
fn size_at(unit: Unit, kind: Kind, numbers: u8, lone: Lone) -> u64
    requires { lone.value < 1000000000000 }
    ensures { result ≡ size_at unit kind numbers lone }
{
    if is_direction(kind, numbers) {
        component(lone)
    } else {
        rounded(unit.micrometres(), lone)
    }
}

// Appends a field that is a number.
fn put_number(
    unit: Unit,
    kind: Kind,
    numbers: u8,
    bytes: &[u8],
    lone: Lone,
    out: &mut Vec<u8>,
) -> Result<(), NoMemory>
    requires { lone.value < 1000000000000 }
    ensures { OnOk result (out.new.items ≡ out.old.items ++ number_field unit kind numbers bytes.now lone) }
{
    if is_angle(kind, numbers) || (is_plain_unit(unit) && !lone.fine) {
        out.extend_from_slice(bytes)?;
        Ok(())
    } else {
        let size = size_at(unit, kind, numbers, lone);
        put_size(bytes, lone.negative, size, out)
    }
}

// Appends a field of lengths.
fn put_lengths(alloc: Global, place: Place, bytes: &[u8], out: &mut Vec<u8>) -> Result<(), NoMemory>
    ensures { OnOk result (out.new.items ≡ out.old.items ++ length_field place.unit place.kind place.numbers bytes.now (lone_from unread bytes.now)) }
{
    let lone = lone_of(bytes);
    if is_lone(lone) {
        put_number(place.unit, place.kind, place.numbers, bytes, lone, out)
    } else {
        let unit = unit_of(place.kind, place.numbers, place.unit);
        put_expression(alloc, unit, bytes, out)
    }
}

// Appends a field of a sensor's definition.
fn put_sensor(place: Place, bytes: &[u8], out: &mut Vec<u8>) -> Result<(), NoMemory>
    ensures { OnOk result (out.new.items ≡ out.old.items ++ sensor_field place.broken place.unit place.numbers bytes.now) }
{
    let lone = lone_of(bytes);
    if is_plain_unit(place.unit) || place.broken || !is_lone(lone) {
        out.extend_from_slice(bytes)?;
        Ok(())
    } else {
        put_number(place.unit, Kind::Sensor, place.numbers, bytes, lone, out)
    }
}

// Whether a field is the first one of UNITS, the word of a unit.
fn is_unit_field(alloc: Global, place: Place, bytes: &[u8]) -> Result<bool, NoMemory>
    ensures { IfOk result (λ it. it ≡ is_unit_field place bytes.now) }
{
    let word = word_of(alloc, bytes)?;
    Ok(place.first && !place.broken && Unit::named(&word).is_some())
}

// Appends a field of UNITS.
fn put_units(
    alloc: Global,
    several: bool,
    place: Place,
    bytes: &[u8],
    out: &mut Vec<u8>,
) -> Result<(), NoMemory>
    ensures { OnOk result (out.new.items ≡ out.old.items ++ units_field several place bytes.now) }
{
    let is_word = is_unit_field(alloc, place, bytes)?;
    if (several || !is_plain_unit(place.unit)) && is_word {
        out.extend_from_slice(b"MM")?;
    } else {
        out.extend_from_slice(bytes)?;
    }
    Ok(())
}

// Whether a statement is UNITS.
fn is_units(kind: Kind) -> bool
    ensures { result ≡ is_units kind }
{
    matches!(kind, Kind::Units)
}

// The unit behind a field.
fn unit_behind(alloc: Global, several: bool, place: Place, bytes: &[u8]) -> Result<Unit, NoMemory>
    ensures { IfOk result (λ u. u ≡ unit_behind several place bytes.now) }
{
    let word = word_of(alloc, bytes)?;
    if several && is_units(place.kind) && place.first && !place.broken {
        Ok(Unit::named(&word).unwrap_or(place.unit))
    } else {
        Ok(place.unit)
    }
}

// Appends a field of values.
fn put_value(alloc: Global, broken: bool, bytes: &[u8], out: &mut Vec<u8>) -> Result<(), NoMemory>
    ensures { OnOk result (out.new.items ≡ out.old.items ++ value_field broken bytes.now) }
{
    if broken {
        out.extend_from_slice(bytes)?;
        Ok(())
    } else {
        put_plain(alloc, bytes, out)
    }
}

// Appends a field that is open.
fn put_field(
    alloc: Global,
    several: bool,
    place: Place,
    bytes: &[u8],
    out: &mut Vec<u8>,
) -> Result<(), NoMemory>
    ensures { OnOk result (out.new.items ≡ out.old.items ++ field_out several place bytes.now) }
{
    match place.kind {
        Kind::Other => {
            out.extend_from_slice(bytes)?;
            Ok(())
        }
        Kind::Sensor => put_sensor(place, bytes, out),
        Kind::Units => put_units(alloc, several, place, bytes, out),
        Kind::Values => put_value(alloc, place.broken, bytes, out),
        Kind::Places | Kind::Polar | Kind::Step | Kind::Lengths => {
            if place.broken {
                put_other(alloc, place.unit, bytes, out)
            } else {
                put_lengths(alloc, place, bytes, out)
            }
        }
    }
}

// Whether a field is this word.
fn is_word(alloc: Global, word: &[u8], bytes: &[u8]) -> Result<bool, NoMemory>
    ensures { IfOk result (λ it. it ≡ is_word word.now bytes.now) }
{
    let own = word_of(alloc, bytes)?;
    Ok(is(&own, word))
}

// What the numbers of a place are behind a field.
fn behind_place(alloc: Global, bytes: &[u8]) -> Result<Kind, NoMemory>
    ensures { IfOk result (λ k. k ≡ kind_behind kinds.Places bytes.now) }
{
    if is_word(alloc, b"POL", bytes)? {
        return Ok(Kind::Polar);
    }
    if is_word(alloc, b"INCR", bytes)? {
        Ok(Kind::Step)
    } else {
        Ok(Kind::Places)
    }
}

// What a statement's numbers are behind a field.
fn kind_behind(alloc: Global, kind: Kind, bytes: &[u8]) -> Result<Kind, NoMemory>
    ensures { IfOk result (λ k. k ≡ kind_behind kind bytes.now) }
{
    match kind {
        Kind::Places => behind_place(alloc, bytes),
        _ => Ok(kind),
    }
}

// How many fields that are no words stand above, behind one more field.
fn counted(word: bool, numbers: u8) -> u8
    ensures { result ≡ counted word numbers }
{
    if !word && numbers < 3 {
        numbers + 1
    } else {
        numbers
    }
}

// The next field.
fn next_field(alloc: Global, several: bool, place: Place, bytes: &[u8]) -> Result<Place, NoMemory>
    ensures { IfOk result (λ p. p ≡ next_field several place bytes.now) }
{
    let word = is_kept_word(alloc, bytes)?;
    Ok(Place {
        kind: kind_behind(alloc, place.kind, bytes)?,
        first: false,
        numbers: counted(word, place.numbers),
        broken: false,
        unit: unit_behind(alloc, several, place, bytes)?,
        ..place
    })
}

// Whether a field has nothing but blanks.
fn is_blank_field(bytes: &[u8]) -> bool
    ensures { result ≡ is_blank_field bytes.now }
{
    bytes.iter().all(|byte| is_space(*byte))
}

impl Model for Reader {
    ghost use Rattle.vcm_plain.specs.Plain.{Reading};

    ghost Value = { Reading };

    ghost view = { λ r. record { place = r.place; field = r.field.items; out = r.out.items } };
}

impl Reader {
    ghost use Rattle.std.specs.Prelude.{◌≡◌, ◌++◌, ◌∷◌, [], OnOk};
    ghost use Rattle.vcm_plain.specs.Plain.{start, word_of, kind_of, head_out, field_out, unit_behind, next_field, onto, wrote, head_behind, head_dollar_behind, fields_behind, broken_place, broken_out, fields_dollar_behind, text_behind, comment_behind, broken_behind, field_text_behind, read_behind, written_out};

    // One more byte is open.
    fn push(&mut self, mode: Mode, byte: u8) -> Result<(), NoMemory>
        ensures { OnOk result (self.new ≡ onto self.old mode byte) }
    {
        self.place.mode = mode;
        self.field.push(byte)?;
        Ok(())
    }

    // These bytes are written.
    fn write(&mut self, place: Place, bytes: &[u8]) -> Result<(), NoMemory>
        ensures { OnOk result (self.new ≡ wrote self.old place bytes.now) }
    {
        self.place = place;
        self.field.clear();
        self.out.extend_from_slice(bytes)?;
        Ok(())
    }

    // What is open is written as it is, and these bytes behind it.
    fn write_open(&mut self, place: Place, bytes: &[u8]) -> Result<(), NoMemory>
        ensures { OnOk result (self.new ≡ wrote self.old place (self.old.field ++ bytes.now)) }
    {
        self.out.extend_from_slice(&self.field)?;
        self.write(place, bytes)
    }

    // The field that is open is written, and these bytes behind it.
    fn write_field(
        &mut self,
        alloc: Global,
        several: bool,
        place: Place,
        bytes: &[u8],
    ) -> Result<(), NoMemory>
        ensures { OnOk result (self.new ≡ wrote self.old place (field_out several self.old.place self.old.field ++ bytes.now)) }
    {
        put_field(alloc, several, self.place, &self.field, &mut self.out)?;
        self.write(place, bytes)
    }

    // A field that goes on in the line below is written, and these bytes behind it.
    fn write_broken(
        &mut self,
        alloc: Global,
        several: bool,
        mode: Mode,
        bytes: &[u8],
    ) -> Result<(), NoMemory>
        ensures { OnOk result (self.new ≡ wrote self.old (broken_place self.old mode) (broken_out several self.old ++ bytes.now)) }
    {
        let blank = is_blank_field(&self.field);
        let place = self.place;
        let broken = Place {
            mode,
            broken: place.broken || !blank,
            ..place
        };
        if blank {
            return self.write_open(broken, bytes);
        }
        let open = Place {
            broken: true,
            ..place
        };
        put_field(alloc, several, open, &self.field, &mut self.out)?;
        self.write(broken, bytes)
    }

    // The fields of a statement begin.
    fn begin_fields(&mut self, alloc: Global) -> Result<(), NoMemory>
        ensures { OnOk result (self.new ≡ head_behind self.old 47) }
    {
        let word = word_of(alloc, &self.field)?;
        put_head(self.place.unit, &self.field, &word, &mut self.out)?;
        let place = Place {
            mode: Mode::Fields,
            kind: kind_of(&word),
            ..start(self.place.unit)
        };
        self.write(place, b"/")
    }

    // The reading goes on in this mode.
    fn go_on(&mut self, mode: Mode)
        ensures { self.new ≡ record self.old { place = record self.old.place { mode = mode } } }
    {
        self.place.mode = mode;
    }

    // The place, in another mode.
    fn in_mode(&self, mode: Mode) -> Place
        ensures { result ≡ record self.now.place { mode = mode } }
    {
        Place { mode, ..self.place }
    }

    // In a head.
    fn read_head(&mut self, alloc: Global, byte: u8) -> Result<(), NoMemory>
        ensures { OnOk result (self.new ≡ head_behind self.old byte) }
    {
        match byte {
            b'/' => self.begin_fields(alloc),
            b'$' => {
                self.go_on(Mode::HeadDollar);
                Ok(())
            }
            b'\'' => self.write_open(self.in_mode(Mode::HeadText), b"'"),
            b'\n' => self.write_open(start(self.place.unit), b"\n"),
            b'=' | b'(' | b')' | b',' => self.write_open(self.place, &[byte]),
            _ => self.push(Mode::Head, byte),
        }
    }

    // Behind a dollar, in a head.
    fn read_head_dollar(&mut self, byte: u8) -> Result<(), NoMemory>
        ensures { OnOk result (self.new ≡ head_dollar_behind self.old byte) }
    {
        match byte {
            b'$' => self.write_open(self.in_mode(Mode::Comment), b"$$"),
            b'\n' => self.write_open(self.in_mode(Mode::Head), b"$\n"),
            _ => self.write_open(self.in_mode(Mode::HeadBroken), &[b'$', byte]),
        }
    }

    // In fields.
    fn read_fields(&mut self, alloc: Global, several: bool, byte: u8) -> Result<(), NoMemory>
        ensures { OnOk result (self.new ≡ fields_behind several self.old byte) }
    {
        match byte {
            b',' => {
                let place = next_field(alloc, several, self.place, &self.field)?;
                self.write_field(alloc, several, place, b",")
            }
            b'\n' => {
                let unit = unit_behind(alloc, several, self.place, &self.field)?;
                self.write_field(alloc, several, start(unit), b"\n")
            }
            b'$' => {
                self.go_on(Mode::FieldsDollar);
                Ok(())
            }
            b'\'' => self.push(Mode::FieldText, byte),
            _ => self.push(Mode::Fields, byte),
        }
    }

    // Behind a dollar, in fields.
    fn read_fields_dollar(&mut self, alloc: Global, several: bool, byte: u8) -> Result<(), NoMemory>
        ensures { OnOk result (self.new ≡ fields_dollar_behind several self.old byte) }
    {
        match byte {
            b'$' => {
                let place = Place {
                    mode: Mode::Comment,
                    unit: unit_behind(alloc, several, self.place, &self.field)?,
                    ..self.place
                };
                self.write_field(alloc, several, place, b"$$")
            }
            b'\n' => self.write_broken(alloc, several, Mode::Fields, b"$\n"),
            _ => self.write_broken(alloc, several, Mode::FieldsBroken, &[b'$', byte]),
        }
    }

    // In a text of a head.
    fn read_text(&mut self, byte: u8) -> Result<(), NoMemory>
        ensures { OnOk result (self.new ≡ text_behind self.old byte) }
    {
        match byte {
            b'\'' => self.write(self.in_mode(Mode::Head), b"'"),
            b'\n' => self.write(start(self.place.unit), b"\n"),
            _ => self.write(self.place, &[byte]),
        }
    }

    // In a comment.
    fn read_comment(&mut self, byte: u8) -> Result<(), NoMemory>
        ensures { OnOk result (self.new ≡ comment_behind self.old byte) }
    {
        match byte {
            b'\n' => self.write(start(self.place.unit), b"\n"),
            _ => self.write(self.place, &[byte]),
        }
    }

    // Between a dollar and the end of its line.
    fn read_broken(&mut self, mode: Mode, byte: u8) -> Result<(), NoMemory>
        ensures { OnOk result (self.new ≡ broken_behind mode self.old byte) }
    {
        match byte {
            b'\n' => self.write(self.in_mode(mode), b"\n"),
            _ => self.write(self.place, &[byte]),
        }
    }

    // In a text of a field.
    fn read_field_text(&mut self, byte: u8) -> Result<(), NoMemory>
        ensures { OnOk result (self.new ≡ field_text_behind self.old byte) }
    {
        match byte {
            b'\'' => self.push(Mode::Fields, byte),
            b'\n' => self.write_open(start(self.place.unit), b"\n"),
            _ => self.push(Mode::FieldText, byte),
        }
    }

    // One more byte.
    fn read(&mut self, alloc: Global, several: bool, byte: u8) -> Result<(), NoMemory>
        ensures { OnOk result (self.new ≡ read_behind several self.old.place.mode self.old byte) }
    {
        match self.place.mode {
            Mode::Head => self.read_head(alloc, byte),
            Mode::HeadDollar => self.read_head_dollar(byte),
            Mode::HeadText => self.read_text(byte),
            Mode::HeadBroken => self.read_broken(Mode::Head, byte),
            Mode::Fields => self.read_fields(alloc, several, byte),
            Mode::FieldsDollar => self.read_fields_dollar(alloc, several, byte),
            Mode::FieldText => self.read_field_text(byte),
            Mode::FieldsBroken => self.read_broken(Mode::Fields, byte),
            Mode::Comment => self.read_comment(byte),
        }
    }

    // What is open at the end is written.
    fn end(&mut self, alloc: Global, several: bool) -> Result<(), NoMemory>
        ensures { OnOk result (self.new.out ≡ written_out several self.old) }
    {
        match self.place.mode {
            Mode::Fields => self.write_field(alloc, several, self.place, b""),
            Mode::HeadDollar | Mode::FieldsDollar => self.write_open(self.place, b"$"),
            _ => self.write_open(self.place, b""),
        }
    }
}

/// A text whose lengths are read in this way, with them as whole micrometres, line by line: in fields of places, lengths and settings a number with more than three
/// decimals is rounded, and in another unit than millimetres each is converted; there a field that is no number is put as one that isn't known. In expressions
/// functions of numbers are written as their values, absolute values in relations are opened, and a number with more than three decimals is written as a quotient.
///
/// # Errors
///
/// Out of memory.
pub fn plain_text(alloc: Global, lengths: Lengths, text: &[u8]) -> Result<Vec<u8>, NoMemory>
    ensures { IfOk result (λ written. written.items ≡ plain lengths text.now) }
{
    let mut reader = Reader {
        place: start(lengths.unit),
        field: Vec::new(alloc),
        out: Vec::new(alloc),
    };
    for byte in text {
        reader.read(alloc, lengths.several, *byte)?;
    }
    reader.end(alloc, lengths.several)?;
    Ok(reader.out)
}
