//! What a run with several probes came to, as text: how it is laid out is tested, and not proved.

use crate::event::{Change, Event, ProbeWay};
use crate::gathering::SetRun;
use crate::report::{Report, Rooms, beyond_at, report_of};
use crate::rooms::{is_turn, told_at_turn, told_of};
use itoa::Buffer;
use std::alloc::Global;
use vcm_clearance::{Room, Told};
use vcm_items::Tables;
use vcm_marks::{Going, Moment};
use vcm_naming::{BlockNames, block_at_end};
use vcm_num::{NoMemory, Point, WriteFault, write_all, write_pieces};
use vcm_part::PartData;
use vcm_probe_set::{Body, Probe, ProbeSet};
use vcm_report::{write_end_line, write_point};
use vcm_turning::{Ended, NoProbe};

/// A place of a text, behind so many bytes, below which the backtrace of the statement of a step may be told.
#[derive(Clone, Copy)]
pub struct Spot {
    pub at: usize,
    pub step: u64,
}

/// Where text goes, with the names of blocks that are left, and the places at which steps are told.
#[derive(Drop)]
struct Sheet<'a> {
    out: &'a mut Vec<u8>,
    names: &'a mut BlockNames,
    spots: &'a mut Vec<Spot>,
}

/// What is told of: the workpiece, the probes, and what the run came to.
#[derive(Clone, Copy)]
struct Known<'a> {
    blocks: &'a PartData,
    set: &'a ProbeSet,
    report: &'a Report,
}

// The word of a way.
fn going_word(going: Going) -> &'static [u8] {
    match going {
        Going::Move => b"MOVE",
        Going::Approach => b"APPROACH",
        Going::Search => b"SEARCH",
        Going::Retract => b"RETRACT",
        Going::Rest => b"SWING",
    }
}

impl<'a> Sheet<'a> {
    // Writes these pieces.
    fn put(&mut self, pieces: &[&[u8]]) -> Result<(), WriteFault> {
        write_pieces(self.out, pieces)
    }

    // Writes a number between two texts.
    fn number(&mut self, front: &[u8], number: u64, behind: &[u8]) -> Result<(), WriteFault> {
        let mut digits = Buffer::new();
        write_pieces(self.out, &[front, digits.format(number).as_bytes(), behind])
    }

    // Writes where in the run something is.
    fn place(&mut self, number: u32, line: u32, step: u64) -> Result<(), WriteFault> {
        self.number(b" at ", u64::from(number), b" line ")?;
        self.number(b"", u64::from(line), b" step ")?;
        self.number(b"", step, b"")
    }

    // Writes a point behind a word.
    fn point(&mut self, word: &[u8], at: Point) -> Result<(), WriteFault> {
        write_all(self.out, word)?;
        write_point(at, b" ", self.out)
    }

    // Writes what a body meets, behind its name, and ends the line; below it the name of the block, if it is left.
    fn told(&mut self, told: &Told) -> Result<(), WriteFault> {
        self.put(&[b" ", going_word(told.going)])?;
        self.number(b" block ", u64::from(told.contact.hit.block), b"")?;
        self.number(b" permille ", u64::from(told.contact.hit.permille), b"")?;
        self.place(told.number, told.line, told.step)?;
        self.point(b" position ", told.contact.at)?;
        write_all(self.out, b"\n")?;
        self.names
            .write_once(Some(told.contact.hit.block), self.out)?;
        self.spot(told.step)
    }

    // Notes that a step is told here.
    fn spot(&mut self, step: u64) -> Result<(), WriteFault> {
        let at = self.out.len();
        match self.spots.push(Spot { at, step }) {
            Ok(()) => Ok(()),
            Err(_) => Err(WriteFault),
        }
    }
}

// The name of a probe in front of that of its body; nothing in front of those of the swing.
fn front_of(probe: Option<&Probe>) -> (&[u8], &[u8]) {
    match probe {
        Some(probe) => (probe.name().as_bytes(), b"/"),
        None => (b"", b""),
    }
}

// Writes the line of a contact, if there is one.
fn write_contact<'x>(
    sheet: &mut Sheet<'_>,
    probe: Option<&'x Probe>,
    body: &'x Body,
    told: Option<Told>,
) -> Result<(), WriteFault> {
    let Some(told) = told else {
        return Ok(());
    };
    let (name, slash) = front_of(probe);
    sheet.put(&[b"contact ", name, slash, body.name().as_bytes()])?;
    sheet.told(&told)
}

// Writes the contacts of a way, and that its pivot ends beyond the limits, if it does.
fn write_way(sheet: &mut Sheet<'_>, known: Known<'_>, way: &ProbeWay) -> Result<(), WriteFault> {
    let (Some(probe), Some(rooms)) = (
        known.set.probes().get(way.probe),
        known.report.probes.get(way.probe),
    ) else {
        return Ok(());
    };
    for (body, room) in probe.bodies().iter().zip(rooms.rooms.rooms.iter()) {
        let told = told_of(known.blocks, body, *room, way);
        write_contact(sheet, Some(probe), body, told)?;
    }
    let Some(travel) = known.set.travel() else {
        return Ok(());
    };
    match beyond_at(known.set, &travel, way) {
        Some(at) => write_beyond(sheet, way, at),
        None => Ok(()),
    }
}

// Writes that the pivot lies beyond its limits at the end of a way.
fn write_beyond(sheet: &mut Sheet<'_>, way: &ProbeWay, at: Point) -> Result<(), WriteFault> {
    sheet.put(&[b"beyond ", going_word(way.gone.going)])?;
    write_moment(sheet, way.place)?;
    sheet.point(b" position ", at)?;
    sheet.put(&[b"\n"])
}

// Writes where in the run something is.
fn write_moment(sheet: &mut Sheet<'_>, place: Moment) -> Result<(), WriteFault> {
    sheet.place(place.number, place.line, place.step)
}

// The name of the probe of a place.
fn name_at(set: &ProbeSet, place: usize) -> &[u8] {
    match set.probes().get(place) {
        Some(probe) => probe.name().as_bytes(),
        None => b"",
    }
}

// Writes that a probe is put on, or another one, and what the swing meets.
fn write_change(
    sheet: &mut Sheet<'_>,
    known: Known<'_>,
    change: &Change,
) -> Result<(), WriteFault> {
    let new = name_at(known.set, change.to);
    match change.from {
        None => {
            sheet.put(&[b"first ", new])?;
            write_moment(sheet, change.place)?;
            sheet.point(b" position ", change.stood)?;
        }
        Some(from) => {
            sheet.put(&[b"change ", name_at(known.set, from), b" to ", new])?;
            write_moment(sheet, change.place)?;
            sheet.point(b" position ", change.stood)?;
            sheet.point(b" to ", change.stands)?;
        }
    }
    sheet.put(&[b"\n"])?;
    if !is_turn(known.set.probes(), change) {
        return Ok(());
    }
    for (body, room) in known
        .set
        .swing()
        .iter()
        .zip(known.report.swing.rooms.iter())
    {
        let told = told_at_turn(known.blocks, body, *room, change);
        write_contact(sheet, None, body, told)?;
    }
    Ok(())
}

// Writes how much room is left round a body.
fn write_room<'x>(
    sheet: &mut Sheet<'_>,
    kind: &'x [u8],
    probe: Option<&'x Probe>,
    body: &'x Body,
    room: &Room,
) -> Result<(), WriteFault> {
    let (name, slash) = front_of(probe);
    let body = body.name().as_bytes();
    sheet.put(&[kind, name, slash, body])?;
    match room {
        Room::Met(count) => sheet.number(b" met ", *count, b"\n"),
        Room::Clear(by, narrow) => {
            sheet.number(b" clear ", u64::from(*by), b"\n")?;
            let Some(told) = narrow else {
                return Ok(());
            };
            sheet.number(b"at ", u64::from(*by) + 1, b" ")?;
            sheet.put(&[name, slash, body])?;
            sheet.told(told)
        }
    }
}

// Writes how much room is left round bodies.
fn write_rooms(
    sheet: &mut Sheet<'_>,
    kind: &[u8],
    probe: Option<&Probe>,
    bodies: &[Body],
    rooms: &Rooms,
) -> Result<(), WriteFault> {
    for (body, room) in bodies.iter().zip(rooms.rooms.iter()) {
        write_room(sheet, kind, probe, body, room)?;
    }
    Ok(())
}

// Writes what is told of the probes.
fn write_probes(sheet: &mut Sheet<'_>, known: Known<'_>) -> Result<(), WriteFault> {
    for (probe, rooms) in known.set.probes().iter().zip(known.report.probes.iter()) {
        sheet.put(&[b"probe ", probe.name().as_bytes()])?;
        if rooms.ways == 0 {
            sheet.put(&[b" not used\n"])?;
        } else {
            sheet.number(b" ways ", rooms.ways, b"\n")?;
            write_rooms(sheet, b"box ", Some(probe), probe.bodies(), &rooms.rooms)?;
        }
    }
    Ok(())
}

// Writes what is told of the swing.
fn write_swing(sheet: &mut Sheet<'_>, known: Known<'_>) -> Result<(), WriteFault> {
    sheet.number(b"changes ", known.report.changes, b"\n")?;
    if known.report.turns > 0 {
        return write_rooms(
            sheet,
            b"swing ",
            None,
            known.set.swing(),
            &known.report.swing,
        );
    }
    for body in known.set.swing() {
        sheet.put(&[b"swing ", body.name().as_bytes(), b" not used\n"])?;
    }
    Ok(())
}

// Writes that a run ends without a probe.
fn write_lost(sheet: &mut Sheet<'_>, lost: NoProbe, done: u64) -> Result<(), WriteFault> {
    let mut digits = Buffer::new();
    let value = digits.format(lost.value).as_bytes();
    sheet.put(&[b"no probe ", value])?;
    sheet.place(lost.number, lost.line, done.saturating_add(1))?;
    sheet.put(&[b"\n"])
}

// Writes how a run ended.
fn write_end(sheet: &mut Sheet<'_>, tables: &Tables, run: &SetRun) -> Result<(), WriteFault> {
    if let Ended::Lost(lost) = run.end {
        return write_lost(sheet, lost, run.done);
    }
    write_end_line(tables, run.stop, run.done, sheet.out)?;
    sheet.names.write_once(block_at_end(run.stop), sheet.out)
}

// Writes all of it.
fn write_run(
    sheet: &mut Sheet<'_>,
    known: Known<'_>,
    untried: &[u8],
    tables: &Tables,
    run: &SetRun,
) -> Result<(), WriteFault> {
    for event in &run.events {
        match event {
            Event::Way(way) => write_way(sheet, known, way)?,
            Event::Turn(change) => write_change(sheet, known, change)?,
        }
    }
    sheet.number(b"ways ", known.report.ways, untried)?;
    sheet.put(&[b"\n"])?;
    write_probes(sheet, known)?;
    write_swing(sheet, known)?;
    if known.set.travel().is_some() {
        sheet.number(b"beyond ", known.report.beyond, b"\n")?;
    }
    write_end(sheet, tables, run)
}

/// What a run with several probes came to, as `vcm clearance` prints it, the places of contacts in it, in their order, and whether a body meets a block, or the pivot lies beyond its
/// limits.
#[derive(Drop)]
pub struct SetText {
    pub text: Vec<u8>,
    pub spots: Vec<Spot>,
    pub is_met: bool,
}

/// The text of a run with these probes beside a workpiece, by the tables of its names. Behind the number of ways stands what is told of those that weren't tried; below
/// the first line that names a block the block's name, if it is among these.
///
/// Errors: want of memory.
pub fn set_text(
    alloc: Global,
    set: &ProbeSet,
    blocks: &PartData,
    run: &SetRun,
    untried: &[u8],
    tables: &Tables,
    block_names: &[Vec<u8>],
) -> Result<SetText, NoMemory> {
    let report = report_of(alloc, set, blocks, run)?;
    let mut names = BlockNames::new(alloc, block_names)?;
    let mut text = Vec::new(alloc);
    let mut spots = Vec::new(alloc);
    let known = Known {
        blocks,
        set,
        report: &report,
    };
    let mut sheet = Sheet {
        out: &mut text,
        names: &mut names,
        spots: &mut spots,
    };
    match write_run(&mut sheet, known, untried, tables, run) {
        Ok(()) => {
            let is_met = report.is_met();
            Ok(SetText {
                text,
                spots,
                is_met,
            })
        }
        Err(_) => Err(NoMemory),
    }
}
