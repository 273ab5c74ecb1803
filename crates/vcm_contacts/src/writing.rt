//! Contacts as text. Nothing here takes memory.

ghost use Rattle.std.specs.Prelude.{◌≡◌, ◌++◌, [], ◌∷◌, map};
ghost use Rattle.vcm_num.specs.Written.{Wrote};
ghost use Rattle.vcm_naming.specs.Pages.{page, Added};
ghost use Rattle.vcm_report.specs.Printed.{end_line};
ghost use Rattle.vcm_contacts.specs.Noted.{seen};
ghost use Rattle.vcm_contacts.specs.Printed.{contact_text, contact_line, found_lines, all_lines, contacts_word, some_line, count_line, contacts_text};

use crate::contact::{Contact, FoundContact};
use itoa::Buffer;
use std::io::Write;
use vcm_items::Tables;
use vcm_naming::BlockNames;
use vcm_num::{WriteFault, write_all, write_pieces};
use vcm_report::{phase_text, write_end_line};
use vcm_spec::StopPlace;

// Writes a contact.
fn write_contact<W: Write>(contact: &Contact, writer: &mut W) -> Result<(), WriteFault>
    ensures { Wrote (W.contents writer.old) (W.contents writer.new) (contact_text contact.now) result }
{
    let mut block = Buffer::new();
    let mut permille = Buffer::new();
    let mut number = Buffer::new();
    let mut line = Buffer::new();
    let block = block.format(contact.hit.block).as_bytes();
    let permille = permille.format(contact.hit.permille).as_bytes();
    let number = number.format(contact.number).as_bytes();
    let line = line.format(contact.line).as_bytes();
    let phase = phase_text(contact.phase);
    write_pieces(
        writer,
        &[
            b"COLLISION ",
            phase,
            b" block ",
            block,
            b" permille ",
            permille,
            b" at ",
            number,
            b" line ",
            line,
            b"\n",
        ],
    )
}

// Writes a contact, and the name of its block, if it is left.
fn write_named<W: Write>(
    contact: &Contact,
    names: &mut BlockNames,
    writer: &mut W,
) -> Result<(), WriteFault>
    ensures { Added (page (W.contents writer.old) names.old) (page (W.contents writer.new) names.new) (contact_line contact.now ∷ []) result }
{
    write_contact(contact, writer)?;
    names.write_once(Some(contact.hit.block), writer)
}

// The same, and below it the backtrace of its statement.
fn write_found<W: Write>(
    found: &FoundContact,
    names: &mut BlockNames,
    writer: &mut W,
) -> Result<(), WriteFault>
    ensures { Added (page (W.contents writer.old) names.old) (page (W.contents writer.new) names.new) (found_lines (seen found.now)) result }
{
    write_named(&found.contact, names, writer)?;
    write_all(writer, &found.backtrace)
}

/// Writes contacts, a line for each, the names of their blocks that are left, and the backtraces of their statements.
///
/// Errors: the writer failed, or took no byte; then it has taken a front of the lines, and not all of them.
pub fn write_each<W: Write>(
    contacts: &[FoundContact],
    names: &mut BlockNames,
    writer: &mut W,
) -> Result<(), WriteFault>
    ensures { Added (page (W.contents writer.old) names.old) (page (W.contents writer.new) names.new) (all_lines (map seen contacts.now)) result }
{
    for found in contacts {
        write_found(found, names, writer)?;
    }
    Ok(())
}

// One contact, or several.
fn contacts_word(count: usize) -> &'static [u8]
    ensures { result.now ≡ contacts_word count }
{
    if count == 1 {
        b" contact"
    } else {
        b" contacts"
    }
}

// Writes how many contacts there are, the first on this line, and what stands behind it.
fn write_some<W: Write>(count: usize, line: u32, writer: &mut W) -> Result<(), WriteFault>
    ensures { Wrote (W.contents writer.old) (W.contents writer.new) (some_line count line) result }
{
    let word = contacts_word(count);
    let mut number = Buffer::new();
    let mut place = Buffer::new();
    let number = number.format(count).as_bytes();
    let place = place.format(line).as_bytes();
    write_pieces(
        writer,
        &[
            number,
            word,
            b"; behind line ",
            place,
            b" the run is one that would not take place\n",
        ],
    )
}

/// Writes how many contacts there are, and that what stands behind the first is a guess.
///
/// Errors: likewise.
pub fn write_count<W: Write>(contacts: &[FoundContact], writer: &mut W) -> Result<(), WriteFault>
    ensures { Wrote (W.contents writer.old) (W.contents writer.new) (count_line (map seen contacts.now)) result }
{
    match contacts.split_first() {
        None => write_all(writer, b"0 contacts\n"),
        Some((first, _)) => write_some(contacts.len(), first.contact.line, writer),
    }
}

// Writes how many contacts there are, and how the run ended.
fn write_rest<W: Write>(
    tables: &Tables,
    contacts: &[FoundContact],
    stop: Option<StopPlace>,
    steps: u64,
    writer: &mut W,
) -> Result<(), WriteFault>
    ensures { Wrote (W.contents writer.old) (W.contents writer.new) (count_line (map seen contacts.now) ++ end_line tables.now stop steps) result }
{
    write_count(contacts, writer)?;
    write_end_line(tables, stop, steps, writer)
}

/// Writes the contacts of a run for so many steps, a line for each, below the first of a block the block's name, if it has one, and below each the backtrace of its statement; how
/// many they are, that what stands after the first is a guess, and how the run ended.
///
/// Errors: the writer failed, or took no byte; then it has taken a front of the text, and not all of it.
pub fn write_contacts<W: Write>(
    tables: &Tables,
    contacts: &[FoundContact],
    stop: Option<StopPlace>,
    steps: u64,
    names: &mut BlockNames,
    writer: &mut W,
) -> Result<(), WriteFault>
    ensures { Wrote (W.contents writer.old) (W.contents writer.new) (contacts_text names.old tables.now (map seen contacts.now) stop steps) result }
{
    write_each(contacts, names, writer)?;
    write_rest(tables, contacts, stop, steps, writer)
}
