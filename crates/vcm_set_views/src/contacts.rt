//! All contacts of a run with several probes.

ghost use Rattle.std.specs.Prelude.{◌≡◌, ◌++◌, map, option_map, IfOk};
ghost use Rattle.vcm_num.specs.Written.{Wrote};
ghost use Rattle.vcm_contacts.specs.Noted.{seen};
ghost use Rattle.vcm_contacts.specs.Printed.{count_line};
ghost use Rattle.vcm_turning.specs.Choosing.{tipped};
ghost use Rattle.vcm_set_contacts.specs.Collecting.{AreSetContacts};
ghost use Rattle.vcm_set_views.specs.Contacts.{passed_end_line, found_text, AreContactsTold};

use crate::fitted::Fitted;
use crate::reasons::source_in;
use std::alloc::Global;
use std::io::Write;
use vcm_backtrace::Source;
use vcm_contacts::{FoundContact, write_count, write_each};
use vcm_items::Tables;
use vcm_motion::{AnyPart, Part};
use vcm_naming::BlockNames;
use vcm_num::{NoMemory, WriteFault};
use vcm_report::write_end_line;
use vcm_set_clearance::in_strips;
use vcm_set_contacts::{PassedEnd, SetContacts, collect_set_contacts};
use vcm_set_debug::write_no_probe;
use vcm_turning::Turning;

/// The contacts of a run as they are told, how many they are, and how the run ended.
#[derive(Drop)]
pub struct ContactsTold {
    pub text: Vec<u8>,
    pub count: usize,
    pub end: PassedEnd,
}

// Writes how a run for so many steps ended.
fn write_passed_end<W: Write>(
    tables: &Tables,
    end: PassedEnd,
    steps: u64,
    writer: &mut W,
) -> Result<(), WriteFault>
    ensures { Wrote (W.contents writer.old) (W.contents writer.new) (passed_end_line tables.now end steps) result }
{
    match end.lost {
        Some(lost) => write_no_probe(lost.probe, lost.step, writer),
        None => write_end_line(tables, end.stop, steps, writer),
    }
}

// Writes how many contacts there are, and how the run ended.
fn write_rest<W: Write>(
    tables: &Tables,
    contacts: &[FoundContact],
    end: PassedEnd,
    steps: u64,
    writer: &mut W,
) -> Result<(), WriteFault>
    ensures { Wrote (W.contents writer.old) (W.contents writer.new) (count_line (map seen contacts.now) ++ passed_end_line tables.now end steps) result }
{
    write_count(contacts, writer)?;
    write_passed_end(tables, end, steps, writer)
}

// Writes the contacts of a run for so many steps, with the names of their blocks, how many they are, and how the run ended.
fn write_found<W: Write>(
    tables: &Tables,
    contacts: &[FoundContact],
    end: PassedEnd,
    steps: u64,
    names: &mut BlockNames,
    writer: &mut W,
) -> Result<(), WriteFault>
    ensures { Wrote (W.contents writer.old) (W.contents writer.new) (found_text names.old tables.now (map seen contacts.now) end steps) result }
{
    write_each(contacts, names, writer)?;
    write_rest(tables, contacts, end, steps, writer)
}

// The contacts of a run beside these workpieces, of which each may have its blocks in strips.
fn contacts_beside<P: Part>(
    alloc: Global,
    fitted: &Fitted<'_>,
    source: &Option<Source<'_>>,
    own: &P,
    parts: &[P],
    steps: u64,
) -> Result<SetContacts, NoMemory>
    requires tie { P.part own.now ≡ fitted.now.part }
    requires ties { map P.part parts.now ≡ map (λ p. tipped fitted.now.part p.tip) fitted.now.probes }
    ensures { IfOk result (λ x. AreSetContacts source.now fitted.now.part fitted.now.probes fitted.now.variable fitted.now.code steps (map seen x.found.items) x.end) }
{
    let Fitted {
        loaded,
        set,
        part,
        variable,
        ..
    } = *fitted;
    let each = fitted.each.as_slice();
    let mut machine = Turning::new(alloc, loaded, set, own, part, parts, each, variable)?;
    match collect_set_contacts(alloc, loaded, source, &mut machine, steps) {
        Ok(found) => Ok(found),
        Err(_) => Err(NoMemory),
    }
}

// The contacts of a run.
fn contacts_of(
    alloc: Global,
    fitted: &Fitted<'_>,
    source: &Option<Source<'_>>,
    steps: u64,
) -> Result<SetContacts, NoMemory>
    ensures { IfOk result (λ x. AreSetContacts source.now fitted.now.part fitted.now.probes fitted.now.variable fitted.now.code steps (map seen x.found.items) x.end) }
{
    let parts = in_strips(alloc, &fitted.each)?;
    let own = AnyPart::of(alloc, fitted.part)?;
    contacts_beside(alloc, fitted, source, &own, &parts, steps)
}

/// All contacts of a run for at most so many steps that goes on behind each, of a code from this text, or of an image, which has none: a line for each, below the first of a
/// block the block's name, if it has one, and below each the backtrace of its statement; how many they are, that what stands behind the first is a guess, and how the run ended.
///
/// Errors: want of memory.
pub fn set_contacts(
    alloc: Global,
    fitted: &Fitted<'_>,
    steps: u64,
    text: Option<&[u8]>,
    names: &mut BlockNames,
) -> Result<ContactsTold, NoMemory>
    ensures { IfOk result (AreContactsTold names.old (option_map (λ t. t.now) text.entry) fitted.now steps) }
{
    let source = source_in(alloc, text)?;
    let found = contacts_of(alloc, fitted, &source, steps)?;
    let tables = fitted.loaded.tables(alloc)?;
    let mut text = Vec::new(alloc);
    let (contacts, end) = (found.found.as_slice(), found.end);
    match write_found(&tables, contacts, end, steps, names, &mut text) {
        Ok(()) => Ok(ContactsTold {
            text,
            count: contacts.len(),
            end,
        }),
        Err(_) => Err(NoMemory),
    }
}
