//! All faults of lines and statements.

ghost use Rattle.std.specs.Prelude.{◌≡◌, ◌-◌, ◌++◌, ◌∷◌, [], List, map, flat_map, slice_get, IfOk, OnOk};
ghost use Rattle.vcm_lines.specs.declared.fault.SourceFault.{SourceFault};
ghost use Rattle.vcm_survey.specs.Faults.{with_fault, faults_in, too_many, AreFaults, front_words, first_line, second_line, told_of, told, shown};

use crate::listing::{shown, whole_lines};
use crate::surveying::{is_too_long, too_many};
use crate::words::fault_words;
use std::alloc::Global;
use vcm_lines::SourceFault;
use vcm_num::{NoMemory, write_int};
use vcm_sentences::{Sentence, sentences_of};

/// The faults of a text, as they are told.
#[derive(Drop)]
pub struct Told {
    /// Two lines for each: the fault, and the line that it is at.
    pub text: Vec<u8>,
    /// The faults, in the order of the statements.
    pub faults: Vec<SourceFault>,
}

// Appends the name of a text, if it has one.
fn put_front(front: &[u8], out: &mut Vec<u8>) -> Result<(), NoMemory>
    ensures { OnOk result (out.new.items ≡ out.old.items ++ front_words front.now) }
{
    if front.is_empty() {
        return Ok(());
    }
    out.extend_from_slice(front)?;
    out.extend_from_slice(b": ")?;
    Ok(())
}

// Appends the line that tells a fault.
#[tactic(auto, unfolding(crate::specs::Faults::first_line))]
fn put_first(front: &[u8], fault: SourceFault, out: &mut Vec<u8>) -> Result<(), NoMemory>
    ensures { OnOk result (out.new.items ≡ out.old.items ++ first_line front.now fault) }
{
    put_front(front, out)?;
    out.extend_from_slice(fault_words(fault.code).as_bytes())?;
    out.extend_from_slice(b" line ")?;
    write_int(i64::from(fault.line), out)?;
    out.extend_from_slice(b"\n")?;
    Ok(())
}

// The line with this number, as it is shown.
fn line_at<'a>(lines: &[&'a [u8]], number: u32) -> &'a [u8]
    ensures { result.now ≡ shown (slice_get (map (λ l. l.now) lines.now) (number - 1)) }
{
    match lines.get((number as usize).saturating_sub(1)) {
        Some(line) => shown(line),
        None => &[],
    }
}

// Appends the line that a fault is at.
#[tactic(auto, unfolding(crate::specs::Faults::second_line))]
fn put_second(fault: SourceFault, lines: &[&[u8]], out: &mut Vec<u8>) -> Result<(), NoMemory>
    ensures { OnOk result (out.new.items ≡ out.old.items ++ second_line (map (λ l. l.now) lines.now) fault) }
{
    out.extend_from_slice(b"  ")?;
    out.extend_from_slice(line_at(lines, fault.line))?;
    out.extend_from_slice(b"\n")?;
    Ok(())
}

// Appends a fault, and below it the line that it is at.
fn put_fault(
    front: &[u8],
    fault: SourceFault,
    lines: &[&[u8]],
    out: &mut Vec<u8>,
) -> Result<(), NoMemory>
    ensures { OnOk result (out.new.items ≡ out.old.items ++ told_of front.now (map (λ l. l.now) lines.now) fault) }
{
    put_first(front, fault, out)?;
    put_second(fault, lines, out)
}

// The faults of these lines, as they are told.
fn told_text(
    alloc: Global,
    front: &[u8],
    lines: &[&[u8]],
    faults: &[SourceFault],
) -> Result<Vec<u8>, NoMemory>
    ensures { IfOk result (λ t. t.items ≡ flat_map (told_of front.now (map (λ l. l.now) lines.now)) faults.now) }
{
    let mut out = Vec::new(alloc);
    for fault in faults {
        put_fault(front, *fault, lines, &mut out)?;
    }
    Ok(out)
}

// Appends a fault, if there is one.
fn push_fault(fault: Option<SourceFault>, out: &mut Vec<SourceFault>) -> Result<(), NoMemory>
    ensures { OnOk result ((fs : List SourceFault) → out.new.items ++ fs ≡ out.old.items ++ with_fault fault fs) }
{
    match fault {
        None => Ok(()),
        Some(fault) => {
            out.push(fault)?;
            Ok(())
        }
    }
}

/// The faults that statements have, in their order, each with what it says alone.
///
/// # Errors
///
/// Out of memory.
pub fn faults_in(alloc: Global, sentences: &[Sentence]) -> Result<Vec<SourceFault>, NoMemory>
    ensures { IfOk result (λ out. out.items ≡ faults_in sentences.now) }
{
    let mut faults = Vec::new(alloc);
    'sentences: for sentence in sentences {
        push_fault(sentence.fault, &mut faults)?;
    }
    Ok(faults)
}

// The fault of a text with too many lines.
fn too_many_alone(alloc: Global) -> Result<Vec<SourceFault>, NoMemory>
    ensures { IfOk result (λ faults. faults.items ≡ too_many ∷ []) }
{
    let mut faults = Vec::new(alloc);
    faults.push(too_many())?;
    Ok(faults)
}

// The faults of a text: that it has too many lines, or those of its statements.
fn text_faults(alloc: Global, text: &[u8]) -> Result<Vec<SourceFault>, NoMemory>
    ensures { IfOk result (λ faults. AreFaults text.now faults.items) }
{
    if is_too_long(text) {
        return too_many_alone(alloc);
    }
    let found = sentences_of(alloc, text)?;
    faults_in(alloc, found.items.as_slice())
}

/// The faults of the lines and the statements of a text, in the order of its statements, each behind this name if there is one.
///
/// # Errors
///
/// Out of memory.
pub fn faults_of(alloc: Global, front: &[u8], text: &[u8]) -> Result<Told, NoMemory>
    ensures faults { IfOk result (λ t. AreFaults text.now t.faults.items) }
    ensures told { IfOk result (λ t. t.text.items ≡ told front.now text.now t.faults.items) }
{
    let lines = whole_lines(alloc, text)?;
    let faults = text_faults(alloc, text)?;
    let text = told_text(alloc, front, lines.as_slice(), faults.as_slice())?;
    Ok(Told { text, faults })
}
