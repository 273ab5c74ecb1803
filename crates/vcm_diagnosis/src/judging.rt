//! What is wrong with a text, fault by fault.

ghost use Rattle.std.specs.Prelude.{IsTrue, IfOk};
ghost use Rattle.vcm_diagnosis.specs.Judged.{IsToldFirst};
ghost use Rattle.vcm_diagnosis.specs.Told.{told_in, IsAbout};
ghost use Rattle.vcm_diagnosis.specs.inner.Refused.{Tells};

use crate::about::About;
use crate::declaring::declare;
use crate::doubts::{Doubt, is_doubtful};
use crate::edits::{Edit, edited};
use crate::placed::placed_about;
use crate::repairs::Repairs;
use crate::telling::about_words;
use crate::told::certain;
use crate::written::written_about;
use std::alloc::Global;
use vcm_forms::Statement;
use vcm_lines::{FaultCode, SourceFault};
use vcm_macro::expand;
use vcm_num::NoMemory;
use vcm_tree::{accept, accept_statements, statements_of};

/// A fault, and what it is about in words, which may be none.
#[derive(Drop)]
pub struct Diagnosis {
    pub fault: SourceFault,
    pub words: String,
}

/// How many faults of order, names, kinds and blocks are looked for in a text.
pub(crate) const MOST_FAULTS: usize = 100;

// Whether a fault is want of memory.
fn is_memory(fault: SourceFault) -> bool {
    fault.code == FaultCode::NoMemory
}

// The statements of a text with these changes, if it can be read.
fn changed(alloc: Global, text: &[u8], edits: &[Edit]) -> Result<Option<Vec<Statement>>, NoMemory> {
    match statements_of(alloc, text) {
        Ok(all) => Ok(Some(edited(alloc, all, edits)?)),
        Err(fault) if is_memory(fault) => Err(NoMemory),
        Err(_) => Ok(None),
    }
}

// The fault of statements, if they have one.
fn fault_of(alloc: Global, all: Vec<Statement>) -> Result<Option<SourceFault>, NoMemory> {
    declare(all.as_slice());
    match accept_statements(alloc, all) {
        Ok(accepted) => {
            drop(accepted);
            Ok(None)
        }
        Err(fault) if is_memory(fault) => Err(NoMemory),
        Err(fault) => Ok(Some(fault)),
    }
}

// What a fault of the expanded program is about.
fn expanded_about(
    alloc: Global,
    all: Vec<Statement>,
    fault: SourceFault,
) -> Result<About, NoMemory> {
    match expand(alloc, all) {
        Ok(all) => placed_about(alloc, all.as_slice(), fault),
        Err(fault) if is_memory(fault) => Err(NoMemory),
        Err(_) => Ok(About::Nothing),
    }
}

// What a fault seems to be about of a text with these changes, whose statements these are.
fn seen_in(
    alloc: Global,
    text: &[u8],
    edits: &[Edit],
    all: &[Statement],
    fault: SourceFault,
) -> Result<About, NoMemory> {
    if let Some(about) = written_about(alloc, all, fault)? {
        return Ok(about);
    }
    match changed(alloc, text, edits)? {
        Some(all) => expanded_about(alloc, all, fault),
        None => Ok(About::Nothing),
    }
}

// What a fault is about of a text with these changes, whose statements these are.
fn about_in(
    alloc: Global,
    text: &[u8],
    edits: &[Edit],
    all: &[Statement],
    fault: SourceFault,
) -> Result<About, NoMemory>
    ensures { IfOk result (λ about. IsTrue (told_in all.now about)) }
{
    let about = seen_in(alloc, text, edits, all, fault)?;
    Ok(certain(all, about))
}

/// What a text is refused for, where this is its refusal.
///
/// # Errors
///
/// Out of memory.
pub fn refusal_about(alloc: Global, text: &[u8], fault: SourceFault) -> Result<About, NoMemory>
    ensures { IfOk result (IsAbout text.now) }
{
    match statements_of(alloc, text) {
        Ok(all) => about_in(alloc, text, &[], all.as_slice(), fault),
        Err(fault) if is_memory(fault) => Err(NoMemory),
        Err(_) => Ok(About::Nothing),
    }
}

/// What a text is refused for, in words, which may be none, where this is its refusal.
///
/// # Errors
///
/// Out of memory.
pub fn refusal_words(alloc: Global, text: &[u8], fault: SourceFault) -> Result<String, NoMemory> {
    let about = refusal_about(alloc, text, fault)?;
    Ok(about_words(alloc, &about)?)
}

// Whether a fault is told as the one before it was.
fn is_same(last: &Option<Diagnosis>, next: &Diagnosis) -> bool {
    match last {
        Some(last) => { last.fault == next.fault && last.words.as_bytes() == next.words.as_bytes() }
        None => false,
    }
}

// Judges fault by fault: the changes, the faults that are told, and the last one, told or not.
#[derive(Drop)]
struct Judging {
    repairs: Repairs,
    found: Vec<Diagnosis>,
    last: Option<Diagnosis>,
}

impl Judging {
    // Takes a fault of these statements, and says whether there may be others.
    fn take(
        &mut self,
        alloc: Global,
        text: &[u8],
        all: &[Statement],
        fault: SourceFault,
    ) -> Result<bool, NoMemory> {
        let about = about_in(alloc, text, self.repairs.edits.as_slice(), all, fault)?;
        let words = about_words(alloc, &about)?;
        let next = Diagnosis { fault, words };
        if is_same(&self.last, &next) {
            return Ok(false);
        }
        if !is_doubtful(self.repairs.doubts.as_slice(), fault, &about) {
            let words = about_words(alloc, &about)?;
            self.found.push(Diagnosis { fault, words })?;
        }
        self.last = Some(next);
        self.repairs.repair(alloc, all, fault, &about)
    }

    // Takes a fault of a text with the changes so far, and says whether there may be others.
    fn take_in(
        &mut self,
        alloc: Global,
        text: &[u8],
        fault: SourceFault,
    ) -> Result<bool, NoMemory> {
        match changed(alloc, text, self.repairs.edits.as_slice())? {
            Some(all) => self.take(alloc, text, all.as_slice(), fault),
            None => Ok(false),
        }
    }

    // Judges a text with the changes so far, and says whether there may be other faults.
    fn step(&mut self, alloc: Global, text: &[u8]) -> Result<bool, NoMemory> {
        let Some(all) = changed(alloc, text, self.repairs.edits.as_slice())? else {
            return Ok(false);
        };
        match fault_of(alloc, all)? {
            Some(fault) => self.take_in(alloc, text, fault),
            None => Ok(false),
        }
    }
}

// A fault, or want of memory.
fn told(fault: SourceFault) -> Result<Option<SourceFault>, NoMemory>
    ensures { IfOk result (Tells fault) }
{
    match fault.code {
        FaultCode::NoMemory => Err(NoMemory),
        code => Ok(Some(SourceFault {
            code,
            line: fault.line,
        })),
    }
}

// What a text is refused with, if it is.
fn refusal_of(alloc: Global, text: &[u8]) -> Result<Option<SourceFault>, NoMemory>
    ensures { IfOk result (IsToldFirst text.now) }
{
    match accept(alloc, text) {
        Ok(accepted) => {
            drop(accepted);
            Ok(None)
        }
        Err(fault) => told(fault),
    }
}

/// What is found in a text.
#[derive(Drop)]
pub struct Findings {
    /// What it is refused with.
    pub refusal: Option<SourceFault>,
    /// The faults that are told, in the order in which they are found: that one, and then each behind the changes of those before it. One that may be caused by a
    /// statement that isn't there isn't told.
    pub told: Vec<Diagnosis>,
}

/// The faults of order, names, kinds and blocks of a text, which may lack these statements: what it is refused with, and then what is found behind changes, fault by
/// fault. The statement at fault is left out, or says the same of names and blocks; an end that is missing stands there. At most 100.
pub(crate) fn find_all(alloc: Global, text: &[u8], doubts: Vec<Doubt>) -> Result<Findings, NoMemory>
    ensures { IfOk result (λ r. IsToldFirst text.now r.refusal) }
{
    let refusal = refusal_of(alloc, text)?;
    let told = match refusal {
        Some(fault) => all_behind(alloc, text, doubts, fault)?,
        None => Vec::new(alloc),
    };
    Ok(Findings { refusal, told })
}

/// The faults of order, names, kinds and blocks of a text: what it is refused with, and then what is found behind changes, fault by fault.
///
/// # Errors
///
/// Out of memory.
pub fn faults_in(alloc: Global, text: &[u8]) -> Result<Findings, NoMemory>
    ensures { IfOk result (λ r. IsToldFirst text.now r.refusal) }
{
    find_all(alloc, text, Vec::new(alloc))
}

// The faults that are told of a text that is refused with this one.
fn all_behind(
    alloc: Global,
    text: &[u8],
    doubts: Vec<Doubt>,
    fault: SourceFault,
) -> Result<Vec<Diagnosis>, NoMemory> {
    let mut repairs = Repairs::new(alloc);
    repairs.doubts = doubts;
    let mut judging = Judging {
        repairs,
        found: Vec::new(alloc),
        last: None,
    };
    let mut goes_on = judging.take_in(alloc, text, fault)?;
    for _ in 1..MOST_FAULTS {
        if !goes_on {
            break;
        }
        goes_on = judging.step(alloc, text)?;
    }
    Ok(judging.found)
}
