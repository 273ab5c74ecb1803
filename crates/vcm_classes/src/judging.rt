//! The class of a statement, and what becomes of its lines.

ghost use Rattle.std.specs.Prelude.{◌≡◌, IfOk, IfSome, false, true, is_some};
ghost use Rattle.vcm_adapt.specs.declared.edit.Edit.{Edit};
ghost use Rattle.vcm_classes.specs.declared.class.Class.{Class};
ghost use Rattle.vcm_sentences.specs.Judged.{IsTaken};
ghost use Rattle.vcm_classes.specs.Rows.{agrees, PutsTaken, IsTried};

use crate::class::Class;
use std::alloc::Global;
use vcm_adapt::{Edit, NewLine};
use vcm_lines::SourceFault;
use vcm_num::{NoMemory, cut_line, write_int};
use vcm_sentences::{Sentence, fault_of};
use vcm_spelling::joined;
use vcm_standard::Reason;

/// What the rules say of a statement.
#[derive(Drop)]
pub enum Ruling {
    /// Nothing: it stands as it is.
    Stands,
    /// It has no effect.
    Noticed,
    /// It becomes a comment, and nothing is lost.
    LeftOut(Reason),
    /// It becomes a comment.
    NotTried(Reason),
    /// It becomes a comment, and other statements stand for it.
    Replaced(Reason),
    /// This stands for it.
    Put(Reason, Vec<u8>),
    /// This stands for it, which is itself in another spelling.
    Respelled(Reason, Vec<u8>),
    /// These stand for it, each with a line feed behind it.
    Several(Reason, Vec<u8>),
}

/// A statement with its class, and what becomes of its lines: what is put for it is taken by the readers.
#[derive(Drop)]
pub struct Row {
    /// The line that it begins on.
    pub line: u32,
    pub class: Class,
    /// Why, where it is left out, put otherwise or not tried.
    pub reason: Reason,
    /// What the readers say of it, where it has a fault.
    pub fault: Option<SourceFault>,
    /// What becomes of its first line; the others are kept or left out with it.
    pub edit: Edit,
    /// The lines that stand in the place of its first one; none but where points are touched.
    pub lines: Option<Vec<u8>>,
    ghost agreed: { agrees class (is_some fault) edit ≡ true },
    ghost taken: { ∥ PutsTaken edit ∥₁ },
}

// The row of a statement that these bytes stand for, if they can stand in a line.
fn put_row(line: u32, reason: Reason, bytes: Vec<u8>) -> Option<Row>
    requires { IsTaken bytes.items }
    ensures { IfSome result (λ row. row.class ≡ Class.PutOtherwise) }
{
    match NewLine::new(bytes) {
        None => None,
        Some(new) => Some(Row {
            line,
            class: Class::PutOtherwise,
            reason,
            fault: None,
            edit: Edit::Put(new),
            lines: None,
        }),
    }
}

// A row without a fault.
fn plain_row(line: u32, class: Class, reason: Reason, edit: Edit) -> Row
    requires agreed { agrees class false edit ≡ true }
    requires taken { ∥ PutsTaken edit ∥₁ }
    ensures class { result.class ≡ class }
{
    Row {
        line,
        class,
        reason,
        fault: None,
        edit,
        lines: None,
    }
}

// A statement that no rule takes.
fn standing(sentence: &Sentence, class: Class) -> Row
    requires { agrees class false Edit.Keep ≡ true }
    ensures { IsTried result.class sentence.now.fault }
{
    match sentence.fault {
        None => plain_row(sentence.line, class, Reason::Plain, Edit::Keep),
        Some(fault) => faulty(sentence.line, fault),
    }
}

// A statement with a fault.
fn faulty(line: u32, fault: SourceFault) -> Row
    ensures { result.class ≡ Class.Fault }
{
    Row {
        line,
        class: Class::Fault,
        reason: Reason::Plain,
        fault: Some(fault),
        edit: Edit::Keep,
        lines: None,
    }
}

/// A statement that is put otherwise, behind the blanks of the old one, where the readers take the new one and it can stand in a line; else the fault.
pub fn put(
    alloc: Global,
    sentence: &Sentence,
    reason: Reason,
    bytes: &[u8],
) -> Result<Result<Row, Option<SourceFault>>, NoMemory>
    ensures { IfOk result (λ r. IfOk r (λ row. row.class ≡ Class.PutOtherwise)) }
{
    let line = sentence.line;
    let spelled = joined(alloc, &[sentence.indent.as_slice(), bytes])?;
    match fault_of(alloc, spelled.as_slice(), line)? {
        Some(fault) => Ok(Err(Some(fault))),
        None => match put_row(line, reason, spelled) {
            Some(row) => Ok(Ok(row)),
            None => Ok(Err(None)),
        },
    }
}

// Appends a statement in a line of its own, behind the blanks of the old one and in front of its line number; false where the readers refuse it.
fn put_line(
    alloc: Global,
    sentence: &Sentence,
    statement: &[u8],
    out: &mut Vec<u8>,
) -> Result<bool, NoMemory> {
    let spelled = joined(alloc, &[sentence.indent.as_slice(), statement])?;
    if fault_of(alloc, spelled.as_slice(), sentence.line)?.is_some() {
        return Ok(false);
    }
    out.extend_from_slice(spelled.as_slice())?;
    out.extend_from_slice(b"  $$ line ")?;
    write_int(i64::from(sentence.line), out)?;
    out.push(b'\n')?;
    Ok(true)
}

// The lines of statements that stand for another one, where the readers take them.
fn lines_of(
    alloc: Global,
    sentence: &Sentence,
    statements: &[u8],
) -> Result<Option<Vec<u8>>, NoMemory> {
    let mut out = Vec::new(alloc);
    let mut rest = statements;
    let mut are_taken = true;
    for _ in 0..statements.len() {
        if rest.is_empty() {
            break;
        }
        let (statement, after) = cut_line(rest);
        are_taken = put_line(alloc, sentence, statement, &mut out)? && are_taken;
        rest = after;
    }
    Ok(if are_taken { Some(out) } else { None })
}

// The row of a statement that several others stand for.
fn several(
    alloc: Global,
    sentence: &Sentence,
    reason: Reason,
    statements: &[u8],
) -> Result<Row, NoMemory>
    ensures { IfOk result (λ row. IsTried row.class sentence.now.fault) }
{
    match lines_of(alloc, sentence, statements)? {
        None => Ok(untried(sentence, reason)),
        Some(lines) => Ok(Row {
            line: sentence.line,
            class: Class::PutOtherwise,
            reason,
            fault: None,
            edit: Edit::LeaveOut,
            lines: Some(lines),
        }),
    }
}

// A statement that isn't tried.
fn untried(sentence: &Sentence, reason: Reason) -> Row
    ensures { result.class ≡ Class.NotTried }
{
    plain_row(sentence.line, Class::NotTried, reason, Edit::LeaveOut)
}

// The row of a statement in another spelling.
fn respelled(
    alloc: Global,
    sentence: &Sentence,
    reason: Reason,
    bytes: &[u8],
) -> Result<Row, NoMemory>
    ensures { IfOk result (λ row. IsTried row.class sentence.now.fault) }
{
    match put(alloc, sentence, reason, bytes)? {
        Ok(row) => Ok(row),
        Err(Some(fault)) => Ok(faulty(sentence.line, fault)),
        Err(None) => Ok(untried(sentence, reason)),
    }
}

// The row of a statement that another one stands for.
fn replaced(
    alloc: Global,
    sentence: &Sentence,
    reason: Reason,
    bytes: &[u8],
) -> Result<Row, NoMemory>
    ensures { IfOk result (λ row. IsTried row.class sentence.now.fault) }
{
    match put(alloc, sentence, reason, bytes)? {
        Ok(row) => Ok(row),
        Err(_) => Ok(untried(sentence, reason)),
    }
}

/// The row of a statement of which the rules say this.
///
/// # Errors
///
/// Out of memory.
pub fn judged(alloc: Global, sentence: &Sentence, ruling: &Ruling) -> Result<Row, NoMemory>
    ensures { IfOk result (λ row. IsTried row.class sentence.now.fault) }
{
    match ruling {
        Ruling::Stands => Ok(standing(sentence, Class::Fits)),
        Ruling::Noticed => Ok(standing(sentence, Class::Notice)),
        Ruling::LeftOut(reason) => Ok(plain_row(
            sentence.line,
            Class::LeftOut,
            *reason,
            Edit::LeaveOut,
        )),
        Ruling::NotTried(reason) => Ok(untried(sentence, *reason)),
        Ruling::Replaced(reason) => Ok(plain_row(
            sentence.line,
            Class::PutOtherwise,
            *reason,
            Edit::LeaveOut,
        )),
        Ruling::Put(reason, bytes) => replaced(alloc, sentence, *reason, bytes.as_slice()),
        Ruling::Respelled(reason, bytes) => respelled(alloc, sentence, *reason, bytes.as_slice()),
        Ruling::Several(reason, bytes) => several(alloc, sentence, *reason, bytes.as_slice()),
    }
}
