//! The statements of a text, behind faults too.

ghost use Rattle.std.specs.Prelude.{◌≡◌, ◌∷◌, [], IfOk, Ok, MatchOption, Some};
ghost use Rattle.std.specs.Option.{is_some};
ghost use Rattle.vcm_lines.specs.Fault.{NoMemoryOr};
ghost use Rattle.vcm_lines.specs.Lexemes.{lexemes};
ghost use Rattle.vcm_lines.specs.Statements.{lines_of};
ghost use Rattle.vcm_lines.specs.Leftmost.{first_fault};
ghost use Rattle.vcm_syntax.specs.Statements.{statement_of};
ghost use Rattle.vcm_forms.specs.declared.statement.Form.{Form};
ghost use Rattle.vcm_sentences.specs.Judged.{BeginsSpelled, BeginsFaulty, IsJudged, Tells};

use std::alloc::Global;
use vcm_lines::{FaultCode, Logical, LogicalLines, SourceFault, logical_lines};
use vcm_num::NoMemory;
use vcm_syntax::parse_statement;

/// A statement of a text. Its fault is what the readers of lines and of statements say of its lines, no more and no less.
#[derive(Drop)]
pub struct Sentence {
    /// The line that it begins on, from 1 on.
    pub line: u32,
    /// Its lines as they stand in the text, and those without any statement between them.
    pub lines: Vec<u8>,
    /// The blanks in front of it.
    pub indent: Vec<u8>,
    /// Its bytes without blanks and comments, in upper case outside texts. None where a line has nothing but a fault.
    pub bytes: Vec<u8>,
    /// What the readers of lines and of statements say of it.
    pub fault: Option<SourceFault>,
    ghost judged: { ∥ IsJudged line lines.items fault ∥₁ },
}

/// What a line is to the statements.
#[derive(Clone, Copy)]
pub enum Owner {
    /// Nothing: it is empty, or has a comment alone.
    Nobody,
    /// It is the first line of the next one.
    First,
    /// It is another line of the one that was begun.
    Other,
}

/// The statements of a text, and for each line which one it belongs to.
#[derive(Drop)]
pub struct Sentences {
    pub items: Vec<Sentence>,
    pub owners: Vec<Owner>,
}

// The fault of a statement, if it has one.
fn statement_fault(alloc: Global, logical: &Logical) -> Option<SourceFault>
    ensures { MatchOption result ((form : Form) × (statement_of (lexemes logical.now.text logical.now.words) ≡ Ok form))
        (NoMemoryOr (λ f. BeginsFaulty (logical.now ∷ []) f)) }
{
    match parse_statement(alloc, logical) {
        Ok(statement) => {
            drop(statement);
            None
        }
        Err(fault) => Some(fault),
    }
}

// The fault of the first statement, if it has one.
fn first_fault(alloc: Global, read: &LogicalLines) -> Option<SourceFault>
    ensures { MatchOption result (BeginsSpelled read.now) (NoMemoryOr (BeginsFaulty read.now)) }
{
    match read.as_slice() {
        [] => None,
        [logical, ..] => statement_fault(alloc, logical),
    }
}

// A fault at its line in the text, or want of memory.
fn placed(fault: SourceFault, line: u32) -> Result<Option<SourceFault>, NoMemory>
    ensures { IfOk result (Tells line fault) }
{
    match fault.code {
        FaultCode::NoMemory => Err(NoMemory),
        code => Ok(Some(SourceFault {
            code,
            line: fault.line.saturating_add(line).saturating_sub(1),
        })),
    }
}

/// What the readers of lines and of statements say of the lines of one statement, the first of which has this number.
///
/// # Errors
///
/// Out of memory.
pub fn fault_of(alloc: Global, lines: &[u8], line: u32) -> Result<Option<SourceFault>, NoMemory>
    ensures { IfOk result (IsJudged line lines.now) }
{
    let read = match logical_lines(alloc, lines) {
        Ok(read) => read,
        Err(fault) => return placed(fault, line),
    };
    let found = first_fault(alloc, &read);
    drop(read);
    match found {
        Some(fault) => placed(fault, line),
        None => Ok(None),
    }
}

/// The fault of lines that hold no statement, the first of which has this number, if they break a rule of lines.
///
/// # Errors
///
/// Out of memory.
pub(crate) fn lines_fault(
    alloc: Global,
    lines: &[u8],
    line: u32,
) -> Result<Option<SourceFault>, NoMemory>
    ensures found { IfOk result (λ f. is_some f ≡ is_some (first_fault (lines_of lines.now))) }
    ensures told { IfOk result (λ f. MatchOption f (Unit {0}) (λ g. IsJudged line lines.now (Some g))) }
{
    match logical_lines(alloc, lines) {
        Ok(read) => {
            drop(read);
            Ok(None)
        }
        Err(fault) => placed(fault, line),
    }
}
