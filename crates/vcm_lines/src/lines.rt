//! The statements of a text.

ghost use Rattle.std.specs.Prelude.{◌≡◌, ◌<◌, ◌∷◌, length, IfOk, OnOk, IfErr, Some, None};
ghost use Rattle.std.specs.Option.{option_map_or};
ghost use Rattle.std.specs.Str.Lines.{lines};
ghost use Rattle.vcm_lines.specs.Fault.{NoMemoryOr};
ghost use Rattle.vcm_spec.specs.Phase.{IsClean, FirstFault};
ghost use Rattle.vcm_lines.specs.Statements.{lines_of, kept_lines, grouped, AreLogical, Breaks, told_line};
ghost use Rattle.vcm_lines.specs.Leftmost.{first_fault};
ghost use Rattle.vcm_lines.specs.inner.Holding.{marked};

use crate::clean::read_line;
use crate::fault::{FaultCode, SourceFault};
use crate::logical::{Logical, LogicalLines, OwnedBytes, Word};
use crate::words::words_of;
use std::alloc::{AllocError, Global};
use vcm_num::{LONGEST_LINE, LONGEST_STATEMENT, split_line};

/// The most lines of a text.
const MAX_LINES: u16 = vcm_num::MOST_STATEMENTS as u16;

/// A text without its byte order mark.
fn without_mark(text: &[u8]) -> &[u8]
    ensures { lines result.now ≡ lines_of text.now }
{
    if text.starts_with(&[0xEF, 0xBB, 0xBF]) {
        &text[3..]
    } else {
        text
    }
}

/// The first line of a span, or this line where there is none yet.
fn first_or(span: Option<(u16, u16)>, line: u16) -> u16
    ensures { result ≡ option_map_or (λ s. s.0) span line }
{
    span.map_or(line, |span| span.0)
}

/// Keeps the line of each byte of a statement, from its second line on: the line `number` has the bytes from `had` on, up to `len`.
fn mark(
    lines: &mut Vec<u16>,
    span: Option<(u16, u16)>,
    had: usize,
    len: usize,
    number: u16,
) -> Result<(), AllocError>
    ensures { OnOk result (lines.new.items ≡ marked lines.old.items span had len number) }
{
    let Some((first, _)) = span else {
        return Ok(());
    };
    lines.resize(had, first)?;
    lines.resize(len, number)
}

/// What is told of a line.
fn refusal(code: FaultCode, line: u16) -> SourceFault
    ensures { result ≡ record { code = code; line = line } }
{
    SourceFault {
        code,
        line: u32::from(line),
    }
}

/// A statement that the lines so far begin. Its memory serves one statement after the other; what a statement keeps is copied, in just its size.
#[derive(Drop)]
struct Unfinished {
    bytes: Vec<u8>,
    /// Room for the words.
    words: Vec<Word>,
    /// The line of each byte, once there is more than one line.
    lines: Vec<u16>,
    /// The first line and the last one, where there is a line.
    span: Option<(u16, u16)>,
}

impl Unfinished {
    ghost use Rattle.std.specs.Prelude.{◌≡◌, ◌≤◌, ◌<◌, ◌++◌, ◌∷◌, [], List, length, true, false, not, ◌&&◌, OnOk, IfOk, IfErr, MatchOption, Some, None};
    ghost use Rattle.vcm_lines.specs.Segments.{text_of, continues};
    ghost use Rattle.vcm_lines.specs.Statements.{KeptLine, kept_line, is_empty, IsLogical};
    ghost use Rattle.vcm_lines.specs.Leftmost.{bytes_fault};
    ghost use Rattle.vcm_lines.specs.inner.Holding.{Holds};

    fn new(alloc: Global) -> Self
        ensures { Holds result [] }
    {
        Unfinished {
            bytes: Vec::new(alloc),
            words: Vec::new(alloc),
            lines: Vec::new(alloc),
            span: None,
        }
    }

    /// Adds a line, and says whether the statement ends with it. A line that is empty adds nothing.
    fn add(&mut self, line: &[u8], number: u16) -> Result<bool, SourceFault>
        ensures unbroken { OnOk result (bytes_fault self.old.bytes.items line.now ≡ None) }
        ensures fits { OnOk result (length self.new.bytes.items ≤ LONGEST_STATEMENT) }
        ensures ends { IfOk result (λ e. e ≡ (not (continues line.now) && not (is_empty line.now))) }
        ensures empty { OnOk result ((rows : List KeptLine) → is_empty line.now ≡ true → Holds self.old rows → Holds self.new rows) }
        ensures row { OnOk result ((rows : List KeptLine) → is_empty line.now ≡ false → Holds self.old rows → Holds self.new (rows ++ kept_line number line.now ∷ [])) }
        ensures fault { IfErr result (NoMemoryOr (λ f. (f.line ≡ number) × (bytes_fault self.old.bytes.items line.now ≡ Some f.code))) }
    {
        let had = self.bytes.len();
        self.bytes.reserve(line.len())?;
        let goes_on = read_line(&mut self.bytes, line, u32::from(number))?;
        let len = self.bytes.len();
        if len > LONGEST_STATEMENT {
            return Err(refusal(FaultCode::LineTooLong, number));
        }
        if !goes_on && len == had {
            return Ok(false);
        }
        mark(&mut self.lines, self.span, had, len, number)?;
        self.span = Some((first_or(self.span, number), number));
        Ok(!goes_on)
    }

    /// The statement, if there is a line; the next one begins then.
    fn finish(&mut self, alloc: Global) -> Result<Option<Logical>, AllocError>
        requires short { length self.old.bytes.items ≤ LONGEST_STATEMENT }
        ensures made { IfOk result (λ found. (rows : List KeptLine) → Holds self.old rows → MatchOption found (rows ≡ []) (IsLogical rows)) }
        ensures emptied { OnOk result ((rows : List KeptLine) → Holds self.old rows → Holds self.new []) }
    {
        let Some((line, _)) = self.span else {
            return Ok(None);
        };
        let words = words_of(alloc, &mut self.words, &self.bytes, &self.lines, line)?;
        let text = OwnedBytes::copied(alloc, &self.bytes)?;
        self.bytes.clear();
        self.lines.clear();
        self.span = None;
        let line = u32::from(line);
        Ok(Some(Logical { line, text, words }))
    }
}

/// The statements of a text, in order.
///
/// # Errors
///
/// The first line with a fault is told, and of several faults in one line the leftmost: more than 20,000 lines; a line of more than 1,024
/// bytes, its ending left out; a byte that may not stand where it does; a text that isn't closed, and a single dollar that isn't last on its
/// line (bad syntax); then a statement of more than 4,096 bytes. At the end of the text it is a last line that goes on. Want of memory has
/// line 0.
pub fn logical_lines(alloc: Global, text: &[u8]) -> Result<LogicalLines, SourceFault>
    ensures unbroken { IfOk result (λ _. IsClean Breaks (lines_of text.now)) }
    ensures statements { IfOk result (AreLogical (grouped (kept_lines (lines_of text.now)))) }
    ensures fault { IfErr result (NoMemoryOr (λ f. FirstFault Breaks told_line (lines_of text.now) f.code f.line)) }
    ensures faultless { IfOk result (λ _. first_fault (lines_of text.now) ≡ None) }
    ensures leftmost { IfErr result (NoMemoryOr (λ f. first_fault (lines_of text.now) ≡ Some f)) }
{
    let mut items = Vec::new(alloc);
    let mut statement = Unfinished::new(alloc);
    let mut number = 0;
    let mut rest = without_mark(text);
    'lines: while !rest.is_empty() {
        let (line, after) = split_line(rest);
        if number >= MAX_LINES {
            return Err(refusal(FaultCode::TooManyLines, number + 1));
        }
        number += 1;
        if line.len() > LONGEST_LINE {
            return Err(refusal(FaultCode::LineTooLong, number));
        }
        if statement.add(line, number)? {
            if let Some(logical) = statement.finish(alloc)? {
                items.push(logical)?;
            }
        }
        rest = after;
    }
    match statement.span {
        None => Ok(LogicalLines { items }),
        Some((_, last)) => Err(refusal(FaultCode::DanglingContinuation, last)),
    }
}
