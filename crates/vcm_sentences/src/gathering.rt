//! The sentences of a text, gathered line by line.

ghost use Rattle.std.specs.Prelude.{◌≡◌, ◌==◌, ◌≤◌, map, false, length, if◌then◌else◌, IfOk, MatchOption};
ghost use Rattle.std.specs.List.{take_while};
ghost use Rattle.std.specs.Option.{is_some};
ghost use Rattle.std.specs.Str.Lines.{lines};
ghost use Rattle.vcm_lines.specs.Bytes.{is_blank};
ghost use Rattle.vcm_lines.specs.Statements.{lines_of};
ghost use Rattle.vcm_lines.specs.Leftmost.{first_fault};
ghost use Rattle.vcm_sentences.specs.declared.sentences.Owner.{Owner};
ghost use Rattle.vcm_sentences.specs.Stretches.{said_at, next, sentences_in, spoken, owners_in};
ghost use Rattle.vcm_sentences.specs.inner.Gathering.{IsAlone, kind};

use crate::cleaning::put_line;
use crate::sentences::{Owner, Sentence, Sentences, fault_of, lines_fault};
use std::alloc::Global;
use std::mem::replace;
use vcm_num::{NoMemory, split_line, whole_line};

// A text without its byte order mark.
fn without_mark(text: &[u8]) -> &[u8]
    ensures { lines result.now ≡ lines_of text.now }
{
    if text.starts_with(&[0xEF, 0xBB, 0xBF]) {
        &text[3..]
    } else {
        text
    }
}

// A line, the first one of a text without its byte order mark.
fn unmarked(raw: &[u8], number: u32) -> &[u8]
    ensures { lines result.now ≡ (if number == 1 then lines_of raw.now else lines raw.now) }
{
    if number == 1 {
        return without_mark(raw);
    }
    raw
}

// What a line with this number says, without its ending.
fn said_at(raw: &[u8], number: u32) -> &[u8]
    ensures { result.now ≡ said_at number raw.now }
{
    let line = unmarked(raw, number);
    if line.is_empty() {
        return line;
    }
    split_line(line).0
}

// The blanks in front of a line.
fn indent_of(line: &[u8]) -> &[u8]
    ensures { result.now ≡ take_while is_blank line.now }
{
    &line[..blank_len(line)]
}

// Whether a byte is a blank.
fn is_blank(byte: u8) -> bool
    ensures { result ≡ is_blank byte }
{
    byte == b' ' || byte == b'\t'
}

// How many blanks stand in front of a line.
fn blank_len(line: &[u8]) -> usize
    ensures value { result ≡ length (take_while is_blank line.now) }
    ensures within { result ≤ length line.now }
{
    line.iter().take_while(|byte| is_blank(**byte)).count()
}

// The number of the line behind that with this number.
fn next(number: u32) -> u32
    ensures { result ≡ next number }
{
    number.saturating_add(1)
}

// What a line is to the statement that was begun.
#[derive(Clone, Copy)]
enum LineKind {
    // Nothing is left of it, and it stands in no statement.
    Alone,
    // Nothing is left of it, and it stands within a statement.
    Between,
    // The statement goes on behind it.
    GoesOn,
    // The statement ends with it.
    Ends,
}

// What a line is of which nothing is left, or which goes on or not.
fn kind_of(is_empty: bool, goes_on: bool, is_open: bool) -> LineKind
    ensures { result ≡ kind is_empty goes_on is_open }
{
    if is_empty && is_open {
        return LineKind::Between;
    }
    if is_empty {
        return LineKind::Alone;
    }
    if goes_on {
        return LineKind::GoesOn;
    }
    LineKind::Ends
}

// The lines of a statement that goes on. Where there are none all is empty, and the line is 0.
#[derive(Drop)]
struct Begun {
    line: u32,
    lines: Vec<u8>,
    indent: Vec<u8>,
    bytes: Vec<u8>,
}

impl Begun {
    ghost use Rattle.std.specs.Prelude.{◌≡◌, ◌++◌, [], List, OnOk, IfOk, if◌then◌else◌};
    ghost use Rattle.vcm_sentences.specs.Stretches.{TextLine, text_line, spoken, spoken_of};
    ghost use Rattle.vcm_sentences.specs.inner.Gathering.{Holds, has_lines, kind_of, with_line};

    fn new(alloc: Global) -> Begun
        ensures { Holds result [] }
    {
        Begun {
            line: 0,
            lines: Vec::new(alloc),
            indent: Vec::new(alloc),
            bytes: Vec::new(alloc),
        }
    }

    // Keeps a line as it stands, and of the first one its number and its indent.
    fn keep(&mut self, raw: &[u8], number: u32, is_open: bool) -> Result<(), NoMemory>
        ensures bytes { self.new.bytes.items ≡ self.old.bytes.items }
        ensures lines { OnOk result (self.new.lines.items ≡ self.old.lines.items ++ raw.now) }
        ensures line { OnOk result (self.new.line ≡ (if is_open then self.old.line else number)) }
        ensures indent { OnOk result (self.new.indent.items ≡ self.old.indent.items ++ (if is_open then [] else take_while is_blank raw.now)) }
    {
        self.lines.extend_from_slice(raw)?;
        if is_open {
            return Ok(());
        }
        self.line = number;
        self.indent.extend_from_slice(indent_of(raw))?;
        Ok(())
    }

    // Adds a line, if something is left of it or it stands within the statement, and says what it is.
    fn add(&mut self, raw: &[u8], number: u32, is_open: bool) -> Result<LineKind, NoMemory>
        ensures kind { IfOk result (λ k. k ≡ kind_of is_open (text_line number raw.now)) }
        ensures added { IfOk result (λ k. (ls : List TextLine) → has_lines ls ≡ is_open → Holds self.old ls → Holds self.new (with_line k ls (text_line number raw.now))) }
    {
        let had = self.bytes.len();
        let goes_on = put_line(said_at(raw, number), &mut self.bytes)?;
        let is_empty = !goes_on && self.bytes.len() == had;
        let kind = kind_of(is_empty, goes_on, is_open);
        if is_empty && !is_open {
            return Ok(kind);
        }
        self.keep(raw, number, is_open)?;
        Ok(kind)
    }

    // The statement of the lines; the next one begins then.
    fn finish(&mut self, alloc: Global) -> Result<Sentence, NoMemory>
        ensures made { IfOk result (λ s. (ls : List TextLine) → Holds self.old ls → spoken s ≡ spoken_of ls) }
        ensures emptied { OnOk result (Holds self.new []) }
    {
        let fault = fault_of(alloc, self.lines.as_slice(), self.line)?;
        let lines = replace(&mut self.lines, Vec::new(alloc));
        let indent = replace(&mut self.indent, Vec::new(alloc));
        let bytes = replace(&mut self.bytes, Vec::new(alloc));
        let line = replace(&mut self.line, 0);
        Ok(Sentence {
            line,
            lines,
            indent,
            bytes,
            fault,
        })
    }
}

// The sentence of a line outside of statements of which nothing is left, where it breaks a rule.
fn alone(alloc: Global, raw: &[u8], number: u32) -> Result<Option<Sentence>, NoMemory>
    ensures { IfOk result (λ found. MatchOption found (is_some (first_fault (lines_of raw.now)) ≡ false) (IsAlone number raw.now)) }
{
    let Some(fault) = lines_fault(alloc, raw, number)? else {
        return Ok(None);
    };
    let mut lines = Vec::with_capacity(alloc, raw.len())?;
    lines.extend_from_slice(raw)?;
    let mut indent = Vec::new(alloc);
    indent.extend_from_slice(indent_of(raw))?;
    Ok(Some(Sentence {
        line: number,
        lines,
        indent,
        bytes: Vec::new(alloc),
        fault: Some(fault),
    }))
}

// What a further line of a statement, or its first one, is.
fn owner_of(is_open: bool) -> Owner
    ensures { result ≡ (if is_open then Owner.Other else Owner.First) }
{
    if is_open { Owner::Other } else { Owner::First }
}

// Gathers sentences.
#[derive(Drop)]
struct Gathering {
    found: Sentences,
    begun: Begun,
    // Whether the statement that was begun goes on behind the last line.
    is_open: bool,
}

impl Gathering {
    ghost use Rattle.std.specs.Prelude.{◌≡◌, ◌++◌, ◌∷◌, [], List, OnOk, map, true, false};
    ghost use Rattle.vcm_lines.specs.Statements.{is_empty};
    ghost use Rattle.vcm_sentences.specs.Stretches.{TextLine, text_line, said_at, spoken, spoken_of, told, owner, stretches, owners_from};
    ghost use Rattle.vcm_sentences.specs.inner.Gathering.{Holds, AreRead};

    fn new(alloc: Global) -> Gathering
        ensures { (all : List TextLine) → AreRead all result.begun result.is_open result.found.items.items result.found.owners.items all }
    {
        Gathering {
            found: Sentences {
                items: Vec::new(alloc),
                owners: Vec::new(alloc),
            },
            begun: Begun::new(alloc),
            is_open: false,
        }
    }

    // Takes a line outside of statements of which nothing is left.
    fn alone(&mut self, alloc: Global, raw: &[u8], number: u32) -> Result<(), NoMemory>
        ensures told { OnOk result (is_empty (said_at number raw.now) ≡ true
            → map spoken self.new.found.items.items ≡ map spoken self.old.found.items.items ++ told ((text_line number raw.now ∷ []) ∷ [])) }
        ensures owners { OnOk result (is_empty (said_at number raw.now) ≡ true
            → self.new.found.owners.items ≡ self.old.found.owners.items ++ owner false (text_line number raw.now) ∷ []) }
        ensures begun { self.new.begun ≡ self.old.begun }
        ensures open { self.new.is_open ≡ self.old.is_open }
    {
        match alone(alloc, raw, number)? {
            Some(sentence) => {
                self.found.items.push(sentence)?;
                self.found.owners.push(Owner::First)?;
                Ok(())
            }
            None => {
                self.found.owners.push(Owner::Nobody)?;
                Ok(())
            }
        }
    }

    // Ends the statement that was begun.
    fn finish(&mut self, alloc: Global) -> Result<(), NoMemory>
        ensures told { OnOk result ((ls : List TextLine) → Holds self.old.begun ls
            → map spoken self.new.found.items.items ≡ map spoken self.old.found.items.items ++ spoken_of ls ∷ []) }
        ensures owners { self.new.found.owners.items ≡ self.old.found.owners.items }
        ensures emptied { OnOk result (Holds self.new.begun []) }
        ensures closed { OnOk result (self.new.is_open ≡ false) }
    {
        let sentence = self.begun.finish(alloc)?;
        self.is_open = false;
        self.found.items.push(sentence)?;
        Ok(())
    }

    // Takes the next line.
    fn take(&mut self, alloc: Global, raw: &[u8], number: u32) -> Result<(), NoMemory>
        ensures { OnOk result ((all ahead : List TextLine)
            → AreRead all self.old.begun self.old.is_open self.old.found.items.items self.old.found.owners.items (text_line number raw.now ∷ ahead)
            → AreRead all self.new.begun self.new.is_open self.new.found.items.items self.new.found.owners.items ahead) }
    {
        let is_open = self.is_open;
        match self.begun.add(raw, number, is_open)? {
            LineKind::Alone => self.alone(alloc, raw, number),
            LineKind::Between => {
                self.found.owners.push(Owner::Nobody)?;
                Ok(())
            }
            LineKind::GoesOn => {
                self.found.owners.push(owner_of(is_open))?;
                self.is_open = true;
                Ok(())
            }
            LineKind::Ends => {
                self.found.owners.push(owner_of(is_open))?;
                self.finish(alloc)
            }
        }
    }

    // Ends the statement that goes on at the end of the text, if there is one.
    fn end(&mut self, alloc: Global) -> Result<(), NoMemory>
        ensures told { OnOk result ((all : List TextLine)
            → AreRead all self.old.begun self.old.is_open self.old.found.items.items self.old.found.owners.items []
            → map spoken self.new.found.items.items ≡ told (stretches false all)) }
        ensures owners { OnOk result ((all : List TextLine)
            → AreRead all self.old.begun self.old.is_open self.old.found.items.items self.old.found.owners.items []
            → self.new.found.owners.items ≡ owners_from false all) }
    {
        if self.is_open {
            return self.finish(alloc);
        }
        Ok(())
    }
}

/// The sentences of a text: its statements, each with the fault that its lines or it itself have, and each line outside of them that breaks a rule.
///
/// # Errors
///
/// Out of memory.
pub fn sentences_of(alloc: Global, text: &[u8]) -> Result<Sentences, NoMemory>
    ensures sentences { IfOk result (λ found. map spoken found.items.items ≡ sentences_in text.now) }
    ensures owners { IfOk result (λ found. found.owners.items ≡ owners_in text.now) }
{
    let mut gathering = Gathering::new(alloc);
    let mut rest = text;
    let mut number = 1u32;
    'lines: while !rest.is_empty() {
        let (raw, after) = whole_line(rest);
        gathering.take(alloc, raw, number)?;
        number = next(number);
        rest = after;
    }
    gathering.end(alloc)?;
    Ok(gathering.found)
}
