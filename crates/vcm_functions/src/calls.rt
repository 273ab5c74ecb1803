//! Calls of functions by literals.

ghost use Rattle.std.specs.Prelude.{◌≡◌, ◌++◌, IfOk, OnOk};
ghost use Rattle.vcm_functions.specs.Calls.{applied, is_named, call_text, two_passes, four_passes, eight_passes, pass};
ghost use Rattle.vcm_functions.specs.Values.{function_of};
ghost use Rattle.vcm_functions.specs.Literals.{value_in};

use crate::literals::{Literal, Stage, literal_behind, unread, value_in};
use crate::values::{Value, apply, function_of, put_value};
use crate::words::{is_blank, is_in_word};
use std::alloc::Global;
use std::marker::Model;
use vcm_num::NoMemory;

/// Where the reading of an expression stands.
#[derive(Clone, Copy)]
pub enum Stand {
    /// Between words.
    Outside,
    /// In a word.
    Word,
    /// In a quoted text.
    Quoted,
    /// In the argument of a function.
    Argument,
}

/// An expression as it is read. Contracts see it as the `Reading` of the definitions.
#[derive(Drop)]
struct Reader {
    stand: Stand,
    /// The word that was read last.
    word: Vec<u8>,
    /// The bytes that are held back.
    held: Vec<u8>,
    /// The argument.
    literal: Literal,
    /// The bytes that are written.
    out: Vec<u8>,
}

/// Whether a word names a function.
pub(crate) fn is_named(word: &[u8]) -> bool
    ensures { result ≡ is_named (function_of word.now) }
{
    function_of(word).is_some()
}

// The value of a function by an argument, if it has one.
fn applied(word: &[u8], literal: Literal) -> Option<Value>
    ensures { result ≡ applied (function_of word.now) (value_in literal) }
{
    match function_of(word) {
        Some(function) => match value_in(literal) {
            Some(value) => apply(function, value),
            None => None,
        },
        None => None,
    }
}

// Appends what a call is written as: its value, or these bytes.
fn put_call(value: Option<Value>, bytes: &[u8], out: &mut Vec<u8>) -> Result<(), NoMemory>
    ensures { OnOk result (out.new.items ≡ out.old.items ++ call_text value bytes.now) }
{
    match value {
        Some(value) => put_value(value, out),
        None => {
            out.extend_from_slice(bytes)?;
            Ok(())
        }
    }
}

impl Model for Reader {
    ghost use Rattle.vcm_functions.specs.Calls.{Reading};

    ghost Value = { Reading };

    ghost view = { λ r. record { stand = r.stand; word = r.word.items; held = r.held.items; literal = r.literal; out = r.out.items } };
}

impl Reader {
    ghost use Rattle.std.specs.Prelude.{◌≡◌, ◌++◌, ◌∷◌, [], OnOk};
    ghost use Rattle.vcm_functions.specs.Calls.{nothing_read, holding, wrote, spelling, outside_behind, ended, word_behind, quoted_behind, called, broken_behind, argument_behind, read_behind, all_out};

    // Nothing is read.
    fn new(alloc: Global) -> Reader
        ensures { result ≡ nothing_read }
    {
        Reader {
            stand: Stand::Outside,
            word: Vec::new(alloc),
            held: Vec::new(alloc),
            literal: unread(),
            out: Vec::new(alloc),
        }
    }

    // One more byte is held back.
    fn hold(&mut self, byte: u8) -> Result<(), NoMemory>
        ensures { OnOk result (self.new ≡ holding self.old byte) }
    {
        self.held.push(byte)?;
        Ok(())
    }

    // No byte is held back.
    fn restart(&mut self)
        ensures { self.new ≡ record nothing_read { out = self.old.out } }
    {
        self.stand = Stand::Outside;
        self.word.clear();
        self.held.clear();
        self.literal = unread();
    }

    // The bytes that were held back are written.
    fn release(&mut self) -> Result<(), NoMemory>
        ensures { OnOk result (self.new ≡ wrote self.old self.old.held) }
    {
        self.out.extend_from_slice(&self.held)?;
        self.restart();
        Ok(())
    }

    // One more byte of a word.
    fn spell(&mut self, byte: u8) -> Result<(), NoMemory>
        ensures { OnOk result (self.new ≡ spelling self.old byte) }
    {
        self.stand = Stand::Word;
        self.word.push(byte.to_ascii_uppercase())?;
        self.hold(byte)
    }

    // A byte between words.
    fn read_outside(&mut self, byte: u8) -> Result<(), NoMemory>
        ensures { OnOk result (self.new ≡ outside_behind self.old byte) }
    {
        if is_in_word(byte) {
            return self.spell(byte);
        }
        if byte == b'\'' {
            self.stand = Stand::Quoted;
        }
        self.out.push(byte)?;
        Ok(())
    }

    // A byte behind what is no call.
    fn end_at(&mut self, byte: u8) -> Result<(), NoMemory>
        ensures { OnOk result (self.new ≡ ended self.old byte) }
    {
        self.release()?;
        self.read_outside(byte)
    }

    // A byte behind a word, or in it.
    fn read_word(&mut self, byte: u8) -> Result<(), NoMemory>
        ensures { OnOk result (self.new ≡ word_behind self.old byte) }
    {
        if is_in_word(byte) {
            return self.spell(byte);
        }
        if is_blank(byte) {
            return self.hold(byte);
        }
        if byte == b'(' && is_named(&self.word) {
            self.stand = Stand::Argument;
            self.literal = unread();
            return self.hold(byte);
        }
        self.end_at(byte)
    }

    // A byte of a quoted text.
    fn read_quoted(&mut self, byte: u8) -> Result<(), NoMemory>
        ensures { OnOk result (self.new ≡ quoted_behind self.old byte) }
    {
        self.stand = if byte == b'\'' {
            Stand::Outside
        } else {
            Stand::Quoted
        };
        self.out.push(byte)?;
        Ok(())
    }

    // A byte that ends a call.
    fn end_call(&mut self, literal: Literal, byte: u8) -> Result<(), NoMemory>
        ensures { OnOk result (self.new ≡ called self.old literal byte) }
    {
        self.held.push(byte)?;
        let value = applied(&self.word, literal);
        put_call(value, &self.held, &mut self.out)?;
        self.restart();
        Ok(())
    }

    // A byte that ends what is no literal.
    fn read_broken(&mut self, byte: u8) -> Result<(), NoMemory>
        ensures { OnOk result (self.new ≡ broken_behind self.old byte) }
    {
        if self.literal.some && is_in_word(byte) {
            self.release()?;
            self.stand = Stand::Word;
            self.word.push(b'0')?;
            self.hold(byte)
        } else {
            self.end_at(byte)
        }
    }

    // A byte of an argument.
    fn read_argument(&mut self, byte: u8) -> Result<(), NoMemory>
        ensures { OnOk result (self.new ≡ argument_behind self.old byte) }
    {
        if is_blank(byte) {
            return self.hold(byte);
        }
        let literal = literal_behind(self.literal, byte);
        match literal.stage {
            Stage::Done => self.end_call(literal, byte),
            Stage::Bad => self.read_broken(byte),
            Stage::Start | Stage::Whole | Stage::Part | Stage::Closed => {
                self.literal = literal;
                self.hold(byte)
            }
        }
    }

    // One more byte.
    fn read(&mut self, byte: u8) -> Result<(), NoMemory>
        ensures { OnOk result (self.new ≡ read_behind self.old.stand self.old byte) }
    {
        match self.stand {
            Stand::Outside => self.read_outside(byte),
            Stand::Word => self.read_word(byte),
            Stand::Quoted => self.read_quoted(byte),
            Stand::Argument => self.read_argument(byte),
        }
    }

    // What is held back at the end is written.
    fn end(&mut self) -> Result<(), NoMemory>
        ensures { OnOk result (self.new.out ≡ all_out self.old) }
    {
        self.out.extend_from_slice(&self.held)?;
        Ok(())
    }
}

// An expression with each call of a function by a literal as its value.
#[tactic(auto, unfolding(crate::specs::Calls::pass))]
fn pass(alloc: Global, bytes: &[u8]) -> Result<Vec<u8>, NoMemory>
    ensures { IfOk result (λ written. written.items ≡ pass bytes.now) }
{
    let mut reader = Reader::new(alloc);
    for byte in bytes {
        reader.read(*byte)?;
    }
    reader.end()?;
    Ok(reader.out)
}

// The same again.
fn two_passes(alloc: Global, bytes: &[u8]) -> Result<Vec<u8>, NoMemory>
    ensures { IfOk result (λ written. written.items ≡ two_passes bytes.now) }
{
    let first = pass(alloc, bytes)?;
    pass(alloc, &first)
}

// Four times.
fn four_passes(alloc: Global, bytes: &[u8]) -> Result<Vec<u8>, NoMemory>
    ensures { IfOk result (λ written. written.items ≡ four_passes bytes.now) }
{
    let first = two_passes(alloc, bytes)?;
    two_passes(alloc, &first)
}

/// Eight times.
pub(crate) fn eight_passes(alloc: Global, bytes: &[u8]) -> Result<Vec<u8>, NoMemory>
    ensures { IfOk result (λ written. written.items ≡ eight_passes bytes.now) }
{
    let first = four_passes(alloc, bytes)?;
    four_passes(alloc, &first)
}
