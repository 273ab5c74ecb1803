//! A message that is sent, as JSON: its tokens, one after the other.

ghost use Rattle.std.specs.Prelude.{IfOk};

use json::Writer;
use std::alloc::Global;
use std::marker::Model;
use vcm_num::NoMemory;

/// A message, begun and not yet ended. Contracts see it as its tokens. Members and items are to be ended by the caller.
///
/// Where a call fails, some first ones of its tokens may have been written: the message is then of no use.
#[derive(Drop)]
pub struct Message {
    alloc: Global,
    out: Writer,
}

impl Model for Message {
    ghost use Rattle.std.specs.Prelude.{◌≡◌, List, []};
    ghost use Rattle.json.specs.Token.{Token, tokens_code};

    ghost Value = { List Token };

    ghost coded = { tokens_code };

    ghost view = { λ m. m.out.tokens };

    ghost invariant = { λ m. m.out.before ≡ [] };
}

impl Message {
    ghost use Rattle.std.specs.Prelude.{◌≡◌, ◌∷◌, [], IfOk, decimal};
    ghost use Rattle.std.specs.Str.{IsUtf8};
    ghost use Rattle.std.specs.Str.Lossy.{utf8_lossy};
    ghost use Rattle.json.specs.Token.{begin_object, end_object, begin_array, end_array, key, string, number, boolean, null};
    ghost use Rattle.json.specs.Lex.{tokens};
    ghost use Rattle.json.specs.Print.{print};
    ghost use Rattle.vcm_wire.specs.Messages.{front, Adds};

    /// A message of a kind, with its number.
    ///
    /// Errors: a growth of memory was refused.
    pub fn begin(alloc: Global, seq: u64, kind: &str) -> Result<Message, NoMemory>
        ensures { IfOk result (λ m. m ≡ front seq kind.now) }
    {
        let mut message = Message {
            alloc,
            out: Writer::new(Vec::new(alloc)),
        };
        message.out.begin_object()?;
        message.number("seq", seq)?;
        message.text("type", kind)?;
        Ok(message)
    }

    /// A member that is a text.
    ///
    /// Errors: a growth of memory was refused.
    pub fn text(&mut self, name: &str, text: &str) -> Result<(), NoMemory>
        ensures { Adds self.old self.new (key name.now ∷ string text.now ∷ []) result }
    {
        self.out.key(name)?;
        self.out.string(text)?;
        Ok(())
    }

    /// A member that is a text of these bytes. Where they are no UTF-8, U+FFFD stands.
    ///
    /// Errors: a growth of memory was refused.
    pub fn bytes(&mut self, name: &str, bytes: &[u8]) -> Result<(), NoMemory>
        ensures { Adds self.old self.new (key name.now ∷ string (utf8_lossy bytes.now) ∷ []) result }
    {
        let text = String::from_utf8_lossy(self.alloc, bytes)?;
        self.text(name, &text)
    }

    /// A member that is a number.
    ///
    /// Errors: a growth of memory was refused.
    pub fn number(&mut self, name: &str, value: u64) -> Result<(), NoMemory>
        ensures { Adds self.old self.new (key name.now ∷ number (decimal value) ∷ []) result }
    {
        self.out.key(name)?;
        self.out.u64(value)?;
        Ok(())
    }

    /// A member that is true or false.
    ///
    /// Errors: a growth of memory was refused.
    pub fn flag(&mut self, name: &str, is: bool) -> Result<(), NoMemory>
        ensures { Adds self.old self.new (key name.now ∷ boolean is ∷ []) result }
    {
        self.out.key(name)?;
        self.out.boolean(is)?;
        Ok(())
    }

    /// A member that is null.
    ///
    /// Errors: a growth of memory was refused.
    pub fn null(&mut self, name: &str) -> Result<(), NoMemory>
        ensures { Adds self.old self.new (key name.now ∷ null ∷ []) result }
    {
        self.out.key(name)?;
        self.out.null()?;
        Ok(())
    }

    /// The front of a member that has members. `end` ends it.
    ///
    /// Errors: a growth of memory was refused.
    pub fn begin_member(&mut self, name: &str) -> Result<(), NoMemory>
        ensures { Adds self.old self.new (key name.now ∷ begin_object ∷ []) result }
    {
        self.out.key(name)?;
        self.out.begin_object()?;
        Ok(())
    }

    /// The front of a member that is a list. `end_list` ends it.
    ///
    /// Errors: a growth of memory was refused.
    pub fn begin_list(&mut self, name: &str) -> Result<(), NoMemory>
        ensures { Adds self.old self.new (key name.now ∷ begin_array ∷ []) result }
    {
        self.out.key(name)?;
        self.out.begin_array()?;
        Ok(())
    }

    /// The front of an item of a list that has members. `end` ends it.
    ///
    /// Errors: a growth of memory was refused.
    pub fn begin_item(&mut self) -> Result<(), NoMemory>
        ensures { Adds self.old self.new (begin_object ∷ []) result }
    {
        self.out.begin_object()?;
        Ok(())
    }

    /// The end of what has members.
    ///
    /// Errors: a growth of memory was refused.
    pub fn end(&mut self) -> Result<(), NoMemory>
        ensures { Adds self.old self.new (end_object ∷ []) result }
    {
        self.out.end_object()?;
        Ok(())
    }

    /// The end of a list.
    ///
    /// Errors: a growth of memory was refused.
    pub fn end_list(&mut self) -> Result<(), NoMemory>
        ensures { Adds self.old self.new (end_array ∷ []) result }
    {
        self.out.end_array()?;
        Ok(())
    }

    /// An item of a list that is a text.
    ///
    /// Errors: a growth of memory was refused.
    pub fn word(&mut self, text: &str) -> Result<(), NoMemory>
        ensures { Adds self.old self.new (string text.now ∷ []) result }
    {
        self.out.string(text)?;
        Ok(())
    }

    /// The bytes of the message.
    pub fn into_bytes(self) -> Vec<u8>
        ensures bytes { result.items ≡ print self }
        ensures read_back { tokens result.items ≡ self }
        ensures utf8 { IsUtf8 result.items }
    {
        self.out.into_inner()
    }
}
