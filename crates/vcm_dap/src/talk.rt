//! What the adapter says: answers, refusals and events.

ghost use Rattle.std.specs.Prelude.{◌≡◌};
ghost use Rattle.json.specs.Value.{value_view};
ghost use Rattle.vcm_dap.specs.Talking.{counts_from_0, has_paths};

use crate::fault::DapFault;
use crate::fronts::{
    done_front, ended_bytes, event_front, output_front, put_capabilities, put_thread, refusal,
};
use json::Value;
use std::alloc::Global;
use std::io::Write;
use std::marker::Model;
use vcm_num::NoMemory;
use vcm_wire::{Message, Request, write_frame};

/// The adapter's side of the talk: where it is written, how many messages there were, and how lines are counted. Contracts see it as a `Talking`.
#[derive(Drop)]
pub struct Talk<W: Write> {
    alloc: Global,
    out: W,
    seq: u64,
    is_from_0: bool,
}

impl<W: Write> Model for Talk<W> {
    ghost use Rattle.vcm_dap.specs.Talking.{Talking};

    ghost Value = { Talking };

    ghost view = { λ t. record { seq = t.seq; is_from_0 = t.is_from_0; written = W.contents t.out } };
}

impl<W: Write> Talk<W> {
    ghost use Rattle.std.specs.Prelude.{◌≡◌, ◌++◌, List, false, IfOk, IfErr};
    ghost use Rattle.json.specs.Token.{Token};
    ghost use Rattle.json.specs.Value.{value_view};
    ghost use Rattle.vcm_dap.specs.Asked.{line_in};
    ghost use Rattle.vcm_dap.specs.Talking.{next_seq, counted, counts_from_0, has_paths, answer_front, with_error, done_front, event_front, output_front, ended, done, refusal, with_capabilities, initialized, with_thread, threads, all_continue, IsWritten, Told};
    ghost use Rattle.vcm_dap.specs.Telling.{SaysSome};

    /// A talk that begins, with lines and columns from 1 on.
    pub fn new(alloc: Global, out: W) -> Talk<W>
        ensures { result ≡ record { seq = 0; is_from_0 = false; written = W.contents out } }
    {
        Talk {
            alloc,
            out,
            seq: 0,
            is_from_0: false,
        }
    }

    /// What memory is taken of.
    pub fn alloc(&self) -> Global {
        self.alloc
    }

    /// A line as the client counts it.
    pub(crate) fn line_out(&self, line: u32) -> u64 {
        if self.is_from_0 {
            u64::from(line).saturating_sub(1)
        } else {
            u64::from(line)
        }
    }

    /// The line that the client means.
    pub(crate) fn line_in(&self, line: u64) -> u64
        ensures { result ≡ line_in self.now.is_from_0 line }
    {
        if self.is_from_0 {
            line.saturating_add(1)
        } else {
            line
        }
    }

    /// The first column as the client counts it.
    pub(crate) fn column(&self) -> u64 {
        if self.is_from_0 { 0 } else { 1 }
    }

    // The number of the next message.
    fn next_seq(&self) -> u64
        ensures { result ≡ next_seq self.now.seq }
    {
        self.seq.saturating_add(1)
    }

    // Counts a message more.
    fn count_up(&mut self)
        ensures { self.new ≡ counted self.old }
    {
        self.seq = self.seq.saturating_add(1);
    }

    /// An answer with the next number, with its body begun.
    pub(crate) fn answer(&self, request: &Request<'_, '_>) -> Result<Message, NoMemory>
        ensures { IfOk result (λ m. m ≡ done_front (next_seq self.now.seq) request.now.seq request.now.command.now) }
    {
        done_front(self.alloc, self.next_seq(), request.seq, request.command)
    }

    /// An event with the next number, with its body begun.
    pub(crate) fn event(&self, name: &str) -> Result<Message, NoMemory>
        ensures { IfOk result (λ m. m ≡ event_front (next_seq self.now.seq) name.now) }
    {
        event_front(self.alloc, self.next_seq(), name)
    }

    /// An event with the next number that tells a text, with its body begun.
    pub(crate) fn output(&self, category: &str, text: &[u8]) -> Result<Message, NoMemory>
        ensures { IfOk result (λ m. m ≡ output_front (next_seq self.now.seq) category.now text.now) }
    {
        output_front(self.alloc, self.next_seq(), category, text)
    }

    // The answer with the next number that refuses a request, with its body begun.
    fn refusal(&self, request: &Request<'_, '_>, why: &str) -> Result<Message, NoMemory>
        ensures { IfOk result (λ m. m ≡ with_error (answer_front (next_seq self.now.seq) request.now.seq false request.now.command.now) why.now) }
    {
        refusal(
            self.alloc,
            self.next_seq(),
            request.seq,
            request.command,
            why,
        )
    }

    // Writes a message, and hands it on.
    fn write(&mut self, bytes: &[u8]) -> Result<(), DapFault>
        ensures { IsWritten self.old self.new bytes.now result }
    {
        match write_frame(&mut self.out, bytes) {
            Ok(()) => Ok(()),
            Err(_) => Err(DapFault::Write),
        }
    }

    /// Passes over the number of a message that couldn't be made.
    pub(crate) fn pass_over(&mut self) -> Result<(), DapFault>
        ensures told { (ts : List Token) → Told self.old self.new ts result }
        ensures says { IfOk result (λ u. SaysSome self.old self.new) }
    {
        self.count_up();
        Err(DapFault::NoMemory)
    }

    // Hands on a message whose bytes were made.
    fn hand_on(&mut self, bytes: &[u8]) -> Result<(), DapFault>
        ensures { IsWritten (counted self.old) self.new bytes.now result }
    {
        self.count_up();
        self.write(bytes)
    }

    /// Ends the body and the message, and hands it on.
    pub(crate) fn send(&mut self, message: Message) -> Result<(), DapFault>
        ensures told { Told self.old self.new (ended message) result }
        ensures says { IfOk result (λ u. SaysSome self.old self.new) }
    {
        match ended_bytes(message) {
            Ok(bytes) => self.hand_on(&bytes),
            Err(_) => self.pass_over(),
        }
    }

    /// The same of a message that was made, or couldn't be.
    pub(crate) fn send_made(&mut self, made: Result<Message, NoMemory>) -> Result<(), DapFault>
        ensures told { IfOk made (λ m. Told self.old self.new (ended m) result) }
        ensures untold { IfErr made (λ e. (ts : List Token) → Told self.old self.new ts result) }
    {
        match made {
            Ok(message) => self.send(message),
            Err(_) => self.pass_over(),
        }
    }

    /// The same, if all was put into the message.
    pub(crate) fn send_put(
        &mut self,
        message: Message,
        put: Result<(), DapFault>,
    ) -> Result<(), DapFault>
        ensures told { IfOk put (λ u. Told self.old self.new (ended message) result) }
        ensures untold { IfErr put (λ e. (ts : List Token) → Told self.old self.new ts result) }
        ensures says { IfOk result (λ u. SaysSome self.old self.new) }
    {
        match put {
            Ok(()) => self.send(message),
            Err(_) => {
                drop(message);
                self.pass_over()
            }
        }
    }

    /// Answers that it is done.
    ///
    /// Errors: see `DapFault`.
    pub fn done(&mut self, request: &Request<'_, '_>) -> Result<(), DapFault>
        ensures told { Told self.old self.new (done (next_seq self.old.seq) request.now.seq request.now.command.now) result }
        ensures says { IfOk result (λ u. SaysSome self.old self.new) }
    {
        let made = self.answer(request);
        self.send_made(made)
    }

    // The answer with the next number that all threads run on, with its body begun.
    fn running(&self, request: &Request<'_, '_>) -> Result<Message, NoMemory>
        ensures { IfOk result (λ m. m ≡ done_front (next_seq self.now.seq) request.now.seq request.now.command.now ++ all_continue) }
    {
        let mut message = self.answer(request)?;
        message.flag("allThreadsContinued", true)?;
        Ok(message)
    }

    /// Answers that it is done, and that all threads run on.
    pub(crate) fn run_on(&mut self, request: &Request<'_, '_>) -> Result<(), DapFault>
        ensures told { Told self.old self.new (ended (done_front (next_seq self.old.seq) request.now.seq request.now.command.now ++ all_continue)) result }
        ensures says { IfOk result (λ u. SaysSome self.old self.new) }
    {
        let made = self.running(request);
        self.send_made(made)
    }

    /// Refuses a request, and says why.
    ///
    /// Errors: see `DapFault`.
    pub fn refuse(&mut self, request: &Request<'_, '_>, why: &str) -> Result<(), DapFault>
        ensures told { Told self.old self.new (refusal (next_seq self.old.seq) request.now.seq request.now.command.now why.now) result }
        ensures says { IfOk result (λ u. SaysSome self.old self.new) }
    {
        let made = self.refusal(request, why);
        self.send_made(made)
    }

    /// Refuses a request that isn't known.
    pub(crate) fn refuse_unknown(&mut self, request: &Request<'_, '_>) -> Result<(), DapFault>
        ensures { IfOk result (λ u. SaysSome self.old self.new) }
    {
        let mut why = String::new(self.alloc);
        why.push_str("vcm doesn't know the request ")?;
        why.push_str(request.command)?;
        self.refuse(request, &why)
    }

    // The answer with the next number that tells what the adapter can do, with its body begun.
    fn able(&self, request: &Request<'_, '_>) -> Result<Message, NoMemory>
        ensures { IfOk result (λ m. m ≡ with_capabilities (done_front (next_seq self.now.seq) request.now.seq request.now.command.now)) }
    {
        let mut message = self.answer(request)?;
        put_capabilities(&mut message)?;
        Ok(message)
    }

    // Tells what the adapter can do, or refuses where the client has no paths.
    fn answer_client(&mut self, request: &Request<'_, '_>, has_paths: bool) -> Result<(), DapFault>
        ensures told { Told self.old self.new (initialized has_paths (next_seq self.old.seq) request.now.seq request.now.command.now) result }
        ensures says { IfOk result (λ u. SaysSome self.old self.new) }
    {
        if !has_paths {
            return self.refuse(request, "vcm takes paths, no URIs");
        }
        let made = self.able(request);
        self.send_made(made)
    }

    // Keeps how the client counts lines.
    fn count_from(&mut self, is_from_0: bool)
        ensures { self.new ≡ record (self.old) { is_from_0 = is_from_0 } }
    {
        self.is_from_0 = is_from_0;
    }

    /// Says what the adapter can do, and keeps how the client counts lines; of paths it takes no URIs. It tells whether that wasn't refused.
    ///
    /// Errors: see `DapFault`.
    pub fn initialize(&mut self, request: &Request<'_, '_>) -> Result<bool, DapFault>
        ensures taken { IfOk result (λ is. is ≡ has_paths (value_view request.now.message.now)) }
        ensures told { Told (record (self.old) { is_from_0 = counts_from_0 (value_view request.now.message.now) }) self.new (initialized (has_paths (value_view request.now.message.now)) (next_seq self.old.seq) request.now.seq request.now.command.now) result }
        ensures says { IfOk result (λ is. SaysSome self.old self.new) }
    {
        self.count_from(counts_from_0(request));
        let has_paths = has_paths(request);
        match self.answer_client(request, has_paths) {
            Ok(()) => Ok(has_paths),
            Err(fault) => Err(fault),
        }
    }

    // The answer with the next number that names the one thread, with its body begun.
    fn threaded(&self, request: &Request<'_, '_>) -> Result<Message, NoMemory>
        ensures { IfOk result (λ m. m ≡ with_thread (done_front (next_seq self.now.seq) request.now.seq request.now.command.now)) }
    {
        let mut message = self.answer(request)?;
        put_thread(&mut message)?;
        Ok(message)
    }

    /// Names the one thread.
    ///
    /// Errors: see `DapFault`.
    pub fn threads(&mut self, request: &Request<'_, '_>) -> Result<(), DapFault>
        ensures told { Told self.old self.new (threads (next_seq self.old.seq) request.now.seq request.now.command.now) result }
        ensures says { IfOk result (λ u. SaysSome self.old self.new) }
    {
        let made = self.threaded(request);
        self.send_made(made)
    }

    /// An event without anything to tell.
    pub(crate) fn tell(&mut self, name: &str) -> Result<(), DapFault>
        ensures told { Told self.old self.new (ended (event_front (next_seq self.old.seq) name.now)) result }
        ensures says { IfOk result (λ u. SaysSome self.old self.new) }
    {
        let made = self.event(name);
        self.send_made(made)
    }

    /// Tells a text.
    pub fn tell_text(&mut self, category: &str, text: &[u8]) -> Result<(), DapFault>
        ensures told { Told self.old self.new (ended (output_front (next_seq self.old.seq) category.now text.now)) result }
        ensures says { IfOk result (λ u. SaysSome self.old self.new) }
    {
        let made = self.output(category, text);
        self.send_made(made)
    }
}

// Whether the client counts lines from 0.
fn counts_from_0(request: &Request<'_, '_>) -> bool
    ensures { result ≡ counts_from_0 (value_view request.now.message.now) }
{
    match request.argument("linesStartAt1").and_then(Value::as_bool) {
        Some(is) => !is,
        None => false,
    }
}

// Whether the client speaks of files by their paths.
fn has_paths(request: &Request<'_, '_>) -> bool
    ensures { result ≡ has_paths (value_view request.now.message.now) }
{
    match request.argument("pathFormat").and_then(Value::as_str) {
        Some(format) => format == "path",
        None => true,
    }
}
