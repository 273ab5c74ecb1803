//! Messages that are told as they stand, and the fronts of the others.

ghost use Rattle.std.specs.Prelude.{◌≡◌, false, IfOk};
ghost use Rattle.json.specs.Token.{Token};
ghost use Rattle.json.specs.Print.{print};
ghost use Rattle.vcm_dap.specs.Talking.{answer_front, done_front, event_front, output_front, with_error, ended, with_capabilities, with_thread};

use std::alloc::Global;
use vcm_num::NoMemory;
use vcm_wire::Message;

// The front of an answer.
fn answer_front(
    alloc: Global,
    seq: u64,
    request: u64,
    is_done: bool,
    command: &str,
) -> Result<Message, NoMemory>
    ensures { IfOk result (λ m. m ≡ answer_front seq request is_done command.now) }
{
    let mut message = Message::begin(alloc, seq, "response")?;
    message.number("request_seq", request)?;
    message.flag("success", is_done)?;
    message.text("command", command)?;
    Ok(message)
}

/// The front of an answer that it is done, with its body begun.
pub(crate) fn done_front(
    alloc: Global,
    seq: u64,
    request: u64,
    command: &str,
) -> Result<Message, NoMemory>
    ensures { IfOk result (λ m. m ≡ done_front seq request command.now) }
{
    let mut message = answer_front(alloc, seq, request, true, command)?;
    message.begin_member("body")?;
    Ok(message)
}

/// The front of an event, with its body begun.
pub(crate) fn event_front(alloc: Global, seq: u64, name: &str) -> Result<Message, NoMemory>
    ensures { IfOk result (λ m. m ≡ event_front seq name.now) }
{
    let mut message = Message::begin(alloc, seq, "event")?;
    message.text("event", name)?;
    message.begin_member("body")?;
    Ok(message)
}

/// The event that tells a text, with its body begun.
pub(crate) fn output_front(
    alloc: Global,
    seq: u64,
    category: &str,
    text: &[u8],
) -> Result<Message, NoMemory>
    ensures { IfOk result (λ m. m ≡ output_front seq category.now text.now) }
{
    let mut message = event_front(alloc, seq, "output")?;
    message.text("category", category)?;
    message.bytes("output", text)?;
    Ok(message)
}

// Puts why a request is refused, up to the end of the error.
fn put_error(message: &mut Message, why: &str) -> Result<(), NoMemory>
    ensures { IfOk result (λ u. message.new ≡ with_error message.old why.now) }
{
    message.text("message", why)?;
    message.begin_member("body")?;
    message.begin_member("error")?;
    message.number("id", 1)?;
    message.text("format", why)?;
    message.end()
}

/// The answer that refuses a request, with its body begun.
pub(crate) fn refusal(
    alloc: Global,
    seq: u64,
    request: u64,
    command: &str,
    why: &str,
) -> Result<Message, NoMemory>
    ensures { IfOk result (λ m. m ≡ with_error (answer_front seq request false command.now) why.now) }
{
    let mut message = answer_front(alloc, seq, request, false, command)?;
    put_error(&mut message, why)?;
    Ok(message)
}

/// Puts what the adapter can do.
pub(crate) fn put_capabilities(message: &mut Message) -> Result<(), NoMemory>
    ensures { IfOk result (λ u. message.new ≡ with_capabilities message.old) }
{
    message.flag("supportsConfigurationDoneRequest", true)?;
    message.flag("supportsEvaluateForHovers", true)?;
    message.flag("supportsStepBack", true)?;
    message.flag("supportsExceptionInfoRequest", true)?;
    message.flag("supportsDataBreakpoints", true)
}

/// Puts the one thread.
pub(crate) fn put_thread(message: &mut Message) -> Result<(), NoMemory>
    ensures { IfOk result (λ u. message.new ≡ with_thread message.old) }
{
    message.begin_list("threads")?;
    message.begin_item()?;
    message.number("id", 1)?;
    message.text("name", "probe")?;
    message.end()?;
    message.end_list()
}

/// The bytes of a message whose body and which itself end.
pub(crate) fn ended_bytes(message: Message) -> Result<Vec<u8>, NoMemory>
    ensures { IfOk result (λ v. v.items ≡ print (ended message)) }
{
    let mut message = message;
    message.end()?;
    message.end()?;
    Ok(message.into_bytes())
}
