//! Sessions of the debugger on programs and images.

ghost use Rattle.std.specs.Prelude.{◌≡◌, ℕ, List, option_map, IfOk, IfErr, IfSome};
ghost use Rattle.vcm_job.specs.Given.{IsGiven};
ghost use Rattle.vcm_job.specs.Reading.{ReadsLittle};
ghost use Rattle.vcm_job.specs.Unread.{AnswersUnread};
ghost use Rattle.vcm_job.specs.Debugged.{IsSession, IsServedOn, IsDebugged, IsInputFault, IsNotDebugged};
ghost use Rattle.vcm_job.specs.inner.Sessions.{IsNoSession, IsNotServed, built_fault};

use crate::fault::{DebugFault, SessionFault, session_fault};
use crate::given::{Given, given_of};
use crate::reading::read_all;
use std::alloc::Global;
use std::io::{Read, Write};
use vcm_debug::{Session, serve};
use vcm_loader::{Loaded, load};
use vcm_motion::{AnyPart, Part};
use vcm_part::PartData;
use vcm_program::Noticed;

// Serves a session on what was loaded.
fn serve_loaded<'a, P: Part, R: Read, W: Write>(
    alloc: Global,
    loaded: &'a Loaded<'a>,
    part: &'a P,
    commands: &mut R,
    writer: &mut W,
) -> Result<(), DebugFault>
    ensures done { IfOk result (λ v. IfSome (R.remaining commands.old) (λ lines. IsSession (P.part part.now) loaded.now lines (R.remaining commands.new) (W.contents writer.old) (W.contents writer.new) (Ok v))) }
    ensures fault { IfErr result (λ f. IsNoSession (P.part part.now) loaded.now (R.remaining commands.old) (R.remaining commands.new) f (W.contents writer.old) (W.contents writer.new)) }
{
    let mut session = match Session::new(alloc, loaded, part) {
        Ok(session) => session,
        Err(_) => return Err(DebugFault::NoMemory),
    };
    let served = serve(alloc, &mut session, commands, writer);
    // Let go before the answer is looked at, once for all ways out.
    drop(session);
    match served {
        Ok(()) => Ok(()),
        Err(fault) => Err(DebugFault::Refused(SessionFault::Serve(fault))),
    }
}

// Serves a session on what was loaded, beside the workpiece of a part file.
fn serve_beside<R: Read, W: Write>(
    alloc: Global,
    loaded: &Loaded<'_>,
    part: &PartData,
    commands: &mut R,
    writer: &mut W,
) -> Result<(), DebugFault>
    ensures done { IfOk result (λ v. IfSome (R.remaining commands.old) (λ lines. IsSession part.now loaded.now lines (R.remaining commands.new) (W.contents writer.old) (W.contents writer.new) (Ok v))) }
    ensures fault { IfErr result (λ f. IsNoSession part.now loaded.now (R.remaining commands.old) (R.remaining commands.new) f (W.contents writer.old) (W.contents writer.new)) }
{
    let Ok(workpiece) = AnyPart::of(alloc, part) else {
        return Err(DebugFault::NoMemory);
    };
    serve_loaded(alloc, loaded, &workpiece, commands, writer)
}

// Serves a session on an image.
fn serve_image<R: Read, W: Write>(
    alloc: Global,
    part: &PartData,
    image: &[u8],
    commands: &mut R,
    writer: &mut W,
) -> Result<(), DebugFault>
    ensures done { IfOk result (λ v. IfSome (R.remaining commands.old) (λ lines. IsServedOn part.now image.now lines (R.remaining commands.new) (W.contents writer.old) (W.contents writer.new) (Ok v))) }
    ensures fault { IfErr result (λ f. IsNotServed part.now image.now (R.remaining commands.old) (R.remaining commands.new) f (W.contents writer.old) (W.contents writer.new)) }
{
    match load(alloc, image) {
        Ok(loaded) => serve_beside(alloc, &loaded, part, commands, writer),
        Err(fault) => Err(DebugFault::Refused(SessionFault::Image(fault))),
    }
}

// Why a session on an image that was built came to no end: such an image is refused for want of memory alone.
fn built_fault(fault: DebugFault) -> DebugFault
    ensures { result ≡ built_fault fault }
{
    match fault {
        DebugFault::Refused(SessionFault::Serve(fault)) => DebugFault::Refused(SessionFault::Serve(
            fault,
        )),
        _ => DebugFault::NoMemory,
    }
}

// Serves a session on what was read.
fn serve_given<R: Read, W: Write>(
    alloc: Global,
    part: &PartData,
    given: Given,
    commands: &mut R,
    writer: &mut W,
) -> Result<Vec<Noticed>, DebugFault>
    ensures done { (input : List ℕ) → IsGiven input given.image.items (option_map (λ t. t.items) given.text) given.notices.items
        → IfOk result (λ v. IfSome (R.remaining commands.old) (λ lines. IsDebugged part.now input lines (R.remaining commands.new) v.items (W.contents writer.old) (W.contents writer.new))) }
    ensures fault { (input : List ℕ) → IsGiven input given.image.items (option_map (λ t. t.items) given.text) given.notices.items
        → IfErr result (λ f. IsInputFault part.now input (R.remaining commands.old) (R.remaining commands.new) f (W.contents writer.old) (W.contents writer.new)) }
{
    let Given {
        image,
        text,
        notices,
    } = given;
    match serve_image(alloc, part, &image, commands, writer) {
        Ok(()) => Ok(notices),
        Err(fault) => if text.is_some() {
            Err(built_fault(fault))
        } else {
            Err(fault)
        },
    }
}

// Serves a session on an input.
fn serve_input<R: Read, W: Write>(
    alloc: Global,
    part: &PartData,
    input: Vec<u8>,
    commands: &mut R,
    writer: &mut W,
) -> Result<Vec<Noticed>, DebugFault>
    ensures done { IfOk result (λ v. IfSome (R.remaining commands.old) (λ lines. IsDebugged part.now input.items lines (R.remaining commands.new) v.items (W.contents writer.old) (W.contents writer.new))) }
    ensures fault { IfErr result (λ f. IsInputFault part.now input.items (R.remaining commands.old) (R.remaining commands.new) f (W.contents writer.old) (W.contents writer.new)) }
{
    match given_of(alloc, input) {
        Ok(given) => serve_given(alloc, part, given, commands, writer),
        Err(fault) => Err(session_fault(fault)),
    }
}

/// Reads an input whole, opens a session of the debugger on it beside a workpiece, and answers the lines of commands up to `quit` or their end. An
/// input whose first four bytes are `VCMI` is an image, any other the text of a program. Nothing is written where the input is refused. It answers
/// the lines of the program that have no effect.
///
/// Errors: see `DebugFault`. After a failed write the writer has taken a front of the replies.
pub fn debug<I: Read, R: Read, W: Write>(
    alloc: Global,
    part: &PartData,
    reader: &mut I,
    commands: &mut R,
    writer: &mut W,
) -> Result<Vec<Noticed>, DebugFault>
    ensures done { IfOk result (λ v. IfSome (I.remaining reader.old) (λ input. IfSome (R.remaining commands.old) (λ lines. IsDebugged part.now input lines (R.remaining commands.new) v.items (W.contents writer.old) (W.contents writer.new)))) }
    ensures fault { IfErr result (λ f. IsNotDebugged part.now (I.remaining reader.old) (I.remaining reader.new) (R.remaining commands.old) (R.remaining commands.new) f (W.contents writer.old) (W.contents writer.new)) }
    ensures long { AnswersUnread (I.remaining reader.old) result }
    ensures little { ReadsLittle (I.remaining reader.old) (I.remaining reader.new) }
{
    let input = read_all(alloc, reader)?;
    serve_input(alloc, part, input, commands, writer)
}
