//! Sessions of the debugger.

ghost use Rattle.std.specs.Prelude.{◌<◌, ◌^◌, IfOk, IfErr, IfSome};
ghost use Rattle.vcm_debug.specs.Serving.{Served};
ghost use Rattle.vcm_job.specs.Reading.{ReadsLittle};
ghost use Rattle.vcm_job.specs.Unread.{AnswersUnread};
ghost use Rattle.vcm_job.specs.Debugged.{IsDebugged, IsNotDebugged};

use std::alloc::Global;
use std::io::{Read, Write};
use vcm_console::ServeFault;
use vcm_debug::{Session, serve};
use vcm_job::{DebugFault, debug};
use vcm_motion::Part;
use vcm_part::PartData;
use vcm_program::Noticed;

/// The replies to lines; which of them tell of want of memory hangs on memory.
pub fn called_serve<P: Part, R: Read, W: Write>(
    alloc: Global,
    session: &mut Session<'_, P>,
    reader: &mut R,
    writer: &mut W,
) -> Result<(), ServeFault>
    requires { session.old.count < 2 ^ 63 }
    ensures { IfSome (R.remaining reader.old)
        (λ input. Served 10000 1048576 session.old input (R.remaining reader.new) (W.contents writer.old) (W.contents writer.new) result session.new) }
{
    serve(alloc, session, reader, writer)
}

/// The same from an input on.
pub fn called_debug<I: Read, R: Read, W: Write>(
    alloc: Global,
    part: &PartData,
    reader: &mut I,
    commands: &mut R,
    writer: &mut W,
) -> Result<Vec<Noticed>, DebugFault>
    ensures done { IfOk result (λ v. IfSome (I.remaining reader.old) (λ input. IfSome (R.remaining commands.old) (λ lines. IsDebugged part.now input lines (R.remaining commands.new) v.items (W.contents writer.old) (W.contents writer.new)))) }
    ensures fault { IfErr result (λ f. IsNotDebugged part.now (I.remaining reader.old) (I.remaining reader.new) (R.remaining commands.old) (R.remaining commands.new) f (W.contents writer.old) (W.contents writer.new)) }
    ensures long { AnswersUnread (I.remaining reader.old) result }
    ensures little { ReadsLittle (I.remaining reader.old) (I.remaining reader.new) }
{
    debug(alloc, part, reader, commands, writer)
}
