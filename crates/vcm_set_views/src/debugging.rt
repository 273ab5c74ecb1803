//! Sessions of the debugger on a run with several probes.

ghost use Rattle.std.specs.Prelude.{◌≡◌, map, IfOk, IfErr, IfSome};
ghost use Rattle.vcm_turning.specs.Choosing.{tipped};
ghost use Rattle.vcm_set_views.specs.Debugged.{IsSession, IsNoSession};

use crate::fitted::Fitted;
use std::alloc::Global;
use std::io::{Read, Write};
use vcm_console::ServeFault;
use vcm_motion::{AnyPart, Part};
use vcm_set_clearance::in_strips;
use vcm_set_debug::{SetSession, serve_set};

/// Why a session came to no end.
#[derive(Clone, Copy)]
pub enum SetServeFault {
    /// Memory was refused before the first line.
    NoMemory,
    /// It served lines, and then ended so.
    Serve(ServeFault),
}

// Serves a session beside these workpieces, of which each may have its blocks in strips.
fn serve_beside<P: Part, R: Read, W: Write>(
    alloc: Global,
    fitted: &Fitted<'_>,
    own: &P,
    parts: &[P],
    commands: &mut R,
    writer: &mut W,
) -> Result<(), SetServeFault>
    requires tie { P.part own.now ≡ fitted.now.part }
    requires ties { map P.part parts.now ≡ map (λ p. tipped fitted.now.part p.tip) fitted.now.probes }
    ensures done { IfOk result (λ v. IfSome (R.remaining commands.old) (λ lines. IsSession fitted.now lines (R.remaining commands.new) (W.contents writer.old) (W.contents writer.new) (Ok v))) }
    ensures fault { IfErr result (λ f. IsNoSession fitted.now (R.remaining commands.old) (R.remaining commands.new) f (W.contents writer.old) (W.contents writer.new)) }
{
    let Fitted {
        loaded,
        set,
        part,
        variable,
        ..
    } = *fitted;
    let each = fitted.each.as_slice();
    let mut session = match SetSession::new(alloc, loaded, set, own, part, parts, each, variable) {
        Ok(session) => session,
        Err(_) => return Err(SetServeFault::NoMemory),
    };
    let served = serve_set(alloc, &mut session, commands, writer);
    // Let go before the answer is looked at, once for all ways out.
    drop(session);
    match served {
        Ok(()) => Ok(()),
        Err(fault) => Err(SetServeFault::Serve(fault)),
    }
}

/// Opens a session of the debugger on a code with several probes, and answers the lines of commands up to `quit` or their end.
///
/// Errors: see `SetServeFault`. After a failed write the writer has taken a front of the replies.
pub fn debug_set<R: Read, W: Write>(
    alloc: Global,
    fitted: &Fitted<'_>,
    commands: &mut R,
    writer: &mut W,
) -> Result<(), SetServeFault>
    ensures done { IfOk result (λ v. IfSome (R.remaining commands.old) (λ lines. IsSession fitted.now lines (R.remaining commands.new) (W.contents writer.old) (W.contents writer.new) (Ok v))) }
    ensures fault { IfErr result (λ f. IsNoSession fitted.now (R.remaining commands.old) (R.remaining commands.new) f (W.contents writer.old) (W.contents writer.new)) }
{
    let Ok(parts) = in_strips(alloc, &fitted.each) else {
        return Err(SetServeFault::NoMemory);
    };
    let Ok(own) = AnyPart::of(alloc, fitted.part) else {
        return Err(SetServeFault::NoMemory);
    };
    serve_beside(alloc, fitted, &own, &parts, commands, writer)
}
