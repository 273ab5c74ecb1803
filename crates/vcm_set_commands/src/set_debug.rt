//! The debugger with several probes on the standard devices.

use vcm_devices::{fails, output, written};
use vcm_job::SessionFault;
use vcm_messages::{Message, Told};
use vcm_set_views::{Fitted, SetServeFault, debug_set};

/// What is told where a producer's text is to be debugged with probes.
pub(crate) const NO_WHOLE: Message<'static> = Message::Option {
    words: "debug takes --whole or --probe, and not both",
};

// How the fault of a session is told.
fn message_of_session(fault: SetServeFault) -> Message<'static> {
    match fault {
        SetServeFault::NoMemory => Message::NoMemory,
        SetServeFault::Serve(fault) => SessionFault::Serve(fault).told(),
    }
}

// Answers the commands of standard input; each reply is handed on at once.
fn serve_commands<R: Input + Print + AllocGlobal>(
    rt: &R,
    fitted: &Fitted<'_>,
) -> Result<(), Message<'static>> {
    let mut out = output(rt)?;
    let done = debug_set(rt.alloc(), fitted, &mut rt.reader(), &mut out);
    written(&mut out, done.map_err(message_of_session))
}

/// Answers the commands of standard input on a code that was fitted out with several probes, and gives the exit status. Where that fails it is told why, and the exit
/// status is given as a fault.
pub(crate) fn debug_fitted<R: Input + Print + Eprint + AllocGlobal>(
    rt: &R,
    fitted: &Fitted<'_>,
) -> Result<u8, u8> {
    match serve_commands(rt, fitted) {
        Ok(()) => Ok(0),
        Err(message) => Err(fails(rt, message)),
    }
}
